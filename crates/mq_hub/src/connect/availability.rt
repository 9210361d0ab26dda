//! Checks a CONNECT against the tables of the broker (3.1.3.1, 3.1.3.4, 3.2.2.3).

ghost use Rattle.std.specs.Prelude.{◌≡◌, IfOk};
ghost use Rattle.mq_hub.specs.Prelude.{key_of, client_of, refusal, IsCounted, IsStatusOf};

use crate::connect::check::{Counts, SessionStatus, client_of, refusal};
use crate::hub::HubOver;
use mq_packet::{Connect, RefusalCode};
use mq_topic::FilterStore;
use mq_wire::Text;
use std::alloc::AllocError;

impl<S: FilterStore> HubOver<S> {
    fn status(&self, client: &Text) -> Option<SessionStatus>
        ensures { IsStatusOf result (key_of client.now self.now.sessions) self.now }
    {
        let key = self.tables.key_of(client)?;
        Some(SessionStatus {
            is_up: self.tables.is_up(key),
            ends: self.tables.ends_with(key),
        })
    }

    fn limit_counts(&self) -> Counts
        ensures { IsCounted result self.now }
    {
        Counts {
            up: self.tables.connections.up_count(),
            sessions: self.tables.sessions.len(),
            next_key: self.next_key,
        }
    }

    /// Returns the client identifier of the session that a CONNECT is for (3.1.3.1).
    pub(crate) fn client_of(&self, connect: &Connect) -> Result<Text, AllocError>
        ensures { IfOk result (λ client. client ≡ client_of connect.now self.now.sessions) }
    {
        client_of(self.alloc, connect, &self.tables.sessions)
    }

    /// Returns the code with which a CONNECT is refused (3.1.3.1, 3.1.3.4, 3.2.2.3), or `None` if
    /// it is accepted. `client` must be the result of `client_of`.
    pub(crate) fn connect_refusal(&self, connect: &Connect, client: &Text) -> Option<RefusalCode>
        requires { client.now ≡ client_of connect.now self.now.sessions }
        ensures { result ≡ refusal connect.now self.now }
    {
        refusal(
            &self.config,
            connect,
            self.status(client),
            self.limit_counts(),
        )
    }
}
