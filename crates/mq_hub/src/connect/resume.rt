//! Accepts a CONNECT for a session that resumes (3.1.4, 3.2).

ghost use Rattle.std.specs.Prelude.{◌≡◌, ◌+◌, ◌≤◌, ◌<◌, ◌==◌, true, false, None, length, IfOk, OnOk, OnErr};
ghost use Rattle.mq_hub.specs.Prelude.{resume_session, terms_of, stage_of, up_on, Refines, IsWillWithin, has_session};

use crate::acts::ActLog;
use crate::hub::HubOver;
use mq_packet::{BoxedConnect, Connect};
use mq_route::{Act, Conn, ConnectionState, ConnectionTerms};
use mq_topic::{ClientKey, FilterStore};
use std::alloc::AllocError;

/// Returns the terms of a CONNECT, which apply as long as its connection is open. They share the
/// bytes of its will.
pub(crate) fn terms_of(connect: &Connect) -> Result<ConnectionTerms, AllocError>
    ensures { IfOk result (λ terms. terms ≡ terms_of connect.now) }
{
    Ok(ConnectionTerms {
        clean_session: connect.clean_session,
        keep_alive: connect.keep_alive,
        will: connect.will.clone()?,
    })
}

impl<S: FilterStore> HubOver<S> {
    /// Accepts a CONNECT for a session that resumes and whose client is not connected (3.1.4, 3.2).
    /// CONNACK and the unacknowledged packets are queued (4.4).
    pub(crate) fn resume_session(
        &mut self,
        conn: Conn,
        key: ClientKey,
        connect: BoxedConnect,
        log: &mut ActLog,
    ) -> Result<(), AllocError>
        requires fresh { stage_of conn self.old.connections ≡ ConnectionState.AwaitingConnect }
        requires stands { has_session key self.old.sessions ≡ true }
        requires away { up_on key self.old.connections ≡ None }
        requires goes_on { connect.clean_session ≡ false }
        requires named { (length connect.client_id == 0) ≡ false }
        requires will { IsWillWithin self.old.config.limits.most connect.will }
        requires room { 0 < log.old.room }
        ensures goes { OnOk result (Refines (resume_session conn connect key) self.old log.old.acts self.new log.new.acts) }
        ensures room { log.old.room ≤ log.new.room + 1 }
        ensures err { OnErr result (self.new ≡ self.old) }
        ensures unsaid { OnErr result (log.new ≡ log.old) }
    {
        let blank = self.blank();
        let terms = terms_of(connect.as_connect())?;
        self.tables.reserve_for_connect()?;
        self.tables
            .resume_session(conn, key, blank, connect, terms, self.clock)?;
        log.push(Act::Up(conn, key, true));
        Ok(())
    }
}
