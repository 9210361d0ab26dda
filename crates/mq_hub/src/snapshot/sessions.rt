//! Loading sessions (3.1.2.4).

ghost use Rattle.std.specs.Prelude.{◌≡◌, ◌<◌, [], true};
ghost use Rattle.mq_hub.specs.Prelude.{resumed};

use crate::hub::HubOver;
use mq_snapshot::{SavedSession, SnapshotFault, read_eight, read_session};
use mq_tables::{BoxedSession, BrokerSession};
use mq_topic::FilterStore;
use mq_wire::Text;

impl<S: FilterStore> HubOver<S> {
    // Adds a session whose end has no connection.
    fn add_session(&mut self, name: Text, boxed: BoxedSession) -> Result<(), SnapshotFault>
        requires name { name ≡ boxed.client }
        requires key { boxed.key < self.old.next_key }
        requires capacity { boxed.end.capacity ≡ self.old.config.capacity }
        requires limit { boxed.end.limit ≡ self.old.config.limits }
        requires end { let end = boxed.end.end in end ≡ resumed self.old.config.window true end.book end.received end.last }
        requires output { boxed.end.output ≡ [] }
        requires connections { self.old.connections ≡ [] }
        ensures { self.new ≡ record self.old { sessions = self.new.sessions } }
    {
        if !self.tables.takes_session(boxed.session().key, &name) {
            return Err(SnapshotFault::Malformed);
        }
        self.tables.add_session(name, boxed)?;
        Ok(())
    }

    // Reads a session and adds it. Returns the bytes behind it.
    fn load_session<'a>(&mut self, bytes: &'a [u8]) -> Result<&'a [u8], SnapshotFault>
        requires { self.old.connections ≡ [] }
        ensures { self.new ≡ record self.old { sessions = self.new.sessions } }
    {
        let (saved, rest) = read_session(self.alloc, self.end_config(), bytes)?;
        let SavedSession {
            client,
            key,
            left_at,
            end,
        } = saved;
        if u64::from(key.get()) >= self.next_key {
            return Err(SnapshotFault::Malformed);
        }
        let name = client.clone()?;
        let session = BrokerSession {
            client,
            key,
            end,
            left_at,
        };
        let boxed = BoxedSession::new(self.alloc, session)?;
        self.add_session(name, boxed)?;
        Ok(rest)
    }

    /// Reads the list of sessions (3.1.2.4). Returns the bytes behind it.
    pub(crate) fn load_sessions<'a>(&mut self, bytes: &'a [u8]) -> Result<&'a [u8], SnapshotFault>
        requires { self.old.connections ≡ [] }
        ensures { self.new ≡ record self.old { sessions = self.new.sessions } }
    {
        let (count, behind) = read_eight(bytes)?;
        let mut rest = behind;
        for _ in 0..count {
            rest = self.load_session(rest)?;
        }
        Ok(rest)
    }
}
