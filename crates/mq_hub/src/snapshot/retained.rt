//! Loading subscriptions and retained messages (3.3.1.3, 3.8.4).

ghost use Rattle.std.specs.Prelude.{◌≡◌};

use crate::hub::HubOver;
use crate::snapshot::limits::is_within;
use mq_packet::Message;
use mq_snapshot::{SnapshotFault, read_eight, read_message};
use mq_topic::{FilterStore, StoreRow};

impl<S: FilterStore> HubOver<S> {
    // Sets a subscription. Its client must have a session.
    fn load_row(&mut self, row: StoreRow) -> Result<(), SnapshotFault>
        ensures { self.new ≡ record self.old { rows = self.new.rows } }
    {
        let ((key, filter), qos) = row;
        if self.tables.sessions.get(key).is_none() {
            return Err(SnapshotFault::Malformed);
        }
        self.tables.set_row(key, filter, qos)?;
        Ok(())
    }

    /// Sets subscriptions (3.8.4).
    pub(crate) fn load_rows(&mut self, rows: Vec<StoreRow>) -> Result<(), SnapshotFault>
        ensures { self.new ≡ record self.old { rows = self.new.rows } }
    {
        for row in rows {
            self.load_row(row)?;
        }
        Ok(())
    }

    // Retains a message that is within the size limit.
    fn load_message(&mut self, message: Message) -> Result<(), SnapshotFault>
        ensures { self.new ≡ record self.old { retained = self.new.retained } }
    {
        if !is_within(self.config.limits, &message) {
            return Err(SnapshotFault::TooLarge);
        }
        self.tables.retain(message)?;
        Ok(())
    }

    /// Reads the list of retained messages (3.3.1.3). Returns the bytes behind it.
    pub(crate) fn load_messages<'a>(&mut self, bytes: &'a [u8]) -> Result<&'a [u8], SnapshotFault>
        ensures { self.new ≡ record self.old { retained = self.new.retained } }
    {
        let (count, behind) = read_eight(bytes)?;
        let mut rest = behind;
        for _ in 0..count {
            let (message, more) = read_message(self.alloc, rest)?;
            self.load_message(message)?;
            rest = more;
        }
        Ok(rest)
    }
}
