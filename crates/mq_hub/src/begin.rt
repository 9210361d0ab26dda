//! Brokers with which a run may begin.

ghost use Rattle.std.specs.Prelude.{◌≡◌, []};
ghost use Rattle.mq_hub.specs.Prelude.{MayBegin};

use crate::hub::HubOver;
use mq_topic::FilterStore;

impl<S: FilterStore> HubOver<S> {
    /// A run may begin with a broker without connections, as after a restart (3.1.2.4).
    pub fn may_begin(&self)
        requires { self.now.connections ≡ [] }
        ensures { MayBegin self.now }
    {
        let _clock = self.clock;
    }
}
