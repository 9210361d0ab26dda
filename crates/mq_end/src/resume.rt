//! Ends that continue a stored session (3.1.2.4, 4.1).

ghost use Rattle.std.specs.Prelude.{◌≡◌, ◌↔◌, [], IsTrue};
ghost use Rattle.mq_end.specs.Prelude.{resumed, FitsWithin, NamesAnother};
ghost use Rattle.mq_end.specs.declared.state.State.TheVariants as states;

use crate::endpoint::Endpoint;
use crate::lazy_decoder::LazyDecoder;
use crate::output::Output;
use crate::publish::publish_size;
use crate::state::State;
use mq_decode::Limits;
use mq_flow::Session;
use mq_wire::Text;
use std::alloc::Global;

/// Whether each message that a session holds fits within the limits (2.2.3).
pub(crate) fn fits_within(limits: Limits, session: &Session) -> bool
    ensures { IsTrue result ↔ FitsWithin limits.most session.now }
{
    let most = limits.max_packet() as usize;
    let mut entries = session.sender.entries();
    entries.all(|entry| publish_size(&entry.message) <= most)
}

/// Whether a session was saved for another client than this (3.1.3.1).
pub(crate) fn names_another(client: &Option<Text>, id: &Text) -> bool
    ensures { IsTrue result ↔ NamesAnother client.now id.now }
{
    match client {
        Some(client) => client != id,
        None => false,
    }
}

impl Endpoint {
    /// An end without a connection that continues with a session, its claimed identifiers freed;
    /// `known` is its mark.
    pub(crate) fn with_session(
        alloc: Global,
        limits: Limits,
        window: Option<u16>,
        mut session: Session,
        known: bool,
    ) -> Endpoint
        ensures { result ≡ record {
          end = resumed window known session.sender.book session.receiver session.sender.last;
          capacity = session.sender.capacity;
          limit = limits;
          held = [];
          output = [];
          last_activity = 0;
          room = record { messages = session.sender.room; bytes = 0 };
        } }
    {
        session.sender.free_claims();
        Endpoint {
            alloc,
            session,
            known,
            state: State::Disconnected,
            clean: false,
            keep_alive: 0,
            window,
            limits,
            last_activity: 0,
            decoder: LazyDecoder::new(limits),
            output: Output::new(alloc),
        }
    }

    /// Continues a connection whose CONNECT was accepted with these fields. Nothing is sent.
    pub(crate) fn continue_connection(&mut self, clean: bool, keep_alive: u16, last_activity: u64)
        ensures { self.new ≡ record self.old {
          end = record self.old.end { state = states.Connected; clean = clean; keep_alive = keep_alive };
          last_activity = last_activity;
        } }
    {
        self.state = State::Connected;
        self.clean = clean;
        self.keep_alive = keep_alive;
        self.last_activity = last_activity;
    }
}
