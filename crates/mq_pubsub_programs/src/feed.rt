//! The source of the messages of `mqtt pub`.

ghost use Rattle.std.specs.Prelude.{◌≡◌, IfOk};
ghost use Rattle.mq_pubsub_programs.specs.Prelude.{EndsSupply, Supplies};

use crate::explain::Grouped;
use crate::known::Known;
use crate::supply::{INPUT, InputLine, InputLines};
use crate::watch::Watch;
use mq_packet::Message;
use mq_pubsub::{Next, RunError, Source};
use mq_topic::{Qos, TopicName};
use std::alloc::Global;
use std::time::{Clock, Instant};

/// The time before progress is shown, in milliseconds.
const BEFORE_PROGRESS: u64 = 1_000;

/// The time between two lines of progress, in milliseconds.
const BETWEEN_PROGRESS: u64 = 200;

/// The payloads of a feed.
#[derive(Drop)]
pub(crate) enum Supply {
    /// A list of payloads.
    Known(Known),
    /// The lines of standard input.
    Lines(InputLines),
}

/// The source of the messages of `mqtt pub`.
#[derive(Drop)]
pub(crate) struct Feed<'a, R> {
    pub(crate) rt: &'a R,
    pub(crate) alloc: Global,
    pub(crate) start: Instant,
    pub(crate) watch: &'a Watch,
    pub(crate) topic: &'a TopicName,
    pub(crate) qos: Qos,
    pub(crate) retain: bool,
    pub(crate) supply: Supply,
    /// The wait before each message but the first, in milliseconds.
    pub(crate) delay: u64,
    /// Progress is shown.
    pub(crate) is_watched: bool,
    /// The number of messages that were taken.
    pub(crate) taken: u64,
    /// The time from which on the next message may be taken.
    pub(crate) due: u64,
    /// The time at which progress was shown last; 0 if it was not.
    pub(crate) shown: u64,
}

impl<R: Clock + Eprint> Feed<'_, R> {
    // The milliseconds since the start.
    fn now(&self) -> u64 {
        match self.start.elapsed(self.rt) {
            Ok(elapsed) => u64::try_from(elapsed.as_millis()).unwrap_or(u64::MAX),
            Err(_) => 0,
        }
    }

    // The number of all messages, if it is known.
    fn total(&self) -> Option<u64> {
        match &self.supply {
            Supply::Known(known) => Some(known.total()),
            Supply::Lines(_) => None,
        }
    }

    // The payload of the next message, if there is one.
    fn payload(&mut self) -> Result<InputLine, RunError>
        ensures supply { IfOk result (Supplies self.old.supply self.new.supply) }
        ensures end { IfOk result (EndsSupply self.new.supply) }
        ensures rest { self.new ≡ record self.old { supply = self.new.supply } }
    {
        match &mut self.supply {
            Supply::Known(known) => Ok(known.next()?),
            Supply::Lines(lines) => lines.next(self.alloc),
        }
    }

    // The remaining time before the next message may be taken.
    fn left(&self) -> u64 {
        if self.delay == 0 || self.taken == 0 {
            return 0;
        }
        self.due.saturating_sub(self.now())
    }

    /// Ends the line of progress.
    pub(crate) fn end_progress(&self) {
        if self.shown > 0 {
            let _ = eprintln!(self.rt; "");
        }
    }
}

impl<R: Clock + Eprint> Source for Feed<'_, R> {
    ghost use Rattle.mq_pubsub_programs.specs.Prelude.{IsUsedUp, coming_of};

    ghost coming = { λ feed. coming_of feed.topic.now feed.qos feed.retain feed.supply };

    ghost ended = { λ feed. IsUsedUp feed.supply };

    fn next(&mut self) -> Result<Next, RunError> {
        let left = self.left();
        if left > 0 && self.total() != Some(self.taken) {
            self.watch.within(left);
            return Ok(Next::Later);
        }
        self.watch.off();
        match self.payload()? {
            InputLine::Line(payload) => {
                self.taken = self.taken.saturating_add(1);
                if self.delay > 0 {
                    self.due = self.now().saturating_add(self.delay);
                }
                Ok(Next::Message(Message {
                    topic: self.topic.clone()?,
                    payload,
                    qos: self.qos,
                    retain: self.retain,
                }))
            }
            InputLine::Later => {
                self.watch.on(INPUT);
                Ok(Next::Later)
            }
            InputLine::End => Ok(Next::End),
        }
    }

    fn report(&mut self, done: u64, taken: u64) {
        if !self.is_watched {
            return;
        }
        let now = self.now();
        if now < BEFORE_PROGRESS || now < self.shown.saturating_add(BETWEEN_PROGRESS) {
            return;
        }
        self.shown = now;
        let rate = Grouped(done.saturating_mul(1_000) / now.max(1));
        let (done, all) = (Grouped(done), Grouped(self.total().unwrap_or(taken)));
        let verb = if self.qos == Qos::Q0 {
            "written"
        } else {
            "acknowledged"
        };
        let _ = eprint!(self.rt; "\r{done} of {all} {verb}, {rate}/s");
    }
}
