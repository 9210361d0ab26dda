//! Pending events.

ghost use Rattle.std.specs.Prelude.{◌≡◌, ◌↔◌, ◌++◌, [], IsTrue, IfNone, option_to_list, unwrap_or};
ghost use Rattle.mq_embedded.specs.Prelude.{TakesEvent, queued};

use crate::event::{Event, event_of, no_event, write_event};
use crate::fault::CallFault;
use mq_end::{CloseReason, Happening, Progress, SmallList, SmallListIntoIter};

/// The pending events, in order.
#[derive(Drop)]
pub(crate) struct Queue {
    // The first one, if it was moved here.
    first: Option<Happening>,
    rest: Option<SmallListIntoIter<Happening>>,
}

// Takes the next item.
fn next_of(rest: &mut Option<SmallListIntoIter<Happening>>) -> Option<Happening>
    ensures item { unwrap_or rest.old [] ≡ option_to_list result ++ unwrap_or rest.new [] }
    ensures none { IfNone result (unwrap_or rest.new [] ≡ []) }
{
    match rest {
        Some(items) => items.next(),
        None => None,
    }
}

impl Queue {
    /// No events.
    pub(crate) fn new() -> Queue
        ensures { queued result ≡ [] }
    {
        Queue {
            first: None,
            rest: None,
        }
    }

    // These events.
    fn of(events: SmallList<Happening>) -> Queue
        ensures { queued result ≡ events }
    {
        Queue {
            first: None,
            rest: Some(events.into_iter()),
        }
    }

    /// Takes the events of received bytes in place of the earlier ones. Returns the reason if the
    /// end closed.
    pub(crate) fn refill(&mut self, progress: Progress) -> Option<CloseReason>
        ensures events { queued self.new ≡ progress.happenings }
        ensures closed { result ≡ progress.closed }
    {
        let Progress {
            happenings,
            acknowledged,
            closed,
        } = progress;
        drop(acknowledged);
        *self = Queue::of(happenings);
        closed
    }

    // Moves the first event to its place.
    fn fill(&mut self)
        ensures same { queued self.new ≡ queued self.old }
        ensures none { IfNone self.new.first (queued self.new ≡ []) }
    {
        if self.first.is_none() {
            self.first = next_of(&mut self.rest);
        }
    }

    /// Whether there is no event.
    pub(crate) fn is_empty(&mut self) -> bool
        ensures same { queued self.new ≡ queued self.old }
        ensures empty { IsTrue result ↔ (queued self.old ≡ []) }
    {
        self.fill();
        self.first.is_none()
    }

    /// Takes the first event: its bytes go to the front of the buffer. Returns an event of kind 0
    /// if there is none. Errors: `Room`, and the event with its sizes, if the buffer is too small;
    /// then the event stays.
    pub(crate) fn take(&mut self, event: &mut Event, out: &mut [u8]) -> Result<(), CallFault>
        ensures { TakesEvent (queued self.old) (queued self.new) event.new out.old out.new result }
    {
        self.fill();
        match &self.first {
            None => {
                *event = no_event();
                return Ok(());
            }
            Some(happening) => {
                *event = event_of(happening);
                if event.size > out.len() {
                    return Err(CallFault::Room);
                }
                write_event(happening, out);
            }
        }
        self.first = None;
        Ok(())
    }
}
