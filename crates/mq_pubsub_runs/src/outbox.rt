//! The messages that a publisher has taken from its source.

ghost use Rattle.std.specs.Prelude.{◌≡◌, ◌++◌, [], List, None, Some, map, false, true, IfErr, IfOk, OnErr, OnOk, option_to_list};
ghost use Rattle.mq_pubsub_runs.specs.Prelude.{Appends, Publication, Went, Gives, Fills, IsLast, Publishes, Remembers, is_q0, IsConnection};
ghost use Rattle.mq_packet.specs.declared.message.Message.{Message as Taken};

use crate::stop::{Stop, run_error};
use mq_client::{Peer, SessionSaver};
use mq_end::ClientEnd;
use mq_packet::Message;
use mq_pubsub::{Next, RunError, Source};
use mq_stream::{Clock, Stream};
use mq_topic::Qos;

/// The bytes of output from which on no message is added before they are written.
const MOST_OUTPUT: usize = 65_536;

/// The number of messages that are acknowledged or written, of those that were taken.
#[derive(Clone, Copy, Debug, PartialEq, Eq)]
pub struct Tally {
    /// The messages that were acknowledged (QoS 1 and 2) or written (QoS 0).
    pub done: u64,
    /// The messages that were taken from the source, or continued from a session.
    pub taken: u64,
}

/// Why no message is added to the output.
#[derive(Clone, Copy, Debug, PartialEq, Eq)]
pub(crate) enum Filled {
    /// The output is long enough to be written.
    Enough,
    /// The client is not connected, or no packet identifier is free.
    Blocked,
    /// The source has no message now.
    Waits,
    /// The source has no message any more.
    Ended,
}

/// The messages that a publisher has taken from its source.
#[derive(Drop)]
pub(crate) struct Outbox {
    /// The message that is published next.
    pub(crate) next: Option<Message>,
    /// The source has no message any more.
    pub(crate) is_ended: bool,
    /// The messages that were taken from the source, or continued from a session.
    pub(crate) taken: u64,
    /// Those of QoS 1 and 2 that the client accepted, and those of QoS 0 that were written.
    pub(crate) accepted: u64,
    /// Those of QoS 0 in the output.
    pub(crate) unwritten: u64,
    /// Those of QoS 0 that may not have been written before a connection was lost.
    pub(crate) lost: u64,
}

// The number of messages of a client that are not acknowledged.
fn open_messages(client: &ClientEnd) -> u64 {
    match client.session() {
        Some(session) => {
            let sender = &session.sender;
            let free = sender.left().saturating_add(sender.pending().len());
            let open = usize::from(sender.capacity()).saturating_sub(free);
            u64::try_from(open).unwrap_or(u64::MAX)
        }
        None => 0,
    }
}

impl Outbox {
    /// An outbox of a client, whose session may have messages.
    pub(crate) fn new(client: &ClientEnd) -> Outbox
        ensures next { result.next ≡ None }
        ensures ended { result.is_ended ≡ false }
        ensures unwritten { result.unwritten ≡ 0 }
        ensures lost { result.lost ≡ 0 }
    {
        let open = open_messages(client);
        Outbox {
            next: None,
            is_ended: false,
            taken: open,
            accepted: open,
            unwritten: 0,
            lost: 0,
        }
    }

    /// The number of messages that are done, of those that were taken.
    pub(crate) fn tally(&self, client: &ClientEnd) -> Tally {
        Tally {
            done: self.accepted.saturating_sub(open_messages(client)),
            taken: self.taken,
        }
    }

    // Takes the next message from the source unless there is one. Returns why there is none.
    fn refill<M: Source>(&mut self, source: &mut M) -> Result<Option<Filled>, RunError>
        ensures taken { OnOk result ((fresh : List Taken)
            × Gives (M.coming source.old) (M.coming source.new) fresh
            × (option_to_list self.old.next ++ fresh ≡ option_to_list self.new.next)) }
        ensures none { IfOk result
            (λ why. why ≡ Some Filled.Ended → IsLast self.new.next self.new.is_ended) }
        ensures unwritten { self.new.unwritten ≡ self.old.unwritten }
        ensures lost { self.new.lost ≡ self.old.lost }
        ensures remembers { Remembers self.old.is_ended (M.ended source.old)
            → Remembers self.new.is_ended (M.ended source.new) }
    {
        if self.next.is_some() {
            return Ok(None);
        }
        if self.is_ended {
            return Ok(Some(Filled::Ended));
        }
        match source.next()? {
            Next::Message(message) => {
                self.next = Some(message);
                self.taken = self.taken.saturating_add(1);
                Ok(None)
            }
            Next::Later => Ok(Some(Filled::Waits)),
            Next::End => {
                self.is_ended = true;
                Ok(Some(Filled::Ended))
            }
        }
    }

    // The client accepted the next message.
    fn accept(&mut self, qos: Qos)
        ensures next { self.new.next ≡ None }
        ensures unwritten { self.new.unwritten ≡ 0 → self.old.unwritten ≡ 0 }
        ensures stored { self.new.unwritten ≡ 0 → is_q0 qos ≡ false }
        ensures lost { self.new.lost ≡ self.old.lost }
        ensures ended { self.new.is_ended ≡ self.old.is_ended }
    {
        self.next = None;
        match qos {
            Qos::Q0 => self.unwritten = self.unwritten.saturating_add(1),
            Qos::Q1 | Qos::Q2 => self.accepted = self.accepted.saturating_add(1),
        }
    }

    // Publishes the next message, if there is one. Returns whether the client accepted it.
    fn publish_next<S: Stream, C: Clock, K: SessionSaver>(
        &mut self,
        peer: &mut Peer<S, C, K>,
    ) -> Result<bool, RunError>
        ensures published { Publishes peer.old peer.new self.old.next self.new.next
            self.old.unwritten self.new.unwritten }
        ensures lost { self.new.lost ≡ self.old.lost }
        ensures ended { self.new.is_ended ≡ self.old.is_ended }
    {
        let Some(message) = &self.next else {
            return Ok(false);
        };
        let qos = message.qos;
        match peer.publish(message.clone()?) {
            Ok(true) => {
                self.accept(qos);
                Ok(true)
            }
            Ok(false) => Ok(false),
            Err(error) => Err(run_error(error)),
        }
    }

    // Takes a message of the source and publishes it. Returns why that can't be done now.
    fn add<S: Stream, C: Clock, K: SessionSaver, M: Source>(
        &mut self,
        peer: &mut Peer<S, C, K>,
        source: &mut M,
    ) -> Result<Option<Filled>, RunError>
        ensures ok { OnOk result (Fills peer.old peer.new self.old.next self.new.next
            self.old.unwritten self.new.unwritten (M.coming source.old) (M.coming source.new)) }
        ensures err { OnErr result ((messages : List Taken)
            × Went peer.old peer.new (map Publication messages) [] []) }
        ensures none { IfOk result
            (λ why. why ≡ Some Filled.Ended → IsLast self.new.next self.new.is_ended) }
        ensures lost { self.new.lost ≡ self.old.lost }
        ensures remembers { Remembers self.old.is_ended (M.ended source.old)
            → Remembers self.new.is_ended (M.ended source.new) }
    {
        if !peer.is_up() {
            return Ok(Some(Filled::Blocked));
        }
        if peer.client().output().len() >= MOST_OUTPUT {
            return Ok(Some(Filled::Enough));
        }
        if let Some(why) = self.refill(source)? {
            return Ok(Some(why));
        }
        if self.publish_next(peer)? {
            return Ok(None);
        }
        Ok(Some(Filled::Blocked))
    }

    /// Publishes messages of the source, until the output is long or there is none.
    pub(crate) fn fill<S: Stream, C: Clock, K: SessionSaver, M: Source>(
        &mut self,
        peer: &mut Peer<S, C, K>,
        source: &mut M,
    ) -> Result<Filled, RunError>
        ensures ok { OnOk result (Fills peer.old peer.new self.old.next self.new.next
            self.old.unwritten self.new.unwritten (M.coming source.old) (M.coming source.new)) }
        ensures err { OnErr result ((messages : List Taken)
            × Went peer.old peer.new (map Publication messages) [] []) }
        ensures none { IfOk result
            (λ why. why ≡ Filled.Ended → IsLast self.new.next self.new.is_ended) }
        ensures lost { self.new.lost ≡ self.old.lost }
        ensures remembers { Remembers self.old.is_ended (M.ended source.old)
            → Remembers self.new.is_ended (M.ended source.new) }
    {
        for _ in 0..u64::MAX {
            if let Some(why) = self.add(peer, source)? {
                return Ok(why);
            }
        }
        Ok(Filled::Enough)
    }

    // The output was written.
    fn count_written(&mut self)
        ensures next { self.new.next ≡ self.old.next }
        ensures lost { self.new.lost ≡ self.old.lost }
        ensures ended { self.new.is_ended ≡ self.old.is_ended }
    {
        self.accepted = self.accepted.saturating_add(self.unwritten);
        self.unwritten = 0;
    }

    // The output may not have been written.
    fn count_lost(&mut self)
        ensures next { self.new.next ≡ self.old.next }
        ensures lost { self.new.lost ≡ 0 → self.old.lost ≡ 0 }
        ensures unwritten { self.new.lost ≡ 0 → self.old.unwritten ≡ 0 }
        ensures ended { self.new.is_ended ≡ self.old.is_ended }
    {
        self.lost = self.lost.saturating_add(self.unwritten);
        self.unwritten = 0;
    }

    /// Sends the output. A message of QoS 0 is done once it is written, and lost if it is not.
    pub(crate) fn flush<S: Stream, C: Clock, K: SessionSaver>(
        &mut self,
        peer: &mut Peer<S, C, K>,
    ) -> Result<(), Stop>
        ensures went { Went peer.old peer.new [] [] [] }
        ensures all { OnOk result
            (Appends peer.old.written peer.new.written peer.old.client.link.output) }
        ensures next { self.new.next ≡ self.old.next }
        ensures ended { self.new.is_ended ≡ self.old.is_ended }
        ensures written { OnOk result (self.new.lost ≡ self.old.lost) }
        ensures lost { OnErr result (self.new.lost ≡ 0 → self.old.lost ≡ 0) }
        ensures unwritten { OnErr result (self.new.lost ≡ 0 → self.old.unwritten ≡ 0) }
        ensures stop { IfErr result IsConnection }
    {
        match peer.write() {
            Ok(()) => {
                self.count_written();
                Ok(())
            }
            Err(error) => {
                self.count_lost();
                Err(Stop::Connection(run_error(error)))
            }
        }
    }
}
