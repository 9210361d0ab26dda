//! The session of a client or a server (3.1.2.4, 4.1).

ghost use Rattle.std.specs.Prelude.{◌≡◌, ◌↔◌, ◌<◌, true, IfOk, OnErr, IsErrOf};
ghost use Rattle.mq_flow.specs.Prelude.{next_identifier, blank_book, is_full, claim, release, none_received};

use crate::claim::{Claim, Claimed};
use crate::reaction::Refusal;
use crate::receiver::Receiver;
use crate::sender::Sender;
use mq_packet::PacketId;
use std::alloc::Global;

/// The state of a session (3.1.2.4, 4.1): unfinished messages in both directions. Call `claim_id`
/// before a SUBSCRIBE or an UNSUBSCRIBE, and `release_id` when its answer arrives.
#[derive(Debug, Drop)]
pub struct Session {
    /// Messages sent by this end.
    pub sender: Sender,
    /// Messages received by this end.
    pub receiver: Receiver,
}

impl Session {
    /// An empty session, in which at most `capacity` identifiers may be in use (2.3.1).
    pub fn new(alloc: Global, capacity: u16) -> Session
        requires { 0 < capacity }
        ensures book { result.sender.book ≡ blank_book }
        ensures capacity { result.sender.capacity ≡ capacity }
        ensures last { result.sender.last ≡ 0 }
        ensures room { result.sender.room ≡ 0 }
        ensures received { result.receiver ≡ none_received }
    {
        Session {
            sender: Sender::new(alloc, capacity),
            receiver: Receiver::new(alloc),
        }
    }

    /// Assigns the next identifier to a SUBSCRIBE or UNSUBSCRIBE with `count` filters (2.3.1).
    /// Errors: `Full` if the capacity is in use, `Memory` if an allocation fails.
    #[tactic(auto, using(crate::proofs::Next::is_next))]
    pub fn claim_id(&mut self, kind: Claim, count: usize) -> Result<PacketId, Refusal>
        ensures full { IsErrOf result Refusal.Full ↔ (is_full self.old.sender.capacity self.old.sender.book ≡ true) }
        ensures next { IfOk result (λ id. id ≡ next_identifier self.old.sender.last self.old.sender.book) }
        ensures book { IfOk result (λ id. self.new.sender.book ≡ claim id kind count self.old.sender.book) }
        ensures last { IfOk result (λ id. self.new.sender.last ≡ id) }
        ensures capacity { self.new.sender.capacity ≡ self.old.sender.capacity }
        ensures room { self.new.sender.room ≡ self.old.sender.room }
        ensures received { self.new.receiver ≡ self.old.receiver }
        ensures err { OnErr result (self.new ≡ self.old) }
    {
        let Some(id) = self.sender.next_id() else {
            return Err(Refusal::Full);
        };
        match self.sender.claim_as(id, kind, count) {
            Ok(()) => Ok(id),
            Err(_) => Err(Refusal::Memory),
        }
    }

    /// Frees an identifier if it is in use by a SUBSCRIBE or an UNSUBSCRIBE (2.3.1).
    pub fn release_id(&mut self, id: PacketId)
        ensures book { self.new.sender.book ≡ release id self.old.sender.book }
        ensures capacity { self.new.sender.capacity ≡ self.old.sender.capacity }
        ensures room { self.new.sender.room ≡ self.old.sender.room }
        ensures last { self.new.sender.last ≡ self.old.sender.last }
        ensures received { self.new.receiver ≡ self.old.receiver }
    {
        self.sender.release_id(id);
    }

    /// Discards the session (3.1.2.4): nothing was sent or received. Its capacity stays, and the
    /// room that is reserved.
    pub fn discard(&mut self)
        ensures sender { self.new.sender ≡ record self.old.sender { book = blank_book; last = 0 } }
        ensures received { self.new.receiver ≡ none_received }
    {
        self.sender.discard();
        self.receiver.discard();
    }

    /// Returns the identifiers that are in use by SUBSCRIBE and UNSUBSCRIBE, in the order of the
    /// claims (2.3.1).
    pub fn pending(&self) -> &[Claimed]
        ensures { result.now ≡ self.now.sender.book.claimed }
    {
        self.sender.pending()
    }
}
