//! How far a subscriber is, and which messages it prints.

ghost use Rattle.std.specs.Prelude.{◌≡◌, ◌∷◌, [], List, OnOk, map};
ghost use Rattle.mq_pubsub.specs.Prelude.{acknowledged, identifier_at, last_acknowledged};

use crate::choice::{Choice, Verdict};
use crate::error::RunError;
use crate::printer::{Notice, Printer};
use mq_end::Happening;
use mq_packet::{Message, PacketId, SubAckCode};
use mq_topic::Qos;

/// How far a subscriber is.
#[derive(Clone, Copy, Debug, PartialEq, Eq)]
pub struct Inbox {
    /// The number of messages to print before the run ends. `None` is without end.
    pub left: Option<u64>,
    /// No subscription is requested, so an UNSUBACK completes the request.
    pub only_gives_up: bool,
    /// The server has granted the subscriptions in the session.
    pub is_granted: bool,
    /// The subscriptions have to be requested on this connection.
    pub is_due: bool,
    /// The run has come to its end.
    pub is_ended: bool,
}

// The identifier of a packet of 4 bytes, if that is PUBACK or PUBREC (3.4, 3.5).
fn acknowledged(first: u8, size: u8, high: u8, low: u8) -> Option<PacketId>
    ensures { result ≡ acknowledged (first ∷ size ∷ high ∷ low ∷ []) }
{
    if (first == 0x40 || first == 0x50) && size == 2 {
        return PacketId::new(u16::from_be_bytes([high, low]));
    }
    None
}

// The identifier of the last packet of an output, if that is PUBACK or PUBREC.
fn last_acknowledged(output: &[u8]) -> Option<PacketId>
    ensures { result ≡ last_acknowledged output.now }
{
    match output {
        [.., first, size, high, low] => acknowledged(*first, *size, *high, *low),
        _ => None,
    }
}

// The identifier of the message that was delivered last. The client has just answered it.
fn id_of(happening: &Happening, output: &[u8]) -> Option<PacketId>
    ensures { result ≡ identifier_at output.now happening.now }
{
    match happening {
        Happening::Handed(message) if message.qos != Qos::Q0 => last_acknowledged(output),
        _ => None,
    }
}

// Reports the subscriptions that the server refused. Fails if it refused all (3.9.3).
fn check_codes<P: Printer>(printer: &mut P, codes: &[SubAckCode]) -> Result<(), RunError>
    ensures shown { P.shown printer.new ≡ P.shown printer.old }
    ensures identifiers { P.identifiers printer.new ≡ P.identifiers printer.old }
{
    let mut is_granted = false;
    for (index, code) in codes.iter().enumerate() {
        match code {
            SubAckCode::Granted(_) => is_granted = true,
            SubAckCode::Failure => printer.notice(Notice::Refused(index)),
        }
    }
    if is_granted {
        return Ok(());
    }
    Err(RunError::NotSubscribed)
}

impl Inbox {
    ghost use Rattle.mq_pubsub.specs.Prelude.{Shows, identifier_of, Prints, connects, counts, delivers, granted, prints, prints_at, state_after};

    // A message was printed.
    fn count(&mut self)
        ensures { self.new ≡ counts self.old.left self.old }
    {
        if let Some(left) = self.left {
            self.left = Some(left.saturating_sub(1));
            self.is_ended = left <= 1;
        }
    }

    // The subscriptions are granted.
    fn grant(&mut self, ends_when_granted: bool)
        ensures { self.new ≡ granted ends_when_granted self.old }
    {
        self.is_granted = true;
        self.is_ended = self.is_ended || ends_when_granted;
    }

    // Decides about a delivered message, and prints it or not.
    fn deliver<P: Printer>(
        &mut self,
        choice: &Choice<'_>,
        message: &Message,
        id: Option<PacketId>,
        printer: &mut P,
    ) -> Result<(), RunError>
        ensures state { OnOk result (self.new ≡ delivers choice.now self.old message.now) }
        ensures shows { OnOk result (Shows (P.shown printer.old) (P.shown printer.new)
            (prints choice.now self.old message.now)) }
        ensures identifiers { OnOk result (Shows (P.identifiers printer.old) (P.identifiers printer.new)
            (map (λ _. id) (prints choice.now self.old message.now))) }
    {
        if self.is_ended {
            return Ok(());
        }
        match choice.verdict(message) {
            Verdict::Skip => {}
            Verdict::End => self.is_ended = true,
            Verdict::Print => {
                printer.print(message, id)?;
                self.count();
            }
        }
        Ok(())
    }

    // Takes an event of the client.
    fn take<P: Printer>(
        &mut self,
        choice: &Choice<'_>,
        ends_when_granted: bool,
        happening: &Happening,
        id: Option<PacketId>,
        printer: &mut P,
    ) -> Result<(), RunError>
        ensures state { OnOk result
            (self.new ≡ state_after choice.now ends_when_granted self.old happening.now) }
        ensures shows { OnOk result (Shows (P.shown printer.old) (P.shown printer.new)
            (prints_at choice.now self.old happening.now)) }
        ensures identifiers { OnOk result (Shows (P.identifiers printer.old) (P.identifiers printer.new)
            (map (λ _. id) (prints_at choice.now self.old happening.now))) }
    {
        match happening {
            Happening::Up { session_present } => {
                self.is_granted = self.is_granted && *session_present;
                self.is_due = !self.is_granted;
            }
            Happening::Handed(message) => return self.deliver(choice, message, id, printer),
            Happening::SubAck { codes, .. } => {
                check_codes(printer, codes.as_slice())?;
                self.grant(ends_when_granted);
            }
            Happening::UnsubAck(_) if self.only_gives_up => self.grant(ends_when_granted),
            Happening::UnsubAck(_)
            | Happening::Subscribe { .. }
            | Happening::Unsubscribe { .. }
            | Happening::Pong => {}
        }
        Ok(())
    }

    /// Takes the events of one read, in order. `output` is what the client answers to them. On
    /// `Err` a front of them was taken.
    pub fn take_all<P: Printer>(
        &mut self,
        choice: &Choice<'_>,
        ends_when_granted: bool,
        happenings: &[Happening],
        output: &[u8],
        printer: &mut P,
    ) -> Result<(), RunError>
        ensures { OnOk result ((messages : List Message)
            × Prints choice.now ends_when_granted self.old happenings.now self.new messages
            × Shows (P.shown printer.old) (P.shown printer.new) messages
            × Shows (P.identifiers printer.old) (P.identifiers printer.new)
            (map (identifier_of output.now) messages)) }
    {
        for happening in happenings {
            let id = id_of(happening, output);
            self.take(choice, ends_when_granted, happening, id, printer)?;
        }
        Ok(())
    }
}
