//! Calls of a broker to the end of a session.

ghost use Rattle.std.specs.Prelude.{◌≡◌, true, Ok, OnOk, OnErr, IsErr};
ghost use Rattle.mq_tables.specs.Prelude.{is_up, fits_delivery, no_outcome, told_of, IsAllowed, Serves, publish_call};

use mq_end::{PacketOutcome, PublishOutcome, PublishRefusal, ServerEnd, size_laws};
use mq_packet::{Delivery, Message, NonEmpty, Packet, PacketId, SubAckCode, encoding_laws};
use std::alloc::AllocError;

/// A call of a broker to the end of a session.
#[derive(Drop)]
pub enum Call {
    /// Process a whole packet of the client, which came at this time (3.1 to 3.14).
    Takes(u64, Packet),
    /// Answer a SUBSCRIBE by SUBACK, with this identifier and these codes (3.9).
    Grants(PacketId, NonEmpty<SubAckCode>),
    /// Answer an UNSUBSCRIBE by UNSUBACK, with this identifier (3.11).
    Drops(PacketId),
}

fn answered(answer: Result<(), PublishRefusal>) -> Result<PacketOutcome, AllocError>
    ensures ok { OnOk answer (result ≡ Ok no_outcome) }
    ensures err { OnErr answer (IsErr result) }
{
    match answer {
        Ok(()) => Ok(PacketOutcome {
            happening: None,
            acknowledged: None,
            closed: None,
        }),
        Err(_) => Err(AllocError),
    }
}

/// Has a connected end carry out a call.
#[inline(always)]
pub(crate) fn serve(end: &mut ServerEnd, call: Call) -> Result<PacketOutcome, AllocError>
    requires up { is_up end.old.end.state ≡ true }
    requires allowed { IsAllowed call end.old }
    ensures { Serves call result end.old end.new }
{
    size_laws();
    encoding_laws();
    match call {
        Call::Takes(now, packet) => end.take_packet(now, packet),
        Call::Grants(id, codes) => answered(end.suback(id, codes)),
        Call::Drops(id) => answered(end.unsuback(id)),
    }
}

/// Has a connected end process the PUBLISH of a message (3.3). The caller keeps the message.
#[inline(always)]
pub(crate) fn serve_publish(
    end: &mut ServerEnd,
    now: u64,
    message: &Message,
    delivery: Option<Delivery>,
) -> Result<PublishOutcome, AllocError>
    requires up { is_up end.old.end.state ≡ true }
    requires fits { fits_delivery message.now.qos delivery ≡ true }
    ensures { Serves (publish_call now message.now delivery) (told_of message.now result) end.old end.new }
{
    encoding_laws();
    end.receive_publish(now, message, delivery)
}
