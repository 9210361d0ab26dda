//! The result of an event.

ghost use Rattle.std.specs.Prelude.{◌≡◌};

use crate::side::Side;
use mq_end::{BoxedList, CloseReason, Progress, PublishRefusal};
use mq_packet::PacketId;
use std::alloc::AllocError;

/// Bytes that arrived at a side, and their effect.
#[derive(Debug, Drop)]
pub struct DeliveredBytes {
    /// The side to which the bytes arrived.
    pub side: Side,
    /// The bytes that arrived.
    pub bytes: BoxedList<u8>,
    /// Whether there were bytes, but no connection that could take them in.
    pub lost: bool,
    /// The effect of the bytes.
    pub progress: Progress,
}

/// The result of opening a connection.
#[derive(Clone, Copy, Debug, PartialEq, Eq)]
pub struct Opening {
    /// Whether an earlier connection of the client was open, and is lost.
    pub client_dropped: bool,
    /// Whether an earlier connection of the server was open, and is lost.
    pub server_dropped: bool,
    /// Whether memory ran out for CONNECT, so that both ends stay closed.
    pub refused: bool,
}

/// The result of opening a connection, and of three exchanges after it.
#[derive(Debug, Drop)]
pub struct Settling {
    /// The result of the opening.
    pub opening: Opening,
    /// The deliveries in order: to the server, to the client, and so on.
    pub deliveries: BoxedList<DeliveredBytes>,
    /// Whether both sides are idle: neither stores unfinished messages.
    pub idle: bool,
}

/// The result of an event.
#[derive(Debug, Drop)]
pub enum Answer {
    /// A message was accepted, with its packet identifier if it has one, or it was refused.
    Published(Side, Result<Option<PacketId>, PublishRefusal>),
    /// Bytes arrived at a side.
    Delivered(DeliveredBytes),
    /// The connection of a side is lost. The flag says whether it was open.
    Dropped(Side, bool),
    /// The client was dropped, and made anew from its session as saved; or memory ran out
    /// for that, and the client that was dropped stays. The flag says whether it was open.
    Restarted(bool, Result<(), PublishRefusal>),
    /// The client left, or leaving was refused.
    Left(Result<(), PublishRefusal>),
    /// A connection was opened.
    Opened(Opening),
    /// A side's `tick`: the reason if it closed, or a refusal if an allocation for its output
    /// failed.
    Ticked(Side, Result<Option<CloseReason>, PublishRefusal>),
    /// A connection was opened, and three times all bytes in flight were delivered.
    Settled(Settling),
}

impl Clone for DeliveredBytes {
    ghost is_clone = { λ delivery copy. copy ≡ delivery };

    /// Shares the bytes of the messages.
    fn clone(&self) -> Result<DeliveredBytes, AllocError> {
        Ok(DeliveredBytes {
            side: self.side,
            bytes: self.bytes.clone()?,
            lost: self.lost,
            progress: self.progress.clone()?,
        })
    }
}

impl Clone for Settling {
    ghost is_clone = { λ settling copy. copy ≡ settling };

    /// Shares the bytes of the messages.
    fn clone(&self) -> Result<Settling, AllocError> {
        Ok(Settling {
            opening: self.opening,
            deliveries: self.deliveries.clone()?,
            idle: self.idle,
        })
    }
}

impl Clone for Answer {
    ghost is_clone = { λ answer copy. copy ≡ answer };

    /// Shares the bytes of the messages.
    fn clone(&self) -> Result<Answer, AllocError> {
        Ok(match self {
            Answer::Published(side, outcome) => Answer::Published(*side, *outcome),
            Answer::Delivered(delivery) => Answer::Delivered(delivery.clone()?),
            Answer::Dropped(side, was_open) => Answer::Dropped(*side, *was_open),
            Answer::Restarted(was_open, outcome) => Answer::Restarted(*was_open, *outcome),
            Answer::Left(outcome) => Answer::Left(*outcome),
            Answer::Opened(opening) => Answer::Opened(*opening),
            Answer::Ticked(side, outcome) => Answer::Ticked(*side, *outcome),
            Answer::Settled(settling) => Answer::Settled(settling.clone()?),
        })
    }
}
