//! Why a connection is closed.

ghost use Rattle.std.specs.Prelude.{◌≡◌};
ghost use Rattle.mq_end.specs.Prelude.{close_code};

use mq_decode::DecodeFault;
use mq_packet::RefusalCode;
use thiserror::Error;

/// Why an end closed its connection.
#[derive(Clone, Copy, Debug, PartialEq, Eq, Error)]
pub enum CloseReason {
    /// Bytes that are not a packet (4.8).
    #[error("the bytes are not a packet")]
    Fault(DecodeFault),
    /// An unexpected packet (4.8).
    #[error("unexpected packet")]
    Unexpected,
    /// CONNECT was refused (3.2.2.3).
    #[error("the connection was refused")]
    Refused(RefusalCode),
    /// The server has no session although the client's is established (3.2.2.2).
    #[error("the server lost the session")]
    SessionLost,
    /// No packet arrived for one and a half keep-alives (3.1.2.10).
    #[error("no packet arrived for one and a half keep-alives")]
    KeepAlive,
    /// Memory ran out.
    #[error("out of memory")]
    Memory,
    /// DISCONNECT was sent or read (3.14).
    #[error("the client disconnected")]
    Left,
    /// A new QoS 2 message exceeds the receive window (4.8).
    #[error("a new message exceeds the receive window")]
    Window,
}

impl CloseReason {
    /// Its code, `C1` to `C7` or `C11`.
    pub fn code(self) -> &'static str
        ensures { result.now ≡ close_code self }
    {
        match self {
            CloseReason::Fault(_) => "C1",
            CloseReason::Unexpected => "C2",
            CloseReason::Refused(_) => "C3",
            CloseReason::SessionLost => "C4",
            CloseReason::KeepAlive => "C5",
            CloseReason::Memory => "C6",
            CloseReason::Left => "C7",
            CloseReason::Window => "C11",
        }
    }
}
