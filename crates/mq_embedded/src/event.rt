//! Events as numbers and bytes.

ghost use Rattle.std.specs.Prelude.{◌≡◌, ◌≤◌, length};
ghost use Rattle.mq_embedded.specs.Prelude.{flat_map, code_fields, Filled, ShowsEvent, ShowsMessage, event_bytes};

use mq_bytes::put;
use mq_end::Happening;
use mq_packet::{Message, SubAckCode};

/// An event of a client. Its bytes are in the buffer of the caller: of a message the topic name and
/// then the payload, of a response to SUBSCRIBE the codes.
#[repr(C)]
#[derive(Clone, Copy)]
pub struct Event {
    /// 0: none. 1: the connection is established. 2: a message. 3: the response to SUBSCRIBE. 4:
    /// that to UNSUBSCRIBE. 5: that to PINGREQ.
    pub kind: u8,
    /// The quality of service of a message.
    pub qos: u8,
    /// RETAIN of a message.
    pub retain: bool,
    /// Whether the server had a session.
    pub session_present: bool,
    /// The packet identifier of the request that was responded to.
    pub id: u16,
    /// The number of bytes of the topic name.
    pub topic_size: usize,
    /// The number of all bytes.
    pub size: usize,
}

// An event without bytes.
fn bare(kind: u8) -> Event
    ensures kind { result.kind ≡ kind }
    ensures id { result.id ≡ 0 }
    ensures size { result.size ≡ 0 }
{
    Event {
        kind,
        qos: 0,
        retain: false,
        session_present: false,
        id: 0,
        topic_size: 0,
        size: 0,
    }
}

/// No event.
pub(crate) fn no_event() -> Event
    ensures { result.kind ≡ 0 }
{
    bare(0)
}

/// The event of what an end reports.
pub(crate) fn event_of(happening: &Happening) -> Event
    ensures shows { ShowsEvent result happening.now }
    ensures size { result.size ≡ length (event_bytes happening.now) }
{
    match happening {
        Happening::Up { session_present } => Event {
            session_present: *session_present,
            ..bare(1)
        },
        Happening::Handed(message) => message_event(message),
        Happening::SubAck { id, codes } => Event {
            id: id.get(),
            size: codes.as_slice().len(),
            ..bare(3)
        },
        Happening::UnsubAck(id) => Event {
            id: id.get(),
            ..bare(4)
        },
        Happening::Pong => bare(5),
        Happening::Subscribe { .. } | Happening::Unsubscribe { .. } => bare(6),
    }
}

fn message_event(message: &Message) -> Event
    ensures { ShowsMessage result message.now }
{
    let topic_size = message.topic.as_str().len();
    Event {
        qos: message.qos.number(),
        retain: message.retain,
        topic_size,
        size: topic_size + message.payload.as_slice().len(),
        ..bare(2)
    }
}

/// Writes the bytes of an event to the front of a buffer that has room for them.
pub(crate) fn write_event(happening: &Happening, out: &mut [u8])
    requires { length (event_bytes happening.now) ≤ length out.old }
    ensures { Filled out.old (event_bytes happening.now) out.new }
{
    match happening {
        Happening::Handed(message) => {
            let at = put(out, 0, message.topic.as_str().as_bytes());
            put(out, at, message.payload.as_slice());
        }
        Happening::SubAck { codes, .. } => write_codes(codes.as_slice(), out),
        _ => {}
    }
}

fn write_codes(codes: &[SubAckCode], out: &mut [u8])
    requires { length (flat_map code_fields codes.now) ≤ length out.old }
    ensures { Filled out.old (flat_map code_fields codes.now) out.new }
{
    let mut at = 0;
    for code in codes {
        at = put(out, at, &[code.number()]);
    }
}
