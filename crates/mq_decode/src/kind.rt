//! The first byte of a packet (2.2.1, 2.2.2).

ghost use Rattle.std.specs.Prelude.{◌≡◌, ◌<◌};
ghost use Rattle.mq_decode.specs.Prelude.{kind_at, publish_kind, fixed_size};

use crate::fault::FaultKind;
use mq_topic::Qos;

/// The type of a packet, with the flags of a PUBLISH.
#[derive(Clone, Copy)]
pub(crate) enum Kind {
    Connect,
    ConnAck,
    Publish(PublishFlags),
    PubAck,
    PubRec,
    PubRel,
    PubComp,
    Subscribe,
    SubAck,
    Unsubscribe,
    UnsubAck,
    PingReq,
    PingResp,
    Disconnect,
}

/// The flags of a PUBLISH (3.3.1).
#[derive(Clone, Copy)]
pub(crate) struct PublishFlags {
    pub(crate) dup: bool,
    pub(crate) qos: Qos,
    pub(crate) retain: bool,
}

// The flags of a PUBLISH in the low four bits (3.3.1).
fn publish_flags(low: u8) -> Result<Kind, FaultKind>
    requires { low < 16 }
    ensures { result ≡ publish_kind low }
{
    let dup = low / 8 == 1;
    let retain = low % 2 == 1;
    let Some(qos) = Qos::from_number(low / 2 % 4) else {
        return Err(FaultKind::ForbiddenQos);
    };
    if dup && qos == Qos::Q0 {
        return Err(FaultKind::DupWithoutDelivery);
    }
    Ok(Kind::Publish(PublishFlags { dup, qos, retain }))
}

/// The type and the flags in a first byte, or its fault.
pub(crate) fn kind_at(first: u8) -> Result<Kind, FaultKind>
    ensures { result ≡ kind_at first }
{
    let low = first % 16;
    let (kind, flags) = match first / 16 {
        1 => (Kind::Connect, 0),
        2 => (Kind::ConnAck, 0),
        3 => return publish_flags(low),
        4 => (Kind::PubAck, 0),
        5 => (Kind::PubRec, 0),
        6 => (Kind::PubRel, 2),
        7 => (Kind::PubComp, 0),
        8 => (Kind::Subscribe, 2),
        9 => (Kind::SubAck, 0),
        10 => (Kind::Unsubscribe, 2),
        11 => (Kind::UnsubAck, 0),
        12 => (Kind::PingReq, 0),
        13 => (Kind::PingResp, 0),
        14 => (Kind::Disconnect, 0),
        _ => return Err(FaultKind::ForbiddenType),
    };
    if low != flags {
        return Err(FaultKind::WrongFlags);
    }
    Ok(kind)
}

/// The remaining length of the kinds that have a fixed one.
pub(crate) fn fixed_size(kind: Kind) -> Option<u32>
    ensures { result ≡ fixed_size kind }
{
    match kind {
        Kind::ConnAck
        | Kind::PubAck
        | Kind::PubRec
        | Kind::PubRel
        | Kind::PubComp
        | Kind::UnsubAck => Some(2),
        Kind::PingReq | Kind::PingResp | Kind::Disconnect => Some(0),
        Kind::Connect | Kind::Publish(_) | Kind::Subscribe | Kind::SubAck | Kind::Unsubscribe =>
            None,
    }
}
