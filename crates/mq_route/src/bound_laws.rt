//! Laws on the bytes that a peer can make an end or a broker store and send.

ghost use Rattle.mq_route.specs.Prelude.{BoundsLaws, BrokerBounds, SharpLaws};

use mq_decode::pending_is_short;
use mq_end::{closing_laws, window_laws};
use mq_packet::encoding_laws;

/// In one `receive`, the pending output and the held bytes grow by at most the incoming bytes, and
/// by the retransmissions when the end connects (4.4). The output for a packet is no longer than
/// the packet, and each stored identifier took at least seven bytes (4.3.3). An end that is not
/// connected holds at most five bytes and the limit, and owes at most its refusal.
pub fn bounds_laws()
    ensures { BoundsLaws }
{
    encoding_laws();
    pending_is_short();
    closing_laws();
    window_laws();
}

/// An end that sends two PUBCOMPs for a PUBREL, or two PUBRECs for a PUBLISH that is sent again
/// (4.3.3), breaks these bounds.
pub fn sharp_laws()
    ensures { SharpLaws }
{
    encoding_laws();
}

/// In a step with bytes of a connection, the packets that a broker sends, without PUBLISH and
/// PUBREL, and the bytes that the connection then holds have at most the length of the bytes that
/// it held and that arrived. It holds at most five bytes and the limit.
pub fn broker_laws()
    ensures { BrokerBounds }
{
    pending_is_short();
}
