//! The number of bytes of packets.

ghost use Rattle.std.specs.Prelude.{◌≡◌, ◌<◌, ◌≤◌, ◌^◌, length};
ghost use Rattle.mq_end.specs.Prelude.{length_bytes, encoded_size, publish_size};

use crate::publish::publish_size;
use mq_packet::Message;

/// Returns the number of bytes of a remaining length (2.2.3).
fn digits(rest: usize) -> usize
    ensures value { result ≡ length (length_bytes rest) }
    ensures few { result ≤ 4 }
{
    match rest {
        0..=127 => 1,
        128..=16_383 => 2,
        16_384..=2_097_151 => 3,
        _ => 4,
    }
}

/// Returns the number of bytes of a packet with this remaining length (2.2).
pub fn packet_len(rest: usize) -> usize
    requires { rest < 2 ^ 63 }
    ensures { result ≡ encoded_size rest }
{
    1 + (digits(rest) + rest)
}

/// Returns the number of bytes of the PUBLISH of a message (3.3).
pub fn publish_len(message: &Message) -> usize
    ensures { result ≡ encoded_size (publish_size message.now) }
{
    packet_len(publish_size(message))
}
