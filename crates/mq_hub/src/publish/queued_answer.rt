//! The answer to a packet, which is queued before copies are placed.

ghost use Rattle.std.specs.Prelude.{◌≡◌, is_some};
ghost use Rattle.mq_hub.specs.Prelude.{answer_for, publish_answer};

use mq_packet::Delivery;
use mq_topic::ClientKey;

/// The answer to a packet, which is queued for its client before copies are placed.
#[derive(Clone, Copy)]
pub(crate) struct QueuedAnswer {
    /// The key of the client.
    pub(crate) key: ClientKey,
    /// The number of bytes of the answer.
    pub(crate) bytes: usize,
}

/// The number of bytes of the answer that are queued for a client.
pub(crate) fn answer_for(answer: Option<QueuedAnswer>, key: ClientKey) -> usize
    ensures { result ≡ answer_for answer key }
{
    match answer {
        Some(answer) if answer.key == key => answer.bytes,
        _ => 0,
    }
}

/// The answer of a client's end to its PUBLISH: PUBACK or PUBREC (3.4, 3.5); nothing with QoS 0.
pub(crate) fn publish_answer(key: ClientKey, delivery: Option<Delivery>) -> QueuedAnswer
    ensures { result ≡ publish_answer key delivery }
{
    let bytes = if delivery.is_some() { 4 } else { 0 };
    QueuedAnswer { key, bytes }
}
