//! Copies of a large message that share one encoding (3.3.5).

ghost use Rattle.std.specs.Prelude.{◌≡◌, ℕ, false, true, Some, IfOk, IfSome};
ghost use Rattle.mq_hub.specs.Prelude.{option_to_list, Message, fits_delivery, copy, copy_by, AreShared};

use mq_end::PreparedMessage;
use mq_packet::{Delivery, Message};
use mq_tables::{Connections, Sessions, copy, copy_by};
use mq_topic::{ClientKey, Qos};
use std::alloc::{AllocError, Global};

/// The least number of payload bytes for which copies share an encoding. Below it a copy costs less
/// than a shared block.
const LARGE: usize = 4_096;

/// For each granted quality of service, an encoded copy of a message, if at least two connected
/// clients get one.
#[derive(Drop)]
pub(crate) struct SharedCopies {
    at_q0: Option<PreparedMessage>,
    at_q1: Option<PreparedMessage>,
    at_q2: Option<PreparedMessage>,
}

// Returns the first of at least two connected clients with this granted quality of service.
fn first_of_several(
    found: &[(ClientKey, Qos)],
    qos: Qos,
    connections: &Connections,
) -> Option<ClientKey> {
    let mut first = None;
    for row in found {
        if row.1 == qos && connections.up_on(row.0).is_some() {
            if first.is_some() {
                return first;
            }
            first = Some(row.0);
        }
    }
    None
}

// Returns the delivery with which a session would send a message of this quality of service next
// (2.3.1). `None` if it has no free identifier.
fn next_delivery(sessions: &Sessions, key: ClientKey, qos: Qos) -> Option<Option<Delivery>>
    ensures { IfSome result (λ d. fits_delivery qos d ≡ true) }
{
    if qos == Qos::Q0 {
        return Some(None);
    }
    match sessions.next_id(key) {
        Some(id) => Some(Some(Delivery { id, dup: false })),
        None => None,
    }
}

// Returns the copy for the connected clients with this granted quality of service, encoded as the
// first of them will send it. `None` if there is at most one, or an allocation fails.
fn shared_copy(
    alloc: Global,
    message: &Message,
    found: &[(ClientKey, Qos)],
    qos: Qos,
    connections: &Connections,
    sessions: &Sessions,
) -> Option<PreparedMessage>
    ensures { IfSome result (λ c. c ≡ copy qos false message.now) }
{
    let Some(key) = first_of_several(found, qos, connections) else {
        return None;
    };
    let Ok(copied) = copy(message, qos, false) else {
        return None;
    };
    let Some(delivery) = next_delivery(sessions, key, copied.qos) else {
        return None;
    };
    let mut shared = PreparedMessage::new(copied);
    shared.encode(alloc, delivery);
    Some(shared)
}

impl SharedCopies {
    /// Encodes the copies of a large message for the clients that were found.
    pub(crate) fn new(
        alloc: Global,
        message: &Message,
        found: &[(ClientKey, Qos)],
        connections: &Connections,
        sessions: &Sessions,
    ) -> SharedCopies
        ensures { AreShared message.now result }
    {
        if message.payload.as_slice().len() < LARGE || found.len() < 2 {
            return SharedCopies {
                at_q0: None,
                at_q1: None,
                at_q2: None,
            };
        }
        SharedCopies {
            at_q0: shared_copy(alloc, message, found, Qos::Q0, connections, sessions),
            at_q1: shared_copy(alloc, message, found, Qos::Q1, connections, sessions),
            at_q2: shared_copy(alloc, message, found, Qos::Q2, connections, sessions),
        }
    }

    // The shared copy for a granted quality of service.
    fn at(&self, qos: Qos) -> &Option<PreparedMessage>
        ensures { (m : Message) → AreShared m self.now → IfSome result.now (λ c. c ≡ copy qos false m) }
    {
        match qos {
            Qos::Q0 => &self.at_q0,
            Qos::Q1 => &self.at_q1,
            Qos::Q2 => &self.at_q2,
        }
    }

    /// Returns the copy of the message for a client, by the greatest quality of service of its
    /// matching subscriptions (3.3.5). `None` if the client is not connected and the copy has
    /// quality of service 0 (4.3.1).
    #[inline(always)]
    pub(crate) fn copy_by(
        &self,
        message: &Message,
        qos: Qos,
        is_up: bool,
    ) -> Result<Option<PreparedMessage>, AllocError>
        requires { AreShared message.now self.now }
        ensures { IfOk result (λ m. option_to_list m ≡ copy_by is_up message.now (Some qos)) }
    {
        if let (true, Some(shared)) = (is_up, self.at(qos)) {
            let shared = shared.clone()?;
            return Ok(Some(shared));
        }
        match copy_by(message, qos, is_up)? {
            Some(copied) => Ok(Some(PreparedMessage::new(copied))),
            None => Ok(None),
        }
    }
}
