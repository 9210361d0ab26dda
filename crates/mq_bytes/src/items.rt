//! Tests of the encoded lists of SUBSCRIBE, SUBACK and UNSUBSCRIBE (3.8.3, 3.9.3, 3.10.3).

ghost use Rattle.std.specs.Prelude.{◌≡◌, ◌+◌, ◌≤◌, ◌<◌, ◌++◌, ◌↔◌, ℕ, List, Some, length, take, IfSome, IsTrue};
ghost use Rattle.mq_bytes.specs.Prelude.{counted, IsTopicFilter, AreItems, IsItem};

use mq_packet::SubAckCode;
use mq_topic::{Qos, is_topic_filter};
use mq_wire::{text_at, text_laws};

/// The items of a list.
#[derive(Clone, Copy, Debug, PartialEq, Eq)]
pub(crate) enum ItemKind {
    /// Of SUBSCRIBE: a topic filter and a quality of service.
    Request,
    /// Of SUBACK: a return code.
    Code,
    /// Of UNSUBSCRIBE: a topic filter.
    Filter,
}

// The size of the topic filter at the front.
#[tactic(auto, using(crate::proofs::ItemParts::filter_found, crate::proofs::ItemParts::filter_sound, crate::proofs::ItemParts::not_found, crate::proofs::ItemParts::not_filter))]
fn filter_size(bytes: &[u8]) -> Option<usize>
    ensures sound { IfSome result (λ n. (n ≤ length bytes.now)
        × ((f : List ℕ) × IsTopicFilter f × (take n bytes.now ≡ counted f))) }
    ensures complete { (f rest : List ℕ) → IsTopicFilter f → bytes.now ≡ counted f ++ rest
        → result ≡ Some (2 + length f) }
{
    text_laws();
    match text_at(bytes, 0) {
        Ok((text, end)) => {
            if !is_topic_filter(text.as_str()) {
                return None;
            }
            Some(end)
        }
        Err(_) => None,
    }
}

// The size of the request at the front.
#[tactic(auto, using(crate::proofs::ItemParts::request_sound, crate::proofs::ItemParts::request_complete, crate::proofs::ItemParts::no_qos, crate::proofs::ItemParts::no_byte, crate::proofs::ItemParts::no_filter))]
fn request_size(bytes: &[u8]) -> Option<usize>
    ensures some { IfSome result (λ n. (0 < n) × (n ≤ length bytes.now)) }
    ensures sound { IfSome result (λ n. IsItem ItemKind.Request (take n bytes.now)) }
    ensures complete { (x rest : List ℕ) → IsItem ItemKind.Request x → bytes.now ≡ x ++ rest
        → result ≡ Some (length x) }
{
    let Some(end) = filter_size(bytes) else {
        return None;
    };
    let (_, behind) = bytes.split_at(end);
    let Some((qos, _)) = behind.split_first() else {
        return None;
    };
    match Qos::from_number(*qos) {
        Some(_) => Some(end + 1),
        None => None,
    }
}

// The size of the code at the front.
#[tactic(auto, using(crate::proofs::ItemParts::code_sound, crate::proofs::ItemParts::code_complete, crate::proofs::ItemParts::no_code))]
fn code_size(bytes: &[u8]) -> Option<usize>
    requires { 0 < length bytes.now }
    ensures some { IfSome result (λ n. (0 < n) × (n ≤ length bytes.now)) }
    ensures sound { IfSome result (λ n. IsItem ItemKind.Code (take n bytes.now)) }
    ensures complete { (x rest : List ℕ) → IsItem ItemKind.Code x → bytes.now ≡ x ++ rest
        → result ≡ Some (length x) }
{
    let (code, _) = bytes.split_first().unwrap();
    match SubAckCode::from_number(*code) {
        Some(_) => Some(1),
        None => None,
    }
}

// The size of the item at the front.
#[tactic(auto, using(crate::proofs::ItemParts::filter_item, crate::proofs::ItemParts::filter_some, crate::proofs::ItemParts::filter_complete))]
fn item_size(kind: ItemKind, bytes: &[u8]) -> Option<usize>
    requires { 0 < length bytes.now }
    ensures some { IfSome result (λ n. (0 < n) × (n ≤ length bytes.now)) }
    ensures sound { IfSome result (λ n. IsItem kind (take n bytes.now)) }
    ensures complete { (x rest : List ℕ) → IsItem kind x → bytes.now ≡ x ++ rest
        → result ≡ Some (length x) }
{
    match kind {
        ItemKind::Request => request_size(bytes),
        ItemKind::Code => code_size(bytes),
        ItemKind::Filter => filter_size(bytes),
    }
}

/// Whether the bytes are encoded items, one behind the other.
#[tactic(auto, using(crate::proofs::ItemLists::no_items))]
pub(crate) fn are_items(kind: ItemKind, items: &[u8]) -> bool
    ensures { IsTrue result ↔ AreItems kind items.now }
{
    let mut rest = items;
    while !rest.is_empty() {
        match item_size(kind, rest) {
            Some(size) => {
                let (_, behind) = rest.split_at(size);
                rest = behind;
            }
            None => return false,
        }
    }
    true
}
