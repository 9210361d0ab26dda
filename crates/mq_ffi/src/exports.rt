//! Functions over bytes.

ghost use Rattle.std.specs.Prelude.{◌≡◌, ◌≤◌, ◌<◌, ◌^◌, ◌↔◌, ◌⊎◌, pos, negsuc, IsSome, IfSome};
ghost use Rattle.mq_ffi.specs.Prelude.{Match, IsTopicFilter, IsTopicName, IsAcknowledgementOf, IsBareOf, IsConnAckOf, IsConnectOf, IsListOf, IsLoginOf, IsPublishOf, IsWillOf, Gives, IsSavedSession, CodesOf, ReportsFront, ReportsPacket, bounds};

use crate::codes::{check_code, encode_code, match_code};
use mq_bytes::{Front, PacketFields};
use mq_decode::Limits;
use std::alloc::Global;

/// A fault of a packet: its number, 1 to 20, and its place.
#[repr(C)]
#[derive(Clone, Copy)]
pub struct Fault {
    /// The index of the byte.
    pub place: usize,
    /// The number of the fault.
    pub kind: u8,
}

// The bound of a caller, if it is valid.
fn limits(max_packet: u32, lenient: bool) -> Option<Limits>
    ensures valid { IsSome result ↔ ((64 ≤ max_packet) × (max_packet < 2 ^ 28)) }
    ensures value { IfSome result (λ limits. limits ≡ bounds max_packet lenient) }
{
    if lenient {
        return Limits::lenient(max_packet);
    }
    Limits::new(max_packet)
}

// Reports the front of a buffer.
fn report(front: Front, fields: &mut PacketFields, fault: &mut Fault) -> i32
    ensures { ReportsFront front fields.new fault.new result }
{
    match front {
        Front::Whole(found) => {
            *fields = found;
            0
        }
        Front::More => 1,
        Front::Fault(found) => {
            *fault = Fault {
                place: found.place,
                kind: found.kind.number(),
            };
            -9
        }
    }
}

/// Finds the packet at the front of a buffer. Returns 0 and sets `fields`, or 1 if the packet is
/// incomplete, or -9 and sets `fault`, or -2 if the bound is not 64 to 268,435,455.
#[tactic(auto, using(crate::proofs::Reports::packet_reported))]
#[unsafe(no_mangle)]
pub extern "C" fn poskvari_packet(
    bytes: &[u8],
    max_packet: u32,
    lenient: bool,
    fields: &mut PacketFields,
    fault: &mut Fault,
) -> i32
    ensures packet { 64 ≤ max_packet → max_packet < 2 ^ 28
        → ReportsPacket max_packet lenient bytes.now fields.new fault.new result }
{
    match limits(max_packet, lenient) {
        Some(limits) => report(mq_bytes::locate(bytes, limits), fields, fault),
        None => -2,
    }
}

/// Returns 0 if the bytes are a topic name (4.7).
#[tactic(auto, using(crate::proofs::Reports::checked))]
#[unsafe(no_mangle)]
pub extern "C" fn poskvari_name_check(name: &[u8]) -> i32
    ensures { (result ≡ pos 0) ↔ IsTopicName name.now }
{
    check_code(mq_bytes::check_name(name))
}

/// Returns 0 if the bytes are a topic filter (4.7).
#[tactic(auto, using(crate::proofs::Reports::checked))]
#[unsafe(no_mangle)]
pub extern "C" fn poskvari_filter_check(filter: &[u8]) -> i32
    ensures { (result ≡ pos 0) ↔ IsTopicFilter filter.now }
{
    check_code(mq_bytes::check_filter(filter))
}

/// Returns 1 if the filter matches the name (4.7), 0 if not.
#[tactic(auto, using(crate::proofs::Reports::match_yes, crate::proofs::Reports::match_no, crate::proofs::Reports::match_memory))]
#[unsafe(no_mangle)]
pub extern "C" fn poskvari_match(alloc: Global, filter: &[u8], name: &[u8]) -> i32
    ensures yes { result ≡ pos 1 → Match filter.now name.now }
    ensures no { result ≡ pos 0 → Match filter.now name.now → ⊥ }
    ensures memory { IsTopicFilter filter.now → IsTopicName name.now
        → (result ≡ pos 0) ⊎ ((result ≡ pos 1) ⊎ (result ≡ negsuc 0)) }
{
    match_code(mq_bytes::is_match(alloc, filter, name))
}

/// Returns 0 if the bytes are a saved session (4.1).
#[tactic(auto, using(crate::proofs::Reports::memory_alone))]
#[unsafe(no_mangle)]
pub extern "C" fn poskvari_session_check(alloc: Global, saved: &[u8]) -> i32
    ensures saved { result ≡ pos 0 → IsSavedSession saved.now }
    ensures memory { IsSavedSession saved.now → (result ≡ pos 0) ⊎ (result ≡ negsuc 0) }
{
    check_code(mq_bytes::check_session(alloc, saved))
}

/// Encodes PUBACK (4), PUBREC (5), PUBREL (6), PUBCOMP (7) or UNSUBACK (11). Returns the size.
#[tactic(auto, using(crate::proofs::Reports::coded, crate::proofs::Reports::small_fits))]
#[unsafe(no_mangle)]
pub extern "C" fn poskvari_encode_acknowledgement(kind: u8, id: u16, out: &mut [u8]) -> isize
    ensures { CodesOf (Gives (IsAcknowledgementOf kind id) out.old out.new) result }
{
    encode_code(mq_bytes::encode_acknowledgement(kind, id, out))
}

/// Encodes PINGREQ (12), PINGRESP (13) or DISCONNECT (14). Returns the size.
#[tactic(auto, using(crate::proofs::Reports::coded, crate::proofs::Reports::small_fits))]
#[unsafe(no_mangle)]
pub extern "C" fn poskvari_encode_bare(kind: u8, out: &mut [u8]) -> isize
    ensures { CodesOf (Gives (IsBareOf kind) out.old out.new) result }
{
    encode_code(mq_bytes::encode_bare(kind, out))
}

/// Encodes SUBSCRIBE (8), SUBACK (9) or UNSUBSCRIBE (10) with a list of encoded items. Returns the
/// size.
#[tactic(auto, using(crate::proofs::Reports::coded, crate::proofs::Reports::large_fits))]
#[unsafe(no_mangle)]
pub extern "C" fn poskvari_encode_list(kind: u8, id: u16, items: &[u8], out: &mut [u8]) -> isize
    ensures { CodesOf (Gives (IsListOf kind id items.now) out.old out.new) result }
{
    encode_code(mq_bytes::encode_list(kind, id, items, out))
}

/// Encodes CONNACK (3.2). Returns the size.
#[tactic(auto, using(crate::proofs::Reports::coded, crate::proofs::Reports::small_fits))]
#[unsafe(no_mangle)]
pub extern "C" fn poskvari_encode_connack(session_present: bool, code: u8, out: &mut [u8]) -> isize
    ensures { CodesOf (Gives (IsConnAckOf session_present code) out.old out.new) result }
{
    encode_code(mq_bytes::encode_connack(session_present, code, out))
}

/// Encodes PUBLISH (3.3). Returns the size.
#[tactic(auto, using(crate::proofs::Reports::coded, crate::proofs::Reports::large_fits))]
#[unsafe(no_mangle)]
pub extern "C" fn poskvari_encode_publish(
    topic: &[u8],
    payload: &[u8],
    qos: u8,
    retain: bool,
    dup: bool,
    id: u16,
    out: &mut [u8],
) -> isize
    ensures { CodesOf (Gives (IsPublishOf topic.now payload.now qos retain dup id) out.old out.new) result }
{
    let encoded = mq_bytes::encode_publish(topic, payload, qos, retain, dup, id, out);
    encode_code(encoded)
}

/// Encodes CONNECT (3.1). Returns the size.
#[tactic(auto, using(crate::proofs::Reports::coded, crate::proofs::Reports::large_fits))]
#[unsafe(no_mangle)]
pub extern "C" fn poskvari_encode_connect(
    client_id: &[u8],
    keep_alive: u16,
    clean_session: bool,
    has_user_name: bool,
    user_name: &[u8],
    has_password: bool,
    password: &[u8],
    has_will: bool,
    will_topic: &[u8],
    will_payload: &[u8],
    will_qos: u8,
    will_retain: bool,
    out: &mut [u8],
) -> isize
    ensures { CodesOf (Gives (IsConnectOf client_id.now keep_alive clean_session
        (IsWillOf has_will will_topic.now will_payload.now will_qos will_retain)
        (IsLoginOf has_user_name user_name.now has_password password.now)) out.old out.new) result }
{
    let encoded = mq_bytes::encode_connect(
        client_id,
        keep_alive,
        clean_session,
        has_user_name,
        user_name,
        has_password,
        password,
        has_will,
        will_topic,
        will_payload,
        will_qos,
        will_retain,
        out,
    );
    encode_code(encoded)
}
