//! Counting entries, and searching the identifiers of requests.

ghost use Rattle.std.specs.Prelude.{◌≡◌, ◌<◌, ◌==◌, ◌&&◌, not, length, is_some, IfSome, HoldsAt};
ghost use Rattle.mq_flow.specs.Prelude.{list_any, held, is_subscribe};

use crate::claim::{Claim, Claimed};
use crate::iter::Entries;
use mq_packet::PacketId;
use mq_topic::Qos;

/// Returns how many messages there are of this quality of service.
pub(crate) fn count_of(entries: Entries<'_>, qos: Qos) -> usize
    requires { length entries < 65_536 }
    ensures { result ≡ length (held qos entries.entry) }
{
    let mut count = 0;
    for entry in entries {
        if entry.message.qos == qos {
            count += 1;
        }
    }
    count
}

/// Returns the index of the request with an identifier.
pub(crate) fn claim_at(claims: &[Claimed], id: PacketId) -> Option<usize>
    ensures there { is_some result ≡ list_any (λ c. c.id == id) claims.now }
    ensures place { IfSome result (λ at. at < length claims.now) }
    ensures claim { IfSome result (HoldsAt (λ c. c.id ≡ id) claims.now) }
{
    let mut at = 0;
    for claimed in claims {
        if claimed.id == id {
            return Some(at);
        }
        at += 1;
    }
    None
}

/// Returns whether a SUBSCRIBE of this identifier waits for that many codes.
pub(crate) fn has_subscribe(claims: &[Claimed], id: PacketId, count: usize) -> bool
    ensures { result ≡ list_any (λ c. is_subscribe c.kind && (c.id == id && c.count == count)) claims.now }
{
    for claimed in claims {
        if claimed.kind == Claim::Subscribe && claimed.id == id && claimed.count == count {
            return true;
        }
    }
    false
}

/// Returns whether an UNSUBSCRIBE with this identifier is pending.
pub(crate) fn has_unsubscribe(claims: &[Claimed], id: PacketId) -> bool
    ensures { result ≡ list_any (λ c. not (is_subscribe c.kind) && c.id == id) claims.now }
{
    for claimed in claims {
        if claimed.kind == Claim::Unsubscribe && claimed.id == id {
            return true;
        }
    }
    false
}
