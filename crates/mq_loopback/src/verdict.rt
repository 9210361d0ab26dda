//! The verdict on a journal and on receipts.

ghost use Rattle.std.specs.Prelude.{◌≡◌, ◌↔◌, IfOk, IfSome, IsTrue, ◌<◌};
ghost use Rattle.mq_loopback.specs.Prelude.{AllStand, IsReplayed, IsVerdict, events_in, replies_in};

use mq_book::{Entry, Journal, Receipt, are_same_replies, audit};
use mq_hub::hub_run;
use mq_route::{HubConfig, HubEvent, HubRefusal, HubReply};
use std::alloc::{AllocError, Global};

/// The verdict on a journal and on the receipts of workers.
#[derive(Clone, Copy, Debug, PartialEq, Eq)]
pub struct Verdict {
    /// The events of the journal, run again, give its replies.
    pub is_equal: bool,
    /// The receipts of each worker are in the journal.
    pub is_audited: bool,
}

// The same event once more; its bytes are shared.
fn copy_event(event: &HubEvent) -> Result<HubEvent, AllocError>
    ensures { IfOk result (λ copy. copy ≡ event.now) }
{
    Ok(match event {
        HubEvent::Opened(conn) => HubEvent::Opened(*conn),
        HubEvent::Bytes(conn, bytes) => HubEvent::Bytes(*conn, bytes.clone()?),
        HubEvent::Ended(conn) => HubEvent::Ended(*conn),
        HubEvent::Tick(now) => HubEvent::Tick(*now),
        HubEvent::Collect(conn) => HubEvent::Collect(*conn),
    })
}

// The events of entries, in order.
fn events_of(alloc: Global, entries: &[Entry]) -> Result<Vec<HubEvent>, AllocError>
    ensures { IfOk result (λ events. events.items ≡ events_in entries.now) }
{
    let mut events = Vec::with_capacity(alloc, entries.len())?;
    for entry in entries {
        events.push(copy_event(&entry.event)?)?;
    }
    Ok(events)
}

// Whether these are the replies of the entries, in order.
fn are_replies(replies: &[HubReply], entries: &[Entry]) -> bool
    ensures { IsTrue result ↔ (replies.now ≡ replies_in entries.now) }
{
    let mut left = replies;
    let mut right = entries;
    while let [reply, others @ ..] = left {
        let [entry, more @ ..] = right else {
            return false;
        };
        if !are_same_replies(reply, entry.reply.as_reply()) {
            return false;
        }
        left = others;
        right = more;
    }
    right.is_empty()
}

// Whether the events of the entries, run over a new broker, give the replies of the entries.
fn is_replayed(alloc: Global, config: HubConfig, entries: &[Entry]) -> Result<bool, AllocError>
    requires capacity { 0 < config.capacity }
    requires window { IfSome config.window (λ window. 0 < window) }
    ensures { IfOk result (IsReplayed config entries.now) }
{
    let events = events_of(alloc, entries)?;
    match hub_run(alloc, config, events.as_slice()) {
        Ok((_, trace)) => Ok(are_replies(trace.replies.as_slice(), entries)),
        Err(HubRefusal::Memory) => Err(AllocError),
        Err(HubRefusal::UnknownConn | HubRefusal::ConnInUse) => Ok(false),
    }
}

// Whether the receipts of each worker are in the journal.
fn is_audited(journal: &Journal, receipts: &[Vec<Receipt>]) -> bool
    ensures { IsTrue result ↔ AllStand journal.now receipts.now }
{
    let mut left = receipts;
    while let [own, rest @ ..] = left {
        if !audit(journal, own.as_slice()) {
            return false;
        }
        left = rest;
    }
    true
}

/// Replays the events of the journal with a new broker of this configuration, and audits the
/// receipts of each worker.
pub fn judge(
    alloc: Global,
    config: HubConfig,
    journal: &Journal,
    receipts: &[Vec<Receipt>],
) -> Result<Verdict, AllocError>
    requires capacity { 0 < config.capacity }
    requires window { IfSome config.window (λ window. 0 < window) }
    ensures { IfOk result (IsVerdict config journal.now receipts.now) }
{
    Ok(Verdict {
        is_equal: is_replayed(alloc, config, journal.entries())?,
        is_audited: is_audited(journal, receipts),
    })
}
