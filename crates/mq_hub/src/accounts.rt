//! The log of each client over a run: the messages taken from it, placed for it and missed by it.

ghost use Rattle.std.specs.Prelude.{◌≡◌, ◌++◌, [], ◌∷◌, List, length, IfOk, OnOk};
ghost use Rattle.mq_hub.specs.Prelude.{flat_map, AreAccounts, Act, Missed, Placed, Took, all_noted, IsBlank};

use mq_end::BoxedList;
use mq_packet::Message;
use mq_route::{Act, ClientLog, HubReply};
use mq_topic::ClientKey;
use std::alloc::{AllocError, Global};
use std::mem;

fn blank(alloc: Global) -> ClientLog
    ensures { IsBlank result }
{
    ClientLog {
        taken: BoxedList::from_vec(Vec::new(alloc)),
        placed: BoxedList::from_vec(Vec::new(alloc)),
        missed: BoxedList::from_vec(Vec::new(alloc)),
    }
}

fn blank_accounts(alloc: Global, count: usize) -> Result<Vec<ClientLog>, AllocError>
    ensures count { IfOk result (λ accounts. length accounts.items ≡ count) }
    ensures blank { IfOk result (λ accounts. AreAccounts 0 [] accounts.items) }
{
    let mut accounts = Vec::with_capacity(alloc, count)?;
    for _ in 0..count {
        accounts.push(blank(alloc))?;
    }
    Ok(accounts)
}

// Appends a message to a list. On `Err` the list is lost.
fn append(alloc: Global, list: &mut BoxedList<Message>, message: &Message) -> Result<(), AllocError>
    ensures { OnOk result (list.new ≡ list.old ++ message.now ∷ []) }
{
    let mut messages = mem::replace(list, BoxedList::from_vec(Vec::new(alloc))).into_vec();
    messages.push(message.clone()?)?;
    *list = BoxedList::from_vec(messages);
    Ok(())
}

// Adds a message to the log of the client that published it, if the client has a log.
fn note_taken(
    alloc: Global,
    accounts: &mut [ClientLog],
    key: ClientKey,
    message: &Message,
) -> Result<(), AllocError>
    ensures { OnOk result (accounts.new ≡ all_noted 0 (Took key message.now) accounts.old) }
{
    let at = key.get() as usize;
    if at >= accounts.len() {
        return Ok(());
    }
    append(alloc, &mut accounts[at].taken, message)
}

// Adds a message to the log of the client that it was placed for, if the client has a log.
fn note_placed(
    alloc: Global,
    accounts: &mut [ClientLog],
    key: ClientKey,
    message: &Message,
) -> Result<(), AllocError>
    ensures { OnOk result (accounts.new ≡ all_noted 0 (Placed key message.now) accounts.old) }
{
    let at = key.get() as usize;
    if at >= accounts.len() {
        return Ok(());
    }
    append(alloc, &mut accounts[at].placed, message)
}

// Adds a message to the log of the client that missed it, if the client has a log.
fn note_missed(
    alloc: Global,
    accounts: &mut [ClientLog],
    key: ClientKey,
    message: &Message,
) -> Result<(), AllocError>
    ensures { OnOk result (accounts.new ≡ all_noted 0 (Missed key message.now) accounts.old) }
{
    let at = key.get() as usize;
    if at >= accounts.len() {
        return Ok(());
    }
    append(alloc, &mut accounts[at].missed, message)
}

fn note(alloc: Global, accounts: &mut [ClientLog], act: &Act) -> Result<(), AllocError>
    ensures { OnOk result (accounts.new ≡ all_noted 0 act.now accounts.old) }
{
    match act {
        Act::Took(key, message) => note_taken(alloc, accounts, *key, message),
        Act::Placed(key, message) => note_placed(alloc, accounts, *key, message),
        Act::Missed(key, message) => note_missed(alloc, accounts, *key, message),
        _ => Ok(()),
    }
}

fn note_all(alloc: Global, accounts: &mut [ClientLog], acts: &[Act]) -> Result<(), AllocError>
    ensures accounts { OnOk result ((log : List Act) → AreAccounts 0 log accounts.old → AreAccounts 0 (log ++ acts.now) accounts.new) }
    ensures count { OnOk result (length accounts.new ≡ length accounts.old) }
{
    for act in acts {
        note(alloc, accounts, act)?;
    }
    Ok(())
}

/// Returns the logs of the first `count` clients after these replies.
pub(crate) fn accounts_of(
    alloc: Global,
    count: usize,
    replies: &[HubReply],
) -> Result<Vec<ClientLog>, AllocError>
    ensures count { IfOk result (λ accounts. length accounts.items ≡ count) }
    ensures accounts { IfOk result (λ accounts. AreAccounts 0 (flat_map (λ r. r.acts) replies.now) accounts.items) }
{
    let mut accounts = blank_accounts(alloc, count)?;
    for reply in replies {
        note_all(alloc, accounts.as_mut_slice(), reply.acts.as_slice())?;
    }
    Ok(accounts)
}
