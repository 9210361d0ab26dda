//! Runs a broker over a list of events.

ghost use Rattle.std.specs.Prelude.{◌≡◌, ℕ, ◌<◌, ◌⊎◌, [], length, Ok, Err, IfOk, IfErr, IfSome, None};
ghost use Rattle.mq_hub.specs.Prelude.{flat_map, new_hub, none_received, placed, routed, settled, taken, AreAccounts, IsRun, came_in, handed_from, of_client, IsFollowed, IsRefused, IsTraced, acts_in, AreCollected};

use crate::accounts::accounts_of;
use crate::hub::{Hub, HubOver};
use mq_end::BoxedList;
use mq_route::{
    ClientLog, HubConfig, HubEvent, HubRefusal, HubReply, HubTrace, WhenFull, output_laws,
    routing_laws, taking_laws,
};
use mq_topic::{FilterStore, TrieStore};
use std::alloc::{AllocError, Global};

impl<S: FilterStore> HubOver<S> {
    // Steps through the events until one is refused. On `Err` the steps before it have been taken.
    fn follow(&mut self, events: &[HubEvent]) -> Result<Vec<HubReply>, HubRefusal>
        ensures run { IfOk result (λ replies. IsFollowed self.old events.now replies.items self.new) }
        ensures err { IfErr result (λ why. (why ≡ HubRefusal.Memory) ⊎ IsRefused self.old events.now why) }
    {
        let mut replies = Vec::new(self.alloc);
        for event in events {
            if replies.reserve(1).is_err() {
                return Err(HubRefusal::Memory);
            }
            let reply = self.step(event)?;
            replies.push_reserved(reply);
        }
        Ok(replies)
    }

    fn accounts(&self, replies: &[HubReply]) -> Result<Vec<ClientLog>, AllocError>
        ensures count { IfOk result (λ accounts. length accounts.items ≡ self.now.next_key) }
        ensures accounts { IfOk result (λ accounts. AreAccounts 0 (flat_map (λ r. r.acts) replies.now) accounts.items) }
    {
        accounts_of(self.alloc, self.next_key as usize, replies)
    }

    // Steps through the events until one is refused. On `Err` the steps before it have been taken.
    fn traced(&mut self, events: &[HubEvent]) -> Result<HubTrace, HubRefusal>
        ensures trace { IfOk result (λ trace. IsTraced self.old events.now trace self.new) }
        ensures err { IfErr result (λ why. (why ≡ HubRefusal.Memory) ⊎ IsRefused self.old events.now why) }
    {
        let replies = self.follow(events)?;
        let Ok(accounts) = self.accounts(replies.as_slice()) else {
            return Err(HubRefusal::Memory);
        };
        Ok(HubTrace {
            replies: BoxedList::from_vec(replies),
            accounts: BoxedList::from_vec(accounts),
        })
    }
}

fn pair_with<T: Drop, U>(value: T, made: Result<U, HubRefusal>) -> Result<(T, U), HubRefusal>
    ensures ok { IfOk made (λ made. result ≡ Ok (value, made)) }
    ensures err { IfErr made (λ why. result ≡ Err why) }
{
    match made {
        Ok(made) => Ok((value, made)),
        Err(why) => Err(why),
    }
}

/// Runs a new broker over an empty store through these events. Returns the broker, the reply to
/// each event, and the log of each client: the messages taken from it, placed for it and missed by
/// it.
///
/// Errors: the refusal of the first event that is refused; `Memory` if an allocation fails.
pub fn hub_run_over<S: FilterStore + Drop>(
    alloc: Global,
    config: HubConfig,
    store: S,
    events: &[HubEvent],
) -> Result<(HubOver<S>, HubTrace), HubRefusal>
    requires store { S.rows store ≡ [] }
    requires capacity { 0 < config.capacity }
    requires window { IfSome config.window (λ window. 0 < window) }
    ensures run { IfOk result (λ r. IsRun config events.now r.0 r.1) }
    ensures settled { IfOk result (λ r. (c : ℕ) → settled c (acts_in r.1) ≡ routed c (acts_in r.1)) }
    ensures routed { config.when_full ≡ WhenFull.ClosePublisher → config.most_waiting ≡ None
        → IfOk result (λ r. (c : ℕ) → placed c (acts_in r.1) ≡ routed c (acts_in r.1)) }
    ensures taken { IfOk result (λ r. (run : IsRun config events.now r.0 r.1) (c : ℕ)
        → taken c (acts_in r.1) ≡ handed_from none_received (of_client c (came_in run.episodes))) }
    ensures collected { IfOk result (λ r. (run : IsRun config events.now r.0 r.1) → AreCollected config run.episodes r.0) }
    ensures err { IfErr result (λ why. (why ≡ HubRefusal.Memory) ⊎ IsRefused (new_hub config) events.now why) }
{
    output_laws();
    routing_laws();
    taking_laws();
    let mut hub = HubOver::with_store(alloc, config, store);
    let traced = hub.traced(events);
    pair_with(hub, traced)
}

/// Runs a new broker through these events. See [`hub_run_over`].
pub fn hub_run(
    alloc: Global,
    config: HubConfig,
    events: &[HubEvent],
) -> Result<(Hub, HubTrace), HubRefusal>
    requires capacity { 0 < config.capacity }
    requires window { IfSome config.window (λ window. 0 < window) }
    ensures run { IfOk result (λ r. IsRun config events.now r.0 r.1) }
    ensures settled { IfOk result (λ r. (c : ℕ) → settled c (acts_in r.1) ≡ routed c (acts_in r.1)) }
    ensures routed { config.when_full ≡ WhenFull.ClosePublisher → config.most_waiting ≡ None
        → IfOk result (λ r. (c : ℕ) → placed c (acts_in r.1) ≡ routed c (acts_in r.1)) }
    ensures taken { IfOk result (λ r. (run : IsRun config events.now r.0 r.1) (c : ℕ)
        → taken c (acts_in r.1) ≡ handed_from none_received (of_client c (came_in run.episodes))) }
    ensures collected { IfOk result (λ r. (run : IsRun config events.now r.0 r.1) → AreCollected config run.episodes r.0) }
    ensures err { IfErr result (λ why. (why ≡ HubRefusal.Memory) ⊎ IsRefused (new_hub config) events.now why) }
{
    hub_run_over(alloc, config, TrieStore::new(alloc), events)
}
