//! Removes the subscriptions of a client, and reports set and removed ones (3.8.4, 3.10.4).

ghost use Rattle.std.specs.Prelude.{◌≡◌, ◌+◌, ◌≤◌, ◌++◌, length};
ghost use Rattle.mq_hub.specs.Prelude.{subscribed_acts, unsubscribed_acts, without_rows};

use crate::acts::ActLog;
use mq_packet::Request;
use mq_route::Act;
use mq_topic::{ClientKey, FilterStore, TopicFilter};

/// Appends the acts that report the subscriptions of a client as set (3.8.4).
pub(crate) fn push_subscribed(log: &mut ActLog, key: ClientKey, requests: Vec<Request>)
    requires { length requests.items ≤ log.old.room }
    ensures acts { log.new.acts ≡ log.old.acts ++ subscribed_acts key requests.items }
    ensures room { log.old.room ≤ log.new.room + length requests.items }
{
    for request in requests {
        log.push(Act::Subscribed(key, request.filter, request.qos));
    }
}

/// Removes subscriptions of a client, filter by filter, and appends the acts that report it
/// (3.10.4).
pub(crate) fn remove_rows<S: FilterStore>(
    store: &mut S,
    key: ClientKey,
    filters: Vec<TopicFilter>,
    log: &mut ActLog,
)
    requires { length filters.items ≤ log.old.room }
    ensures rows { S.rows store.new ≡ without_rows key filters.items (S.rows store.old) }
    ensures acts { log.new.acts ≡ log.old.acts ++ unsubscribed_acts key filters.items }
    ensures room { log.old.room ≤ log.new.room + length filters.items }
{
    for filter in filters {
        let _ = store.remove(key, &filter);
        log.push(Act::Unsubscribed(key, filter));
    }
}
