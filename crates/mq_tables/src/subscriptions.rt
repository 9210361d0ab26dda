//! Sets the subscriptions of a client one after another (3.8.4).

ghost use Rattle.std.specs.Prelude.{◌≡◌, OnOk, OnErr};
ghost use Rattle.mq_tables.specs.Prelude.{with_row, row_back, rows_back, with_rows, AreThere, IsThere};

use mq_packet::Request;
use mq_topic::{ClientKey, FilterStore, Qos, TopicFilter, store_laws};
use std::alloc::{AllocError, Global};

// A subscription before it was set: its filter, and its quality of service if it existed.
type Before = (TopicFilter, Option<Qos>);

// Restores a subscription.
fn put_back<S: FilterStore>(store: &mut S, key: ClientKey, filter: TopicFilter, qos: Option<Qos>)
    requires { IsThere key filter qos (S.rows store.old) }
    ensures { S.rows store.new ≡ row_back key filter qos (S.rows store.old) }
{
    match qos {
        Some(qos) => {
            let _ = store.set(key, filter, qos);
        }
        None => {
            let _ = store.remove(key, &filter);
        }
    }
}

// Restores subscriptions, the last one first.
fn put_all_back<S: FilterStore>(store: &mut S, key: ClientKey, befores: Vec<Before>)
    requires { AreThere key befores.items (S.rows store.old) }
    ensures { S.rows store.new ≡ rows_back key befores.items (S.rows store.old) }
{
    let mut left = befores;
    while let Some((filter, qos)) = left.pop() {
        put_back(store, key, filter, qos);
    }
}

// Sets the subscription of a request, and records its quality of service before.
fn set_row<S: FilterStore>(
    store: &mut S,
    key: ClientKey,
    request: &Request,
    befores: &mut Vec<Before>,
) -> Result<(), AllocError>
    ensures ok { OnOk result (S.rows store.new ≡ with_row key request.now.filter request.now.qos (S.rows store.old)) }
    ensures back { rows_back key befores.new.items (S.rows store.new) ≡ rows_back key befores.old.items (S.rows store.old) }
    ensures there { AreThere key befores.old.items (S.rows store.old) → AreThere key befores.new.items (S.rows store.new) }
{
    store_laws();
    let filter = request.filter.clone()?;
    let before = request.filter.clone()?;
    let qos = store.get(key, &filter);
    befores.push((before, qos))?;
    store.set(key, filter, request.qos)
}

/// Sets the subscriptions of a client, request by request (3.8.4). On `Err` they are as before.
pub fn set_rows<S: FilterStore>(
    alloc: Global,
    store: &mut S,
    key: ClientKey,
    requests: &[Request],
) -> Result<(), AllocError>
    ensures ok { OnOk result (S.rows store.new ≡ with_rows key requests.now (S.rows store.old)) }
    ensures err { OnErr result (S.rows store.new ≡ S.rows store.old) }
{
    let mut befores = Vec::new(alloc);
    for request in requests {
        if let Err(error) = set_row(store, key, request, &mut befores) {
            put_all_back(store, key, befores);
            return Err(error);
        }
    }
    Ok(())
}
