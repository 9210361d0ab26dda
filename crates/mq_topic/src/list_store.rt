//! A plain store of subscriptions.

ghost use Rattle.std.specs.Prelude.{◌≡◌, ◌≤◌, [], List, None, IfOk, OnOk, OnErr, is_some, not, ◌==◌, IsTrue, All};
ghost use Rattle.mq_topic.specs.Prelude.{is_sorted, put, prefix_len, is_lt, nat_cmp, index_map_len, Row, IsAscending, IsMatched, UpTo, greater_of, is_key, key_cmp, matched, qos_of, row_qos, with_row, without_client, without_row};

use crate::client::ClientKey;
use crate::filter::TopicFilter;
use crate::matching::matches;
use crate::name::TopicName;
use crate::qos::Qos;
use crate::store::{FilterStore, StoreRow};
use indexmap::IndexMap;
use std::alloc::{AllocError, Global};
use std::marker::Model;

// A client and its filter.
type Key = (ClientKey, TopicFilter);

// Rows in ascending order.
type Rows = IndexMap<Key, Qos>;

/// A plain store of subscriptions: a sorted list of rows. `get` uses binary search; `matching`
/// tests every row. Contracts see the list of its rows.
#[derive(Drop)]
pub struct ListStore {
    alloc: Global,
    rows: Rows,
}

impl Model for ListStore {
    ghost use Rattle.std.specs.Prelude.{List};
    ghost use Rattle.mq_topic.specs.Rows.{Row, IsAscending};

    ghost Value = { List Row };

    ghost view = { λ s. s.rows.entries };

    ghost invariant = { λ s. IsAscending s.rows.entries };
}

// Whether a row comes before that of a client and a filter.
fn is_below(key: &Key, client: ClientKey, filter: &TopicFilter) -> bool
    ensures { result ≡ is_lt (key_cmp key.now (client, filter.now)) }
{
    key.0.cmp(&client).then(key.1.cmp(filter)).is_lt()
}

// Whether a row is that of a client and a filter.
fn is_key(key: &Key, client: ClientKey, filter: &TopicFilter) -> bool
    ensures { result ≡ is_key client filter.now key.now }
{
    client.cmp(&key.0).then(filter.cmp(&key.1)).is_eq()
}

// The number of rows before that of a client and a filter.
fn place(rows: &Rows, client: ClientKey, filter: &TopicFilter) -> usize
    requires { IsAscending rows.now.entries }
    ensures value { result ≡ prefix_len (λ r. is_lt (key_cmp r.0 (client, filter.now))) rows.now.entries }
    ensures bound { result ≤ index_map_len rows.now }
{
    rows.partition_point(
        |key: &Key, _qos: &Qos| -> bool
            ensures { result ≡ is_lt (key_cmp key.now (client, filter.entry.now)) }
        { is_below(key, client, filter) },
    )
}

fn set_row(
    rows: &mut Rows,
    client: ClientKey,
    filter: TopicFilter,
    qos: Qos,
) -> Result<(), AllocError>
    requires { IsAscending rows.old.entries }
    ensures value { OnOk result (rows.new.entries ≡ with_row client filter qos rows.old.entries) }
    ensures unchanged { OnErr result (rows.new.entries ≡ rows.old.entries) }
    ensures refused { OnErr result (row_qos client filter rows.old.entries ≡ None) }
{
    let place = place(rows, client, &filter);
    rows.insert_before(place, (client, filter), qos)?;
    Ok(())
}

fn qos_at(rows: &Rows, client: ClientKey, filter: &TopicFilter) -> Option<Qos>
    requires { IsAscending rows.now.entries }
    ensures { result ≡ row_qos client filter.now rows.now.entries }
{
    match rows.get_index(place(rows, client, filter)) {
        Some((key, qos)) if is_key(key, client, filter) => Some(*qos),
        _ => None,
    }
}

fn drop_row(rows: &mut Rows, client: ClientKey, filter: &TopicFilter)
    ensures { rows.new.entries ≡ without_row client filter.now rows.old.entries }
{
    rows.retain(
        |key: &Key, qos: &mut Qos| -> bool
            ensures { (result ≡ not (is_key client filter.entry.now key.now)) × (qos.new ≡ qos.old) }
        { !is_key(key, client, filter) },
    );
}

fn drop_client(rows: &mut Rows, client: ClientKey)
    ensures { rows.new.entries ≡ without_client client rows.old.entries }
{
    rows.retain(
        |key: &Key, qos: &mut Qos| -> bool
            ensures { (result ≡ not (key.now.0 == client)) × (qos.new ≡ qos.old) }
        { key.0.get() != client.get() },
    );
}

// Adds a matching row. The rows come in the order of their clients, so the client's entry is the
// last one if it exists.
fn note(found: &mut Vec<(ClientKey, Qos)>, client: ClientKey, qos: Qos) -> Result<(), AllocError>
    requires sorted { IsTrue (is_sorted nat_cmp found.old.items) }
    requires up_to { UpTo client found.old.items }
    ensures { OnOk result (found.new.items
        ≡ put nat_cmp client (greater_of qos (qos_of client found.old.items)) found.old.items) }
{
    let count = found.len();
    if count > 0 && found[count - 1].0 == client {
        let last = &mut found[count - 1];
        last.1 = last.1.greater(qos);
    } else {
        found.push((client, qos))?;
    }
    Ok(())
}

fn matched(
    alloc: Global,
    rows: &Rows,
    name: &TopicName,
) -> Result<Vec<(ClientKey, Qos)>, AllocError>
    requires { IsAscending rows.now.entries }
    ensures value { IfOk result (λ found. found.items ≡ matched name.now rows.now.entries) }
    ensures greatest { IfOk result (λ found. IsMatched name.now rows.now.entries found.items) }
{
    let mut found = Vec::new(alloc);
    'rows: for (key, qos) in rows.iter() {
        if matches(&key.1, name) {
            note(&mut found, key.0, *qos)?;
        }
    }
    Ok(found)
}

fn listed(alloc: Global, rows: &Rows) -> Result<Vec<StoreRow>, AllocError>
    requires { IsAscending rows.now.entries }
    ensures value { IfOk result (λ list. list.items ≡ rows.now.entries) }
    ensures ascending { IsAscending rows.now.entries }
{
    let mut list = Vec::with_capacity(alloc, rows.len())?;
    'rows: for (key, qos) in rows.iter() {
        list.push(((key.0, key.1.clone()?), *qos))?;
    }
    Ok(list)
}

impl ListStore {
    /// A store without rows. Allocates when the first row is set.
    pub fn new(alloc: Global) -> ListStore
        ensures { result ≡ [] }
    {
        ListStore {
            alloc,
            rows: IndexMap::new(alloc),
        }
    }
}

impl FilterStore for ListStore {
    ghost rows = { λ s. s };

    fn set(&mut self, client: ClientKey, filter: TopicFilter, qos: Qos) -> Result<(), AllocError> {
        set_row(&mut self.rows, client, filter, qos)
    }

    fn get(&self, client: ClientKey, filter: &TopicFilter) -> Option<Qos> {
        qos_at(&self.rows, client, filter)
    }

    fn len(&self) -> usize {
        self.rows.len()
    }

    fn remove(&mut self, client: ClientKey, filter: &TopicFilter) -> bool {
        let found = qos_at(&self.rows, client, filter).is_some();
        if found {
            drop_row(&mut self.rows, client, filter);
        }
        found
    }

    fn remove_client(&mut self, client: ClientKey) {
        drop_client(&mut self.rows, client);
    }

    fn matching(&self, name: &TopicName) -> Result<Vec<(ClientKey, Qos)>, AllocError> {
        matched(self.alloc, &self.rows, name)
    }

    fn list(&self) -> Result<Vec<StoreRow>, AllocError> {
        listed(self.alloc, &self.rows)
    }
}
