//! The rows of a store, indexed by client.

ghost use Rattle.std.specs.Prelude.{◌≡◌, ◌++◌, ◌-◌, ◌^◌, length, min, [], ℕ, List, None, MatchOption, IfOk, OnOk, OnErr};
ghost use Rattle.mq_topic.specs.Prelude.{find, nat_cmp, slice_cmp, own_rows, IsAscending, row_qos, with_row, without_client, without_row};

use crate::client::ClientKey;
use crate::filter::TopicFilter;
use crate::qos::Qos;
use crate::store::StoreRow;
use std::alloc::{AllocError, Global};
use std::collections::BTreeMap;
use std::marker::Model;

/// The rows of one client.
pub(crate) type OwnRows = BTreeMap<TopicFilter, Qos>;

/// The rows of a store, indexed by client. Contracts see the list of the rows in ascending order.
#[derive(Drop)]
pub(crate) struct ClientRows {
    alloc: Global,
    clients: BTreeMap<ClientKey, OwnRows>,
}

impl Model for ClientRows {
    ghost use Rattle.std.specs.Prelude.{List};
    ghost use Rattle.mq_topic.specs.ClientRows.{AreClientRows, rows_of};
    ghost use Rattle.mq_topic.specs.Rows.{Row};

    ghost Value = { List Row };

    ghost view = { λ s. rows_of s.clients.entries };

    ghost invariant = { λ s. AreClientRows s.clients.entries };
}

impl ClientRows {
    /// No rows.
    pub(crate) fn new(alloc: Global) -> ClientRows
        ensures { result ≡ [] }
    {
        ClientRows {
            alloc,
            clients: BTreeMap::new(alloc),
        }
    }

    /// Sets the QoS of a client and a filter.
    pub(crate) fn set(
        &mut self,
        client: ClientKey,
        filter: TopicFilter,
        qos: Qos,
    ) -> Result<(), AllocError>
        ensures value { OnOk result (self.new ≡ with_row client filter qos self.old) }
        ensures unchanged { OnErr result (self.new ≡ self.old) }
        ensures refused { OnErr result (row_qos client filter self.old ≡ None) }
    {
        if let Some(own) = self.clients.get_mut(&client) {
            own.insert(filter, qos)?;
            return Ok(());
        }
        let mut own = BTreeMap::new(self.alloc);
        own.insert(filter, qos)?;
        self.clients.insert(client, own)?;
        Ok(())
    }

    /// Returns the QoS of a client and a filter.
    pub(crate) fn get(&self, client: ClientKey, filter: &TopicFilter) -> Option<Qos>
        ensures value { result ≡ row_qos client filter.now self.now }
        ensures ascending { IsAscending self.now }
    {
        match self.clients.get(&client) {
            Some(own) => own.get(filter).copied(),
            None => None,
        }
    }

    /// Returns the number of rows.
    pub(crate) fn len(&self) -> usize
        ensures { result ≡ min (length self.now) (2 ^ 64 - 1) }
    {
        let mut count = 0_usize;
        for (_, own) in self.clients.iter() {
            count = count.saturating_add(own.len());
        }
        count
    }

    /// Returns all rows in ascending order.
    pub(crate) fn list(&self) -> Result<Vec<StoreRow>, AllocError>
        ensures value { IfOk result (λ list. list.items ≡ self.now) }
        ensures ascending { IsAscending self.now }
    {
        let mut list = Vec::with_capacity(self.alloc, self.len())?;
        for (client, own) in self.clients.iter() {
            list_own(&mut list, *client, own)?;
        }
        Ok(list)
    }

    /// Removes the row of a client and a filter.
    pub(crate) fn remove(&mut self, client: ClientKey, filter: &TopicFilter)
        ensures { self.new ≡ without_row client filter.now self.old }
    {
        let Some(own) = self.clients.get_mut(&client) else {
            return;
        };
        own.remove(filter);
        if own.is_empty() {
            self.clients.remove(&client);
        }
    }

    /// Removes all rows of a client and returns them.
    pub(crate) fn take_client(&mut self, client: ClientKey) -> Option<OwnRows>
        ensures rest { self.new ≡ without_client client self.old }
        ensures own { MatchOption result ((f : List ℕ) → row_qos client f self.old ≡ None)
            (λ own. (f : List ℕ) → row_qos client f self.old ≡ find (slice_cmp nat_cmp) f own.entries) }
    {
        self.clients.remove(&client)
    }
}

// Appends the rows of one client.
fn list_own(list: &mut Vec<StoreRow>, client: ClientKey, own: &OwnRows) -> Result<(), AllocError>
    ensures { OnOk result (list.new.items ≡ list.old.items ++ own_rows client own.now.entries) }
{
    for (filter, qos) in own.iter() {
        list.push(((client, filter.clone()?), *qos))?;
    }
    Ok(())
}
