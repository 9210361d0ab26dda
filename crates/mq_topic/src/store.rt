//! Stores of subscriptions.

ghost use Rattle.std.specs.Prelude.{◌≡◌, ◌-◌, ◌^◌, List, length, min, None, IfOk, OnOk, OnErr, is_some};
ghost use Rattle.mq_topic.specs.Prelude.{Row, IsAscending, IsMatched, matched, row_qos, with_row, without_client, without_row, StoreLaws};

use crate::client::ClientKey;
use crate::filter::TopicFilter;
use crate::name::TopicName;
use crate::qos::Qos;
use std::alloc::AllocError;

/// A row of a store: a client and a filter, with the granted QoS (3.8.4).
pub type StoreRow = ((ClientKey, TopicFilter), Qos);

/// A store of subscriptions (3.8.4): a map from client and topic filter to the granted QoS.
/// Contracts see the list of its rows, ordered by client and then by the bytes of the filter; so
/// stores with equal maps are equal.
pub trait FilterStore {
    // The rows in ascending order.
    ghost rows: { Self → List Row };

    /// Sets the QoS of a client and a filter. Never fails if the row exists already.
    fn set(&mut self, client: ClientKey, filter: TopicFilter, qos: Qos) -> Result<(), AllocError>
        ensures value { OnOk result (rows self.new ≡ with_row client filter qos (rows self.old)) }
        ensures unchanged { OnErr result (rows self.new ≡ rows self.old) }
        ensures refused { OnErr result (row_qos client filter (rows self.old) ≡ None) };

    /// Returns the QoS of a client and a filter.
    fn get(&self, client: ClientKey, filter: &TopicFilter) -> Option<Qos>
        ensures value { result ≡ row_qos client filter.now (rows self.now) }
        ensures ascending { IsAscending (rows self.now) };

    /// Returns the number of rows.
    fn len(&self) -> usize
        ensures count { result ≡ min (length (rows self.now)) (2 ^ 64 - 1) };

    /// Removes the row of a client and a filter. Returns whether it existed.
    fn remove(&mut self, client: ClientKey, filter: &TopicFilter) -> bool
        ensures value { rows self.new ≡ without_row client filter.now (rows self.old) }
        ensures found { result ≡ is_some (row_qos client filter.now (rows self.old)) };

    /// Removes all rows of a client.
    fn remove_client(&mut self, client: ClientKey)
        ensures { rows self.new ≡ without_client client (rows self.old) };

    /// Returns each client with a filter that matches the name, once, in ascending order, with the
    /// greatest QoS of its matching rows (3.3.5).
    fn matching(&self, name: &TopicName) -> Result<Vec<(ClientKey, Qos)>, AllocError>
        ensures value { IfOk result (λ found. found.items ≡ matched name.now (rows self.now)) }
        ensures greatest { IfOk result (λ found. IsMatched name.now (rows self.now) found.items) };

    /// Returns all rows in ascending order. Their filters share their bytes with the store.
    fn list(&self) -> Result<Vec<StoreRow>, AllocError>
        ensures value { IfOk result (λ list. list.items ≡ rows self.now) }
        ensures ascending { IsAscending (rows self.now) };
}

/// The laws of stores: the QoS of each row after each call, that a map has exactly one ordered list
/// of rows, and that `matching` returns the greatest QoS of each client.
pub fn store_laws()
    ensures { StoreLaws }
{}
