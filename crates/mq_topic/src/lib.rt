//! Topic names and topic filters (4.7), which filters match a name, stores of subscriptions, and
//! the quality of service (4.3).
//!
//! A call that may allocate says so in its return type; other calls never allocate.
//! On `Err` the receiver is unchanged unless stated otherwise.
#![tactic(auto)]

mod children;
mod client;
mod client_rows;
mod clients;
mod fault;
mod filter;
mod level;
mod level_map;
mod level_texts;
mod list_store;
mod matching;
mod name;
mod ord;
mod qos;
mod store;
mod trie_nodes;
mod trie_store;
mod trie_walk;

pub use crate::client::ClientKey;
pub use crate::fault::{TopicFault, topic_laws};
pub use crate::filter::{TopicFilter, is_topic_filter};
pub use crate::list_store::ListStore;
pub use crate::matching::matches;
pub use crate::name::{TopicName, is_topic_name};
pub use crate::qos::{Qos, qos_order_law};
pub use crate::store::{FilterStore, StoreRow, store_laws};
pub use crate::trie_store::TrieStore;
