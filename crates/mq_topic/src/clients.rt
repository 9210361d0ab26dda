//! The clients at a node of the trie.

ghost use Rattle.std.specs.Prelude.{◌≡◌, ℕ, None, Some, IsSome, IfOk, OnOk, OnErr, if◌then◌else◌};
ghost use Rattle.mq_topic.specs.Prelude.{MatchBool, lookup, is_eq, nat_cmp, ClientIn, client_in};

use crate::client::ClientKey;
use crate::qos::Qos;
use std::alloc::{AllocError, Global};
use std::collections::BTreeMap;

/// Clients with their QoS. A single client needs no allocation.
#[derive(Drop)]
pub(crate) enum Clients {
    /// No client.
    Nobody,
    /// One client.
    One(ClientKey, Qos),
    /// A map of clients, which may have become small again.
    Several(BTreeMap<ClientKey, Qos>),
}

impl Clients {
    /// Sets the QoS of a client. Never fails if the client is stored already.
    pub(crate) fn set(
        &mut self,
        alloc: Global,
        client: ClientKey,
        qos: Qos,
    ) -> Result<(), AllocError>
        ensures set { OnOk result (ClientIn client (Some qos) self.old self.new) }
        ensures unchanged { OnErr result ((c : ℕ) → client_in c self.new ≡ client_in c self.old) }
        ensures refused { OnErr result (client_in client self.old ≡ None) }
    {
        match self {
            Clients::Nobody => {
                *self = Clients::One(client, qos);
                Ok(())
            }
            Clients::One(only, its) => {
                if client == *only {
                    *self = Clients::One(client, qos);
                    return Ok(());
                }
                let both = both(alloc, *only, *its, client, qos)?;
                *self = Clients::Several(both);
                Ok(())
            }
            Clients::Several(clients) => {
                clients.insert(client, qos)?;
                Ok(())
            }
        }
    }

    /// Removes a client.
    pub(crate) fn take(&mut self, client: ClientKey)
        ensures { ClientIn client None self.old self.new }
    {
        match self {
            Clients::Nobody => {}
            Clients::One(only, _) => {
                if client == *only {
                    *self = Clients::Nobody;
                }
            }
            Clients::Several(clients) => {
                clients.remove(&client);
            }
        }
    }

    /// Whether there is no client.
    pub(crate) fn is_empty(&self) -> bool
        ensures { MatchBool result ((c : ℕ) → client_in c self.now ≡ None) ((c : ℕ) × IsSome (client_in c self.now)) }
    {
        match self {
            Clients::Nobody => true,
            Clients::One(_, _) => false,
            Clients::Several(clients) => clients.is_empty(),
        }
    }
}

fn both(
    alloc: Global,
    first: ClientKey,
    first_qos: Qos,
    second: ClientKey,
    second_qos: Qos,
) -> Result<BTreeMap<ClientKey, Qos>, AllocError>
    ensures { IfOk result (λ map. (c : ℕ) → lookup (λ d. is_eq (nat_cmp c d)) map.entries
        ≡ (if is_eq (nat_cmp second c) then Some second_qos else (if is_eq (nat_cmp first c) then Some first_qos else None))) }
{
    let mut clients = BTreeMap::new(alloc);
    clients.insert(first, first_qos)?;
    clients.insert(second, second_qos)?;
    Ok(clients)
}
