//! The messages that a side accepted and delivered.

ghost use Rattle.std.specs.Prelude.{◌≡◌, ◌∷◌, ℕ, [], OnOk, OnErr, nat_eq};
ghost use Rattle.std.specs.HashMap.{get};
ghost use Rattle.std.specs.Option.{unwrap_or};
ghost use Rattle.mq_world.specs.Half.{last_place};

use mq_end::{Happening, Progress};
use mq_packet::{Message, PacketId};
use mq_topic::Qos;
use std::alloc::{AllocError, Global};
use std::collections::HashMap;

/// The messages that one side accepted from its user and delivered to it, in order, by QoS (4.3).
#[derive(Debug, Drop)]
pub struct Account {
    /// The messages of quality of service 0 that it accepted.
    pub accepted_at_most_once: Vec<Message>,
    /// The messages of quality of service 1 that it accepted, with the identifiers that they were
    /// given.
    pub accepted_at_least_once: Vec<(PacketId, Message)>,
    /// The messages of quality of service 2 that it accepted.
    pub accepted_exactly_once: Vec<Message>,
    /// The delivered messages with QoS 0.
    pub handed_at_most_once: Vec<Message>,
    /// The delivered messages with QoS 1.
    pub handed_at_least_once: Vec<Message>,
    /// The delivered messages with QoS 2.
    pub handed_exactly_once: Vec<Message>,
    /// The places, among the messages of quality of service 1 that it accepted, of those that were
    /// acknowledged to it.
    pub freed: Vec<usize>,
    // The place of the last message of quality of service 1 that was given each identifier.
    places: HashMap<u16, usize>,
    ghost last_places: { (i : ℕ) → unwrap_or (get nat_eq places i) 0 ≡ last_place i accepted_at_least_once.items },
}

impl Account {
    ghost use Rattle.mq_world.specs.Prelude.{answered_identifier, accepted_with, freed_with, none_accepted, none_handed, handed_with, accepted_in, handed_in, accepted_count, handed_count, TellsMore, HandedGrows, FreedGrows};

    /// An account without messages.
    pub fn new(alloc: Global) -> Account
        ensures accepted { accepted_in result ≡ none_accepted }
        ensures handed { handed_in result ≡ none_handed }
        ensures freed { result.freed.items ≡ [] }
    {
        Account {
            accepted_at_most_once: Vec::new(alloc),
            accepted_at_least_once: Vec::new(alloc),
            accepted_exactly_once: Vec::new(alloc),
            handed_at_most_once: Vec::new(alloc),
            handed_at_least_once: Vec::new(alloc),
            handed_exactly_once: Vec::new(alloc),
            freed: Vec::new(alloc),
            places: HashMap::new(alloc),
        }
    }

    /// Returns how many messages of quality of service `qos` the side accepted.
    pub fn accepted(&self, qos: Qos) -> usize
        ensures { result ≡ accepted_count qos (accepted_in self.now) }
    {
        match qos {
            Qos::Q0 => self.accepted_at_most_once.len(),
            Qos::Q1 => self.accepted_at_least_once.len(),
            Qos::Q2 => self.accepted_exactly_once.len(),
        }
    }

    /// Returns the number of delivered messages with this QoS.
    pub fn handed(&self, qos: Qos) -> usize
        ensures { result ≡ handed_count qos (handed_in self.now) }
    {
        match qos {
            Qos::Q0 => self.handed_at_most_once.len(),
            Qos::Q1 => self.handed_at_least_once.len(),
            Qos::Q2 => self.handed_exactly_once.len(),
        }
    }

    // Records that the side accepted `message`, under the identifier `id` if it has one.
    pub(crate) fn accept(
        &mut self,
        id: Option<PacketId>,
        message: Message,
    ) -> Result<(), AllocError>
        ensures accepted { OnOk result ((i : ℕ) → id ≡ answered_identifier message.qos i
            → accepted_in self.new ≡ accepted_with message.qos i message (accepted_in self.old)) }
        ensures handed { handed_in self.new ≡ handed_in self.old }
        ensures freed { self.new.freed.items ≡ self.old.freed.items }
        ensures err { OnErr result (accepted_in self.new ≡ accepted_in self.old) }
    {
        match (message.qos, id) {
            (Qos::Q0, _) => self.accepted_at_most_once.push(message)?,
            (Qos::Q1, Some(id)) => {
                let place = self.accepted_at_least_once.len();
                self.accepted_at_least_once.reserve(1)?;
                self.places.insert(id.get(), place)?;
                self.accepted_at_least_once.push_reserved((id, message));
            }
            (Qos::Q1, None) => (),
            (Qos::Q2, _) => self.accepted_exactly_once.push(message)?,
        }
        Ok(())
    }

    // Records that the side delivered `message`.
    fn hand(&mut self, message: Message) -> Result<(), AllocError>
        ensures handed { OnOk result (handed_in self.new ≡ handed_with (Happening.Handed message ∷ []) (handed_in self.old)) }
        ensures accepted { accepted_in self.new ≡ accepted_in self.old }
        ensures freed { self.new.freed.items ≡ self.old.freed.items }
        ensures err { OnErr result (handed_in self.new ≡ handed_in self.old) }
    {
        match message.qos {
            Qos::Q0 => self.handed_at_most_once.push(message)?,
            Qos::Q1 => self.handed_at_least_once.push(message)?,
            Qos::Q2 => self.handed_exactly_once.push(message)?,
        }
        Ok(())
    }

    // Records the messages that `happenings` deliver.
    #[tactic(auto, using(crate::proofs::Growing::handed_none, crate::proofs::Growing::handed_more_grows, crate::proofs::Growing::handed_still_grows))]
    fn hand_all(&mut self, happenings: &[Happening]) -> Result<(), AllocError>
        ensures handed { OnOk result (handed_in self.new ≡ handed_with happenings.now (handed_in self.old)) }
        ensures accepted { accepted_in self.new ≡ accepted_in self.old }
        ensures freed { self.new.freed.items ≡ self.old.freed.items }
        ensures grows { HandedGrows (handed_in self.old) (handed_in self.new) }
    {
        for happening in happenings {
            if let Happening::Handed(message) = happening {
                self.hand(message.clone()?)?;
            }
        }
        Ok(())
    }

    // Records the places of the messages with the acknowledged identifiers.
    #[tactic(auto, using(crate::proofs::Growing::freed_none, crate::proofs::Growing::freed_more_grows))]
    fn free_all(&mut self, acknowledged: &[PacketId]) -> Result<(), AllocError>
        ensures freed { OnOk result (self.new.freed.items
            ≡ freed_with self.old.accepted_at_least_once.items acknowledged.now self.old.freed.items) }
        ensures accepted { accepted_in self.new ≡ accepted_in self.old }
        ensures handed { handed_in self.new ≡ handed_in self.old }
        ensures grows { FreedGrows self.old.freed.items self.new.freed.items }
    {
        for id in acknowledged {
            let place = self.places.get(&id.get()).copied().unwrap_or(0);
            self.freed.push(place)?;
        }
        Ok(())
    }

    // Records the effect of received bytes.
    #[tactic(auto, using(crate::proofs::Growing::tells_handed, crate::proofs::Growing::tells_freed))]
    pub(crate) fn tell(&mut self, progress: &Progress) -> Result<(), AllocError>
        ensures handed { OnOk result (handed_in self.new ≡ handed_with progress.now.happenings (handed_in self.old)) }
        ensures freed { OnOk result (self.new.freed.items
            ≡ freed_with (accepted_in self.old).at_least_once progress.now.acknowledged self.old.freed.items) }
        ensures accepted { accepted_in self.new ≡ accepted_in self.old }
        ensures grows { TellsMore self.old self.new }
    {
        self.hand_all(progress.happenings.as_slice())?;
        self.free_all(progress.acknowledged.as_slice())
    }
}
