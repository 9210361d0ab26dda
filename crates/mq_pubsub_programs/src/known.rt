//! Payloads that are known before the first one is published.

ghost use Rattle.std.specs.Prelude.{◌≡◌, ◌≢◌, ◌++◌, ◌<◌, ◌≤◌, [], ◌∷◌, get_or, vec_len, IfOk, OnErr};

use crate::supply::InputLine;
use mq_packet::Payload;
use std::alloc::AllocError;

/// A list of payloads, which is taken several times.
#[derive(Drop)]
pub(crate) struct Known {
    /// The payloads of one round.
    pub(crate) payloads: Vec<Payload>,
    /// The number of rounds.
    pub(crate) repeat: u64,
    /// The number of complete rounds.
    pub(crate) rounds: u64,
    /// The number of payloads that were taken since.
    pub(crate) index: usize,
    ghost few_rounds: { rounds ≤ repeat },
    ghost placed: { index ≢ 0 → index < vec_len payloads },
    ghost running: { index ≢ 0 → rounds < repeat },
}

impl Known {
    ghost use Rattle.mq_pubsub_programs.specs.Prelude.{EndsWith, coming_payloads, payloads_in, rounds_of};

    /// Takes these payloads, in order, this many times.
    #[tactic(auto, using(crate::proofs::Rounds::all_rounds))]
    pub(crate) fn new(payloads: Vec<Payload>, repeat: u64) -> Known
        ensures { coming_payloads result ≡ rounds_of payloads.items repeat }
    {
        Known {
            payloads,
            repeat,
            rounds: 0,
            index: 0,
        }
    }

    /// The number of payloads in all rounds.
    pub(crate) fn total(&self) -> u64 {
        let count = u64::try_from(self.payloads.len()).unwrap_or(u64::MAX);
        count.saturating_mul(self.repeat)
    }

    // One more payload was taken.
    #[tactic(auto, using(crate::proofs::Rounds::one_more, crate::proofs::Rounds::round_done))]
    fn advance(&mut self)
        requires within { self.old.index < vec_len self.old.payloads }
        requires more { self.old.rounds < self.old.repeat }
        ensures { coming_payloads self.old
            ≡ get_or self.old.payloads.items self.old.index [] ∷ coming_payloads self.new }
    {
        if self.index + 1 < self.payloads.len() {
            self.index += 1;
            return;
        }
        self.rounds += 1;
        self.index = 0;
    }

    /// The next payload.
    #[tactic(auto, using(crate::proofs::Rounds::rounds_over, crate::proofs::Rounds::nothing_left))]
    pub(crate) fn next(&mut self) -> Result<InputLine, AllocError>
        ensures gives { IfOk result
            (λ line. coming_payloads self.old ≡ payloads_in line ++ coming_payloads self.new) }
        ensures end { IfOk result (EndsWith (coming_payloads self.new)) }
        ensures err { OnErr result (coming_payloads self.new ≡ coming_payloads self.old) }
    {
        if self.rounds >= self.repeat {
            return Ok(InputLine::End);
        }
        if self.index >= self.payloads.len() {
            return Ok(InputLine::End);
        }
        let payload = self.payloads[self.index].clone()?;
        self.advance();
        Ok(InputLine::Line(payload))
    }
}
