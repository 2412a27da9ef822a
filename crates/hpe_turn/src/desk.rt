//! The decoder of one word.
ghost use Rattle.std.specs.Prelude.{◌≡◌, ◌≤◌, ◌+◌, ◌*◌, ◌^◌, ℕ, List, All, length, IfOk};
ghost use Rattle.hpe_base.specs.Bits.{AreBits};
ghost use Rattle.hpe_base.specs.Parameters.{clamp, codeword_symbols, positions, block_bits};
ghost use Rattle.hpe_base.specs.Codeword.{codeword};
ghost use Rattle.hpe_base.specs.Rounds.{Kept, Lost, verdict_of};
ghost use Rattle.hpe_turn.specs.Dominance.{Dominates};
ghost use Rattle.hpe_turn.specs.FirstRight.{IsFirstRight};
ghost use Rattle.hpe_turn.specs.Stages.{round_stages, rounds_made};

use crate::rounds::Rounds;
use crate::verdict::Verdict;
use hpe_base::{NoMemory, Profile, Steps};
use std::alloc::Global;
use std::marker::Model;
use std::sync::ledger::Ledger;

/// A place to decode words at: it owns every list that a round needs, so that decoding takes no memory. It can be used
/// again at once. Contracts see its parameters.
#[derive(Drop)]
pub struct Desk {
    rounds: Rounds,
}

impl Model for Desk {
    ghost use Rattle.hpe_base.specs.Parameters.{Parameters};

    ghost Value = { Parameters };

    ghost view = { λ d. d.rounds.profile };
}

impl Desk {
    /// Takes the memory for the words of a link.
    pub fn new(alloc: Global, p: &Profile) -> Result<Desk, NoMemory>
        ensures { IfOk result (λ d. d ≡ p.now) }
    {
        let rounds = Rounds::new(alloc, p)?;
        Ok(Desk { rounds })
    }

    /// Decodes a word from its sums, and writes its block where it is kept.
    ///
    /// `counts` has a sum for each pulse position of each symbol of the codeword, at most 16,383, and `block` a place for
    /// each information bit of the rate. The word is kept in the first round whose bits end in their own check, of at
    /// most the profile's rounds; else it is lost, and `block` is as before. Where in each symbol the sum of the sent
    /// position is strictly the greatest, the first round keeps what was sent. `steps` counts the trellis stages.
    pub fn decode_word<L: Ledger>(
        &mut self,
        counts: &[u16],
        block: &mut [u8],
        steps: &mut Steps<L>,
    ) -> Verdict
        requires counts { length counts.now ≡ codeword_symbols self.old.order * positions self.old.order }
        requires most { All (λ c. c ≤ clamp) counts.now }
        requires block { length block.old ≡ block_bits self.old.rate }
        requires room { steps.old + self.old.rounds * round_stages self.old ≤ 2 ^ 60 }
        ensures profile { self.new ≡ self.old }
        ensures kept { (round : ℕ) → result ≡ Verdict.Kept round
            → verdict_of self.old counts.now ≡ Kept round block.new }
        ensures lost { result ≡ Verdict.Lost → (verdict_of self.old counts.now ≡ Lost) × (block.new ≡ block.old) }
        ensures bits { (round : ℕ) → result ≡ Verdict.Kept round → AreBits block.new }
        ensures rounds { (round : ℕ) → result ≡ Verdict.Kept round → (1 ≤ round) × (round ≤ self.old.rounds) }
        ensures checked { (round : ℕ) → result ≡ Verdict.Kept round → IsFirstRight self.old counts.now round block.new }
        ensures sent { (sent : List ℕ) → AreBits sent → length sent ≡ block_bits self.old.rate
            → Dominates (positions self.old.order) counts.now (codeword self.old sent) → (result ≡ Verdict.Kept 1)
            × (block.new ≡ sent) }
        ensures cost { steps.new ≡ steps.old + rounds_made self.old result * round_stages self.old }
    {
        self.rounds.decode(counts, block, steps)
    }
}
