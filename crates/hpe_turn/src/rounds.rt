//! The rounds on a word.
ghost use Rattle.std.specs.Prelude.{◌≡◌, ◌<◌, ◌≤◌, ◌+◌, ◌*◌, ◌^◌, ℕ, All, length, pos, replicate, IfOk};
ghost use Rattle.hpe_base.specs.Bits.{AreBits};
ghost use Rattle.hpe_base.specs.Sizes.{number_at, AllWithin};
ghost use Rattle.hpe_base.specs.Parameters.{clamp, IsValid, information_bits, codeword_bits, codeword_symbols, positions, code_steps, block_bits};
ghost use Rattle.hpe_base.specs.SoftValues.{code_soft_value};
ghost use Rattle.hpe_base.specs.Rounds.{Kept, Lost, outer_numbers, hard_bits, next_numbers, verdict_of};
ghost use Rattle.hpe_turn.specs.Room.{HasRoom};
ghost use Rattle.hpe_turn.specs.FirstRight.{IsFirstRight};
ghost use Rattle.hpe_turn.specs.Stages.{round_stages, rounds_made};

use crate::extrinsic::{decide, extrinsic};
use crate::inverse::InverseTable;
use crate::verdict::Verdict;
use hpe_base::{CODE_BITS, NoMemory, Profile, Steps};
use hpe_block::open_block;
use hpe_code::CodeTables;
use hpe_inner::{inner_rows, inner_soft};
use hpe_trellis::{outer_rows, outer_soft};
use std::alloc::Global;
use std::sync::ledger::Ledger;

/// A list of so many zeros or rows of zeros.
fn zeros<T: Copy + Default>(alloc: Global, n: usize) -> Result<Vec<T>, NoMemory>
    ensures { IfOk result (λ v. length v.items ≡ n) }
{
    vec![in alloc; T::default(); n].map_err(|_| NoMemory)
}

/// The lists that the rounds work on. A number or a value belongs to a code bit, unless something else is said.
#[derive(Drop)]
pub(crate) struct Rounds {
    pub(crate) profile: Profile,
    tables: CodeTables,
    inverse: InverseTable,
    /// The a-priori numbers of the code of the present half: those of the inner code are in the order of the code
    /// interleaver.
    numbers: Vec<i32>,
    inner_rows: Vec<[i32; 2]>,
    outer_rows: Vec<[i32; 4]>,
    /// The soft values that this code gives, and then what it gives to the other one, in its own order.
    soft: Vec<i32>,
    /// The soft values of the information bits, and what they decide.
    information: Vec<i32>,
    hard: Vec<u8>,
    ghost valid: { IsValid profile },
    ghost room: { HasRoom profile numbers.items inner_rows.items outer_rows.items soft.items information.items hard.items },
}

impl Rounds {
    /// Makes all lists.
    pub(crate) fn new(alloc: Global, p: &Profile) -> Result<Rounds, NoMemory>
        ensures { IfOk result (λ r. r.profile ≡ p.now) }
    {
        let information = p.rate().information();
        let tables = CodeTables::new(alloc)?;
        let inverse = InverseTable::new(alloc, &tables)?;
        Ok(Rounds {
            profile: p.copy(),
            tables,
            inverse,
            numbers: zeros(alloc, CODE_BITS)?,
            inner_rows: zeros(alloc, inner_rows(p.order().symbols()))?,
            outer_rows: zeros(alloc, outer_rows(p.rate().steps()))?,
            soft: zeros(alloc, CODE_BITS)?,
            information: zeros(alloc, information)?,
            hard: zeros(alloc, information)?,
        })
    }

    /// Begins with a word: the first round has no a-priori numbers.
    fn begin(&mut self)
        ensures profile { self.new.profile ≡ self.old.profile }
        ensures numbers { self.new.numbers.items ≡ replicate codeword_bits (pos 0) }
    {
        self.numbers.fill(0);
    }

    /// The first half of a round: what the inner code gives to the outer one.
    fn inner_half<L: Ledger>(&mut self, counts: &[u16], steps: &mut Steps<L>)
        requires counts { length counts.now
            ≡ codeword_symbols self.old.profile.order * positions self.old.profile.order }
        requires most { All (λ c. c ≤ clamp) counts.now }
        requires small { AllWithin clamp self.old.numbers.items }
        requires room { steps.old + 3 * codeword_symbols self.old.profile.order ≤ 2 ^ 60 }
        ensures profile { self.new.profile ≡ self.old.profile }
        ensures numbers { self.new.numbers.items
            ≡ outer_numbers self.old.profile counts.now self.old.numbers.items }
        ensures small { AllWithin clamp self.new.numbers.items }
        ensures cost { steps.new ≡ steps.old + 3 * codeword_symbols self.old.profile.order }
    {
        inner_soft(
            self.profile.order(),
            counts,
            &self.numbers,
            &mut self.inner_rows,
            &mut self.soft,
            steps,
        );
        let scale = self.profile.scale();
        extrinsic(scale, &mut self.soft, &self.numbers);
        self.inverse.deinterleave(&self.soft, &mut self.numbers);
    }

    /// The second half of a round: what the outer code decides.
    fn outer_half<L: Ledger>(&mut self, steps: &mut Steps<L>)
        requires small { AllWithin clamp self.old.numbers.items }
        requires room { steps.old + 3 * code_steps self.old.profile.rate ≤ 2 ^ 60 }
        ensures profile { self.new.profile ≡ self.old.profile }
        ensures numbers { self.new.numbers.items ≡ self.old.numbers.items }
        ensures soft { (i : ℕ) → i < codeword_bits
            → number_at self.new.soft.items i
            ≡ code_soft_value self.old.profile.columns self.old.numbers.items
            (information_bits self.old.profile.rate) i }
        ensures hard { self.new.hard.items ≡ hard_bits self.old.profile self.old.numbers.items }
        ensures bits { AreBits self.new.hard.items }
        ensures cost { steps.new ≡ steps.old + 3 * code_steps self.old.profile.rate }
    {
        outer_soft(
            self.profile.columns(),
            &self.numbers,
            &mut self.outer_rows,
            &mut self.information,
            &mut self.soft,
            steps,
        );
        decide(&self.information, &mut self.hard);
    }

    /// What the outer code gives to the inner one for the next round.
    fn hand_back(&mut self)
        requires soft { (i : ℕ) → i < codeword_bits
            → number_at self.old.soft.items i
            ≡ code_soft_value self.old.profile.columns self.old.numbers.items
            (information_bits self.old.profile.rate) i }
        requires small { AllWithin clamp self.old.numbers.items }
        ensures profile { self.new.profile ≡ self.old.profile }
        ensures numbers { self.new.numbers.items ≡ next_numbers self.old.profile self.old.numbers.items }
        ensures small { AllWithin clamp self.new.numbers.items }
    {
        let scale = self.profile.scale();
        extrinsic(scale, &mut self.soft, &self.numbers);
        self.tables.interleave(&self.soft, &mut self.numbers);
    }

    /// Makes rounds on a word up to the first that is right, and writes its block.
    pub(crate) fn decode<L: Ledger>(
        &mut self,
        counts: &[u16],
        block: &mut [u8],
        steps: &mut Steps<L>,
    ) -> Verdict
        requires counts { length counts.now
            ≡ codeword_symbols self.old.profile.order * positions self.old.profile.order }
        requires most { All (λ c. c ≤ clamp) counts.now }
        requires block { length block.old ≡ block_bits self.old.profile.rate }
        requires room { steps.old + self.old.profile.rounds * round_stages self.old.profile ≤ 2 ^ 60 }
        ensures profile { self.new.profile ≡ self.old.profile }
        ensures kept { (round : ℕ) → result ≡ Verdict.Kept round
            → verdict_of self.old.profile counts.now ≡ Kept round block.new }
        ensures lost { result ≡ Verdict.Lost → (verdict_of self.old.profile counts.now ≡ Lost)
            × (block.new ≡ block.old) }
        ensures bits { (round : ℕ) → result ≡ Verdict.Kept round → AreBits block.new }
        ensures rounds { (round : ℕ) → result ≡ Verdict.Kept round → (1 ≤ round) × (round ≤ self.old.profile.rounds) }
        ensures checked { (round : ℕ) → result ≡ Verdict.Kept round
            → IsFirstRight self.old.profile counts.now round block.new }
        ensures cost { steps.new ≡ steps.old + rounds_made self.old.profile result * round_stages self.old.profile }
    {
        self.begin();
        for before in 0..self.profile.rounds() {
            self.inner_half(counts, steps);
            self.outer_half(steps);
            if open_block(&self.profile, &self.hard, block).is_some() {
                return Verdict::Kept { round: before + 1 };
            }
            self.hand_back();
        }
        Verdict::Lost
    }
}
