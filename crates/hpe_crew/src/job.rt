// One job of a crew.
ghost use Rattle.std.specs.Prelude.{◌≡◌, ◌≤◌, ◌<◌, ◌*◌, All, length, Some, None, IfOk, true};
ghost use Rattle.std.specs.Option.{option_map};
ghost use Rattle.hpe_base.specs.Parameters.{clamp, positions, codeword_symbols, block_bits};
ghost use Rattle.hpe_base.specs.Rounds.{verdict_of};
ghost use Rattle.hpe_base.specs.Decoded.{block_of, is_kept};
ghost use Rattle.hpe_crew.specs.Answering.{verdict_with, answer_of};
ghost use Rattle.hpe_crew.specs.Working.{answered};

use hpe_base::{NoMemory, Profile, Steps};
use hpe_turn::{Desk, Verdict};
use std::alloc::Global;
use std::marker::{Brand, Model};
use std::sync::ledger::{Blank, Ledger};

/// A place for one word, with all that its decoding needs.
#[derive(Drop)]
pub(crate) struct Job {
    desk: Desk,
    sums: Vec<u16>,
    block: Vec<u8>,
    /// The answer on the word, where it is decoded.
    verdict: Option<Verdict>,
}

impl Model for Job {
    ghost use Rattle.hpe_crew.specs.Working.{Working};

    ghost Value = { Working };

    ghost use Rattle.hpe_crew.specs.JobView.{working, IsWorking};

    ghost view = { working };

    ghost invariant = { IsWorking };
}

/// Decodes a word, by the counter of its stages that the blank opens.
fn counted<L: Ledger>(desk: &mut Desk, sums: &[u16], block: &mut [u8], blank: Blank) -> Verdict
    requires name { blank.name ≡ L.name }
    requires parts { blank.parts ≡ L.parts }
    requires some { 0 < blank.parts }
    requires sums { length sums.now ≡ codeword_symbols desk.old.order * positions desk.old.order }
    requires most { All (λ s. s ≤ clamp) sums.now }
    requires block { length block.old ≡ block_bits desk.old.rate }
    requires rounds { desk.old.rounds ≤ 64 }
    ensures desk { desk.new ≡ desk.old }
    ensures size { length block.new ≡ length block.old }
    ensures verdict { verdict_of desk.old sums.now ≡ verdict_with result block.new }
{
    let mut steps = Steps::<L>::new(blank);
    desk.decode_word(sums, block, &mut steps)
}

/// Decodes a word, and writes its block where it is kept. The stages are not counted.
fn decode(desk: &mut Desk, sums: &[u16], block: &mut [u8]) -> Verdict
    requires sums { length sums.now ≡ codeword_symbols desk.old.order * positions desk.old.order }
    requires most { All (λ s. s ≤ clamp) sums.now }
    requires block { length block.old ≡ block_bits desk.old.rate }
    requires rounds { desk.old.rounds ≤ 64 }
    ensures desk { desk.new ≡ desk.old }
    ensures size { length block.new ≡ length block.old }
    ensures verdict { verdict_of desk.old sums.now ≡ verdict_with result block.new }
{
    counted::<Brand>(desk, sums, block, Blank::new(1))
}

impl Job {
    /// A job with a word of zeros.
    pub(crate) fn new(alloc: Global, p: &Profile) -> Result<Job, NoMemory>
        ensures profile { IfOk result (λ j. j.parameters ≡ p.now) }
    {
        let desk = Desk::new(alloc, p)?;
        let Ok(sums) = vec![in alloc; 0; p.order().symbols() * p.order().slots()] else {
            return Err(NoMemory);
        };
        let Ok(block) = vec![in alloc; 0; p.rate().block()] else {
            return Err(NoMemory);
        };
        Ok(Job {
            desk,
            sums,
            block,
            verdict: None,
        })
    }

    /// Takes the next word, which is not decoded.
    pub(crate) fn load(&mut self, counts: &[u16])
        requires counts { length counts.now
            ≡ codeword_symbols self.old.parameters.order * positions self.old.parameters.order }
        requires most { All (λ c. c ≤ clamp) counts.now }
        ensures { self.new ≡ record self.old { sums = counts.now; verdict = None } }
    {
        self.sums.copy_from_slice(counts);
        self.verdict = None;
    }

    /// Decodes the word.
    pub(crate) fn decode(&mut self)
        ensures { self.new ≡ answered self.old }
    {
        self.verdict = Some(decode(&mut self.desk, &self.sums, &mut self.block));
    }

    /// The answer on the word, where it is decoded.
    pub(crate) fn verdict(&self) -> Option<Verdict>
        ensures { result ≡ option_map answer_of self.now.verdict }
    {
        self.verdict
    }

    /// The block of a word that is kept.
    pub(crate) fn block(&self) -> &[u8]
        requires { option_map is_kept self.now.verdict ≡ Some true }
        ensures value { option_map block_of self.now.verdict ≡ Some (Some result.now) }
        ensures size { length result.now ≡ block_bits self.now.parameters.rate }
    {
        &self.block
    }
}
