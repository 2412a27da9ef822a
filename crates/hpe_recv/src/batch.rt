//! The words that are decoded together: they are loaded until the crew is full or the stream ends, and their verdicts are put
//! in the order in which they came.
ghost use Rattle.std.specs.Prelude.{◌≡◌, ◌≤◌, ◌<◌, ◌+◌, ◌*◌, ◌^◌, ◌++◌, ◌∷◌, [], All, length, take, IfOk, OnOk, OnErr, IsErrOf, None, true, false};
ghost use Rattle.hpe_base.specs.Parameters.{clamp, positions, codeword_symbols, block_bits};
ghost use Rattle.hpe_base.specs.Rounds.{verdict_of};
ghost use Rattle.hpe_io.specs.Standing.{SinkStands};
ghost use Rattle.hpe_crew.specs.Answering.{verdict_with};
ghost use Rattle.hpe_crew.specs.Crewing.{loaded_verdict};
ghost use Rattle.hpe_recv.specs.Causes.{HasCutCause};
ghost use Rattle.hpe_recv.specs.Delivering.{ByAnswer, HasDelivered, PutsLines, PutsPart};
ghost use Rattle.hpe_recv.specs.Batching.{HasBatched, loaded_verdicts, blocks_due};

use crate::outlet::{Cut, Outlet};
use hpe_base::{NoMemory, Profile};
use hpe_crew::{Crew, Gate};
use hpe_io::Sink;
use hpe_turn::Verdict;
use std::alloc::Global;
use std::marker::Model;
use std::thread::Threads;

/// The words that wait for their verdict, and the outlet.
///
/// A full crew is decoded at once, so that there is room for the word that is begun next. The last of its words belongs to
/// the period that runs, since no more than one word is completed in a period; its verdict stands aside until the period
/// is whole.
#[derive(Drop)]
pub struct Batch {
    crew: Crew,
    aside: Option<Verdict>,
    /// The bits of the last block that the crew gave.
    block: Vec<u8>,
    /// Whether the last word was completed in the period that runs.
    late: bool,
    outlet: Outlet,
}

impl Model for Batch {
    ghost use Rattle.hpe_recv.specs.Batching.{Batching};

    ghost Value = { Batching };

    ghost use Rattle.hpe_recv.specs.BatchView.{batching, IsBatching};

    ghost view = { batching };

    ghost invariant = { IsBatching };
}

impl Batch {
    /// A batch without a word. It takes all its memory here.
    pub fn new(alloc: Global, p: &Profile, workers: u32) -> Result<Batch, NoMemory>
        requires workers { (1 ≤ workers) × (workers ≤ 16) }
        ensures profile { IfOk result (λ b. b.crew.parameters ≡ p.now) }
        ensures workers { IfOk result (λ b. b.crew.workers ≡ workers) }
        ensures stands { IfOk result (λ b. (frames : _) (report : _) → HasBatched b [] [] frames frames report report) }
        ensures unspent { IfOk result (λ b. b.outlet.scan.spent ≡ false) }
        ensures blocks { IfOk result (λ b. blocks_due b ≡ 0) }
    {
        let crew = Crew::new(alloc, p, workers)?;
        let outlet = Outlet::new(alloc, p)?;
        let Ok(block) = vec![in alloc; 0; p.rate().block()] else {
            return Err(NoMemory);
        };
        Ok(Batch {
            crew,
            aside: None,
            block,
            late: false,
            outlet,
        })
    }

    /// Takes the sums of a word that is whole, in a period in which no word was completed before. Where the crew is full
    /// with it, its words are decoded, and the verdicts on all but this one are put.
    pub fn word<T: Threads + Sync, G: Gate, O: Sink, R: Sink>(
        &mut self,
        rt: &T,
        gate: &G,
        sums: &[u16],
        frames: &mut O,
        report: &mut R,
    ) -> Result<(), Cut>
        requires sums { length sums.now
            ≡ codeword_symbols self.old.crew.parameters.order * positions self.old.crew.parameters.order }
        requires most { All (λ s. s ≤ clamp) sums.now }
        requires unspent { self.old.outlet.scan.spent ≡ false }
        requires few { blocks_due self.old < 2 ^ 40 }
        ensures profile { self.new.crew.parameters ≡ self.old.crew.parameters }
        ensures workers { self.new.crew.workers ≡ self.old.crew.workers }
        ensures unspent { OnOk result (self.new.outlet.scan.spent ≡ false) }
        ensures blocks { blocks_due self.new ≤ blocks_due self.old + 1 }
        ensures ok { (all : _) (whole : _) (start : _) (begin : _)
            → HasBatched self.old all whole start (O.written frames.old) begin (R.written report.old)
            → self.old.late ≡ false
            → OnOk result (HasBatched self.new (all ++ verdict_of self.old.crew.parameters sums.now ∷ []) all
            start (O.written frames.new) begin (R.written report.new)) }
        ensures cut { (all : _) (whole : _) (start : _) (begin : _)
            → HasBatched self.old all whole start (O.written frames.old) begin (R.written report.old)
            → self.old.late ≡ false
            → OnErr result (PutsPart self.old.crew.parameters all start (O.written frames.new) begin
            (R.written report.new)) }
        ensures lines { (all : _) (whole : _) (start : _) (begin : _)
            → HasBatched self.old all whole start (O.written frames.old) begin (R.written report.old)
            → self.old.late ≡ false
            → IsErrOf result Cut.Frames → PutsLines all begin (R.written report.new) }
        ensures cause { HasCutCause (O.faults frames.old) (O.faults frames.new) (R.faults report.old)
            (R.faults report.new) result }
        ensures frames_stand { SinkStands O.faults O.mark frames.old frames.new }
        ensures report_stands { SinkStands R.faults R.mark report.old report.new }
    {
        self.crew.load(sums);
        self.late = true;
        if !self.crew.full() {
            return Ok(());
        }
        self.crew.decode_all(rt, gate);
        let last = self.crew.loaded() - 1;
        match put_first(
            &self.crew,
            last,
            &mut self.block,
            &mut self.outlet,
            frames,
            report,
        ) {
            Ok(()) => {}
            Err(cut) => {
                self.crew.clear();
                return Err(cut);
            }
        }
        self.aside = Some(fetch(&self.crew, last, &mut self.block));
        self.crew.clear();
        Ok(())
    }

    /// The period is whole: the verdict that stands aside is put, and the last word is one of a whole period.
    pub fn settle<O: Sink, R: Sink>(&mut self, frames: &mut O, report: &mut R) -> Result<(), Cut>
        requires unspent { self.old.outlet.scan.spent ≡ false }
        requires few { blocks_due self.old ≤ 2 ^ 40 }
        ensures profile { self.new.crew ≡ self.old.crew }
        ensures unspent { OnOk result (self.new.outlet.scan.spent ≡ false) }
        ensures blocks { blocks_due self.new ≤ blocks_due self.old }
        ensures ok { (all : _) (whole : _) (start : _) (begin : _)
            → HasBatched self.old all whole start (O.written frames.old) begin (R.written report.old)
            → OnOk result (HasBatched self.new all all start (O.written frames.new) begin (R.written report.new)) }
        ensures cut { (all : _) (whole : _) (start : _) (begin : _)
            → HasBatched self.old all whole start (O.written frames.old) begin (R.written report.old)
            → OnErr result (PutsPart self.old.crew.parameters all start (O.written frames.new) begin
            (R.written report.new)) }
        ensures lines { (all : _) (whole : _) (start : _) (begin : _)
            → HasBatched self.old all whole start (O.written frames.old) begin (R.written report.old)
            → IsErrOf result Cut.Frames → PutsLines whole begin (R.written report.new) }
        ensures cause { HasCutCause (O.faults frames.old) (O.faults frames.new) (R.faults report.old)
            (R.faults report.new) result }
        ensures frames_stand { SinkStands O.faults O.mark frames.old frames.new }
        ensures report_stands { SinkStands R.faults R.mark report.old report.new }
    {
        self.late = false;
        match self.aside.take() {
            Some(verdict) => self.outlet.deliver(verdict, &self.block, frames, report),
            None => Ok(()),
        }
    }

    /// The stream has ended: the verdicts on the words of whole periods are put.
    pub fn finish<T: Threads + Sync, G: Gate, O: Sink, R: Sink>(
        &mut self,
        rt: &T,
        gate: &G,
        frames: &mut O,
        report: &mut R,
    ) -> Result<(), Cut>
        requires unspent { self.old.outlet.scan.spent ≡ false }
        requires few { blocks_due self.old ≤ 2 ^ 40 }
        ensures profile { self.new.crew.parameters ≡ self.old.crew.parameters }
        ensures workers { self.new.crew.workers ≡ self.old.crew.workers }
        ensures scan { self.new.outlet.scan.parameters ≡ self.new.crew.parameters }
        ensures ok { (all : _) (whole : _) (start : _) (begin : _)
            → HasBatched self.old all whole start (O.written frames.old) begin (R.written report.old)
            → OnOk result (HasDelivered self.new.outlet whole start (O.written frames.new) begin
            (R.written report.new)) }
        ensures cut { (all : _) (whole : _) (start : _) (begin : _)
            → HasBatched self.old all whole start (O.written frames.old) begin (R.written report.old)
            → OnErr result (PutsPart self.old.crew.parameters whole start (O.written frames.new) begin
            (R.written report.new)) }
        ensures lines { (all : _) (whole : _) (start : _) (begin : _)
            → HasBatched self.old all whole start (O.written frames.old) begin (R.written report.old)
            → IsErrOf result Cut.Frames → PutsLines whole begin (R.written report.new) }
        ensures cause { HasCutCause (O.faults frames.old) (O.faults frames.new) (R.faults report.old)
            (R.faults report.new) result }
        ensures frames_stand { SinkStands O.faults O.mark frames.old frames.new }
        ensures report_stands { SinkStands R.faults R.mark report.old report.new }
    {
        let count = self.crew.loaded().saturating_sub(u32::from(self.late));
        if count == 0 {
            self.crew.clear();
            return Ok(());
        }
        self.crew.decode_all(rt, gate);
        let done = put_first(
            &self.crew,
            count,
            &mut self.block,
            &mut self.outlet,
            frames,
            report,
        );
        self.crew.clear();
        done
    }

    /// The last stage.
    pub fn outlet(&self) -> &Outlet
        ensures { result.now ≡ self.now.outlet }
    {
        &self.outlet
    }

    /// The number of words that are loaded.
    pub fn loaded(&self) -> u32
        ensures value { result ≡ length self.now.crew.loads }
        ensures most { result < self.now.crew.workers }
        ensures few { result ≤ 16 }
    {
        self.crew.loaded()
    }
}

/// The answer on a decoded word of a crew, whose block is copied where the word is kept.
fn fetch(crew: &Crew, i: u32, block: &mut [u8]) -> Verdict
    requires loaded { i < length crew.now.loads }
    requires decoded { crew.now.decoded ≡ true }
    requires block { length block.old ≡ block_bits crew.now.parameters.rate }
    ensures verdict { verdict_with result block.new ≡ loaded_verdict crew.now i }
    ensures size { length block.new ≡ length block.old }
{
    let verdict = crew.verdict(i);
    match verdict {
        Verdict::Kept { .. } => block.copy_from_slice(crew.block(i)),
        Verdict::Lost => {}
    }
    verdict
}

/// Puts the verdicts on the first `count` words of a crew.
fn put_first<O: Sink, R: Sink>(
    crew: &Crew,
    count: u32,
    block: &mut [u8],
    outlet: &mut Outlet,
    frames: &mut O,
    report: &mut R,
) -> Result<(), Cut>
    requires loaded { count ≤ length crew.now.loads }
    requires decoded { crew.now.decoded ≡ true }
    requires profile { outlet.old.scan.parameters ≡ crew.now.parameters }
    requires block { length block.old ≡ block_bits crew.now.parameters.rate }
    requires unspent { outlet.old.scan.spent ≡ false }
    requires few { outlet.old.scan.blocks + count ≤ 2 ^ 40 }
    ensures profile { outlet.new.scan.parameters ≡ outlet.old.scan.parameters }
    ensures size { length block.new ≡ length block.old }
    ensures unspent { OnOk result (outlet.new.scan.spent ≡ false) }
    ensures blocks { outlet.new.scan.blocks ≤ outlet.old.scan.blocks + count }
    ensures put { (verdicts : _) (start : _) (begin : _) → HasDelivered outlet.old verdicts start
        (O.written frames.old) begin (R.written report.old)
        → let due = verdicts ++ take count (loaded_verdicts crew.now) in ByAnswer result
        (HasDelivered outlet.new due start (O.written frames.new) begin (R.written report.new))
        (PutsPart outlet.old.scan.parameters due start (O.written frames.new) begin (R.written report.new))
        (PutsLines due begin (R.written report.new)) }
    ensures cause { HasCutCause (O.faults frames.old) (O.faults frames.new) (R.faults report.old)
        (R.faults report.new) result }
    ensures frames_stand { SinkStands O.faults O.mark frames.old frames.new }
    ensures report_stands { SinkStands R.faults R.mark report.old report.new }
{
    for i in 0..count {
        let verdict = fetch(crew, i, block);
        match outlet.deliver(verdict, block, frames, report) {
            Ok(()) => {}
            Err(cut) => return Err(cut),
        }
    }
    Ok(())
}
