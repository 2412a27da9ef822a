//! The counts from the first marker on, in pieces of any length.
ghost use Rattle.std.specs.Prelude.{◌≡◌, ◌≤◌, ◌<◌, ◌+◌, ◌*◌, ◌/◌, ◌^◌, ◌++◌, [], length, take, IfOk, OnOk, OnErr, IsErrOf, false};
ghost use Rattle.hpe_base.specs.Parameters.{positions, symbol_slots, interleaver_depth, codeword_symbols};
ghost use Rattle.hpe_io.specs.Standing.{SinkStands};
ghost use Rattle.hpe_weave.specs.Unweaving.{waiting_in};
ghost use Rattle.hpe_recv.specs.Batching.{blocks_due};
ghost use Rattle.hpe_recv.specs.Causes.{HasCutCause};
ghost use Rattle.hpe_recv.specs.Delivering.{HasDelivered, PutsLines, PutsPart};
ghost use Rattle.hpe_recv.specs.Settled.{settled, verdicts_on};
ghost use Rattle.hpe_recv.specs.Streaming.{HasCollected, HasSettled, HasTaken};
ghost use Rattle.hpe_rows.specs.Rows.{placed_rows};

use crate::batch::Batch;
use crate::outlet::{Cut, Outlet};
use hpe_base::{NoMemory, Profile};
use hpe_crew::Gate;
use hpe_io::Sink;
use hpe_rows::{Rows, Taken};
use std::alloc::Global;
use std::marker::Model;
use std::thread::Threads;

/// A stream of counts that begins with a codeword marker. A row of sums is put straight to its place in its word.
///
/// A word that is whole goes to the batch at once, and is settled at the end of its period, since the rows of a period
/// that the stream doesn't end play no part. No more than one word is completed in a period.
#[derive(Drop)]
pub struct Stream {
    rows: Rows,
    /// The sums of a word, of which the first `filled` rows have come.
    sums: Vec<u16>,
    filled: usize,
    batch: Batch,
}

impl Model for Stream {
    ghost use Rattle.hpe_recv.specs.Streaming.{Streaming};

    ghost Value = { Streaming };

    ghost use Rattle.hpe_recv.specs.StreamView.{streaming, IsStreaming};

    ghost view = { streaming };

    ghost invariant = { IsStreaming };
}

impl Stream {
    /// A stream of which nothing has come. It takes all its memory here.
    pub fn new(alloc: Global, p: &Profile, workers: u32) -> Result<Stream, NoMemory>
        requires workers { (1 ≤ workers) × (workers ≤ 16) }
        ensures workers { IfOk result (λ s. s.batch.crew.workers ≡ workers) }
        ensures profile { IfOk result (λ s. s.rows.parameters ≡ p.now) }
        ensures blocks { IfOk result (λ s. blocks_due s.batch ≡ 0) }
        ensures stands { IfOk result (λ s. (frames : _) (report : _) → HasTaken s [] frames frames report report) }
        ensures unspent { IfOk result (λ s. s.batch.outlet.scan.spent ≡ false) }
    {
        let rows = Rows::new(alloc, p)?;
        let batch = Batch::new(alloc, p, workers)?;
        let Ok(sums) = vec![in alloc; 0; p.order().symbols() * p.order().slots()] else {
            return Err(NoMemory);
        };
        Ok(Stream {
            rows,
            sums,
            filled: 0,
            batch,
        })
    }

    /// Takes counts up to the end of a symbol, or as many as there are, and hands on the word that is whole with them.
    fn collect<T: Threads + Sync, G: Gate, O: Sink, R: Sink>(
        &mut self,
        rt: &T,
        gate: &G,
        counts: &[u16],
        frames: &mut O,
        report: &mut R,
    ) -> Result<Taken, Cut>
        requires some { 0 < length counts.now }
        requires unspent { self.old.batch.outlet.scan.spent ≡ false }
        requires few { blocks_due self.old.batch < 2 ^ 40 }
        ensures some { IfOk result (λ taken. 0 < taken.counts) }
        ensures within { IfOk result (λ taken. taken.counts ≤ length counts.now) }
        ensures profile { self.new.rows.parameters ≡ self.old.rows.parameters }
        ensures unspent { OnOk result (self.new.batch.outlet.scan.spent ≡ false) }
        ensures blocks { blocks_due self.new.batch ≤ blocks_due self.old.batch + 1 }
        ensures ok { (seen : _) (start : _) (begin : _) → HasTaken self.old seen start (O.written frames.old)
            begin (R.written report.old)
            → IfOk result (λ taken. HasCollected self.new seen (seen ++ take taken.counts counts.now) taken.ended
            start (O.written frames.new) begin (R.written report.new)) }
        ensures cut { (seen : _) (start : _) (begin : _) → HasTaken self.old seen start
            (O.written frames.old) begin (R.written report.old)
            → OnErr result (PutsPart self.old.rows.parameters (settled self.old.rows.parameters seen) start
            (O.written frames.new) begin (R.written report.new)) }
        ensures lines { (seen : _) (start : _) (begin : _) → HasTaken self.old seen start
            (O.written frames.old) begin (R.written report.old)
            → IsErrOf result Cut.Frames → PutsLines (settled self.old.rows.parameters seen) begin
            (R.written report.new) }
        ensures cause { HasCutCause (O.faults frames.old) (O.faults frames.new) (R.faults report.old)
            (R.faults report.new) result }
        ensures frames_stand { SinkStands O.faults O.mark frames.old frames.new }
        ensures report_stands { SinkStands R.faults R.mark report.old report.new }
    {
        let order = self.rows.profile().order();
        let positions = order.slots();
        let start = self.filled * positions;
        let taken = self
            .rows
            .take(counts, &mut self.sums[start..start + positions]);
        if !taken.row {
            return Ok(taken);
        }
        self.filled += 1;
        if self.filled < order.symbols() {
            return Ok(taken);
        }
        self.filled = 0;
        self.batch.word(rt, gate, &self.sums, frames, report)?;
        Ok(taken)
    }

    /// Settles the word that was completed in the period that ends.
    fn settle<O: Sink, R: Sink>(&mut self, frames: &mut O, report: &mut R) -> Result<(), Cut>
        requires unspent { self.old.batch.outlet.scan.spent ≡ false }
        requires few { blocks_due self.old.batch ≤ 2 ^ 40 }
        ensures profile { self.new.rows.parameters ≡ self.old.rows.parameters }
        ensures unspent { OnOk result (self.new.batch.outlet.scan.spent ≡ false) }
        ensures blocks { blocks_due self.new.batch ≤ blocks_due self.old.batch }
        ensures ok { (seen : _) (verdicts : _) (start : _) (begin : _)
            → HasSettled self.old seen verdicts start (O.written frames.old) begin (R.written report.old)
            → OnOk result (HasSettled self.new seen (verdicts_on self.old.rows.parameters
            (placed_rows self.old.rows.parameters seen)) start (O.written frames.new) begin (R.written report.new)) }
        ensures cut { (seen : _) (verdicts : _) (start : _) (begin : _)
            → HasSettled self.old seen verdicts start (O.written frames.old) begin (R.written report.old)
            → OnErr result (PutsPart self.old.rows.parameters (verdicts_on self.old.rows.parameters
            (placed_rows self.old.rows.parameters seen)) start (O.written frames.new) begin (R.written report.new)) }
        ensures lines { (seen : _) (verdicts : _) (start : _) (begin : _)
            → HasSettled self.old seen verdicts start (O.written frames.old) begin (R.written report.old)
            → IsErrOf result Cut.Frames → PutsLines verdicts begin (R.written report.new) }
        ensures cause { HasCutCause (O.faults frames.old) (O.faults frames.new) (R.faults report.old)
            (R.faults report.new) result }
        ensures frames_stand { SinkStands O.faults O.mark frames.old frames.new }
        ensures report_stands { SinkStands R.faults R.mark report.old report.new }
    {
        self.batch.settle(frames, report)
    }

    /// Takes counts up to the end of a symbol, or as many as there are, puts what they settle, and answers their
    /// number.
    fn step<T: Threads + Sync, G: Gate, O: Sink, R: Sink>(
        &mut self,
        rt: &T,
        gate: &G,
        counts: &[u16],
        frames: &mut O,
        report: &mut R,
    ) -> Result<usize, Cut>
        requires some { 0 < length counts.now }
        requires unspent { self.old.batch.outlet.scan.spent ≡ false }
        requires few { blocks_due self.old.batch < 2 ^ 40 }
        ensures some { IfOk result (λ n. 0 < n) }
        ensures within { IfOk result (λ n. n ≤ length counts.now) }
        ensures profile { self.new.rows.parameters ≡ self.old.rows.parameters }
        ensures unspent { OnOk result (self.new.batch.outlet.scan.spent ≡ false) }
        ensures blocks { blocks_due self.new.batch ≤ blocks_due self.old.batch + 1 }
        ensures ok { (seen : _) (start : _) (begin : _) → HasTaken self.old seen start (O.written frames.old)
            begin (R.written report.old)
            → IfOk result (λ n. HasTaken self.new (seen ++ take n counts.now) start (O.written frames.new)
            begin (R.written report.new)) }
        ensures cut { (seen : _) (start : _) (begin : _) → HasTaken self.old seen start
            (O.written frames.old) begin (R.written report.old)
            → OnErr result (PutsPart self.old.rows.parameters (settled self.old.rows.parameters (seen
            ++ counts.now)) start (O.written frames.new) begin (R.written report.new)) }
        ensures lines { (seen : _) (start : _) (begin : _) → HasTaken self.old seen start
            (O.written frames.old) begin (R.written report.old)
            → IsErrOf result Cut.Frames → PutsLines (settled self.old.rows.parameters (seen ++ counts.now)) begin
            (R.written report.new) }
        ensures cause { HasCutCause (O.faults frames.old) (O.faults frames.new) (R.faults report.old)
            (R.faults report.new) result }
        ensures frames_stand { SinkStands O.faults O.mark frames.old frames.new }
        ensures report_stands { SinkStands R.faults R.mark report.old report.new }
    {
        let taken = self.collect(rt, gate, counts, frames, report)?;
        if !taken.ended {
            return Ok(taken.counts);
        }
        self.settle(frames, report)?;
        Ok(taken.counts)
    }

    /// Takes the next counts, and puts what they settle.
    pub fn take_counts<T: Threads + Sync, G: Gate, O: Sink, R: Sink>(
        &mut self,
        rt: &T,
        gate: &G,
        counts: &[u16],
        frames: &mut O,
        report: &mut R,
    ) -> Result<(), Cut>
        requires unspent { self.old.batch.outlet.scan.spent ≡ false }
        requires few { blocks_due self.old.batch + length counts.now ≤ 2 ^ 40 }
        ensures profile { self.new.rows.parameters ≡ self.old.rows.parameters }
        ensures unspent { OnOk result (self.new.batch.outlet.scan.spent ≡ false) }
        ensures blocks { blocks_due self.new.batch ≤ blocks_due self.old.batch + length counts.now }
        ensures ok { (seen : _) (start : _) (begin : _) → HasTaken self.old seen start (O.written frames.old)
            begin (R.written report.old)
            → OnOk result (HasTaken self.new (seen ++ counts.now) start (O.written frames.new) begin
            (R.written report.new)) }
        ensures cut { (seen : _) (start : _) (begin : _) → HasTaken self.old seen start
            (O.written frames.old) begin (R.written report.old)
            → OnErr result (PutsPart self.old.rows.parameters (settled self.old.rows.parameters (seen
            ++ counts.now)) start (O.written frames.new) begin (R.written report.new)) }
        ensures lines { (seen : _) (start : _) (begin : _) → HasTaken self.old seen start
            (O.written frames.old) begin (R.written report.old)
            → IsErrOf result Cut.Frames → PutsLines (settled self.old.rows.parameters (seen ++ counts.now)) begin
            (R.written report.new) }
        ensures cause { HasCutCause (O.faults frames.old) (O.faults frames.new) (R.faults report.old)
            (R.faults report.new) result }
        ensures frames_stand { SinkStands O.faults O.mark frames.old frames.new }
        ensures report_stands { SinkStands R.faults R.mark report.old report.new }
    {
        let mut place = 0;
        while place < counts.len() {
            place += self.step(rt, gate, &counts[place..], frames, report)?;
        }
        Ok(())
    }

    /// The stream has ended: the verdicts that are settled and wait are put.
    pub fn finish<T: Threads + Sync, G: Gate, O: Sink, R: Sink>(
        &mut self,
        rt: &T,
        gate: &G,
        frames: &mut O,
        report: &mut R,
    ) -> Result<(), Cut>
        requires unspent { self.old.batch.outlet.scan.spent ≡ false }
        requires few { blocks_due self.old.batch ≤ 2 ^ 40 }
        ensures profile { self.new.rows.parameters ≡ self.old.rows.parameters }
        ensures scan { self.new.batch.outlet.scan.parameters ≡ self.new.rows.parameters }
        ensures ok { (seen : _) (start : _) (begin : _) → HasTaken self.old seen start (O.written frames.old)
            begin (R.written report.old)
            → OnOk result (HasDelivered self.new.batch.outlet
            (settled self.old.rows.parameters seen) start (O.written frames.new) begin (R.written report.new)) }
        ensures cut { (seen : _) (start : _) (begin : _) → HasTaken self.old seen start
            (O.written frames.old) begin (R.written report.old)
            → OnErr result (PutsPart self.old.rows.parameters (settled self.old.rows.parameters seen)
            start (O.written frames.new) begin (R.written report.new)) }
        ensures lines { (seen : _) (start : _) (begin : _) → HasTaken self.old seen start
            (O.written frames.old) begin (R.written report.old)
            → IsErrOf result Cut.Frames → PutsLines (settled self.old.rows.parameters seen) begin
            (R.written report.new) }
        ensures cause { HasCutCause (O.faults frames.old) (O.faults frames.new) (R.faults report.old)
            (R.faults report.new) result }
        ensures frames_stand { SinkStands O.faults O.mark frames.old frames.new }
        ensures report_stands { SinkStands R.faults R.mark report.old report.new }
    {
        self.batch.finish(rt, gate, frames, report)
    }

    /// The last stage.
    pub fn outlet(&self) -> &Outlet
        ensures { result.now ≡ self.now.batch.outlet }
    {
        self.batch.outlet()
    }

    /// The number of counts and sums that are kept: those of the symbol and of the word that are begun, those that wait
    /// in the channel interleaver, and those of the words that are loaded.
    pub fn held(&self) -> u64
        ensures value { let order = self.now.rows.parameters.order in result ≡ length self.now.rows.begun
            + (waiting_in self.now.rows.unweaver + self.now.filled * positions order
            + length self.now.batch.crew.loads * (codeword_symbols order * positions order)) }
        ensures most { let order = self.now.rows.parameters.order in result ≤ symbol_slots self.now.rows.parameters
            + (positions order * interleaver_depth self.now.rows.parameters / 2
            + self.now.batch.crew.workers * (codeword_symbols order * positions order)) }
        ensures few { result ≤ 2 ^ 29 }
    {
        let order = self.rows.profile().order();
        let row = order.slots() as u64;
        let word = order.symbols() as u64 * row;
        self.rows.held() + self.filled as u64 * row + u64::from(self.batch.loaded()) * word
    }
}
