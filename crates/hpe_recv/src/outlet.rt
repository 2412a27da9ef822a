//! Verdicts on their way out: frames to one sink, lines to the other.
ghost use Rattle.std.specs.Prelude.{◌≡◌, ◌≤◌, ◌<◌, ◌+◌, ◌-◌, ◌^◌, ◌++◌, ◌∷◌, [], ℕ, List, length, IfOk, IfSome, OnOk, OnErr, IsErrOf, false, option_copied};
ghost use Rattle.std.specs.Io.KnownBytes.{append_known};
ghost use Rattle.hpe_base.specs.Parameters.{block_bits};
ghost use Rattle.hpe_base.specs.Decoded.{block_of, word_line, word_lines};
ghost use Rattle.hpe_base.specs.Rounds.{Lost};
ghost use Rattle.hpe_io.specs.Standing.{SinkStands};
ghost use Rattle.hpe_recv.specs.Causes.{HasCutCause};
ghost use Rattle.hpe_recv.specs.Delivering.{HasDelivered, PutsPart};
ghost use Rattle.hpe_crew.specs.Answering.{verdict_with};

use hpe_base::{NoMemory, Profile};
use hpe_frame::FrameScan;
use hpe_io::Sink;
use hpe_text::{Line, push_entry};
use hpe_turn::Verdict;
use std::alloc::Global;
use std::marker::Model;

/// Which sink failed.
#[derive(Clone, Copy, Debug, PartialEq, Eq)]
pub enum Cut {
    /// That of the frames.
    Frames,
    /// That of the report.
    Report,
}

/// The last stage: the frames of the words that are kept, and a line for each word.
#[derive(Drop)]
pub struct Outlet {
    scan: FrameScan,
    words: u64,
    kept: u64,
}

impl Model for Outlet {
    ghost use Rattle.hpe_recv.specs.Delivering.{Delivering};

    ghost Value = { Delivering };

    ghost use Rattle.hpe_recv.specs.OutletView.{delivering, IsDelivering};

    ghost view = { delivering };

    ghost invariant = { IsDelivering };
}

/// The line on word `i`, with its line feed.
fn word_line(i: u64, verdict: Verdict) -> Line
    ensures text { (block : List ℕ) → result.bytes ≡ word_line i (verdict_with verdict block) }
    ensures some { 0 < length result.bytes }
{
    let mut line = Line::new();
    push_entry(&mut line, "word ", i);
    match verdict {
        Verdict::Kept { round } => push_entry(&mut line, " kept ", u64::from(round)),
        Verdict::Lost => line.push_str(" lost"),
    }
    line.push_str("\n");
    line
}

/// The bits of the block of a word that is kept.
fn kept_block(verdict: Verdict, block: &[u8]) -> Option<&[u8]>
    ensures known { option_copied result ≡ block_of (verdict_with verdict block.now) }
    ensures size { IfSome (option_copied result) (λ bits. length bits ≡ length block.now) }
{
    match verdict {
        Verdict::Kept { .. } => Some(block),
        Verdict::Lost => None,
    }
}

impl Outlet {
    /// An outlet that has put nothing. It takes all its memory here, that of the frame scan.
    pub fn new(alloc: Global, p: &Profile) -> Result<Outlet, NoMemory>
        ensures profile { IfOk result (λ o. o.scan.parameters ≡ p.now) }
        ensures stands { IfOk result (λ o. (frames : _) (report : _) → HasDelivered o [] frames frames report report) }
        ensures unspent { IfOk result (λ o. o.scan.spent ≡ false) }
        ensures blocks { IfOk result (λ o. o.scan.blocks ≡ 0) }
    {
        let Ok(scan) = FrameScan::new(alloc, p) else {
            return Err(NoMemory);
        };
        Ok(Outlet {
            scan,
            words: 0,
            kept: 0,
        })
    }

    /// Puts the frames that the next word delivers, and then its line. `block` has the bits of a word that is kept.
    pub fn deliver<O: Sink, R: Sink>(
        &mut self,
        verdict: Verdict,
        block: &[u8],
        frames: &mut O,
        report: &mut R,
    ) -> Result<(), Cut>
        requires unspent { self.old.scan.spent ≡ false }
        requires few { self.old.scan.blocks < 2 ^ 40 }
        requires block { length block.now ≡ block_bits self.old.scan.parameters.rate }
        ensures profile { self.new.scan.parameters ≡ self.old.scan.parameters }
        ensures unspent { OnOk result (self.new.scan.spent ≡ false) }
        ensures blocks { self.new.scan.blocks ≡ self.old.scan.blocks + 1 }
        ensures ok { (verdicts : _) (start : _) (begin : _) → HasDelivered self.old verdicts start
            (O.written frames.old) begin (R.written report.old)
            → OnOk result (HasDelivered self.new (verdicts ++ verdict_with verdict block.now ∷ []) start
            (O.written frames.new) begin (R.written report.new)) }
        ensures cut { (verdicts : _) (start : _) (begin : _)
            → HasDelivered self.old verdicts start (O.written frames.old) begin (R.written report.old)
            → OnErr result (PutsPart self.old.scan.parameters (verdicts
            ++ verdict_with verdict block.now ∷ []) start (O.written frames.new) begin (R.written report.new)) }
        ensures lines { (verdicts : _) (start : _) (begin : _)
            → HasDelivered self.old verdicts start (O.written frames.old) begin (R.written report.old)
            → IsErrOf result Cut.Frames → R.written report.new ≡ append_known begin (word_lines 0 verdicts) }
        ensures cause { HasCutCause (O.faults frames.old) (O.faults frames.new) (R.faults report.old)
            (R.faults report.new) result }
        ensures frames_stand { SinkStands O.faults O.mark frames.old frames.new }
        ensures report_stands { SinkStands R.faults R.mark report.old report.new }
    {
        let known = kept_block(verdict, block);
        match self.scan.block(known, frames) {
            Ok(_) => {}
            Err(_) => return Err(Cut::Frames),
        }
        match report.put(word_line(self.words, verdict).as_bytes()) {
            Ok(()) => {}
            Err(_) => return Err(Cut::Report),
        }
        self.words += 1;
        if known.is_some() {
            self.kept += 1;
        }
        Ok(())
    }

    /// The number of words.
    pub fn words(&self) -> u64
        ensures { result ≡ self.now.words }
    {
        self.words
    }

    /// The number of words that were kept.
    pub fn kept(&self) -> u64
        ensures value { result ≡ self.now.kept }
        ensures most { result ≤ self.now.words }
    {
        self.kept
    }

    /// The number of frames that were put.
    pub fn frames(&self) -> u64
        ensures { result ≡ self.now.scan.frames }
    {
        self.scan.frames()
    }
}
