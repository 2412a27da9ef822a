//! The receiver of a link.
ghost use Rattle.std.specs.Prelude.{◌≡◌, ◌≢◌, ◌≤◌, ◌+◌, ◌*◌, ◌^◌, ℕ, List, length, IfOk, IsErrOf, true, false};
ghost use Rattle.hpe_base.specs.Parameters.{IsValid};
ghost use Rattle.hpe_base.specs.Counts.{counts_of};
ghost use Rattle.hpe_base.specs.Decoded.{tally_of};
ghost use Rattle.hpe_base.specs.MarkerSearch.{offset_of, Dark};
ghost use Rattle.hpe_io.specs.Devices.{Grows, TakesAtMost, TakesCount};
ghost use Rattle.hpe_io.specs.Standing.{SinkStands, SourceStands};
ghost use Rattle.hpe_recv.specs.Causes.{HasFaultCause};
ghost use Rattle.hpe_recv.specs.Receiving.{held_limit, tallied, fault_of, Receives, ReceivesPart, ReportsWords, IfNoMarker, IfCutOff, IfReportStands};

use crate::counts::CountIntake;
use crate::intake::{Untaken, search};
use crate::reception::{Reception, receive_dark, receive_short};
use crate::stream::Stream;
use hpe_base::{NoMemory, Profile, geometry};
use hpe_crew::Gate;
use hpe_find::{Finder, Found};
use hpe_io::{Sink, Source};
use std::alloc::Global;
use std::marker::Model;
use std::thread::Threads;
use thiserror::Error;

/// What was received.
#[derive(Clone, Copy, Debug, PartialEq, Eq)]
pub struct Tally {
    /// The words of the stream.
    pub words: u64,
    /// The words that were kept.
    pub kept: u64,
    /// The words that were lost.
    pub lost: u64,
    /// The frames that were delivered.
    pub frames: u64,
    /// The slots before the first codeword marker.
    pub lead: u64,
    /// The slots after the last whole period, and one more where the input ends within a count.
    pub tail: u64,
}

/// Why a stream was not received to its end, or was received for nothing.
#[derive(Clone, Copy, Debug, PartialEq, Eq, Error)]
pub enum RecvFault {
    /// The input failed. What the counts before settle is put.
    #[error("the input failed")]
    Read,
    /// The sink of the frames failed. Some front of the frames is written.
    #[error("the output failed")]
    Write,
    /// The report failed. Some front of the report is written.
    #[error("the report failed")]
    Report,
    /// The input has more octets than the limit. One more than the limit was taken.
    #[error("the input is too long")]
    TooLong,
    /// All that the marker search sees of the `counts` slots is dark. The report has the line on it, and there are no
    /// frames.
    #[error("no marker was found")]
    NoMarker { counts: u64 },
}

impl From<Untaken> for RecvFault {
    ghost from_gives = { λ cause fault. fault ≡ fault_of cause };

    fn from(cause: Untaken) -> RecvFault {
        match cause {
            Untaken::Read => RecvFault::Read,
            Untaken::Frames => RecvFault::Write,
            Untaken::Report => RecvFault::Report,
            Untaken::TooLong => RecvFault::TooLong,
        }
    }
}

/// The most counts and sums that a receiver keeps: those that the marker search needs, those of a symbol, what the
/// channel interleaver delays, and a word for each worker.
pub fn held_limit(p: &Profile, workers: u32) -> u64
    requires { (1 ≤ workers) × (workers ≤ 16) }
    ensures { result ≡ held_limit p.now workers }
{
    let measures = geometry(p);
    let positions = p.order().slots();
    let searched = p.search() * measures.period + measures.marker_slots;
    let waiting = positions * measures.depth / 2
        + workers as usize * (measures.symbols * positions);
    (searched + measures.symbol_slots + waiting) as u64
}

/// The receiver of a link: it reads the counts of slots, each of one octet or of two as the profile says, and writes
/// transfer frames and a report.
///
/// It holds the counts that the marker search needs, what the channel interleaver delays, one word, one block and one
/// frame, whatever the length of the input.
#[derive(Drop)]
pub struct Receiver {
    reception: Reception,
    fresh: bool,
}

impl Model for Receiver {
    ghost use Rattle.hpe_recv.specs.Receiving.{Receiving};

    ghost Value = { Receiving };

    ghost use Rattle.hpe_recv.specs.ReceiverView.{receiving, IsReceiving};

    ghost view = { receiving };

    ghost invariant = { IsReceiving };
}

impl Receiver {
    /// A receiver that has received nothing. It takes all its memory here, and the error is that there is too little.
    pub fn new(alloc: Global, p: &Profile, workers: u32) -> Result<Receiver, NoMemory>
        requires workers { (1 ≤ workers) × (workers ≤ 16) }
        ensures profile { IfOk result (λ r. r.parameters ≡ p.now) }
        ensures valid { IfOk result (λ r. IsValid r.parameters) }
        ensures workers { IfOk result (λ r. r.workers ≡ workers) }
        ensures fresh { IfOk result (λ r. r.fresh ≡ true) }
    {
        let finder = Finder::new(alloc, p)?;
        let stream = Stream::new(alloc, p, workers)?;
        let intake = CountIntake::new(alloc, p)?;
        Ok(Receiver {
            reception: Reception {
                finder,
                intake,
                stream,
                period: geometry(p).period as u64,
                lead: 0,
            },
            fresh: true,
        })
    }

    /// Whether nothing was received: [`Receiver::receive`] can be called once.
    pub fn fresh(&self) -> bool
        ensures { result ≡ self.now.fresh }
    {
        self.fresh
    }

    /// The number of counts and slot sums that the receiver keeps: those of the marker search, those of the symbol that is
    /// begun, what waits in the channel interleaver, and the words that are loaded or begun.
    pub fn held(&self) -> u64
        ensures value { result ≡ self.now.counts + (self.now.begun + (self.now.waiting + self.now.sums)) }
        ensures most { result ≤ held_limit self.now.parameters self.now.workers }
    {
        self.reception.finder.counts().len() as u64 + self.reception.stream.held()
    }

    /// Receives a stream of up to `limit` octets: it puts the transfer frames that are delivered to `frames`, and to
    /// `report` a line for each word and one for the tally, which it answers. An octet of a count that isn't whole at the
    /// end of the input belongs to the tail.
    ///
    /// The frames of a word are put before its line, and each line in one piece.
    pub fn receive<T: Threads + Sync, G: Gate, I: Source, O: Sink, R: Sink>(
        &mut self,
        rt: &T,
        gate: &G,
        limit: u64,
        input: &mut I,
        frames: &mut O,
        report: &mut R,
    ) -> Result<Tally, RecvFault>
        requires fresh { self.old.fresh ≡ true }
        requires limit { (1 ≤ limit) × (limit ≤ 2 ^ 40) }
        ensures spent { (self.new.parameters ≡ self.old.parameters) × (self.new.fresh ≡ false) }
        ensures ok { IfOk result (λ tally. (octets : List ℕ)
            × Receives self.old.parameters limit (I.left input.old) (I.left input.new)
            (O.written frames.old) (O.written frames.new) (R.written report.old) (R.written report.new) octets
            × (tallied tally ≡ tally_of self.old.parameters octets)
            × (offset_of self.old.parameters (counts_of self.old.parameters octets) ≢ Dark)) }
        ensures no_marker { IfNoMarker result (λ n. (octets : List ℕ)
            × Receives self.old.parameters limit (I.left input.old) (I.left input.new)
            (O.written frames.old) (O.written frames.new) (R.written report.old) (R.written report.new) octets
            × (n ≡ length (counts_of self.old.parameters octets))
            × (offset_of self.old.parameters (counts_of self.old.parameters octets) ≡ Dark)
            × (frames.new ≡ frames.old)) }
        ensures cut { IfCutOff result (ReceivesPart self.old.parameters limit (I.left input.old) (I.left input.new)
            (O.written frames.old) (O.written frames.new) (R.written report.old) (R.written report.new)) }
        ensures lines { IfReportStands result (ReportsWords self.old.parameters limit (I.left input.old)
            (I.left input.new)
            (R.written report.old) (R.written report.new)) }
        ensures cause { HasFaultCause (I.faults input.old) (I.faults input.new) (O.faults frames.old)
            (O.faults frames.new)
            (R.faults report.old) (R.faults report.new) result }
        ensures long { IsErrOf result RecvFault.TooLong → TakesCount (I.left input.old) (I.left input.new) (limit + 1) }
        ensures taken { TakesAtMost (I.left input.old) (I.left input.new) (limit + 1) }
        ensures grow { Grows (O.written frames.old) (O.written frames.new)
            × Grows (R.written report.old) (R.written report.new) }
        ensures input_stands { SourceStands I.faults I.mark I.build input.old input.new }
        ensures frames_stand { SinkStands O.faults O.mark frames.old frames.new }
        ensures report_stands { SinkStands R.faults R.mark report.old report.new }
    {
        self.fresh = false;
        self.reception.intake.begin(limit);
        let found = search(
            &mut self.reception.finder,
            &mut self.reception.intake,
            input,
        )?;
        match found {
            Found::At { offset, .. } => {
                self.reception.lead = offset;
                let tally = self
                    .reception
                    .receive_words(rt, gate, input, frames, report)?;
                Ok(tally)
            }
            Found::Dark => {
                let counts = receive_dark(
                    &self.reception.finder,
                    &mut self.reception.intake,
                    input,
                    report,
                )?;
                Err(RecvFault::NoMarker { counts })
            }
            // the search needs no more, since it is settled or the input has ended
            Found::Short | Found::Need => {
                let tally = receive_short(&self.reception.finder, &self.reception.intake, report)?;
                Ok(tally)
            }
        }
    }
}
