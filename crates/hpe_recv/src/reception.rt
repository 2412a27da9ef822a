//! What a receiver works with, and its phases once the offset of a stream is found: the counts that the search keeps, the
//! rest of the input, and what waits at its end.
ghost use Rattle.std.specs.Prelude.{◌≡◌, ◌≢◌, ◌<◌, ◌≤◌, ◌+◌, ◌++◌, ◌^◌, [], ℕ, List, length, drop, IfOk, OnOk, OnErr, IsErrOf, false};
ghost use Rattle.std.specs.Io.KnownBytes.{IsAtEnd};
ghost use Rattle.hpe_base.specs.Counts.{counts_of};
ghost use Rattle.hpe_base.specs.Decoded.{tally_of};
ghost use Rattle.hpe_base.specs.MarkerSearch.{At, Dark, Short, offset_of};
ghost use Rattle.hpe_base.specs.Parameters.{period_slots};
ghost use Rattle.hpe_io.specs.Devices.{TakesCount};
ghost use Rattle.hpe_io.specs.Standing.{SinkAnswers, SinkStands, SourceStands};
ghost use Rattle.hpe_recv.specs.Batching.{blocks_due};
ghost use Rattle.hpe_recv.specs.Causes.{HasUntakenCause};
ghost use Rattle.hpe_recv.specs.Counting.{CountIntakeStands, HasCounted, HasCountedPart};
ghost use Rattle.hpe_recv.specs.Delivering.{HasDelivered, PutsLines, PutsPart};
ghost use Rattle.hpe_recv.specs.Reading.{CanFollow, HasBroken, HasEnded, IsReady, ReceptionStands, UnlessSettled};
ghost use Rattle.hpe_recv.specs.Receiving.{Receives, ReceivesPart, ReportsWords, tallied};
ghost use Rattle.hpe_recv.specs.Settled.{settled};
ghost use Rattle.hpe_recv.specs.Streaming.{HasTaken};

use crate::counts::{CountIntake, PIECE};
use crate::intake::{Untaken, count_all};
use crate::lines::{dark_line, put_line, tally_line};
use crate::receiver::Tally;
use crate::stream::Stream;
use hpe_crew::Gate;
use hpe_find::Finder;
use hpe_io::{Sink, Source};
use std::thread::Threads;

/// What a receiver works with.
#[derive(Drop)]
pub struct Reception {
    pub finder: Finder,
    pub intake: CountIntake,
    pub stream: Stream,
    /// The slots of a period.
    pub period: u64,
    /// The slots before the first codeword marker, once it is found.
    pub lead: u64,
}

impl Reception {
    /// Gives the stream the rest of the input.
    fn follow_rest<T: Threads + Sync, G: Gate, I: Source, O: Sink, R: Sink>(
        &mut self,
        rt: &T,
        gate: &G,
        input: &mut I,
        frames: &mut O,
        report: &mut R,
    ) -> Result<(), Untaken>
        requires unspent { self.old.stream.batch.outlet.scan.spent ≡ false }
        requires few { blocks_due self.old.stream.batch ≤ self.old.intake.octets.taken }
        requires within { (self.old.intake.octets.taken ≤ self.old.intake.octets.limit)
            × (self.old.intake.octets.limit ≤ 2 ^ 40) }
        ensures stands { ReceptionStands self.old self.new }
        ensures ok { (seen : _) (begun : _) (told : _) (start : _) (counts : _)
            → HasTaken self.old.stream seen begun (O.written frames.old) told (R.written report.old)
            → HasCounted self.old.intake start (I.left input.old) counts
            → OnOk result ((rest : List ℕ) × HasCounted self.new.intake start (I.left input.new) (counts ++ rest)
            × IsAtEnd (I.left input.new)
            × HasTaken self.new.stream (seen ++ rest) begun (O.written frames.new) told (R.written report.new)) }
        ensures cut { (seen : _) (begun : _) (told : _) (start : _) (counts : _)
            → HasTaken self.old.stream seen begun (O.written frames.old) told (R.written report.old)
            → HasCounted self.old.intake start (I.left input.old) counts
            → OnErr result ((rest : List ℕ) × HasCountedPart self.new.intake start (I.left input.new) (counts ++ rest)
            × PutsPart self.old.stream.rows.parameters (settled self.old.stream.rows.parameters (seen ++ rest))
            begun (O.written frames.new) told (R.written report.new)
            × ((IsErrOf result Untaken.Report → ⊥)
            → PutsLines (settled self.old.stream.rows.parameters (seen ++ rest)) told (R.written report.new))) }
        ensures ready { OnOk result (CanFollow self.old self.new) }
        ensures long { IsErrOf result Untaken.TooLong
            → self.new.intake.octets.taken ≡ self.old.intake.octets.limit + 1 }
        ensures cause { HasUntakenCause (I.faults input.old) (I.faults input.new) (O.faults frames.old)
            (O.faults frames.new)
            (R.faults report.old) (R.faults report.new) result }
        ensures input_stands { SourceStands I.faults I.mark I.build input.old input.new }
        ensures frames_stand { SinkStands O.faults O.mark frames.old frames.new }
        ensures report_stands { SinkStands R.faults R.mark report.old report.new }
    {
        while self.intake.next(input, PIECE)? {
            self.stream
                .take_counts(rt, gate, self.intake.piece(), frames, report)?;
        }
        Ok(())
    }

    /// Gives the stream what the search keeps from the first marker on, and then the rest of the input.
    fn follow<T: Threads + Sync, G: Gate, I: Source, O: Sink, R: Sink>(
        &mut self,
        rt: &T,
        gate: &G,
        input: &mut I,
        frames: &mut O,
        report: &mut R,
    ) -> Result<(), Untaken>
        requires ready { IsReady self.old.finder self.old.intake self.old.stream (O.written frames.old)
            (R.written report.old) }
        requires lead { self.old.lead ≤ length self.old.finder.counts }
        requires ended { UnlessSettled self.old.finder.parameters self.old.finder.counts (IsAtEnd (I.left input.old)) }
        ensures stands { ReceptionStands self.old self.new }
        ensures ok { (start : _) → HasCounted self.old.intake start (I.left input.old) self.old.finder.counts
            → OnOk result ((rest : List ℕ)
            × HasEnded self.old.finder.parameters self.old.finder.counts rest self.new.intake start (I.left input.new)
            × HasTaken self.new.stream (drop self.old.lead self.old.finder.counts ++ rest)
            (O.written frames.old) (O.written frames.new) (R.written report.old) (R.written report.new)) }
        ensures cut { (start : _) → HasCounted self.old.intake start (I.left input.old) self.old.finder.counts
            → OnErr result ((rest : List ℕ)
            × HasBroken self.old.finder.parameters self.old.finder.counts rest self.new.intake start (I.left input.new)
            × PutsPart self.old.finder.parameters
            (settled self.old.finder.parameters (drop self.old.lead self.old.finder.counts ++ rest))
            (O.written frames.old) (O.written frames.new) (R.written report.old) (R.written report.new)
            × ((IsErrOf result Untaken.Report → ⊥)
            → PutsLines (settled self.old.finder.parameters (drop self.old.lead self.old.finder.counts ++ rest))
            (R.written report.old) (R.written report.new))) }
        ensures ready { OnOk result (CanFollow self.old self.new) }
        ensures long { IsErrOf result Untaken.TooLong
            → self.new.intake.octets.taken ≡ self.old.intake.octets.limit + 1 }
        ensures cause { HasUntakenCause (I.faults input.old) (I.faults input.new) (O.faults frames.old)
            (O.faults frames.new)
            (R.faults report.old) (R.faults report.new) result }
        ensures input_stands { SourceStands I.faults I.mark I.build input.old input.new }
        ensures frames_stand { SinkStands O.faults O.mark frames.old frames.new }
        ensures report_stands { SinkStands R.faults R.mark report.old report.new }
    {
        let kept = self.finder.counts();
        self.stream
            .take_counts(rt, gate, &kept[self.lead as usize..], frames, report)?;
        if self.finder.room() > 0 {
            return Ok(());
        }
        self.follow_rest(rt, gate, input, frames, report)
    }

    /// The same, and at the end of the input all is put that is settled.
    fn follow_to_end<T: Threads + Sync, G: Gate, I: Source, O: Sink, R: Sink>(
        &mut self,
        rt: &T,
        gate: &G,
        input: &mut I,
        frames: &mut O,
        report: &mut R,
    ) -> Result<(), Untaken>
        requires ready { IsReady self.old.finder self.old.intake self.old.stream (O.written frames.old)
            (R.written report.old) }
        requires lead { self.old.lead ≤ length self.old.finder.counts }
        requires ended { UnlessSettled self.old.finder.parameters self.old.finder.counts (IsAtEnd (I.left input.old)) }
        ensures stands { ReceptionStands self.old self.new }
        ensures scan { OnOk result (self.new.stream.batch.outlet.scan.parameters ≡ self.old.finder.parameters) }
        ensures ok { (start : _) → HasCounted self.old.intake start (I.left input.old) self.old.finder.counts
            → OnOk result ((rest : List ℕ)
            × HasEnded self.old.finder.parameters self.old.finder.counts rest self.new.intake start (I.left input.new)
            × HasDelivered self.new.stream.batch.outlet
            (settled self.old.finder.parameters (drop self.old.lead self.old.finder.counts ++ rest))
            (O.written frames.old) (O.written frames.new) (R.written report.old) (R.written report.new)) }
        ensures cut { (start : _) → HasCounted self.old.intake start (I.left input.old) self.old.finder.counts
            → OnErr result ((rest : List ℕ)
            × HasBroken self.old.finder.parameters self.old.finder.counts rest self.new.intake start (I.left input.new)
            × PutsPart self.old.finder.parameters
            (settled self.old.finder.parameters (drop self.old.lead self.old.finder.counts ++ rest))
            (O.written frames.old) (O.written frames.new) (R.written report.old) (R.written report.new)
            × ((IsErrOf result Untaken.Report → ⊥)
            → PutsLines (settled self.old.finder.parameters (drop self.old.lead self.old.finder.counts ++ rest))
            (R.written report.old) (R.written report.new))) }
        ensures within { OnOk result (self.old.intake.octets.taken ≤ self.new.intake.octets.taken) }
        ensures long { IsErrOf result Untaken.TooLong
            → self.new.intake.octets.taken ≡ self.old.intake.octets.limit + 1 }
        ensures cause { HasUntakenCause (I.faults input.old) (I.faults input.new) (O.faults frames.old)
            (O.faults frames.new)
            (R.faults report.old) (R.faults report.new) result }
        ensures input_stands { SourceStands I.faults I.mark I.build input.old input.new }
        ensures frames_stand { SinkStands O.faults O.mark frames.old frames.new }
        ensures report_stands { SinkStands R.faults R.mark report.old report.new }
    {
        self.follow(rt, gate, input, frames, report)?;
        self.stream.finish(rt, gate, frames, report)?;
        Ok(())
    }

    /// Receives the words of a stream whose first marker is found.
    pub fn receive_words<T: Threads + Sync, G: Gate, I: Source, O: Sink, R: Sink>(
        &mut self,
        rt: &T,
        gate: &G,
        input: &mut I,
        frames: &mut O,
        report: &mut R,
    ) -> Result<Tally, Untaken>
        requires ready { IsReady self.old.finder self.old.intake self.old.stream (O.written frames.old)
            (R.written report.old) }
        requires period { self.old.period ≡ period_slots self.old.finder.parameters }
        requires ended { UnlessSettled self.old.finder.parameters self.old.finder.counts (IsAtEnd (I.left input.old)) }
        requires found { (rest : List ℕ) → UnlessSettled self.old.finder.parameters self.old.finder.counts (rest ≡ [])
            → (score : ℕ) × (offset_of self.old.finder.parameters (self.old.finder.counts ++ rest)
            ≡ At self.old.lead score) }
        ensures stands { ReceptionStands self.old self.new }
        ensures ok { (start : _) → HasCounted self.old.intake start (I.left input.old) self.old.finder.counts
            → IfOk result (λ tally. (octets : List ℕ)
            × Receives self.old.finder.parameters self.old.intake.octets.limit start (I.left input.new)
            (O.written frames.old) (O.written frames.new) (R.written report.old) (R.written report.new) octets
            × (tallied tally ≡ tally_of self.old.finder.parameters octets)
            × (offset_of self.old.finder.parameters (counts_of self.old.finder.parameters octets) ≢ Dark)) }
        ensures cut { (start : _) → HasCounted self.old.intake start (I.left input.old) self.old.finder.counts
            → OnErr result (ReceivesPart self.old.finder.parameters self.old.intake.octets.limit start
            (I.left input.new) (O.written frames.old) (O.written frames.new)
            (R.written report.old) (R.written report.new)) }
        ensures lines { (start : _) → HasCounted self.old.intake start (I.left input.old) self.old.finder.counts
            → OnErr result ((IsErrOf result Untaken.Report → ⊥)
            → ReportsWords self.old.finder.parameters self.old.intake.octets.limit start (I.left input.new)
            (R.written report.old) (R.written report.new)) }
        ensures long { (start : _) → HasCounted self.old.intake start (I.left input.old) self.old.finder.counts
            → IsErrOf result Untaken.TooLong → TakesCount start (I.left input.new) (self.old.intake.octets.limit + 1) }
        ensures cause { HasUntakenCause (I.faults input.old) (I.faults input.new) (O.faults frames.old)
            (O.faults frames.new)
            (R.faults report.old) (R.faults report.new) result }
        ensures input_stands { SourceStands I.faults I.mark I.build input.old input.new }
        ensures frames_stand { SinkStands O.faults O.mark frames.old frames.new }
        ensures report_stands { SinkStands R.faults R.mark report.old report.new }
    {
        self.follow_to_end(rt, gate, input, frames, report)?;
        let outlet = self.stream.outlet();
        let tally = Tally {
            words: outlet.words(),
            kept: outlet.kept(),
            lost: outlet.words() - outlet.kept(),
            frames: outlet.frames(),
            lead: self.lead,
            tail: (self.intake.counts() - self.lead) % self.period + self.intake.odd(),
        };
        put_line(&tally_line(&tally), report)?;
        Ok(tally)
    }
}

/// Receives a stream without a marker, and answers how many counts it has.
pub fn receive_dark<I: Source, R: Sink>(
    finder: &Finder,
    intake: &mut CountIntake,
    input: &mut I,
    report: &mut R,
) -> Result<u64, Untaken>
    requires profile { intake.old.parameters ≡ finder.now.parameters }
    requires within { intake.old.octets.taken ≤ intake.old.octets.limit }
    requires ended { UnlessSettled finder.now.parameters finder.now.counts (IsAtEnd (I.left input.old)) }
    requires found { (rest : List ℕ) → UnlessSettled finder.now.parameters finder.now.counts (rest ≡ [])
        → offset_of finder.now.parameters (finder.now.counts ++ rest) ≡ Dark }
    ensures intake { CountIntakeStands intake.old intake.new }
    ensures ok { (written : _) (start : _) → HasCounted intake.old start (I.left input.old) finder.now.counts
        → IfOk result (λ total. (octets : List ℕ)
        × Receives finder.now.parameters intake.old.octets.limit start (I.left input.new)
        written written (R.written report.old) (R.written report.new) octets
        × (total ≡ length (counts_of finder.now.parameters octets))
        × (offset_of finder.now.parameters (counts_of finder.now.parameters octets) ≡ Dark)) }
    ensures cut { (written : _) (start : _) → HasCounted intake.old start (I.left input.old) finder.now.counts
        → OnErr result (ReceivesPart finder.now.parameters intake.old.octets.limit start (I.left input.new)
        written written (R.written report.old) (R.written report.new)) }
    ensures lines { (start : _) → HasCounted intake.old start (I.left input.old) finder.now.counts
        → OnErr result ((IsErrOf result Untaken.Report → ⊥)
        → ReportsWords finder.now.parameters intake.old.octets.limit start (I.left input.new)
        (R.written report.old) (R.written report.new)) }
    ensures long { (start : _) → HasCounted intake.old start (I.left input.old) finder.now.counts
        → IsErrOf result Untaken.TooLong → TakesCount start (I.left input.new) (intake.old.octets.limit + 1) }
    ensures cause { (faults : _)
        → HasUntakenCause (I.faults input.old) (I.faults input.new) faults faults (R.faults report.old)
        (R.faults report.new) result }
    ensures input_stands { SourceStands I.faults I.mark I.build input.old input.new }
    ensures report_stands { SinkStands R.faults R.mark report.old report.new }
{
    count_all(finder, intake, input)?;
    let total = intake.counts();
    put_line(&dark_line(total), report)?;
    Ok(total)
}

/// Receives a stream that is shorter than a period and has ended.
pub fn receive_short<R: Sink>(
    finder: &Finder,
    intake: &CountIntake,
    report: &mut R,
) -> Result<Tally, Untaken>
    requires profile { intake.now.parameters ≡ finder.now.parameters }
    requires within { intake.now.octets.taken ≤ intake.now.octets.limit }
    requires found { offset_of finder.now.parameters finder.now.counts ≡ Short }
    ensures ok { (written : _) (start : _) (left : _) → HasCounted intake.now start left finder.now.counts
        → IsAtEnd left → IfOk result (λ tally. (octets : List ℕ)
        × Receives finder.now.parameters intake.now.octets.limit start left
        written written (R.written report.old) (R.written report.new) octets
        × (tallied tally ≡ tally_of finder.now.parameters octets)
        × (offset_of finder.now.parameters (counts_of finder.now.parameters octets) ≢ Dark)) }
    ensures cut { (written : _) (start : _) (left : _) → HasCounted intake.now start left finder.now.counts
        → OnErr result (ReceivesPart finder.now.parameters intake.now.octets.limit start left
        written written (R.written report.old) (R.written report.new)) }
    ensures fault { OnErr result (IsErrOf result Untaken.Report) }
    ensures report_answers { SinkAnswers R.faults R.mark report.old report.new result }
{
    let tally = Tally {
        words: 0,
        kept: 0,
        lost: 0,
        frames: 0,
        lead: 0,
        tail: finder.counts().len() as u64 + intake.odd(),
    };
    put_line(&tally_line(&tally), report)?;
    Ok(tally)
}
