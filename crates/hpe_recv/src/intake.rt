//! The input from its first count to its last, piece by piece: first for the marker search, then for the stream. These are
//! the loops that no stream takes part in.
ghost use Rattle.std.specs.Prelude.{◌≡◌, ◌<◌, ◌≤◌, ◌+◌, ◌++◌, ℕ, List, length, IfOk, OnOk, OnErr, IsErrOf};
ghost use Rattle.std.specs.Io.KnownBytes.{IsAtEnd};
ghost use Rattle.hpe_base.specs.MarkerSearch.{offset_of};
ghost use Rattle.hpe_io.specs.Standing.{SourceStands};
ghost use Rattle.hpe_find.specs.Finding.{finder_room};
ghost use Rattle.hpe_find.specs.Found.{found_of};
ghost use Rattle.hpe_recv.specs.Causes.{HasReadCause, cause_of_cut, cause_of_intake};
ghost use Rattle.hpe_recv.specs.Counting.{CountIntakeStands, HasCounted, HasCountedPart};
ghost use Rattle.hpe_recv.specs.Reading.{HasBroken, HasEnded, UnlessSettled};

use crate::counts::{CountIntake, PIECE};
use crate::outlet::Cut;
use hpe_find::{Finder, Found};
use hpe_io::{IntakeFault, Source};

/// Why an input was not taken to its end.
#[derive(Clone, Copy, Debug, PartialEq, Eq)]
pub enum Untaken {
    /// The input failed.
    Read,
    /// The sink of the frames failed.
    Frames,
    /// The report failed.
    Report,
    /// The input has more octets than the limit.
    TooLong,
}

impl From<IntakeFault> for Untaken {
    ghost from_gives = { λ fault cause. cause ≡ cause_of_intake fault };

    fn from(fault: IntakeFault) -> Untaken {
        match fault {
            IntakeFault::Read => Untaken::Read,
            IntakeFault::TooLong => Untaken::TooLong,
        }
    }
}

impl From<Cut> for Untaken {
    ghost from_gives = { λ cut cause. cause ≡ cause_of_cut cut };

    fn from(cut: Cut) -> Untaken {
        match cut {
            Cut::Frames => Untaken::Frames,
            Cut::Report => Untaken::Report,
        }
    }
}

/// Feeds the marker search until it is settled or the input ends, and answers what it found.
pub fn search<I: Source>(
    finder: &mut Finder,
    intake: &mut CountIntake,
    input: &mut I,
) -> Result<Found, Untaken>
    requires come { HasCounted intake.old (I.left input.old) (I.left input.old) finder.old.counts }
    requires within { intake.old.octets.taken ≤ intake.old.octets.limit }
    ensures profile { finder.new.parameters ≡ finder.old.parameters }
    ensures intake { CountIntakeStands intake.old intake.new }
    ensures come { OnOk result (HasCounted intake.new (I.left input.old) (I.left input.new) finder.new.counts) }
    ensures within { OnOk result (intake.new.octets.taken ≤ intake.old.octets.limit) }
    ensures stopped { OnErr result (HasCountedPart intake.new (I.left input.old) (I.left input.new) finder.new.counts) }
    ensures room { length finder.new.counts ≤ finder_room finder.old.parameters }
    ensures settled { IfOk result (λ found. length finder.new.counts ≡ finder_room finder.old.parameters
        → (rest : List ℕ) → found ≡ found_of (offset_of finder.old.parameters (finder.new.counts ++ rest))) }
    ensures ended { IfOk result (λ found. length finder.new.counts < finder_room finder.old.parameters
        → IsAtEnd (I.left input.new) × (found ≡ found_of (offset_of finder.old.parameters finder.new.counts))) }
    ensures long { IsErrOf result Untaken.TooLong → intake.new.octets.taken ≡ intake.old.octets.limit + 1 }
    ensures cause { HasReadCause (I.faults input.old) (I.faults input.new) result }
    ensures input { SourceStands I.faults I.mark I.build input.old input.new }
{
    while finder.room() > 0 {
        if !intake.next(input, finder.room())? {
            return Ok(finder.finish());
        }
        finder.feed(intake.piece());
    }
    Ok(finder.look())
}

/// Takes the rest of an input.
fn count_rest<I: Source>(intake: &mut CountIntake, input: &mut I) -> Result<(), Untaken>
    requires within { intake.old.octets.taken ≤ intake.old.octets.limit }
    ensures intake { CountIntakeStands intake.old intake.new }
    ensures come { (start : _) (counts : _) → HasCounted intake.old start (I.left input.old) counts
        → OnOk result ((rest : List ℕ) × HasCounted intake.new start (I.left input.new) (counts ++ rest)
        × IsAtEnd (I.left input.new)) }
    ensures stopped { (start : _) (counts : _) → HasCounted intake.old start (I.left input.old) counts
        → OnErr result ((rest : List ℕ) × HasCountedPart intake.new start (I.left input.new) (counts ++ rest)) }
    ensures within { OnOk result (intake.new.octets.taken ≤ intake.old.octets.limit) }
    ensures long { IsErrOf result Untaken.TooLong → intake.new.octets.taken ≡ intake.old.octets.limit + 1 }
    ensures cause { HasReadCause (I.faults input.old) (I.faults input.new) result }
    ensures input { SourceStands I.faults I.mark I.build input.old input.new }
{
    while intake.next(input, PIECE)? {}
    Ok(())
}

/// Takes the rest of an input of which the search keeps the first counts, or all where it has room for more.
pub fn count_all<I: Source>(
    finder: &Finder,
    intake: &mut CountIntake,
    input: &mut I,
) -> Result<(), Untaken>
    requires within { intake.old.octets.taken ≤ intake.old.octets.limit }
    requires ended { UnlessSettled finder.now.parameters finder.now.counts (IsAtEnd (I.left input.old)) }
    ensures intake { CountIntakeStands intake.old intake.new }
    ensures ok { (start : _) → HasCounted intake.old start (I.left input.old) finder.now.counts
        → OnOk result ((rest : List ℕ) × HasEnded finder.now.parameters finder.now.counts rest intake.new
        start (I.left input.new)) }
    ensures cut { (start : _) → HasCounted intake.old start (I.left input.old) finder.now.counts
        → OnErr result ((rest : List ℕ) × HasBroken finder.now.parameters finder.now.counts rest intake.new
        start (I.left input.new)) }
    ensures long { IsErrOf result Untaken.TooLong → intake.new.octets.taken ≡ intake.old.octets.limit + 1 }
    ensures cause { HasReadCause (I.faults input.old) (I.faults input.new) result }
    ensures input { SourceStands I.faults I.mark I.build input.old input.new }
{
    if finder.room() > 0 {
        return Ok(());
    }
    count_rest(intake, input)
}
