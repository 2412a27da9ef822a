//! The input as counts: the one place where octets become counts.
//!
//! A count takes one octet or two, the high octet first. Where a take ends within a count, the octet is kept for the
//! next one, so that the search and the stream see whole counts, however the input is cut.
ghost use Rattle.std.specs.Prelude.{◌≡◌, ◌<◌, ◌≤◌, ◌+◌, ◌*◌, ◌/◌, ◌%◌, ◌^◌, ◌++◌, [], length, take, drop, IfOk, IsErrOf, IsTrue, OnErr, OnOk, false};
ghost use Rattle.std.specs.Io.KnownBytes.{IsAtEnd};
ghost use Rattle.hpe_base.specs.Parameters.{IsValid};
ghost use Rattle.hpe_base.specs.Counts.{counts_of};
ghost use Rattle.hpe_io.specs.Intake.{HasIntakeCause};
ghost use Rattle.hpe_io.specs.Standing.{SourceStands};
ghost use Rattle.hpe_recv.specs.Counting.{HasCounted, HasCountedPart, CountIntakeStands, half_octets};

use hpe_base::{NoMemory, Profile};
use hpe_io::{Intake, IntakeFault, Source};
use hpe_slots::read_counts;
use std::alloc::Global;
use std::marker::Model;

/// The most counts of a piece, so few that they are still cached where they are used.
pub const PIECE: usize = 8_192;

/// An input that is taken count by count, in pieces, up to a limit in octets.
#[derive(Drop)]
pub struct CountIntake {
    profile: Profile,
    intake: Intake,
    /// Room for a piece, of which the first `used` counts are the last one.
    counts: Vec<u16>,
    used: usize,
    /// The high octet of a count of which the low one hasn't come.
    half: Option<u8>,
}

impl Model for CountIntake {
    ghost use Rattle.hpe_recv.specs.Counting.{CountIntakeState};

    ghost Value = { CountIntakeState };

    ghost use Rattle.hpe_recv.specs.CountingView.{counting, IsCounting};

    ghost view = { counting };

    ghost invariant = { IsCounting };
}

/// Reads the whole counts that octets write and answers how many they are. The octet of a count that isn't whole
/// becomes `half`.
fn read_whole(p: &Profile, half: &mut Option<u8>, octets: &[u8], counts: &mut [u16]) -> usize
    requires room { length octets.now ≤ p.now.count_octets * length counts.old }
    ensures count { result ≡ length octets.now / p.now.count_octets }
    ensures within { result ≤ length counts.new }
    ensures counts { take result counts.new ≡ counts_of p.now octets.now }
    ensures half { half_octets half.new ≡ drop (p.now.count_octets * result) octets.now }
{
    let width = p.count_octets();
    let count = octets.len() / width;
    let whole = width * count;
    read_counts(p, &octets[..whole], &mut counts[..count]);
    *half = octets[whole..].first().copied();
    count
}

/// The same of some octets, behind the one that is kept in `half`, if there is one.
fn read_behind(p: &Profile, half: &mut Option<u8>, octets: &[u8], counts: &mut [u16]) -> usize
    requires valid { IsValid p.now }
    requires half { length (half_octets half.old) < p.now.count_octets }
    requires some { 0 < length octets.now }
    requires room { length (half_octets half.old) + length octets.now ≤ p.now.count_octets * length counts.old }
    ensures within { result ≤ length counts.new }
    ensures counts { take result counts.new ≡ counts_of p.now (half_octets half.old ++ octets.now) }
    ensures half { half_octets half.new ≡ drop (p.now.count_octets * result) (half_octets half.old ++ octets.now) }
{
    match *half {
        None => read_whole(p, half, octets, counts),
        Some(high) => {
            counts[0] = 256 * high as u16 + octets[0] as u16;
            1 + read_whole(p, half, &octets[1..], &mut counts[1..])
        }
    }
}

impl CountIntake {
    /// An intake with the limit 0. It takes all its memory here, and the error is that there is too little.
    pub fn new(alloc: Global, p: &Profile) -> Result<CountIntake, NoMemory>
        ensures profile { IfOk result (λ i. i.parameters ≡ p.now) }
    {
        let Ok(intake) = Intake::new(alloc) else {
            return Err(NoMemory);
        };
        let Ok(counts) = vec![in alloc; 0; PIECE] else {
            return Err(NoMemory);
        };
        Ok(CountIntake {
            profile: p.copy(),
            intake,
            counts,
            used: 0,
            half: None,
        })
    }

    /// Begins to count, for an input that may have up to `limit` octets.
    pub fn begin(&mut self, limit: u64)
        requires { limit ≤ 2 ^ 40 }
        ensures profile { self.new.parameters ≡ self.old.parameters }
        ensures fresh { self.new.octets ≡ record { limit = limit; taken = 0; piece = [] } }
        ensures come { (start : _) → HasCounted self.new start start [] }
    {
        self.intake.begin(limit);
        self.used = 0;
        self.half = None;
    }

    /// How many whole counts were taken since the intake began.
    pub fn counts(&self) -> u64
        ensures { result ≡ self.now.octets.taken / self.now.parameters.count_octets }
    {
        self.intake.taken() / self.profile.count_octets() as u64
    }

    /// How many octets were taken of a count that isn't whole, none or one.
    pub fn odd(&self) -> u64
        ensures value { result ≡ self.now.octets.taken % self.now.parameters.count_octets }
        ensures most { result ≤ 1 }
    {
        self.intake.taken() % self.profile.count_octets() as u64
    }

    /// The counts that are whole with the octets of the last `next`.
    pub fn piece(&self) -> &[u16]
        ensures { result.now ≡ self.now.piece }
    {
        &self.counts[..self.used]
    }

    /// Takes the octets of the next counts, at most `most` of them, and answers whether any came: none do at the end of
    /// the input alone. The piece is empty where they are the high octet of a count, and after a fault.
    pub fn next<I: Source>(&mut self, input: &mut I, most: usize) -> Result<bool, IntakeFault>
        requires { 0 < most }
        ensures stands { CountIntakeStands self.old self.new }
        ensures come { (start : _) (counts : _) → HasCounted self.old start (I.left input.old) counts
            → OnOk result (HasCounted self.new start (I.left input.new) (counts ++ self.new.piece)) }
        ensures stopped { (start : _) (counts : _) → HasCounted self.old start (I.left input.old) counts
            → self.old.octets.taken ≤ self.old.octets.limit
            → OnErr result (HasCountedPart self.new start (I.left input.new) counts) }
        ensures more { IfOk result (λ more. IsTrue more → self.old.octets.taken < self.new.octets.taken) }
        ensures ended { (start : _) (counts : _) → HasCounted self.old start (I.left input.old) counts
            → IfOk result (λ more. more ≡ false
            → HasCounted self.new start (I.left input.new) counts × IsAtEnd (I.left input.new)) }
        ensures most { OnOk result (length self.new.piece ≤ most) }
        ensures within { OnOk result (self.new.octets.taken ≤ self.old.octets.limit) }
        ensures counted { OnOk result (self.old.octets.taken + length self.new.piece ≤ self.new.octets.taken) }
        ensures long { IsErrOf result IntakeFault.TooLong → self.new.octets.taken ≡ self.old.octets.limit + 1 }
        ensures cause { HasIntakeCause (I.faults input.old) (I.faults input.new) result }
        ensures input { SourceStands I.faults I.mark I.build input.old input.new }
    {
        self.used = 0;
        let octets = self.profile.count_octets() * most.min(PIECE) - self.half.is_some() as usize;
        if !self.intake.next(input, octets)? {
            return Ok(false);
        }
        self.used = read_behind(
            &self.profile,
            &mut self.half,
            self.intake.piece(),
            &mut self.counts,
        );
        Ok(true)
    }
}
