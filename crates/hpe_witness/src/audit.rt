//! The check of a record.
ghost use Rattle.std.specs.Prelude.{◌≡◌, ◌≢◌, ◌<◌, ◌≤◌, take, length, true, false, IfOk};
ghost use Rattle.hpe_base.specs.Parameters.{clamp};
ghost use Rattle.hpe_base.specs.declared.profile.Rate.{Rate};
ghost use Rattle.hpe_base.specs.Sizes.{AllWithin};
ghost use Rattle.hpe_witness.specs.Potentials.{potential_most, PotentialsWithin};
ghost use Rattle.hpe_witness.specs.Record.{record_mark, record_octets, IsPadded, IsRecordAnswer, IsBestInside};

use crate::read::{RecordLists, bit_of, word_of};
use crate::record::MARK;
use crate::{PathFault, check_path};
use hpe_base::{CLAMP, NoMemory, Profile, Rate};
use std::alloc::Global;
use std::marker::Model;
use thiserror::Error;

/// The greatest size of a potential: no path metric is larger, and no sum with an edge leaves 32 bits.
pub const POTENTIAL_MOST: u32 = 600_000_000;

/// Why a record is refused.
#[derive(Clone, Copy, Debug, PartialEq, Eq, Error)]
pub enum Refusal {
    /// It doesn't begin with its mark.
    #[error("the record doesn't begin with its mark")]
    Mark,
    /// An a-priori number is above 16,383 in size, or a potential above 600,000,000.
    #[error("a number or a potential is too large")]
    Range,
    /// One of the two bits that end the word isn't 0.
    #[error("a bit that ends the word isn't 0")]
    Pad,
    /// Word and potentials are no witness.
    #[error("the word and its potentials are no witness")]
    Path(PathFault),
}

/// A place to check records at: it owns the lists that a record is read into, so that a check takes no memory. It can
/// be used again at once. Contracts see its parameters.
#[derive(Drop)]
pub struct AuditDesk {
    lists: RecordLists,
}

impl Model for AuditDesk {
    ghost use Rattle.hpe_base.specs.Parameters.{Parameters};

    ghost Value = { Parameters };

    ghost view = { λ d. d.lists.profile };
}

impl AuditDesk {
    /// Takes the memory for the records of a link.
    pub fn new(alloc: Global, p: &Profile) -> Result<AuditDesk, NoMemory>
        ensures { IfOk result (λ d. d ≡ p.now) }
    {
        let lists = RecordLists::new(alloc, p)?;
        Ok(AuditDesk { lists })
    }
}

/// Whether the record begins with its mark.
fn has_mark(octets: &[u8]) -> bool
    requires { 4 ≤ length octets.now }
    ensures mark { result ≡ true → take 4 octets.now ≡ record_mark }
    ensures other { result ≡ false → take 4 octets.now ≢ record_mark }
{
    octets.starts_with(&MARK)
}

/// Whether each number is at most `most` in size.
pub fn are_within(most: u32, numbers: &[i32]) -> bool
    ensures within { result ≡ true → AllWithin most numbers.now }
    ensures beyond { result ≡ false → AllWithin most numbers.now → ⊥ }
{
    numbers.iter().all(|number| number.unsigned_abs() <= most)
}

/// Whether each potential is.
pub fn potentials_are_within(most: u32, rows: &[[i32; 4]]) -> bool
    ensures within { result ≡ true → PotentialsWithin most rows.now }
    ensures beyond { result ≡ false → PotentialsWithin most rows.now → ⊥ }
{
    for row in rows {
        if !are_within(most, row) {
            return false;
        }
    }
    true
}

/// Whether every number and potential is within its bound.
fn are_in_bounds(numbers: &[i32], potentials: &[[i32; 4]]) -> bool
    ensures within { result ≡ true → AllWithin clamp numbers.now × PotentialsWithin potential_most potentials.now }
    ensures beyond { result ≡ false
        → AllWithin clamp numbers.now → PotentialsWithin potential_most potentials.now → ⊥ }
{
    are_within(u32::from(CLAMP), numbers) && potentials_are_within(POTENTIAL_MOST, potentials)
}

/// Whether the two bits that end the word are 0.
fn is_padded(octets: &[u8], rate: Rate) -> bool
    requires { length octets.now ≡ record_octets rate }
    ensures padded { result ≡ true → IsPadded rate octets.now }
    ensures other { result ≡ false → IsPadded rate octets.now → ⊥ }
{
    let steps = rate.steps();
    bit_of(octets, steps - 2) == 0 && bit_of(octets, steps - 1) == 0
}

/// Checks a record: its mark, the sizes of its numbers and potentials, the two bits that end the word, and that no word
/// scores more than its own. It answers the word's number and its score, or the first refusal that holds, in the order
/// of [`Refusal`] and [`PathFault`].
///
/// `octets` has the length of a record of the rate, and `desk` was made for the link. Whether the a-priori numbers came
/// from any counts isn't checked.
pub fn check_record(p: &Profile, octets: &[u8], desk: &mut AuditDesk) -> Result<(u32, i32), Refusal>
    requires desk { desk.old ≡ p.now }
    requires octets { length octets.now ≡ record_octets p.now.rate }
    ensures answer { IsRecordAnswer p.now octets.now result }
    ensures best { IfOk result (λ answer. IsBestInside p.now octets.now answer.1) }
    ensures desk { desk.new ≡ desk.old }
{
    if !has_mark(octets) {
        return Err(Refusal::Mark);
    }
    let lists = &mut desk.lists;
    lists.read(octets);
    if !are_in_bounds(&lists.numbers, &lists.potentials) {
        return Err(Refusal::Range);
    }
    if !is_padded(octets, p.rate()) {
        return Err(Refusal::Pad);
    }
    match check_path(p.columns(), &lists.numbers, &lists.bits, &lists.potentials) {
        Ok(score) => Ok((word_of(octets), score)),
        Err(fault) => Err(Refusal::Path(fault)),
    }
}
