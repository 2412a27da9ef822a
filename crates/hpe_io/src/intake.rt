//! An input, taken piece by piece up to a limit: the one loop body that reads.
//!
//! Whoever reads an input calls [`Intake::next`] and [`Intake::piece`] in turn, and is spared what each such loop would
//! need: a buffer, the count of what came, and the octet past the limit. That octet is asked for alone, once the limit
//! is reached, so that each piece is within the limit as a whole.
ghost use Rattle.std.specs.Prelude.{◌≡◌, ◌<◌, ◌≤◌, ◌+◌, ◌-◌, ◌^◌, ◌++◌, [], length, min, IfOk, IsErrOf, IsTrue, OnErr, OnOk, false};
ghost use Rattle.std.specs.Io.KnownBytes.{IsAtEnd};
ghost use Rattle.hpe_io.specs.Devices.{Takes};
ghost use Rattle.hpe_io.specs.Intake.{HasCome, HasIntakeCause, HasStopped};
ghost use Rattle.hpe_io.specs.Standing.{SourceAnswers, SourceStands};

use crate::device::{Failed, NoMemory, Source};
use std::alloc::Global;
use std::marker::Model;
use thiserror::Error;

/// The most octets of a piece.
const ROOM: usize = 65_536;

/// Why an intake gives no piece.
#[derive(Clone, Copy, Debug, PartialEq, Eq, Error)]
pub enum IntakeFault {
    /// The input failed.
    #[error("the input failed")]
    Read,
    /// The input has more octets than the limit. One more than the limit was taken.
    #[error("the input is too long")]
    TooLong,
}

/// An input that is taken piece by piece, up to a limit.
#[derive(Drop)]
pub struct Intake {
    buffer: Vec<u8>,
    used: usize,
    taken: u64,
    limit: u64,
}

impl Model for Intake {
    ghost use Rattle.std.specs.Prelude.{◌≡◌, ◌≤◌, ◌+◌, ◌^◌, take};
    ghost use Rattle.std.specs.Vec.{vec_len};
    ghost use Rattle.hpe_io.specs.Intake.{IntakeState};

    ghost Value = { IntakeState };

    ghost view = { λ i. record { limit = i.limit; taken = i.taken; piece = take i.used i.buffer.items } };

    ghost invariant = { λ i.
        (vec_len i.buffer ≡ 65536)
        × (i.used ≤ 65536)
        × (i.limit ≤ 2 ^ 40)
        × (i.taken ≤ i.limit + 1) };
}

/// How many octets to ask for: one where no more are within the limit.
fn asked_of(most: usize, within: u64) -> usize
    requires { 0 < most }
    ensures low { 0 < result }
    ensures room { result ≤ ROOM }
    ensures most { result ≤ most }
    ensures within { result ≤ within + (1 - within) }
{
    let most = most.min(ROOM);
    if within == 0 {
        1
    } else if (most as u64) < within {
        most
    } else {
        within as usize
    }
}

/// Takes octets into the front of a buffer, at most so many.
#[tactic(auto, using(crate::proofs::Taking::takes_front))]
fn fill<I: Source>(buffer: &mut [u8], asked: usize, input: &mut I) -> Result<usize, Failed>
    requires { (0 < asked) × (asked ≤ length buffer.old) }
    ensures bytes { Takes (I.left input.old) (I.left input.new) result buffer.old buffer.new }
    ensures asked { IfOk result (λ count. count ≤ asked) }
    ensures input { SourceAnswers I.faults I.mark I.build input.old input.new result }
{
    input.take(&mut buffer[..asked])
}

impl Intake {
    /// An intake with the limit 0. It takes all its memory here, and the error is that there is too little.
    pub fn new(alloc: Global) -> Result<Intake, NoMemory>
        ensures { IfOk result (λ i. i ≡ record { limit = 0; taken = 0; piece = [] }) }
    {
        let buffer = vec![in alloc; 0; ROOM].map_err(|_| NoMemory)?;
        Ok(Intake {
            buffer,
            used: 0,
            taken: 0,
            limit: 0,
        })
    }

    /// Begins to count, for an input that may have up to `limit` octets.
    pub fn begin(&mut self, limit: u64)
        requires { limit ≤ 2 ^ 40 }
        ensures fresh { self.new ≡ record { limit = limit; taken = 0; piece = [] } }
        ensures come { (start : _) → HasCome self.new start start [] }
    {
        self.used = 0;
        self.taken = 0;
        self.limit = limit;
    }

    /// How many octets were taken since the intake began.
    pub fn taken(&self) -> u64
        ensures value { result ≡ self.now.taken }
        ensures most { result ≤ self.now.limit + 1 }
    {
        self.taken
    }

    /// The octets that the last `next` took.
    pub fn piece(&self) -> &[u8]
        ensures { result.now ≡ self.now.piece }
    {
        &self.buffer[..self.used]
    }

    /// Takes the next octets, at most `most` of them, and answers whether there were any: there are none at the end of
    /// the input alone. After a fault the piece is empty: the octet past the limit is handed on to nobody.
    pub fn next<I: Source>(&mut self, input: &mut I, most: usize) -> Result<bool, IntakeFault>
        requires { 0 < most }
        ensures limit { self.new.limit ≡ self.old.limit }
        ensures come { (start : _) (octets : _) → HasCome self.old start (I.left input.old) octets
            → OnOk result (HasCome self.new start (I.left input.new) (octets ++ self.new.piece)) }
        ensures stopped { (start : _) (octets : _) → HasCome self.old start (I.left input.old) octets
            → self.old.taken ≤ self.old.limit → OnErr result (HasStopped self.new start (I.left input.new) octets) }
        ensures more { IfOk result (λ more. IsTrue more → 0 < length self.new.piece) }
        ensures ended { (start : _) (octets : _) → HasCome self.old start (I.left input.old) octets
            → IfOk result (λ more. more ≡ false
            → HasCome self.new start (I.left input.new) octets × IsAtEnd (I.left input.new)) }
        ensures most { OnOk result (length self.new.piece ≤ most) }
        ensures within { OnOk result (self.new.taken ≤ self.old.limit) }
        ensures none { OnErr result (self.new.piece ≡ []) }
        ensures counted { OnOk result (self.new.taken ≡ self.old.taken + length self.new.piece) }
        ensures long { IsErrOf result IntakeFault.TooLong → self.new.taken ≡ self.old.limit + 1 }
        ensures cause { HasIntakeCause (I.faults input.old) (I.faults input.new) result }
        ensures at_most { self.new.taken ≤ self.old.limit + 1 }
        ensures input { SourceStands I.faults I.mark I.build input.old input.new }
    {
        self.used = 0;
        if self.taken > self.limit {
            return Err(IntakeFault::TooLong);
        }
        let asked = asked_of(most, self.limit - self.taken);
        let count = match fill(&mut self.buffer, asked, input) {
            Ok(count) => count,
            Err(_) => return Err(IntakeFault::Read),
        };
        self.taken += count as u64;
        if self.taken > self.limit {
            return Err(IntakeFault::TooLong);
        }
        self.used = count;
        Ok(count > 0)
    }
}

#[cfg(test)]
mod tests {
    use super::*;
    use crate::mem_source::MemSource;
    use std::process::Abort;
    use std::test::Fail;

    const OCTETS: [u8; 6] = [1, 2, 3, 4, 5, 6];

    /// Takes at most four octets at a time, and compares the answers, and the octets with 1, 2, 3 and so on.
    fn compare_pieces<I: Source>(
        rt: &impl Abort,
        intake: &mut Intake,
        input: &mut I,
        answers: &[Result<usize, IntakeFault>],
    ) {
        let mut next = 1u8;
        for answer in answers {
            let taken = match intake.next(input, 4) {
                Ok(_) => Ok(intake.piece().len()),
                Err(fault) => Err(fault),
            };
            assert_eq!(rt; taken, *answer);
            for octet in intake.piece() {
                assert_eq!(rt; *octet, next);
                next = next.wrapping_add(1);
            }
        }
    }

    #[test]
    fn takes_an_input_as_long_as_the_limit(rt: HostRuntime) -> Result<(), Fail> {
        let mut intake = Intake::new(rt.alloc())?;
        let mut input = MemSource::new(rt.alloc(), &OCTETS, &[], &[1])?;
        intake.begin(6);
        let answers = [Ok(4), Err(IntakeFault::Read), Ok(2), Ok(0), Ok(0)];
        compare_pieces(&rt, &mut intake, &mut input, &answers);
        assert_eq!(rt; intake.taken(), 6);
        Ok(())
    }

    #[test]
    fn refuses_a_longer_input(rt: HostRuntime) -> Result<(), Fail> {
        let mut intake = Intake::new(rt.alloc())?;
        let mut input = MemSource::new(rt.alloc(), &OCTETS, &[], &[])?;
        intake.begin(5);
        let answers = [
            Ok(4),
            Ok(1),
            Err(IntakeFault::TooLong),
            Err(IntakeFault::TooLong),
        ];
        compare_pieces(&rt, &mut intake, &mut input, &answers);
        assert_eq!(rt; intake.taken(), 6);
        Ok(())
    }
}
