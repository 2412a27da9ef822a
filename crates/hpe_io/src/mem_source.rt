//! Sources that hand out a list in memory.
ghost use Rattle.std.specs.Prelude.{◌≡◌, ◌<◌, ◌↔◌, All, Contains, IfOk, IsErr, Ok, OnErr, OnOk, Some, [], length};
ghost use Rattle.hpe_io.specs.Devices.{HasCause, Takes};
ghost use Rattle.hpe_io.specs.Memory.{after_failure, after_take, taken_count};

use crate::device::{Failed, NoMemory, Source};
use crate::feed::Feed;
use std::alloc::Global;
use std::marker::Model;

/// A source over a list in memory that has no faults: its count is always 0.
#[derive(Debug, Drop)]
pub struct SureSource {
    feed: Feed,
}

impl Model for SureSource {
    ghost use Rattle.hpe_io.specs.Memory.{Supply};

    ghost Value = { Supply };

    ghost view = { λ s. s.feed };
}

impl SureSource {
    /// A source of a copy of these octets. Call number `i`, from 0, hands out at most `pieces[i %
    /// pieces.len()]` octets, or as many as asked where `pieces` is empty. It takes all its memory here.
    pub fn new(alloc: Global, bytes: &[u8], pieces: &[u32]) -> Result<SureSource, NoMemory>
        requires { All (λ p. 0 < p) pieces.now }
        ensures { IfOk result (λ s. s ≡ record { left = bytes.now; pieces = pieces.now; calls = 0 }) }
    {
        let feed = Feed::new(alloc, bytes, pieces)?;
        Ok(SureSource { feed })
    }
}

impl Source for SureSource {
    ghost left = { λ s. Some s.left };

    ghost faults = { λ _. 0 };

    ghost mark = { λ _. 0 };

    ghost build = { λ _. [] };

    fn take(&mut self, into: &mut [u8]) -> Result<usize, Failed>
        requires { 0 < length into.old }
        ensures bytes { Takes (Some self.old.left) (Some self.new.left) result into.old into.new }
        ensures count { result ≡ Ok (taken_count self.old (length into.old)) }
        ensures supply { self.new ≡ after_take self.old (length into.old) }
    {
        Ok(self.feed.hand_out(into))
    }
}

/// A source over a list in memory that has the faults that it is told to have.
#[derive(Debug, Drop)]
pub struct MemSource {
    feed: Feed,
    failing: Vec<u64>,
    faults: u64,
}

impl Model for MemSource {
    ghost use Rattle.hpe_io.specs.Memory.{FaultySupply};

    ghost Value = { FaultySupply };

    ghost view = { λ s. record { supply = s.feed; failing = s.failing.items; faults = s.faults } };
}

impl MemSource {
    /// A source of a copy of these octets. Call number `i`, from 0, hands out at most `pieces[i %
    /// pieces.len()]` octets, or as many as asked where `pieces` is empty. A call whose number is in
    /// `failing` hands out nothing and answers `Failed`. It takes all its memory here.
    pub fn new(
        alloc: Global,
        bytes: &[u8],
        pieces: &[u32],
        failing: &[u64],
    ) -> Result<MemSource, NoMemory>
        requires { All (λ p. 0 < p) pieces.now }
        ensures supply { IfOk result (λ s.
            s.supply ≡ record { left = bytes.now; pieces = pieces.now; calls = 0 }) }
        ensures failing { IfOk result (λ s. s.failing ≡ failing.now) }
        ensures faults { IfOk result (λ s. s.faults ≡ 0) }
    {
        let feed = Feed::new(alloc, bytes, pieces)?;
        let failing = Vec::from_slice(alloc, failing).map_err(|_| NoMemory)?;
        Ok(MemSource {
            feed,
            failing,
            faults: 0,
        })
    }
}

impl Source for MemSource {
    ghost left = { λ s. Some s.supply.left };

    ghost faults = { λ s. s.faults };

    ghost mark = { λ _. 0 };

    ghost build = { λ _. [] };

    fn take(&mut self, into: &mut [u8]) -> Result<usize, Failed>
        requires { 0 < length into.old }
        ensures bytes { Takes (Some self.old.supply.left) (Some self.new.supply.left) result
            into.old into.new }
        ensures cause { HasCause self.old.faults self.new.faults result }
        ensures fails { IsErr result ↔ Contains self.old.failing self.old.supply.calls }
        ensures count { IfOk result (λ n. n ≡ taken_count self.old.supply (length into.old)) }
        ensures ok { OnOk result (self.new ≡ record self.old {
          supply = after_take self.old.supply (length into.old);
        }) }
        ensures err { OnErr result (self.new ≡ after_failure self.old) }
    {
        let call = self.feed.calls();
        if self.failing.contains(&call) {
            self.feed.skip();
            self.faults = self.faults.saturating_add(1);
            return Err(Failed);
        }
        Ok(self.feed.hand_out(into))
    }
}

#[cfg(test)]
mod tests {
    use super::*;
    use std::process::Abort;
    use std::test::Fail;

    const OCTETS: [u8; 10] = [1, 2, 3, 4, 5, 6, 7, 8, 9, 10];

    /// Takes four octets at a time, and compares the answers, and the octets with 1, 2, 3 and so on.
    fn compare_takes<S: Source>(
        rt: &impl Abort,
        source: &mut S,
        answers: &[Result<usize, Failed>],
    ) {
        let mut next = 1u8;
        for answer in answers {
            let mut into = [0u8; 4];
            let taken = source.take(&mut into);
            assert_eq!(rt; taken, *answer);
            if let Ok(count) = taken {
                for octet in &into[..count] {
                    assert_eq!(rt; *octet, next);
                    next = next.wrapping_add(1);
                }
            }
        }
    }

    #[test]
    fn hands_out_pieces_in_turn(rt: HostRuntime) -> Result<(), Fail> {
        let answers = [Ok(1), Ok(3), Ok(1), Ok(3), Ok(1), Ok(1), Ok(0)];
        let mut sure = SureSource::new(rt.alloc(), &OCTETS, &[1, 3])?;
        compare_takes(&rt, &mut sure, &answers);
        let mut never_failing = MemSource::new(rt.alloc(), &OCTETS, &[1, 3], &[])?;
        compare_takes(&rt, &mut never_failing, &answers);
        Ok(())
    }

    #[test]
    fn fails_at_the_calls_named(rt: HostRuntime) -> Result<(), Fail> {
        let mut source = MemSource::new(rt.alloc(), &OCTETS, &[], &[1, 3])?;
        let answers = [Ok(4), Err(Failed), Ok(4), Err(Failed), Ok(2), Ok(0)];
        compare_takes(&rt, &mut source, &answers);
        Ok(())
    }
}
