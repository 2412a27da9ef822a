//! The list that the sources in memory hand out.
ghost use Rattle.std.specs.Prelude.{◌≡◌, ◌<◌, All, IfOk, [], drop, length, take};
ghost use Rattle.hpe_io.specs.Devices.{next_count};
ghost use Rattle.hpe_io.specs.Memory.{after_take, most_of, taken_count};

use crate::device::NoMemory;
use std::alloc::Global;
use std::marker::Model;

/// A list of octets that is handed out in pieces.
#[derive(Debug, Drop)]
pub(crate) struct Feed {
    bytes: Vec<u8>,
    at: usize,
    pieces: Vec<u32>,
    calls: u64,
}

impl Model for Feed {
    ghost use Rattle.std.specs.Prelude.{◌≤◌, ◌<◌, All, drop};
    ghost use Rattle.std.specs.Vec.{vec_len};
    ghost use Rattle.hpe_io.specs.Memory.{Supply};

    ghost Value = { Supply };

    ghost view = { λ f. record { left = drop f.at f.bytes.items; pieces = f.pieces.items; calls = f.calls } };

    ghost invariant = { λ f. (f.at ≤ vec_len f.bytes) × All (λ p. 0 < p) f.pieces.items };
}

impl Feed {
    /// A feed of these octets, of which call number `i` hands out at most `pieces[i % pieces.len()]`, or as
    /// many as asked where `pieces` is empty.
    pub(crate) fn new(alloc: Global, bytes: &[u8], pieces: &[u32]) -> Result<Feed, NoMemory>
        requires { All (λ p. 0 < p) pieces.now }
        ensures { IfOk result (λ f. f ≡ record { left = bytes.now; pieces = pieces.now; calls = 0 }) }
    {
        let bytes = Vec::from_slice(alloc, bytes).map_err(|_| NoMemory)?;
        let pieces = Vec::from_slice(alloc, pieces).map_err(|_| NoMemory)?;
        Ok(Feed {
            bytes,
            at: 0,
            pieces,
            calls: 0,
        })
    }

    /// The number of the next call, from 0.
    pub(crate) fn calls(&self) -> u64
        ensures { result ≡ self.now.calls }
    {
        self.calls
    }

    /// Counts a call that hands out nothing.
    pub(crate) fn skip(&mut self)
        ensures { self.new ≡ record self.old { calls = next_count self.old.calls } }
    {
        self.calls = self.calls.saturating_add(1);
    }

    /// The most octets that the next call hands out.
    fn most(&self, asked: usize) -> usize
        requires { 0 < asked }
        ensures value { result ≡ most_of self.now asked }
        ensures positive { 0 < result }
    {
        if self.pieces.is_empty() {
            return asked;
        }
        let place = (self.calls % self.pieces.len() as u64) as usize;
        asked.min(self.pieces[place] as usize)
    }

    /// Hands out the next octets into the front of `into`, and answers their number.
    pub(crate) fn hand_out(&mut self, into: &mut [u8]) -> usize
        requires { 0 < length into.old }
        ensures count { result ≡ taken_count self.old (length into.old) }
        ensures bytes { take result into.new ≡ take result self.old.left }
        ensures rest { drop result into.new ≡ drop result into.old }
        ensures supply { self.new ≡ after_take self.old (length into.old) }
        ensures end { result ≡ 0 → self.old.left ≡ [] }
    {
        let most = self.most(into.len());
        self.calls = self.calls.saturating_add(1);
        let count = most.min(self.bytes.len() - self.at);
        let end = self.at + count;
        into[..count].copy_from_slice(&self.bytes[self.at..end]);
        self.at = end;
        count
    }
}
