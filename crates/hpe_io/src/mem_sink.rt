//! A sink that keeps what it is given in memory.
ghost use Rattle.std.specs.Prelude.{◌≡◌, ◌<◌, ◌≤◌, ◌-◌, ◌+◌, ◌++◌, ◌↔◌, ◌⊎◌, IfOk, IsErr, IsTrue, OnErr, OnOk, Some, [], length};
ghost use Rattle.hpe_io.specs.Devices.{HasCause, Puts, next_count};
ghost use Rattle.hpe_io.specs.Memory.{IsToFail, PassesRoom, first_half, fitting, mark_of};

use crate::device::{Failed, NoMemory, Sink};
use std::alloc::Global;
use std::marker::Model;

/// A sink in memory with room for so many octets, which has the faults that it is told to have.
#[derive(Debug, Drop)]
pub struct MemSink {
    bytes: Vec<u8>,
    room: usize,
    failing: Vec<u64>,
    calls: u64,
    faults: u64,
}

impl Model for MemSink {
    ghost use Rattle.std.specs.Prelude.{◌≡◌, ◌<◌, ◌≤◌, []};
    ghost use Rattle.std.specs.Vec.{vec_len, vec_capacity};
    ghost use Rattle.hpe_io.specs.Memory.{Store};

    ghost Value = { Store };

    ghost view = { λ s. record {
      bytes = s.bytes.items;
      room = s.room;
      failing = s.failing.items;
      calls = s.calls;
      faults = s.faults;
    } };

    ghost invariant = { λ s.
        (vec_len s.bytes ≤ s.room)
        × (s.room ≤ vec_capacity s.bytes)
        × (s.failing.items ≡ [] → 0 < s.faults → vec_len s.bytes ≡ s.room) };
}

impl MemSink {
    /// An empty sink with room for `room` octets. A put whose number, from 0, is in `failing` writes the
    /// first half of its piece, rounded down and as far as there is room, and answers `Failed`. A piece
    /// that passes the room is written as far as it fits, and answers `Failed` too. It takes all its memory
    /// here.
    pub fn new(alloc: Global, room: usize, failing: &[u64]) -> Result<MemSink, NoMemory>
        ensures { IfOk result (λ s.
            s ≡ record { bytes = []; room = room; failing = failing.now; calls = 0; faults = 0 }) }
    {
        let bytes = Vec::with_capacity(alloc, room).map_err(|_| NoMemory)?;
        let failing = Vec::from_slice(alloc, failing).map_err(|_| NoMemory)?;
        Ok(MemSink {
            bytes,
            room,
            failing,
            calls: 0,
            faults: 0,
        })
    }

    /// The octets that were written.
    pub fn bytes(&self) -> &[u8]
        ensures value { result.now ≡ self.now.bytes }
        ensures full { self.now.failing ≡ [] → 0 < self.now.faults → length self.now.bytes ≡ self.now.room }
    {
        self.bytes.as_slice()
    }

    /// Writes as much of the piece as there is room for, and answers whether that was all.
    fn fill(&mut self, piece: &[u8]) -> bool
        ensures bytes { self.new.bytes ≡ self.old.bytes ++ fitting self.old piece.now }
        ensures all { IsTrue result ↔ (length self.old.bytes + length piece.now ≤ self.old.room) }
        ensures rest { self.new ≡ record self.old { bytes = self.new.bytes } }
    {
        let count = piece.len().min(self.room - self.bytes.len());
        match self.bytes.extend_from_slice(&piece[..count]) {
            Ok(()) => count == piece.len(),
            Err(_) => unreachable!(),
        }
    }
}

impl Sink for MemSink {
    ghost use Rattle.std.specs.Prelude.{Some};
    ghost use Rattle.hpe_io.specs.Memory.{mark_of};

    ghost written = { λ s. Some s.bytes };

    ghost faults = { λ s. s.faults };

    ghost mark = { mark_of };

    fn put(&mut self, piece: &[u8]) -> Result<(), Failed>
        requires { 0 < length piece.now }
        ensures bytes { Puts (Some self.old.bytes) (Some self.new.bytes) result piece.now }
        ensures cause { HasCause self.old.faults self.new.faults result }
        ensures mark { mark_of self.new ≡ mark_of self.old }
        ensures fails { IsErr result ↔ (IsToFail self.old ⊎ PassesRoom self.old piece.now) }
        ensures half { IsToFail self.old
            → self.new.bytes ≡ self.old.bytes ++ fitting self.old (first_half piece.now) }
        ensures whole { ¬ IsToFail self.old
            → self.new.bytes ≡ self.old.bytes ++ fitting self.old piece.now }
        ensures ok { OnOk result (self.new.faults ≡ self.old.faults) }
        ensures err { OnErr result (self.new.faults ≡ next_count self.old.faults) }
        ensures rest { self.new ≡ record self.old {
          bytes = self.new.bytes;
          calls = next_count self.old.calls;
          faults = self.new.faults;
        } }
    {
        let call = self.calls;
        self.calls = call.saturating_add(1);
        if self.failing.contains(&call) {
            self.fill(&piece[..piece.len() / 2]);
            self.faults = self.faults.saturating_add(1);
            return Err(Failed);
        }
        if self.fill(piece) {
            Ok(())
        } else {
            self.faults = self.faults.saturating_add(1);
            Err(Failed)
        }
    }
}

#[cfg(test)]
mod tests {
    use super::*;
    use std::test::Fail;

    #[test]
    fn keeps_what_has_room(rt: HostRuntime) -> Result<(), Fail> {
        let mut sink = MemSink::new(rt.alloc(), 5, &[1])?;
        // the second put is to fail after half of its piece, the third passes the room
        assert_eq!(rt; sink.put(&[1, 2, 3]), Ok(()));
        assert_eq!(rt; sink.bytes(), [1, 2, 3].as_slice());
        assert_eq!(rt; sink.put(&[4, 5, 6]), Err(Failed));
        assert_eq!(rt; sink.bytes(), [1, 2, 3, 4].as_slice());
        assert_eq!(rt; sink.put(&[7, 8]), Err(Failed));
        assert_eq!(rt; sink.bytes(), [1, 2, 3, 4, 7].as_slice());
        Ok(())
    }
}
