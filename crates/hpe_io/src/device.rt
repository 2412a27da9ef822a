//! What the chain reads from and writes to.
ghost use Rattle.std.specs.Prelude.{◌≡◌, ◌<◌, ℕ, List, length};
ghost use Rattle.std.specs.declared.option.Option.{Option};
ghost use Rattle.hpe_io.specs.Devices.{HasCause, Puts, Takes};

use thiserror::Error;

/// A fault of the outside: a device didn't give or take octets. It is counted where it happens.
#[derive(Clone, Copy, Debug, PartialEq, Eq, Error)]
#[error("the device failed")]
pub struct Failed;

/// Memory ran out.
#[derive(Clone, Copy, Debug, PartialEq, Eq, Error)]
#[error("out of memory")]
pub struct NoMemory;

/// What octets are read from.
///
/// Contracts see of a source the octets that are left, which it may tell or not, and a count of its faults.
/// The count never falls, and stays at 2^64 - 1 once it is there; a take that doesn't fail leaves it. The mark and
/// the build are numbers by which contracts of sources that hold another one know what they were built with. No
/// take changes them, nor whether left is told.
pub trait Source {
    ghost left: { Self → Option (List ℕ) };

    ghost faults: { Self → ℕ };

    ghost mark: { Self → ℕ };

    ghost build: { Self → List ℕ };

    /// Takes the next octets, as many as the source has at hand and at most `into.len()`, into the front of
    /// `into`, and answers their number, which is 0 at the end of the input. `Failed` says that the source
    /// had a fault, and then no octet is lost: a later take may go on.
    fn take(&mut self, into: &mut [u8]) -> Result<usize, Failed>
        requires { 0 < length into.old }
        ensures bytes { Takes (left self.old) (left self.new) result into.old into.new }
        ensures cause { HasCause (faults self.old) (faults self.new) result }
        ensures mark { mark self.new ≡ mark self.old }
        ensures build { build self.new ≡ build self.old };
}

/// What octets are written to.
///
/// Contracts see of a sink the octets that were written, which it may tell or not, and a count of its
/// faults. The count never falls, and stays at 2^64 - 1 once it is there; a put that doesn't fail leaves it. The
/// mark is a number that no put changes.
pub trait Sink {
    ghost written: { Self → Option (List ℕ) };

    ghost faults: { Self → ℕ };

    ghost mark: { Self → ℕ };

    /// Writes the octets of `piece`, all of them or after `Failed`, which says that the sink had a fault,
    /// those of some front of it.
    fn put(&mut self, piece: &[u8]) -> Result<(), Failed>
        requires { 0 < length piece.now }
        ensures bytes { Puts (written self.old) (written self.new) result piece.now }
        ensures cause { HasCause (faults self.old) (faults self.new) result }
        ensures mark { mark self.new ≡ mark self.old };
}
