//! Where texts are fetched from by their names.
ghost use Rattle.std.specs.Prelude.{◌≡◌, ℕ, List, [], IfSome, OnErr};
ghost use Rattle.std.specs.declared.option.Option.{Option};
ghost use Rattle.hpe_io.specs.Shelves.{Fetches, HasShelfCause, Named};

use thiserror::Error;

/// The most octets of a text that is fetched.
pub const MOST_OCTETS: usize = 65_536;

/// Why a text isn't fetched.
#[derive(Clone, Copy, Debug, PartialEq, Eq, Error)]
pub enum ShelfFault {
    /// The shelf had a fault, which is counted where it happens.
    #[error("the shelf failed")]
    Failed,
    /// There is no text under the name.
    #[error("no such text")]
    Absent,
    /// The text has more than 65,536 octets.
    #[error("too long a text")]
    TooLong,
    /// Memory ran out.
    #[error("out of memory")]
    NoMemory,
}

/// What texts are fetched from by their names.
///
/// Contracts see of a shelf the texts under their names, which it may tell or not, and a count of its faults. The count
/// never falls, and stays at 2^64 - 1 once it is there; an answer other than `Failed` leaves it. No fetch changes the
/// texts.
pub trait Shelf {
    ghost texts: { Self → Option (List Named) };

    ghost faults: { Self → ℕ };

    /// Fetches the text under the name into `into`, which it clears first. After a refusal `into` is empty.
    fn fetch(&mut self, name: &str, into: &mut Vec<u8>) -> Result<(), ShelfFault>
        ensures text { IfSome (texts self.old) (λ ts. Fetches ts name.now result into.new.items) }
        ensures refused { OnErr result (into.new.items ≡ []) }
        ensures cause { HasShelfCause (faults self.old) (faults self.new) result }
        ensures same { texts self.new ≡ texts self.old };
}
