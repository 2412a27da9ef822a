//! The inverse of the code interleaver, as a table.
//!
//! To write each value to its place in turn is half as fast as to read each from its place, so the way back has a table
//! of its own.
ghost use Rattle.std.specs.Prelude.{◌≡◌, ◌<◌, ℕ, length};
ghost use Rattle.hpe_base.specs.CodeInterleaver.{pi_inverse};
ghost use Rattle.hpe_base.specs.Parameters.{codeword_bits};
ghost use Rattle.hpe_base.specs.Sizes.{number_at};
ghost use Rattle.hpe_turn.specs.InverseTable.{IsInverseTable};

use hpe_base::{CODE_BITS, NoMemory};
use hpe_code::CodeTables;
use std::alloc::Global;

/// For each code bit, the place that it goes to.
#[derive(Drop)]
pub(crate) struct InverseTable {
    places: Vec<u16>,
    ghost table: { IsInverseTable places.items },
}

impl InverseTable {
    /// Makes the table, in 30,240 octets.
    pub(crate) fn new(alloc: Global, tables: &CodeTables) -> Result<InverseTable, NoMemory> {
        let mut places = Vec::with_capacity(alloc, CODE_BITS).map_err(|_| NoMemory)?;
        for e in 0..CODE_BITS {
            places
                .push(tables.pi_inverse(e) as u16)
                .map_err(|_| NoMemory)?;
        }
        Ok(InverseTable { places })
    }

    /// Puts the numbers of a codeword's bits back from the order of the code interleaver.
    ///
    /// Both have 15,120 places.
    pub(crate) fn deinterleave(&self, from: &[i32], into: &mut [i32])
        requires from { length from.now ≡ codeword_bits }
        requires into { length into.old ≡ codeword_bits }
        ensures { (e : ℕ) → e < codeword_bits → number_at into.new e ≡ number_at from.now (pi_inverse e) }
    {
        let places = self.places.as_slice();
        for (e, number) in into.iter_mut().enumerate() {
            *number = from[places[e] as usize];
        }
    }
}
