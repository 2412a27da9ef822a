//! The layout of a record: a witness as octets, each number with its high octet first.
//!
//! | field | octets |
//! |---|---|
//! | `HPEW` in ASCII | 4 |
//! | the word's number | 4 |
//! | the 15,120 a-priori numbers, signed | 2 each |
//! | the word's bits, the first most significant, and the two zero bits that end it | an eighth of the steps |
//! | four potentials before each step and after the last, signed, state 0 first | 4 each |
ghost use Rattle.std.specs.Prelude.{◌≡◌};
ghost use Rattle.hpe_witness.specs.Record.{rows_place, record_octets};

use hpe_base::bits::OCTET_BITS;
use hpe_base::{CODE_BITS, Rate};

/// What a record begins with.
pub const MARK: [u8; 4] = *b"HPEW";

/// Where the word's number stands.
pub const WORD: usize = 4;

/// Where the a-priori numbers stand.
pub const NUMBERS: usize = 8;

/// The octets of an a-priori number.
pub const NUMBER_OCTETS: usize = 2;

/// Where the word's bits stand.
pub const BITS: usize = NUMBERS + NUMBER_OCTETS * CODE_BITS;

/// The octets of a potential.
pub const POTENTIAL_OCTETS: usize = 4;

/// The octets of four potentials.
pub const ROW_OCTETS: usize = 4 * POTENTIAL_OCTETS;

/// Where the potentials stand.
pub fn rows_place(rate: Rate) -> usize
    ensures { result ≡ rows_place rate }
{
    BITS + rate.steps() / OCTET_BITS
}

/// The octets of a record: 111,534, 152,169 or 192,804 at rate 1/3, 1/2 or 2/3.
pub fn record_octets(rate: Rate) -> usize
    ensures { result ≡ record_octets rate }
{
    rows_place(rate) + ROW_OCTETS * (rate.steps() + 1)
}
