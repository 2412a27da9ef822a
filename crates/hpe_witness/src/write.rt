//! Writing a witness as a record, field after field.
ghost use Rattle.std.specs.Prelude.{◌≡◌, ◌<◌, ◌≤◌, ◌+◌, ◌-◌, ◌*◌, ◌/◌, ◌^◌, ℕ, take, drop, length, slice_index, slice_index_or, []};
ghost use Rattle.std.specs.Int.{w16, bit_at, cast_signed};
ghost use Rattle.byteorder.specs.Endian.{big_number};
ghost use Rattle.hpe_base.specs.Bits.{AreBits};
ghost use Rattle.hpe_base.specs.Sizes.{AllWithin};
ghost use Rattle.hpe_base.specs.Parameters.{clamp, codeword_bits, information_bits};
ghost use Rattle.hpe_base.specs.Termination.{terminated};
ghost use Rattle.hpe_witness.specs.Potentials.{potential_most, PotentialsWithin};
ghost use Rattle.hpe_witness.specs.Record.{record_mark, numbers_place, bits_place, row_octets, word_in, number_in, bit_in, potential_at, row_at, record_octets, IsRecord, IsSameBelow};
ghost use Rattle.hpe_base.specs.Sizes.{number_at};

use crate::edges::input_at;
use crate::record::{
    BITS, MARK, NUMBER_OCTETS, NUMBERS, POTENTIAL_OCTETS, ROW_OCTETS, WORD, rows_place,
};
use byteorder::{BigEndian, ByteOrder};
use hpe_base::bits::OCTET_BITS;
use hpe_base::{CODE_BITS, Profile};

/// Writes the mark and the word's number.
fn put_head(into: &mut [u8], word: u32)
    requires { 8 ≤ length into.old }
    ensures mark { take 4 into.new ≡ record_mark }
    ensures word { word_in into.new ≡ word }
{
    into[..WORD].copy_from_slice(&MARK);
    BigEndian::write_u32(&mut into[WORD..], word);
}

/// Writes a number in two octets.
fn put_number(into: &mut [u8], at: usize, number: i16)
    requires { at + 2 ≤ length into.old }
    ensures number { cast_signed w16 (big_number 2 (drop at into.new)) ≡ number }
    ensures below { IsSameBelow at into.old into.new }
{
    BigEndian::write_i16(&mut into[at..], number);
}

/// Writes the a-priori numbers.
fn put_numbers(into: &mut [u8], l: &[i32])
    requires into { bits_place ≤ length into.old }
    requires l { length l.now ≡ codeword_bits }
    requires within { AllWithin clamp l.now }
    ensures numbers { (i : ℕ) → i < codeword_bits → number_in into.new i ≡ number_at l.now i }
    ensures below { IsSameBelow numbers_place into.old into.new }
{
    for i in 0..CODE_BITS {
        put_number(into, NUMBERS + NUMBER_OCTETS * i, l[i] as i16);
    }
}

/// The octet of eight inputs, from input `first` on.
fn octet_of(u: &[u8], first: usize) -> u8
    requires bits { AreBits u.now }
    requires first { first ≤ 2 ^ 60 }
    ensures { (i : ℕ) → i < 8 → bit_at result (7 - i) ≡ slice_index (terminated u.now) (first + i) }
{
    let mut octet = 0;
    for i in 0..OCTET_BITS {
        octet = octet * 2 + input_at(u, first + i) as u8;
    }
    octet
}

/// Writes the word's bits and the two zeros that end it.
fn put_bits(into: &mut [u8], u: &[u8])
    requires into { bits_place + (length u.now + 2) / 8 ≤ length into.old }
    requires free { length u.now ≤ 10078 }
    requires bits { AreBits u.now }
    ensures bits { (i : ℕ) → i < (length u.now + 2) / 8 * 8 → bit_in into.new i ≡ slice_index (terminated u.now) i }
    ensures below { IsSameBelow bits_place into.old into.new }
{
    for k in 0..(u.len() + 2) / OCTET_BITS {
        into[BITS + k] = octet_of(u, OCTET_BITS * k);
    }
}

/// Writes a potential in four octets.
fn put_potential(into: &mut [u8], at: usize, potential: i32)
    requires { at + 4 ≤ length into.old }
    ensures potential { potential_at into.new at ≡ potential }
    ensures below { IsSameBelow at into.old into.new }
{
    BigEndian::write_i32(&mut into[at..], potential);
}

/// Writes four potentials.
fn put_row(into: &mut [u8], at: usize, row: &[i32; 4])
    requires { at + row_octets ≤ length into.old }
    ensures row { row_at into.new at ≡ row.now }
    ensures below { IsSameBelow at into.old into.new }
{
    put_potential(into, at, row[0]);
    put_potential(into, at + POTENTIAL_OCTETS, row[1]);
    put_potential(into, at + 2 * POTENTIAL_OCTETS, row[2]);
    put_potential(into, at + 3 * POTENTIAL_OCTETS, row[3]);
}

/// Writes the rows of potentials from place `from` on.
fn put_rows(into: &mut [u8], from: usize, rows: &[[i32; 4]])
    requires { from + row_octets * length rows.now ≤ length into.old }
    ensures rows { (t : ℕ) → t < length rows.now
        → row_at into.new (from + row_octets * t) ≡ slice_index_or rows.now t [] }
    ensures below { IsSameBelow from into.old into.new }
{
    for t in 0..rows.len() {
        put_row(into, from + ROW_OCTETS * t, &rows[t]);
    }
}

/// Writes the record of a word's number, the a-priori numbers `l`, a word `u` and its potentials.
///
/// The lists are as in [`check_path`](crate::check_path) for the profile's columns and as long as its rate says, and
/// `into` has the length of a record of the rate. A record is written of any word and potentials of that size, also of
/// such as are no witness.
pub fn write_record(p: &Profile, word: u32, l: &[i32], u: &[u8], rows: &[[i32; 4]], into: &mut [u8])
    requires l { length l.now ≡ codeword_bits }
    requires within { AllWithin clamp l.now }
    requires free { length u.now ≡ information_bits p.now.rate }
    requires bits { AreBits u.now }
    requires rows { length rows.now ≡ length u.now + 3 }
    requires potentials { PotentialsWithin potential_most rows.now }
    requires into { length into.old ≡ record_octets p.now.rate }
    ensures { IsRecord p.now.rate word l.now u.now rows.now into.new }
{
    put_head(into, word);
    put_numbers(into, l);
    put_bits(into, u);
    put_rows(into, rows_place(p.rate()), rows);
}
