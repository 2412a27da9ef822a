//! Reading the fields of a record.
ghost use Rattle.std.specs.Prelude.{◌≡◌, ◌<◌, ◌≤◌, ◌+◌, ◌*◌, ◌/◌, length, IfOk};
ghost use Rattle.hpe_base.specs.Bits.{AreBits};
ghost use Rattle.hpe_base.specs.Lists.{tabulate};
ghost use Rattle.hpe_base.specs.Parameters.{IsValid, codeword_bits, information_bits};
ghost use Rattle.hpe_witness.specs.Record.{bits_place, row_octets, word_in, numbers_in, bit_in, bits_in, potential_at, row_at, rows_in, record_octets};
ghost use Rattle.hpe_witness.specs.Room.{HasRoom};

use crate::record::{BITS, NUMBER_OCTETS, NUMBERS, POTENTIAL_OCTETS, ROW_OCTETS, WORD, rows_place};
use byteorder::{BigEndian, ByteOrder};
use hpe_base::bits::OCTET_BITS;
use hpe_base::{CODE_BITS, NoMemory, Profile};
use std::alloc::Global;

/// The word's number.
pub fn word_of(octets: &[u8]) -> u32
    requires { 8 ≤ length octets.now }
    ensures { result ≡ word_in octets.now }
{
    BigEndian::read_u32(&octets[WORD..])
}

/// Reads the a-priori numbers.
fn read_numbers(octets: &[u8], l: &mut [i32])
    requires octets { bits_place ≤ length octets.now }
    requires l { length l.old ≡ codeword_bits }
    ensures { l.new ≡ numbers_in octets.now }
{
    for i in 0..CODE_BITS {
        l[i] = i32::from(BigEndian::read_i16(&octets[NUMBERS + NUMBER_OCTETS * i..]));
    }
}

/// Bit `i` of the word and of the two that end it.
pub fn bit_of(octets: &[u8], i: usize) -> u8
    requires { bits_place + i / 8 < length octets.now }
    ensures bit { result ≡ bit_in octets.now i }
    ensures low { result < 2 }
{
    (octets[BITS + i / OCTET_BITS] >> (OCTET_BITS - 1 - i % OCTET_BITS)) & 1
}

/// Reads the word's bits.
fn read_bits(octets: &[u8], u: &mut [u8])
    requires octets { bits_place + length u.old / 8 < length octets.now }
    ensures bits { u.new ≡ bits_in (length u.old) octets.now }
    ensures are { AreBits u.new }
{
    for i in 0..u.len() {
        u[i] = bit_of(octets, i);
    }
}

/// The potential that stands from place `at` on.
fn potential_at(octets: &[u8], at: usize) -> i32
    requires { at + 4 ≤ length octets.now }
    ensures { result ≡ potential_at octets.now at }
{
    BigEndian::read_i32(&octets[at..])
}

/// The four potentials that stand from place `at` on.
fn read_row(octets: &[u8], at: usize) -> [i32; 4]
    requires { at + row_octets ≤ length octets.now }
    ensures { result ≡ row_at octets.now at }
{
    let first = potential_at(octets, at);
    let second = potential_at(octets, at + POTENTIAL_OCTETS);
    let third = potential_at(octets, at + 2 * POTENTIAL_OCTETS);
    let fourth = potential_at(octets, at + 3 * POTENTIAL_OCTETS);
    [first, second, third, fourth]
}

/// Reads the rows of potentials, which stand from place `from` on.
fn read_rows(octets: &[u8], from: usize, rows: &mut [[i32; 4]])
    requires { from + row_octets * length rows.old ≡ length octets.now }
    ensures { rows.new ≡ tabulate (length rows.old) (λ t. row_at octets.now (from + row_octets * t)) }
{
    for t in 0..rows.len() {
        rows[t] = read_row(octets, from + ROW_OCTETS * t);
    }
}

/// A list of so many zeros or rows of zeros.
fn zeros<T: Copy + Default>(alloc: Global, n: usize) -> Result<Vec<T>, NoMemory>
    ensures { IfOk result (λ v. length v.items ≡ n) }
{
    vec![in alloc; T::default(); n].map_err(|_| NoMemory)
}

/// The lists of a record, which stay as long as the rate says.
#[derive(Drop)]
pub struct RecordLists {
    pub profile: Profile,
    /// The a-priori number of each code bit.
    pub numbers: Vec<i32>,
    /// The word's bits.
    pub bits: Vec<u8>,
    /// Four potentials before each step and after the last.
    pub potentials: Vec<[i32; 4]>,
    ghost valid: { IsValid profile },
    ghost room: { HasRoom profile.rate numbers.items bits.items potentials.items },
}

impl RecordLists {
    /// Takes the memory.
    pub fn new(alloc: Global, p: &Profile) -> Result<RecordLists, NoMemory>
        ensures { IfOk result (λ lists. lists.profile ≡ p.now) }
    {
        let steps = p.rate().steps();
        Ok(RecordLists {
            profile: p.copy(),
            numbers: zeros(alloc, CODE_BITS)?,
            bits: zeros(alloc, p.rate().information())?,
            potentials: zeros(alloc, steps + 1)?,
        })
    }

    /// Reads a record.
    pub fn read(&mut self, octets: &[u8])
        requires { length octets.now ≡ record_octets self.old.profile.rate }
        ensures profile { self.new.profile ≡ self.old.profile }
        ensures numbers { self.new.numbers.items ≡ numbers_in octets.now }
        ensures bits { self.new.bits.items ≡ bits_in (information_bits self.old.profile.rate) octets.now }
        ensures are { AreBits self.new.bits.items }
        ensures potentials { self.new.potentials.items ≡ rows_in self.old.profile.rate octets.now }
    {
        let rows = rows_place(self.profile.rate());
        read_numbers(octets, &mut self.numbers);
        read_bits(octets, &mut self.bits);
        read_rows(octets, rows, &mut self.potentials);
    }
}
