//! The cyclic redundancy check, by long division over a register of 32 bits. It takes whole octets by a table of their
//! remainders. To make the table in each call costs 255 steps, where a block has thousands.
ghost use Rattle.std.specs.Prelude.{◌≡◌, ◌<◌, ◌≤◌, ◌^◌, ℕ, length, slice_index};
ghost use Rattle.hpe_base.specs.Bits.{AreBits, bits_of, number_of};
ghost use Rattle.hpe_base.specs.Check.{check_bits};
ghost use Rattle.hpe_block.specs.Division.{divided, divided_by};

use hpe_base::bits::{OCTET_BITS, number_of};

/// How many octets there are.
const OCTETS: usize = 1 << OCTET_BITS;

/// One step of the long division: the register holds what was added to the next 32 bits, of which this is the first.
fn divide_bit(check: u32, register: u32, bit: u8) -> u32
    requires { bit < 2 }
    ensures { result ≡ divided check register bit }
{
    let shifted = register << 1;
    if (register >> 31) as u8 == bit {
        shifted
    } else {
        shifted ^ check
    }
}

/// The steps for some bits, one by one.
fn divide_bits(check: u32, mut register: u32, bits: &[u8]) -> u32
    requires { AreBits bits.now }
    ensures { result ≡ divided_by check register bits.now }
{
    for bit in bits {
        register = divide_bit(check, register, *bit);
    }
    register
}

/// The remainder of each octet: the register after its bits, from a register of zeros.
fn remainders(check: u32) -> [u32; OCTETS]
    ensures { (octet : ℕ) → octet < OCTETS → slice_index result octet ≡ divided_by check 0 (bits_of 8 octet) }
{
    let mut table = [0; OCTETS];
    for octet in 1..OCTETS {
        table[octet] = divide_bit(check, table[octet / 2], (octet % 2) as u8);
    }
    table
}

/// Eight steps at once. The division is linear: what is added to the rest of the register depends only on the sum of its
/// first octet and the bits.
fn divide_octet(remainders: &[u32; OCTETS], register: u32, bits: &[u8; OCTET_BITS]) -> u32
    requires { AreBits bits.now }
    ensures { (check : ℕ) → check < 2 ^ 32
        → ((octet : ℕ) → octet < OCTETS → slice_index remainders.now octet ≡ divided_by check 0 (bits_of 8 octet))
        → result ≡ divided_by check register bits.now }
{
    (register << OCTET_BITS) ^ remainders[((register >> 24) as u8 ^ number_of(bits)) as usize]
}

/// The cyclic redundancy check of a list of bits, as a number of 32 bits of which the most significant is sent first.
///
/// The generator is `x^32` and the polynomial of the 32 bits of `check`.
pub fn check_of(check: u32, bits: &[u8]) -> u32
    requires bits { AreBits bits.now }
    requires size { length bits.now ≤ 2 ^ 20 }
    ensures number { result ≡ number_of (check_bits check bits.now) }
    ensures bits { bits_of 32 result ≡ check_bits check bits.now }
{
    let remainders = remainders(check);
    let (octets, rest) = bits.as_chunks::<OCTET_BITS>();
    let mut register = u32::MAX;
    for octet in octets {
        register = divide_octet(&remainders, register, octet);
    }
    divide_bits(check, register, rest)
}
