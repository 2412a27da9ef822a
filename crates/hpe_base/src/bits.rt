//! Numbers as bits, one octet a bit, most significant first.
ghost use Rattle.std.specs.Prelude.{◌≡◌, ◌≤◌, ◌<◌, ◌^◌, length, slice_index};
ghost use Rattle.hpe_base.specs.Bits.{AreBits, bits_of, number_of};

/// The bits of an octet.
pub const OCTET_BITS: usize = 8;

/// Bit `i` of a number of `width` bits, at most 32, most significant first.
#[inline]
#[tactic(auto, using(crate::proofs::BitLists::number_bit))]
pub fn bit_of(number: u32, width: usize, i: usize) -> u8
    requires width { width ≤ 32 }
    requires within { i < width }
    ensures value { result ≡ slice_index (bits_of width number) i }
    ensures bit { result < 2 }
{
    ((number >> (width - 1 - i)) & 1) as u8
}

/// Writes the low bits of a number, as many as there is room for and at most 32, most significant first.
#[inline]
pub fn write_bits(number: u32, into: &mut [u8])
    requires { length into.old ≤ 32 }
    ensures value { into.new ≡ bits_of (length into.old) number }
    ensures bits { AreBits into.new }
{
    let width = into.len();
    for (i, bit) in into.iter_mut().enumerate() {
        *bit = ((number >> (width - 1 - i)) & 1) as u8;
    }
}

/// The number that at most eight bits write, most significant first.
#[inline]
pub fn number_of(bits: &[u8]) -> u8
    requires bits { AreBits bits.now }
    requires size { length bits.now ≤ 8 }
    ensures value { result ≡ number_of bits.now }
    ensures below { result < 2 ^ length bits.now }
{
    let mut number = 0;
    for bit in bits {
        number = number * 2 + *bit;
    }
    number
}
