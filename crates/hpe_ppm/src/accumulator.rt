//! The accumulator, the inner code of rate 1.
ghost use Rattle.std.specs.Prelude.{◌≡◌};
ghost use Rattle.hpe_base.specs.Accumulator.{accumulated};
ghost use Rattle.hpe_base.specs.Bits.{AreBits};

/// Accumulates the bits, of any number: each becomes the sum modulo 2 of the bits up to and with it.
///
/// This is the accumulator, which stands between the code interleaver and the pulse-position mapper.
pub fn accumulate(bits: &mut [u8])
    requires { AreBits bits.old }
    ensures sums { bits.new ≡ accumulated bits.old }
    ensures bits { AreBits bits.new }
{
    let mut total = 0;
    for bit in bits.iter_mut() {
        total = (total + *bit) % 2;
        *bit = total;
    }
}
