//! The pulse-position mapper and its inverse.
ghost use Rattle.std.specs.Prelude.{◌≡◌, ◌<◌, ◌*◌, length, All};
ghost use Rattle.hpe_base.specs.Bits.{AreBits, bits_of, number_of};
ghost use Rattle.hpe_base.specs.Mapper.{symbols_of};
ghost use Rattle.hpe_base.specs.Parameters.{symbol_bits, positions};
ghost use Rattle.hpe_ppm.specs.MappedBits.{mapped_bits};

use hpe_base::Order;
use hpe_base::bits::{number_of, write_bits};

/// Maps bits to symbols: each group of as many bits as a symbol of the order carries, 2 to 8, is the number of one
/// symbol, first bit most significant. `out` has an octet for each group, and no bit is left over.
///
/// This is the pulse-position mapper, which follows the accumulator: the symbol is the position of the pulse, from 0.
pub fn symbols_of(order: Order, bits: &[u8], out: &mut [u8])
    requires bits { AreBits bits.now }
    requires size { length bits.now ≡ length out.old * symbol_bits order }
    ensures value { out.new ≡ symbols_of order bits.now }
    ensures below { All (λ s. s < positions order) out.new }
{
    let size = order.bits() as usize;
    for (s, symbol) in out.iter_mut().enumerate() {
        *symbol = number_of(&bits[s * size..s * size + size]);
    }
}

/// Maps symbols to bits: each writes as many as a symbol of the order carries, 2 to 8, most significant first. `out` has
/// an octet for each bit.
///
/// This is the inverse of the pulse-position mapper.
pub fn bits_of(order: Order, symbols: &[u8], out: &mut [u8])
    requires below { All (λ s. s < positions order) symbols.now }
    requires size { length out.old ≡ length symbols.now * symbol_bits order }
    ensures value { out.new ≡ mapped_bits order symbols.now }
    ensures bits { AreBits out.new }
    ensures undoes { symbols_of order out.new ≡ symbols.now }
{
    let size = order.bits() as usize;
    for (s, symbol) in symbols.iter().enumerate() {
        write_bits(*symbol as u32, &mut out[s * size..s * size + size]);
    }
}
