//! The encoder of a codeword.
ghost use Rattle.std.specs.Prelude.{◌≡◌, ◌<◌, length, All};
ghost use Rattle.hpe_base.specs.Bits.{AreBits};
ghost use Rattle.hpe_base.specs.Codeword.{codeword};
ghost use Rattle.hpe_base.specs.Parameters.{block_bits, codeword_symbols, positions};

use hpe_base::{CODE_BITS, Profile};
use hpe_block::close_block;
use hpe_code::{CodeTables, outer_encode};
use hpe_ppm::{accumulate, symbols_of};

/// The most bits that enter the convolutional code for a codeword, those at rate 2/3.
const MOST_STEPS: usize = 10_080;

/// Room for a block with its check and termination.
fn blank_closed() -> [u8; MOST_STEPS]
    ensures { length result ≡ 10080 }
{
    [0; MOST_STEPS]
}

/// Room for the code bits of a codeword.
fn blank_codeword() -> [u8; CODE_BITS]
    ensures { length result ≡ 15120 }
{
    [0; CODE_BITS]
}

/// Encodes a block of information bits to the symbols of its codeword, each below the order's positions.
///
/// The block is randomised, checked and terminated, goes through the convolutional code with its puncturing, the code
/// interleaver and the accumulator, and is mapped to pulse positions. The codeword marker, the channel interleaver and
/// the repeats come later. All room is on the stack, about 40,000 octets.
pub fn encode_word(tables: &CodeTables, p: &Profile, block: &[u8], out: &mut [u8])
    requires bits { AreBits block.now }
    requires block { length block.now ≡ block_bits p.now.rate }
    requires out { length out.old ≡ codeword_symbols p.now.order }
    ensures value { out.new ≡ codeword p.now block.now }
    ensures below { All (λ s. s < positions p.now.order) out.new }
{
    let mut room = blank_closed();
    let closed = &mut room[..p.rate().steps()];
    close_block(p, block, closed);
    let mut kept = blank_codeword();
    outer_encode(p.columns(), closed, &mut kept);
    let mut woven = blank_codeword();
    tables.interleave(&kept, &mut woven);
    accumulate(&mut woven);
    symbols_of(p.order(), &woven, out);
}
