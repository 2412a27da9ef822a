// The pseudo-randomiser. A shift register holds the next eight bits of its sequence, the first least significant, so
// that the taps select by their own bits. At each step the sum of those that they select comes in at the top.
ghost use Rattle.std.specs.Prelude.{◌≡◌, ◌≤◌, ◌<◌, ◌+◌, ◌*◌, ◌%◌, ℕ, length, sum};
ghost use Rattle.std.specs.Int.{bit_at};
ghost use Rattle.hpe_base.specs.Lists.{tabulate};
ghost use Rattle.hpe_base.specs.Bits.{AreBits};
ghost use Rattle.hpe_base.specs.Randomiser.{randomised};
ghost use Rattle.hpe_base.specs.Parameters.{block_bits};

use hpe_base::Profile;

/// The register after one step.
fn stepped(taps: u8, register: u8) -> u8
    ensures moved { (i : ℕ) → i < 7 → bit_at result i ≡ bit_at register (i + 1) }
    ensures entered { bit_at result 7 ≡ sum (tabulate 8 (λ i. bit_at taps i * bit_at register i)) % 2 }
{
    let parity = (register & taps).count_ones() as u8 & 1;
    (parity << 7) | (register >> 1)
}

/// The pseudo-randomiser: adds its sequence, from the start, to the bits of a block or of a part at its start.
///
/// The sum is modulo 2, so to do it again gives the bits as they were.
pub fn randomise(p: &Profile, bits: &mut [u8])
    requires bits { AreBits bits.old }
    requires size { length bits.old ≤ block_bits p.now.rate }
    ensures sum { bits.new ≡ randomised p.now bits.old }
    ensures twice { randomised p.now bits.new ≡ bits.old }
    ensures bits { AreBits bits.new }
{
    let taps = p.taps();
    let mut register = p.seed().reverse_bits();
    for bit in bits.iter_mut() {
        *bit ^= register & 1;
        register = stepped(taps, register);
    }
}
