// The convolutional code, of which each step gives three bits for the bit that enters and the two before it, and its
// puncturing.
ghost use Rattle.std.specs.Prelude.{◌≡◌, ◌≤◌, ◌+◌, ◌*◌, ◌%◌, ◌++◌, ℕ, List, length, take};
ghost use Rattle.hpe_base.specs.Bits.{AreBits};
ghost use Rattle.hpe_base.specs.ConvolutionalCode.{selected, code_bits, AreColumns};
ghost use Rattle.hpe_base.specs.Parameters.{code_steps};
ghost use Rattle.hpe_base.specs.declared.profile.Rate.TheVariants.{TwoThirds};

use hpe_base::columns::{flags_in_all, place_after};

/// Writes the bits whose flag is set from place `at` on, and answers the place after them.
fn put_selected(flags: &[bool], bits: &[u8], into: &mut [u8], at: usize) -> usize
    requires same { length flags.now ≡ length bits.now }
    requires room { at + length (selected flags.now bits.now) ≤ length into.old }
    ensures place { result ≡ at + length (selected flags.now bits.now) }
    ensures written { take result into.new ≡ take at into.old ++ selected flags.now bits.now }
{
    let mut next = at;
    for (i, bit) in bits.iter().enumerate() {
        if flags[i] {
            into[next] = *bit;
            next += 1;
        }
    }
    next
}

/// The convolutional code of the bits, from which the puncturing columns select in turn.
///
/// Each bit of `u` gives three code bits, and its column says which of them are kept. `kept` has exactly the length of
/// all that are kept: 15,120 for the bits of a codeword.
pub fn outer_encode(columns: &[[bool; 3]], u: &[u8], kept: &mut [u8])
    requires columns { AreColumns columns.now }
    requires bits { AreBits u.now }
    requires size { length kept.old ≡ length (code_bits columns.now u.now) }
    ensures code { kept.new ≡ code_bits columns.now u.now }
    ensures bits { AreBits kept.new }
{
    let mut column = 0;
    let mut at = 0;
    let mut last = 0;
    let mut before = 0;
    for bit in u {
        let first = *bit ^ before;
        let second = first ^ last;
        at = put_selected(&columns[column], &[first, second, second], kept, at);
        column = place_after(column, columns.len());
        before = last;
        last = *bit;
    }
}

/// How many code bits the puncturing columns keep of so many steps, of which a codeword has at most 10,080.
pub fn kept_length(columns: &[[bool; 3]], steps: usize) -> usize
    requires columns { AreColumns columns.now }
    requires steps { steps ≤ code_steps TwoThirds }
    ensures { (u : List ℕ) → length u ≡ steps → result ≡ length (code_bits columns.now u) }
{
    let rounds = steps / columns.len();
    let rest = &columns[..steps % columns.len()];
    rounds * flags_in_all(columns) + flags_in_all(rest)
}
