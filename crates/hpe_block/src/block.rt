// A block as it enters the convolutional code, and back from it.
ghost use Rattle.std.specs.Prelude.{◌≡◌, ◌↔◌, ℕ, List, true, length, take, IsSome, IsNone};
ghost use Rattle.hpe_base.specs.Bits.{AreBits};
ghost use Rattle.hpe_base.specs.Randomiser.{randomised};
ghost use Rattle.hpe_base.specs.Termination.{closed_block};
ghost use Rattle.hpe_base.specs.Parameters.{block_bits, code_steps};
ghost use Rattle.hpe_base.specs.Parameters.{information_bits};
ghost use Rattle.hpe_base.specs.Rounds.{is_right};

use crate::check::check_of;
use crate::randomiser::randomise;
use hpe_base::bits::write_bits;
use hpe_base::{CHECK_BITS, Profile};

/// Randomises a block of information bits and attaches its check and the termination: what enters the convolutional
/// code.
///
/// `block` has the rate's information bits, and `into` the rate's steps: 34 bits more.
pub fn close_block(p: &Profile, block: &[u8], into: &mut [u8])
    requires bits { AreBits block.now }
    requires block { length block.now ≡ block_bits p.now.rate }
    requires into { length into.old ≡ code_steps p.now.rate }
    ensures closed { into.new ≡ closed_block p.now block.now }
    ensures bits { AreBits into.new }
{
    let (information, rest) = into.split_at_mut(block.len());
    information.copy_from_slice(block);
    randomise(p, information);
    let (check, termination) = rest.split_at_mut(CHECK_BITS);
    write_bits(check_of(p.check(), information), check);
    termination.fill(0);
}

/// Whether the last 32 bits of a decoded word are the check of the others.
fn has_right_check(p: &Profile, word: &[u8]) -> bool
    requires bits { AreBits word.now }
    requires word { length word.now ≡ information_bits p.now.rate }
    ensures { result ≡ is_right p.now word.now }
{
    let (information, check) = word.split_at(p.rate().block());
    let mut right = [0; CHECK_BITS];
    write_bits(check_of(p.check(), information), &mut right);
    check == right.as_slice()
}

/// Takes a block of information bits back from a decoded word, where the word's check is right; `None` where it isn't,
/// and then `into` is as it was.
///
/// `word` has the randomised block and its check, without the termination: 32 bits more than `into`.
pub fn open_block(p: &Profile, word: &[u8], into: &mut [u8]) -> Option<()>
    requires bits { AreBits word.now }
    requires word { length word.now ≡ information_bits p.now.rate }
    requires into { length into.old ≡ block_bits p.now.rate }
    ensures right { IsSome result ↔ (is_right p.now word.now ≡ true) }
    ensures block { IsSome result → into.new ≡ randomised p.now (take (block_bits p.now.rate) word.now) }
    ensures bits { IsSome result → AreBits into.new }
    ensures unchanged { IsNone result → into.new ≡ into.old }
    ensures opens { (block : List ℕ) → AreBits block → length block ≡ block_bits p.now.rate
        → word.now ≡ take (information_bits p.now.rate) (closed_block p.now block) → IsSome result
        × (into.new ≡ block) }
{
    if !has_right_check(p, word) {
        return None;
    }
    into.copy_from_slice(&word[..into.len()]);
    randomise(p, into);
    Some(())
}
