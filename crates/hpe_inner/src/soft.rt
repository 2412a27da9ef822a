//! The soft values of a word of the inner code, by a forward and a backward sweep in windows.
//!
//! The sweeps stand once for each order: the compiler then knows how many symbols a stage has, and writes out its
//! loops.
//! What a word costs is three visits of each stage: one forward, and two from its window's end.
ghost use Rattle.std.specs.Prelude.{◌≡◌, ℕ, ◌+◌, ◌*◌, ◌%◌, ◌<◌, ◌≤◌, ◌^◌, All, IsSome, length};
ghost use Rattle.hpe_base.specs.Parameters.{clamp, symbol_bits, positions, codeword_symbols};
ghost use Rattle.hpe_base.specs.Sizes.{number_at, AllWithin};
ghost use Rattle.hpe_base.specs.GreatestScores.{inner_top};
ghost use Rattle.hpe_base.specs.SoftValues.{inner_soft_value};
ghost use Rattle.hpe_inner.specs.Lengths.{symbols_in, inner_rows};

use crate::backward::backward_sweep;
use crate::forward::forward_sweep;
use crate::word::Word;
use hpe_base::{Order, Steps};
use hpe_lane::{WINDOW, sweep_rows};
use std::sync::ledger::Ledger;

/// The rows that [`inner_soft`] needs for a word of so many symbols: one before each window of 64 symbols, and those of
/// one window.
pub fn inner_rows(symbols: usize) -> usize
    requires { symbols ≤ 10080 }
    ensures { result ≡ inner_rows symbols }
{
    sweep_rows(symbols)
}

/// The soft values of a word of the inner code.
///
/// `counts` has the photon counts of each symbol's pulse positions, `l` the a-priori numbers of the word's bits, as
/// many bits a symbol as `order` says. `out` gets a soft value for each bit, and `rows` is memory for the sweeps, of
/// [`inner_rows`] rows. Each sweep adds one to `steps` for each symbol; a caller that counts nothing opens the counter
/// with `Steps::<Brand>::new(Blank::new(1))`.
pub fn inner_soft<L: Ledger>(
    order: Order,
    counts: &[u16],
    l: &[i32],
    rows: &mut [[i32; 2]],
    out: &mut [i32],
    steps: &mut Steps<L>,
)
    requires whole { length l.now % symbol_bits order ≡ 0 }
    requires some { 1 ≤ symbols_in order l.now }
    requires fits { symbols_in order l.now ≤ codeword_symbols order }
    requires counts { length counts.now ≡ symbols_in order l.now * positions order }
    requires rows { length rows.old ≡ inner_rows (symbols_in order l.now) }
    requires out { length out.old ≡ length l.now }
    requires most { All (λ c. c ≤ clamp) counts.now }
    requires within { AllWithin clamp l.now }
    requires room { steps.old + 3 * symbols_in order l.now ≤ 2 ^ 60 }
    ensures soft { (j : ℕ) → j < length l.now → number_at out.new j ≡ inner_soft_value order counts.now l.now j }
    ensures tops { (j b : ℕ) → j < length l.now → b < 2 → IsSome (inner_top order counts.now l.now j b) }
    ensures cost { steps.new ≡ steps.old + 3 * symbols_in order l.now }
{
    match order {
        Order::P4 => soft_of::<L, 2>(Order::P4, counts, l, rows, out, steps),
        Order::P8 => soft_of::<L, 3>(Order::P8, counts, l, rows, out, steps),
        Order::P16 => soft_of::<L, 4>(Order::P16, counts, l, rows, out, steps),
        Order::P32 => soft_of::<L, 5>(Order::P32, counts, l, rows, out, steps),
        Order::P64 => soft_of::<L, 6>(Order::P64, counts, l, rows, out, steps),
        Order::P128 => soft_of::<L, 7>(Order::P128, counts, l, rows, out, steps),
        Order::P256 => soft_of::<L, 8>(Order::P256, counts, l, rows, out, steps),
    }
}

/// The same, of which each order has a copy: the compiler then knows how many scores there are.
fn soft_of<L: Ledger, const BITS: usize>(
    order: Order,
    counts: &[u16],
    l: &[i32],
    rows: &mut [[i32; 2]],
    out: &mut [i32],
    steps: &mut Steps<L>,
)
    requires whole { length l.now % symbol_bits order ≡ 0 }
    requires some { 1 ≤ symbols_in order l.now }
    requires fits { symbols_in order l.now ≤ codeword_symbols order }
    requires counts { length counts.now ≡ symbols_in order l.now * positions order }
    requires rows { length rows.old ≡ inner_rows (symbols_in order l.now) }
    requires out { length out.old ≡ length l.now }
    requires most { All (λ c. c ≤ clamp) counts.now }
    requires within { AllWithin clamp l.now }
    requires room { steps.old + 3 * symbols_in order l.now ≤ 2 ^ 60 }
    ensures soft { (j : ℕ) → j < length l.now → number_at out.new j ≡ inner_soft_value order counts.now l.now j }
    ensures tops { (j b : ℕ) → j < length l.now → b < 2 → IsSome (inner_top order counts.now l.now j b) }
    ensures cost { steps.new ≡ steps.old + 3 * symbols_in order l.now }
{
    let n = l.len() / order.bits() as usize;
    let (kept, window) = rows.split_at_mut(n.div_ceil(WINDOW));
    let word = Word {
        order,
        symbols: n,
        counts,
        l,
    };
    forward_sweep::<L, BITS>(word, kept, out, steps);
    backward_sweep::<L, BITS>(word, kept, window, out, steps);
}
