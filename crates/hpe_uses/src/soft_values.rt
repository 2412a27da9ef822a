//! The soft values of a word of the inner code.
//!
//! The sweeps over its trellis count their stages in a `Steps`, which contracts alone see. This caller counts nothing:
//! it opens a counter and lets it go.
ghost use Rattle.std.specs.Prelude.{◌≡◌, ◌<◌, ◌≤◌, ◌*◌, ℕ, All, IfOk, length, vec_len};
ghost use Rattle.hpe_base.specs.Parameters.{clamp, codeword_bits, codeword_symbols, positions};
ghost use Rattle.hpe_base.specs.Sizes.{AllWithin, number_at};
ghost use Rattle.hpe_base.specs.SoftValues.{inner_soft_value};

use hpe_base::{CODE_BITS, Order, Steps};
use hpe_inner::{inner_rows, inner_soft};
use std::alloc::{AllocError, Global};
use std::marker::Brand;
use std::sync::ledger::{Blank, Ledger};

/// The soft value of each of the 15,120 bits of a codeword, in the order of the inner code.
///
/// `counts` has a count for each pulse position of each symbol, and `numbers` an a-priori number for each bit, 0 where
/// nothing is known of it. All are at most 16,383 in size.
pub fn inner_values(
    alloc: Global,
    order: Order,
    counts: &[u16],
    numbers: &[i32],
) -> Result<Vec<i32>, AllocError>
    requires counts { length counts.now ≡ codeword_symbols order * positions order }
    requires most { All (λ c. c ≤ clamp) counts.now }
    requires numbers { length numbers.now ≡ codeword_bits }
    requires small { AllWithin clamp numbers.now }
    ensures size { IfOk result (λ v. vec_len v ≡ codeword_bits) }
    ensures soft { IfOk result (λ v. (j : ℕ) → j < codeword_bits
        → number_at v.items j ≡ inner_soft_value order counts.now numbers.now j) }
{
    counted::<Brand>(alloc, order, counts, numbers, Blank::new(1))
}

/// The same, by the counter that the blank opens.
fn counted<L: Ledger>(
    alloc: Global,
    order: Order,
    counts: &[u16],
    numbers: &[i32],
    blank: Blank,
) -> Result<Vec<i32>, AllocError>
    requires name { blank.name ≡ L.name }
    requires parts { blank.parts ≡ L.parts }
    requires some { 0 < blank.parts }
    requires counts { length counts.now ≡ codeword_symbols order * positions order }
    requires most { All (λ c. c ≤ clamp) counts.now }
    requires numbers { length numbers.now ≡ codeword_bits }
    requires small { AllWithin clamp numbers.now }
    ensures size { IfOk result (λ v. vec_len v ≡ codeword_bits) }
    ensures soft { IfOk result (λ v. (j : ℕ) → j < codeword_bits
        → number_at v.items j ≡ inner_soft_value order counts.now numbers.now j) }
{
    let mut rows = vec![in alloc; [0; 2]; inner_rows(order.symbols())]?;
    let mut soft = vec![in alloc; 0; CODE_BITS]?;
    let mut steps = Steps::<L>::new(blank);
    inner_soft(order, counts, numbers, &mut rows, &mut soft, &mut steps);
    Ok(soft)
}
