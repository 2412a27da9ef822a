//! What the two codes hand to each other.
ghost use Rattle.std.specs.Prelude.{◌≡◌, ◌<◌, ◌≤◌, ◌-ℤ◌, ℕ, length, slice_index};
ghost use Rattle.hpe_base.specs.Bits.{AreBits};
ghost use Rattle.hpe_base.specs.Sizes.{number_at, Within, AllWithin};
ghost use Rattle.hpe_base.specs.SoftValues.{clamped, scaled};
ghost use Rattle.hpe_base.specs.Parameters.{clamp};
ghost use Rattle.hpe_base.specs.Rounds.{hard_bit};

use hpe_base::CLAMP;

/// Clamps a number that one code hands to the other to -16,383..=16,383, which bounds the scores of both codes.
pub fn cut(v: i32) -> i32
    ensures { result ≡ clamped v }
{
    gain(v, 0)
}

/// So many eighths of a number, rounded away from zero: the least whole number at least `|v| scale / 8`, with the sign of
/// `v`. The number is at most 16,383 in size, and `scale` is 1 to 8. It takes no memory.
pub fn scaled(v: i32, scale: u32) -> i32
    requires size { Within clamp v }
    requires low { 1 ≤ scale }
    requires high { scale ≤ 8 }
    ensures { result ≡ scaled scale v }
{
    let size = (v.unsigned_abs() * scale).div_ceil(8) as i32;
    if v < 0 { -size } else { size }
}

/// What a soft value adds to the number that the code was given, clamped.
///
/// The soft value is brought near that number before the difference is made, which then fits in 32 bits.
fn gain(soft: i32, given: i32) -> i32
    requires { Within clamp given }
    ensures { result ≡ clamped (soft -ℤ given) }
{
    let most = i32::from(CLAMP);
    let near = soft.min(given + most).max(given - most);
    near - given
}

/// Puts in the place of each soft value what it adds to the number that the code was given, clamped.
fn take_gains(soft: &mut [i32], given: &[i32])
    requires given { length given.now ≡ length soft.old }
    requires small { AllWithin clamp given.now }
    ensures value { (j : ℕ) → j < length soft.old
        → number_at soft.new j ≡ clamped (number_at soft.old j -ℤ number_at given.now j) }
{
    for (j, value) in soft.iter_mut().enumerate() {
        *value = gain(*value, given[j]);
    }
}

/// Scales each value.
fn shrink(scale: u32, values: &mut [i32])
    requires low { 1 ≤ scale }
    requires high { scale ≤ 8 }
    requires small { AllWithin clamp values.old }
    ensures value { (j : ℕ) → j < length values.old → number_at values.new j ≡ scaled scale (number_at values.old j) }
{
    for value in values.iter_mut() {
        *value = scaled(*value, scale);
    }
}

/// Puts the extrinsic values in the place of the soft values: what each adds to the number that the code was given,
/// clamped and then scaled.
///
/// At scale 8 they are as they are clamped, so the list isn't gone through again.
pub(crate) fn extrinsic(scale: u32, soft: &mut [i32], given: &[i32])
    requires low { 1 ≤ scale }
    requires high { scale ≤ 8 }
    requires given { length given.now ≡ length soft.old }
    requires small { AllWithin clamp given.now }
    ensures value { (j : ℕ) → j < length soft.old
        → number_at soft.new j ≡ scaled scale (clamped (number_at soft.old j -ℤ number_at given.now j)) }
{
    take_gains(soft, given);
    if scale < 8 {
        shrink(scale, soft);
    }
}

/// The hard bits: 1 where the soft value is above 0.
pub(crate) fn decide(soft: &[i32], hard: &mut [u8])
    requires { length soft.now ≡ length hard.old }
    ensures value { (j : ℕ) → j < length hard.old → slice_index hard.new j ≡ hard_bit (number_at soft.now j) }
    ensures bits { AreBits hard.new }
{
    for (j, bit) in hard.iter_mut().enumerate() {
        *bit = u8::from(soft[j] > 0);
    }
}
