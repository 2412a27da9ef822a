//! What the puncturing columns keep, which serve in turn: the places of the outputs of one step among the code bits.
ghost use Rattle.std.specs.Prelude.{◌≡◌, ◌<◌, ◌≤◌, ◌+◌, ◌-◌, ◌%◌, ◌∷◌, [], ℕ, pos, length, drop, true, if◌then◌else◌, slice_set};
ghost use Rattle.hpe_base.specs.Sizes.{number_at, AllWithin};
ghost use Rattle.hpe_base.specs.Parameters.{clamp, flags_set, codeword_bits};
ghost use Rattle.hpe_base.specs.ConvolutionalCode.{selected};
ghost use Rattle.hpe_base.specs.PathScores.{chosen_sum};
ghost use Rattle.hpe_lane.specs.OuterStage.{edge_outputs, edge_sum};
ghost use Rattle.hpe_trellis.specs.OuterTrellis.{put_all};

/// The place before this one.
pub fn place_before(place: usize, length: usize) -> usize
    requires { place < length }
    ensures { result ≡ (place + (length - 1)) % length }
{
    if place > 0 { place - 1 } else { length - 1 }
}

/// The number of place `at`, or 0 for an output that isn't kept.
fn taken(flag: bool, l: &[i32], at: usize) -> i32
    requires room { flag ≡ true → at < length l.now }
    ensures { result ≡ (if flag then number_at l.now at else pos 0) }
{
    if flag { l[at] } else { 0 }
}

/// The a-priori numbers of the three outputs of a step, 0 for those that aren't kept; those that are stand from place
/// `at` on.
pub fn step_numbers(column: &[bool; 3], l: &[i32], at: usize) -> [i32; 3]
    requires room { at + flags_set column.now ≤ length l.now }
    requires short { length l.now ≤ codeword_bits }
    requires within { AllWithin clamp l.now }
    ensures edge { (p x : ℕ)
        → edge_sum result p x ≡ chosen_sum (drop at l.now) (selected column.now (edge_outputs p x)) }
    ensures within { AllWithin clamp result }
{
    let second = at + usize::from(column[0]);
    let third = second + usize::from(column[1]);
    let a = taken(column[0], l, at);
    let b = taken(column[1], l, second);
    let c = taken(column[2], l, third);
    [a, b, c]
}

/// Writes the value where the flag is set.
fn put(flag: bool, value: i32, code: &mut [i32], at: usize)
    requires room { flag ≡ true → at < length code.old }
    ensures { code.new ≡ (if flag then slice_set code.old at value else code.old) }
{
    if flag {
        code[at] = value;
    }
}

/// Writes the soft values of the outputs that the column keeps from place `at` on, of a step's input and three outputs.
pub fn put_soft(column: &[bool; 3], soft: [i32; 4], code: &mut [i32], at: usize)
    requires room { at + flags_set column.now ≤ length code.old }
    requires short { length code.old ≤ codeword_bits }
    ensures { code.new ≡ put_all column.now (number_at soft 1 ∷ number_at soft 2 ∷ number_at soft 3 ∷ []) code.old at }
{
    let second = at + usize::from(column[0]);
    let third = second + usize::from(column[1]);
    put(column[0], soft[1], code, at);
    put(column[1], soft[2], code, second);
    put(column[2], soft[3], code, third);
}
