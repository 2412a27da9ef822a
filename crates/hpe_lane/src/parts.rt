//! The edges of a stage from state 0, a block of eight at a time, with no list of them.
//!
//! The eight symbols of a block have their first bits in common. So an edge scores its count, what the first bits of
//! its block score, and what the last three bits score after a bit 0, read backwards in a block that is odd.
ghost use Rattle.std.specs.Prelude.{◌≡◌, ℕ, ◌+◌, ◌-◌, ◌*◌, ◌<◌, ◌≤◌, ◌^◌, length};
ghost use Rattle.hpe_base.specs.Sizes.{number_at, AllWithin};
ghost use Rattle.hpe_base.specs.Parameters.{clamp};
ghost use Rattle.hpe_lane.specs.Edges.{gray_from};
ghost use Rattle.hpe_lane.specs.Parts.{AreParts, part_edge, part_sum};

use crate::gray::gray_scores;
use crate::lanes::{add_eight, gray_eight, mirror_eight};

/// The counts of a stage, and what its numbers score in two parts.
#[derive(Clone, Copy)]
pub(crate) struct Parts<'a> {
    pub counts: &'a [u16],
    /// What the first bits of each block score.
    pub blocks: &'a [i32],
    /// What the last three bits score after a bit 0.
    pub eight: &'a [i32],
}

/// Writes what the numbers of four bits at least score, in two parts.
#[inline(always)]
pub(crate) fn write_parts(l: &[i32], blocks: &mut [i32], eight: &mut [i32])
    requires few { (4 ≤ length l.now) × (length l.now ≤ 8) }
    requires l { AllWithin clamp l.now }
    requires blocks { length blocks.old ≡ 2 ^ (length l.now - 3) }
    requires eight { length eight.old ≡ 8 }
    ensures sum { (v : ℕ) → v < 2 ^ length l.now → part_sum blocks.new eight.new v ≡ gray_from 0 l.now v }
    ensures small { AllWithin (5 * clamp) blocks.new }
    ensures small_eight { AllWithin (3 * clamp) eight.new }
{
    let m = l.len();
    gray_scores(&l[..m - 3], blocks);
    gray_eight(&l[m - 3..], eight);
}

/// What the symbols of a block score by the numbers.
#[inline(always)]
pub(crate) fn sums_of_block(parts: Parts, w: usize) -> [i32; 8]
    requires parts { AreParts parts.counts.now parts.blocks.now parts.eight.now }
    requires inside { w < length parts.blocks.now }
    ensures { (j : ℕ) → j < 8
        → number_at result j ≡ part_sum parts.entry.blocks.now parts.entry.eight.now (8 * w + j) }
{
    let mut sums = [0; 8];
    if w % 2 == 0 {
        let mut turned = [0; 8];
        mirror_eight(parts.eight, &mut turned, 0);
        mirror_eight(&turned, &mut sums, parts.blocks[w]);
        return sums;
    }
    mirror_eight(parts.eight, &mut sums, parts.blocks[w]);
    sums
}

/// The edges of a block.
#[inline(always)]
pub(crate) fn edges_of_block(parts: Parts, w: usize) -> [i32; 8]
    requires parts { AreParts parts.counts.now parts.blocks.now parts.eight.now }
    requires inside { w < length parts.blocks.now }
    ensures { (j : ℕ) → j < 8 → number_at result j
        ≡ part_edge parts.entry.counts.now parts.entry.blocks.now parts.entry.eight.now (8 * w + j) }
{
    let mut edges = sums_of_block(parts, w);
    add_eight(&parts.counts[8 * w..8 * w + 8], &mut edges);
    edges
}
