//! The edges of both states of a stage in one list.
//!
//! Where all bits of a symbol are turned, so is its first input bit, and no other. So the edges of state 1, read
//! backwards, have the input bits of those of state 0, and one list of the greater scores serves both.
ghost use Rattle.std.specs.Prelude.{◌≡◌, ◌%◌, length};
ghost use Rattle.hpe_base.specs.Sizes.{AllWithin};
ghost use Rattle.hpe_lane.specs.Bounds.{edge_most, IsRow, around_most};
ghost use Rattle.hpe_lane.specs.Stages.{AreJoined};

use crate::lanes::join_eight;
use crate::plain;

/// At each place the greater score of that edge of state 0 and of its mirror image of state 1. What stands around an
/// edge goes by the place modulo 2.
#[inline(always)]
pub fn join(from0: &[i32], around0: [i32; 2], from1: &[i32], around1: [i32; 2], joint: &mut [i32])
    requires fours { length joint.old % 4 ≡ 0 }
    requires from0 { length from0.now ≡ length joint.old }
    requires from1 { length from1.now ≡ length joint.old }
    requires around0 { IsRow 2 around_most around0 }
    requires around1 { IsRow 2 around_most around1 }
    requires edges0 { AllWithin edge_most from0.now }
    requires edges1 { AllWithin edge_most from1.now }
    ensures { AreJoined (length joint.old) from0.now around0 from1.now around1 joint.new }
{
    let n = joint.len();
    for k in 0..n / 8 {
        let v = 8 * k;
        join_eight(
            &from0[v..v + 8],
            around0,
            &from1[n - 8 - v..n - v],
            around1,
            &mut joint[v..v + 8],
        );
    }
    for k in n / 8 * 2..n / 4 {
        let v = 4 * k;
        plain::join_four(
            &from0[v..v + 4],
            around0,
            &from1[n - 4 - v..n - v],
            around1,
            &mut joint[v..v + 4],
        );
    }
}
