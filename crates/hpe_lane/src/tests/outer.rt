//! The kernels of the outer trellis on numbers worked by hand.
ghost use Rattle.std.specs.Prelude.{◌≡◌, ◌<◌};

use crate::{outer_back, outer_forward};
use hpe_base::Steps;
use std::marker::Brand;
use std::sync::ledger::{Blank, Ledger};

/// A stage forward and one back, by a counter of its own.
fn counted<L: Ledger>(blank: Blank) -> ([i32; 4], [i32; 4], [i32; 4])
    requires name { blank.name ≡ L.name }
    requires parts { blank.parts ≡ L.parts }
    requires some { 0 < blank.parts }
{
    let mut steps = Steps::<L>::new(blank);
    let forward = outer_forward([0, 2, 5, 1], [1, 2, 4], &mut steps);
    let (back, soft) = outer_back([0, 2, 5, 1], [1, 2, 4], [3, 0, 7, 2], &mut steps);
    (forward, back, soft)
}

#[test]
fn a_stage_by_hand(rt: HostRuntime) {
    let (forward, back, soft) = counted::<Brand>(Blank::new(1));
    assert_eq!(rt; forward, [9, 11, 7, 7]);
    assert_eq!(rt; back, [14, 10, 6, 8]);
    assert_eq!(rt; soft, [2, 3, 5, 5]);
}
