//! The kernels of the inner trellis on numbers worked by hand.
ghost use Rattle.std.specs.Prelude.{◌≡◌, ◌<◌};

use crate::{best_by_parity, edge_scores, gray_scores, step_back, step_forward};
use hpe_base::Steps;
use std::marker::Brand;
use std::sync::ledger::{Blank, Ledger};

#[test]
fn scores_by_hand(rt: HostRuntime) {
    let mut scores = [9; 4];
    gray_scores(&[1, 2], &mut scores);
    assert_eq!(rt; scores, [0, 2, 3, 1]);
    let mut from0 = [9; 4];
    let mut from1 = [9; 4];
    edge_scores(&[10, 20, 30, 40], &[1, 2], &mut from0, &mut from1);
    assert_eq!(rt; from0, [10, 22, 33, 41]);
    assert_eq!(rt; from1, [11, 23, 32, 40]);
}

#[test]
fn best_by_hand(rt: HostRuntime) {
    assert_eq!(rt; best_by_parity(&[0, 3, 1, 0], 2), [3, 1]);
    assert_eq!(rt; best_by_parity(&[0, 3, 1, 0], 1), [1, 3]);
    let mut scores = [0; 32];
    for (v, score) in scores.iter_mut().enumerate() {
        *score = v as i32;
    }
    for (mask, wanted) in [
        (1, [30, 31]),
        (8, [23, 31]),
        (16, [15, 31]),
        (17, [31, 30]),
        (31, [30, 31]),
    ] {
        assert_eq!(rt; best_by_parity(&scores, mask), wanted, "mask {mask}");
    }
    // places after the last whole block count too
    assert_eq!(rt; best_by_parity(&scores[..11], 8), [7, 10]);
}

fn stages<L: Ledger>(blank: Blank) -> ([i32; 2], [i32; 2], [i32; 2])
    requires name { blank.name ≡ L.name }
    requires parts { blank.parts ≡ L.parts }
    requires some { 0 < blank.parts }
{
    let mut steps = Steps::<L>::new(blank);
    let from0 = [1, 2, 3, 4];
    let from1 = [4, 3, 2, 1];
    let mut out = [9; 2];
    let forward = step_forward([0, 5], &from0, &from1, &mut steps);
    let back = step_back::<L, 0>([0, 0], &from0, &from1, [0, 0], &mut out, &mut steps);
    (forward, back, out)
}

#[test]
fn stages_by_hand(rt: HostRuntime) {
    let (forward, back, out) = stages::<Brand>(Blank::new(1));
    assert_eq!(rt; forward, [9, 8]);
    assert_eq!(rt; back, [4, 4]);
    assert_eq!(rt; out, [2, -1]);
}
