//! The kernels on lanes beside the plain ones, for each order. Number i of scores, of rows and of a-priori numbers is
//! 37 i modulo 101 less 50, and count i is i modulo 101.
ghost use Rattle.std.specs.Prelude.{◌≡◌, ℕ, ◌<◌, ◌≤◌, ◌^◌, true, length, slice_index};
ghost use Rattle.hpe_base.specs.Sizes.{AllWithin};
ghost use Rattle.hpe_base.specs.Parameters.{clamp};
ghost use Rattle.hpe_lane.specs.Bounds.{edge_most};

use crate::{
    Between, Stage, best_by_parity, best_edges, edge_scores, gray_scores, outer_back,
    outer_forward, plain, step_back, step_back_by_best, step_by_best, step_forward,
};
use hpe_base::Steps;
use std::marker::Brand;
use std::process::Abort;
use std::sync::ledger::{Blank, Ledger};

/// Rows of the inner and of the outer code, and the numbers of a step.
const ROW: [i32; 2] = [-50, -13];

const OUTER_ROW: [i32; 4] = [-50, -13, 24, -40];

const OUTER_NUMBERS: [i32; 3] = [-50, -13, 24];

fn number(i: usize) -> i32 {
    (i % 101 * 37 % 101) as i32 - 50
}

/// Whether each is a number that one code hands to the other.
fn are_numbers(l: &[i32]) -> bool
    ensures { result ≡ true → AllWithin clamp l.now }
{
    for number in l {
        if *number < -16_383 || 16_383 < *number {
            return false;
        }
    }
    true
}

/// Whether each is what an edge may score.
fn are_edges(scores: &[i32]) -> bool
    ensures { result ≡ true → AllWithin edge_most scores.now }
{
    for score in scores {
        if *score < -147_447 || 147_447 < *score {
            return false;
        }
    }
    true
}

/// Whether each is a sum of counts.
fn are_counts(counts: &[u16]) -> bool
    ensures { result ≡ true → (i : ℕ) → slice_index counts.now i ≤ clamp }
{
    for count in counts {
        if *count > 16_383 {
            return false;
        }
    }
    true
}

fn edges_agree<R: Abort>(rt: &R, counts: &[u16], l: &[i32])
    requires few { (2 ≤ length l.now) × (length l.now ≤ 8) }
    requires counts { length counts.now ≡ 2 ^ length l.now }
{
    let size = counts.len();
    assert!(rt; size <= 256 && are_counts(counts) && are_numbers(l));
    let mut lanes = [0; 256];
    let mut wanted = [0; 256];
    gray_scores(l, &mut lanes[..size]);
    plain::gray_scores(l, &mut wanted[..size]);
    assert!(rt; lanes == wanted, "gray scores of {size}");
    let mut lanes1 = [0; 256];
    let mut wanted1 = [0; 256];
    edge_scores(counts, l, &mut lanes[..size], &mut lanes1[..size]);
    plain::edge_scores(counts, l, &mut wanted[..size], &mut wanted1[..size]);
    assert!(rt;
        lanes == wanted && lanes1 == wanted1,
        "edge scores of {size}"
    );
}

fn parities_agree<R: Abort>(rt: &R, scores: &[i32], mask: u32) {
    assert!(rt; 1 <= mask && (mask as usize) < scores.len());
    let lanes = best_by_parity(scores, mask);
    let wanted = plain::best_by_parity(scores, mask);
    assert!(rt; lanes == wanted, "mask {mask}");
}

fn stages_agree<R: Abort, L: Ledger>(rt: &R, m: usize, from0: &[i32], from1: &[i32], blank: Blank)
    requires few { (2 ≤ m) × (m ≤ 8) }
    requires from0 { length from0.now ≡ 2 ^ m }
    requires from1 { length from1.now ≡ 2 ^ m }
    requires some_edges { 2 ≤ length from0.now }
    requires name { blank.name ≡ L.name }
    requires parts { blank.parts ≡ L.parts }
    requires some { 0 < blank.parts }
{
    assert!(rt; are_edges(from0) && are_edges(from1));
    let mut steps = Steps::<L>::new(blank);
    let lanes = step_forward(ROW, from0, from1, &mut steps);
    let wanted = plain::step_forward(ROW, from0, from1, &mut steps);
    assert!(rt; lanes == wanted, "forward with {m} bits");
    let mut soft = [0; 8];
    let mut wanted_soft = [0; 8];
    let lanes = step_back::<L, 0>(ROW, from0, from1, ROW, &mut soft[..m], &mut steps);
    let wanted = plain::step_back(ROW, from0, from1, ROW, &mut wanted_soft[..m], &mut steps);
    assert!(rt;
        lanes == wanted && soft == wanted_soft,
        "back with {m} bits"
    );
}

/// Compares steps by the best edges with those over lists of edges.
fn best_agrees<R: Abort, L: Ledger>(rt: &R, counts: &[u16], l: &[i32], blank: Blank)
    requires few { (2 ≤ length l.now) × (length l.now ≤ 8) }
    requires counts { length counts.now ≡ 2 ^ length l.now }
    requires name { blank.name ≡ L.name }
    requires parts { blank.parts ≡ L.parts }
    requires some { 0 < blank.parts }
{
    let size = counts.len();
    assert!(rt; 2 <= size && size <= 256 && are_counts(counts) && are_numbers(l));
    if l.len() < 4 {
        return;
    }
    let mut from0 = [0; 256];
    let mut from1 = [0; 256];
    plain::edge_scores(counts, l, &mut from0[..size], &mut from1[..size]);
    assert!(rt; are_edges(&from0[..size]) && are_edges(&from1[..size]));
    let mut steps = Steps::<L>::new(blank);
    let best = best_edges(counts, l);
    let lanes = step_by_best(Stage { counts, l }, best, ROW, &mut steps);
    let wanted = plain::step_forward(ROW, &from0[..size], &from1[..size], &mut steps);
    assert!(rt; lanes == wanted, "best edges of {size}");
    let mut soft = [0; 8];
    let mut wanted_soft = [0; 8];
    let mut joint = [0; 256];
    let lanes = step_back_by_best::<L, 0>(
        Stage { counts, l },
        best,
        Between {
            fore: ROW,
            back: ROW,
        },
        &mut joint[..size],
        &mut soft[..l.len()],
        &mut steps,
    );
    let wanted = plain::step_back(
        ROW,
        &from0[..size],
        &from1[..size],
        ROW,
        &mut wanted_soft[..l.len()],
        &mut steps,
    );
    assert!(rt;
        lanes == wanted && soft == wanted_soft,
        "back by the best edges of {size}"
    );
}

/// Compares the inner kernels for symbols of m bits.
fn order_agrees<R: Abort>(rt: &R, m: usize, size: usize)
    requires few { (2 ≤ m) × (m ≤ 8) }
    requires size { size ≡ 2 ^ m }
    requires places { (2 ≤ size) × (size ≤ 256) }
{
    let mut numbers = [0; 512];
    for (i, place) in numbers.iter_mut().enumerate() {
        *place = number(i);
    }
    let mut counts = [0; 256];
    for (i, count) in counts.iter_mut().enumerate() {
        *count = (i % 101) as u16;
    }
    edges_agree(rt, &counts[..size], &numbers[..m]);
    best_agrees::<R, Brand>(rt, &counts[..size], &numbers[..m], Blank::new(1));
    let scores = &numbers[..size];
    parities_agree(rt, scores, 1);
    parities_agree(rt, scores, size as u32 / 2);
    parities_agree(rt, scores, size as u32 - 1);
    stages_agree::<R, Brand>(rt, m, scores, &numbers[size..2 * size], Blank::new(1));
}

#[test]
fn inner_kernels(rt: HostRuntime) {
    order_agrees(&rt, 2, 4);
    order_agrees(&rt, 3, 8);
    order_agrees(&rt, 4, 16);
    order_agrees(&rt, 5, 32);
    order_agrees(&rt, 6, 64);
    order_agrees(&rt, 7, 128);
    order_agrees(&rt, 8, 256);
}

fn outer_agrees<R: Abort, L: Ledger>(rt: &R, blank: Blank)
    requires name { blank.name ≡ L.name }
    requires parts { blank.parts ≡ L.parts }
    requires some { 0 < blank.parts }
{
    let mut steps = Steps::<L>::new(blank);
    let lanes = outer_forward(OUTER_ROW, OUTER_NUMBERS, &mut steps);
    let wanted = plain::outer_forward(OUTER_ROW, OUTER_NUMBERS, &mut steps);
    assert!(rt; lanes == wanted);
    let (lanes, soft) = outer_back(OUTER_ROW, OUTER_NUMBERS, OUTER_ROW, &mut steps);
    let (wanted, wanted_soft) = plain::outer_back(OUTER_ROW, OUTER_NUMBERS, OUTER_ROW, &mut steps);
    assert!(rt; lanes == wanted && soft == wanted_soft);
}

#[test]
fn outer_kernels(rt: HostRuntime) {
    outer_agrees::<HostRuntime, Brand>(&rt, Blank::new(1));
}
