//! Soft values of short words beside the scores of all words, and of longer ones beside sweeps that keep each row.
ghost use Rattle.std.specs.Prelude.{◌≡◌, ◌<◌, ◌≤◌, ◌+◌, ◌*◌, length, true};
ghost use Rattle.hpe_base.specs.Sizes.{AllWithin};
ghost use Rattle.hpe_base.specs.ConvolutionalCode.{AreColumns};
ghost use Rattle.hpe_base.specs.Parameters.{clamp};

use crate::{outer_rows, outer_soft};
use hpe_base::Steps;
use hpe_code::kept_length;
use std::alloc::{AllocError, Global};
use std::marker::Brand;
use std::process::Abort;
use std::sync::ledger::{Blank, Ledger};
use std::test::Fail;

/// Whether each number is at most 16,383 in size.
fn are_small(l: &[i32]) -> bool
    ensures { result ≡ true → AllWithin clamp l.now }
{
    for number in l {
        if *number < -16_383 || 16_383 < *number {
            return false;
        }
    }
    true
}

/// The soft values of the information bits and, after them, of the code bits, by a counter of its own.
fn counted<R: Abort, L: Ledger>(
    rt: &R,
    alloc: Global,
    columns: &[[bool; 3]],
    l: &[i32],
    free: usize,
    blank: Blank,
) -> Result<Vec<i32>, Fail>
    requires columns { AreColumns columns.now }
    requires free { (2 ≤ free) × (free ≤ 10078) }
    requires name { blank.name ≡ L.name }
    requires parts { blank.parts ≡ L.parts }
    requires some { 0 < blank.parts }
{
    let size = kept_length(columns, free + 2);
    assert!(rt; l.len() == size && size <= 15_120 && are_small(l));
    let mut rows = vec![in alloc; [0; 4]; outer_rows(free + 2)]?;
    let mut info = vec![in alloc; 7; free]?;
    let mut code = vec![in alloc; 7; l.len()]?;
    let mut steps = Steps::<L>::new(blank);
    outer_soft(columns, l, &mut rows, &mut info, &mut code, &mut steps);
    for value in code.iter() {
        info.push(*value)?;
    }
    Ok(info)
}

fn soft_values<R: Abort>(
    rt: &R,
    alloc: Global,
    columns: &[[bool; 3]],
    l: &[i32],
    free: usize,
) -> Result<Vec<i32>, Fail>
    requires columns { AreColumns columns.now }
    requires free { (2 ≤ free) × (free ≤ 10078) }
{
    counted::<R, Brand>(rt, alloc, columns, l, free, Blank::new(1))
}

#[test]
fn two_information_bits(rt: HostRuntime) -> Result<(), Fail> {
    let l = [1, 1, 1, 0, 0, 0, 0, 0, 0, 0, 0, 0];
    let values = soft_values(&rt, rt.alloc(), &[[true; 3]], &l, 2)?;
    assert!(rt; values.as_slice() == [3, 0, 3, 3, 3, 0, 0, 0, 3, 0, 0, 0, 0, 0].as_slice());
    Ok(())
}

/// The code bits that are kept of a word, bit t of which enters at step t.
fn encoded(
    alloc: Global,
    columns: &[[bool; 3]],
    steps: usize,
    word: u32,
) -> Result<Vec<bool>, AllocError>
    requires { 1 ≤ length columns.now }
{
    let mut kept = Vec::new(alloc);
    let mut window = word << 2;
    for t in 0..steps {
        let odd = window % 2 == 1;
        let last = window / 2 % 2 == 1;
        let input = window / 4 % 2 == 1;
        let outputs = [input ^ odd, input ^ last ^ odd, input ^ last ^ odd];
        for (flag, output) in columns[t % columns.len()].iter().zip(outputs) {
            if *flag {
                kept.push(output)?;
            }
        }
        window /= 2;
    }
    Ok(kept)
}

/// What a word scores.
fn score(kept: &[bool], l: &[i32]) -> i32 {
    let mut score = 0_i32;
    for (bit, number) in kept.iter().zip(l) {
        if *bit {
            score = score.saturating_add(*number);
        }
    }
    score
}

/// The soft values by the scores of all words.
fn enumerated(
    alloc: Global,
    columns: &[[bool; 3]],
    l: &[i32],
    free: usize,
) -> Result<Vec<i32>, AllocError>
    requires columns { 1 ≤ length columns.now }
    requires free { free ≤ 6 }
{
    let mut ones = vec![in alloc; -1_000_000; free + l.len()]?;
    let mut zeros = vec![in alloc; -1_000_000; free + l.len()]?;
    for word in 0..1_u32 << free {
        let kept = encoded(alloc, columns, free + 2, word)?;
        let score = score(&kept, l);
        let information = (0..free).map(|t| word >> t & 1 == 1);
        for (place, bit) in information.chain(kept.iter().copied()).enumerate() {
            let best = if bit { &mut ones } else { &mut zeros };
            if let Some(best) = best.get_mut(place) {
                *best = score.max(*best);
            }
        }
    }
    for (one, zero) in ones.iter_mut().zip(zeros.iter()) {
        *one = one.saturating_sub(*zero);
    }
    Ok(ones)
}

/// Compares both for 2 to 6 information bits.
fn agree<R: Abort>(rt: &R, alloc: Global, columns: &[[bool; 3]]) -> Result<(), Fail>
    requires columns { AreColumns columns.now }
{
    for free in 2..7 {
        let mut l = vec![in alloc; 0; kept_length(columns, free + 2)]?;
        for (i, number) in l.iter_mut().enumerate() {
            *number = (i % 13 * 5 % 13) as i32 - 6;
        }
        let values = soft_values(rt, alloc, columns, &l, free)?;
        let wanted = enumerated(alloc, columns, &l, free)?;
        assert!(rt; values == wanted, "{free} information bits");
    }
    Ok(())
}

#[test]
fn all_words(rt: HostRuntime) -> Result<(), Fail> {
    agree(&rt, rt.alloc(), &[[true, true, true]])?;
    agree(&rt, rt.alloc(), &[[true, true, false]])?;
    agree(
        &rt,
        rt.alloc(),
        &[[true, true, false], [false, true, false]],
    )?;
    agree(
        &rt,
        rt.alloc(),
        &[[false, true, true], [false, false, true]],
    )?;
    Ok(())
}

/// The outputs of the edge of input x from state p.
fn outputs(p: usize, x: usize) -> [usize; 3] {
    let second = x ^ p / 2 ^ p % 2;
    [x ^ p % 2, second, second]
}

/// What that edge scores, where the outputs that are kept have the numbers from place `at` on.
fn edge(column: &[bool; 3], l: &[i32], at: usize, p: usize, x: usize) -> i32 {
    let mut score = 0_i32;
    let mut place = at;
    for (flag, output) in column.iter().zip(outputs(p, x)) {
        if *flag {
            if output % 2 == 1
                && let Some(number) = l.get(place)
            {
                score = score.saturating_add(*number);
            }
            place = place.saturating_add(1);
        }
    }
    score
}

/// For each step, where the numbers of its outputs begin.
fn places(alloc: Global, columns: &[[bool; 3]], steps: usize) -> Result<Vec<usize>, AllocError>
    requires { 1 ≤ length columns.now }
{
    let mut places = Vec::new(alloc);
    let mut at = 0_usize;
    for t in 0..steps {
        places.push(at)?;
        for flag in &columns[t % columns.len()] {
            at = at.saturating_add(usize::from(*flag));
        }
    }
    Ok(places)
}

/// The row before the first step and the one after the last.
const OUTSIDE: [i32; 4] = [0, -1_000_000, -1_000_000, -1_000_000];

/// The row before each step.
fn fore_rows(
    alloc: Global,
    columns: &[[bool; 3]],
    l: &[i32],
    places: &[usize],
) -> Result<Vec<[i32; 4]>, AllocError>
    requires { 1 ≤ length columns.now }
{
    let mut rows = Vec::new(alloc);
    let mut row = OUTSIDE;
    for (t, at) in places.iter().enumerate() {
        rows.push(row)?;
        let column = &columns[t % columns.len()];
        let mut next = [-1_000_000_i32; 4];
        for p in 0..4 {
            for x in 0..2 {
                let score = row[p].saturating_add(edge(column, l, *at, p, x));
                next[2 * x + p / 2] = score.max(next[2 * x + p / 2]);
            }
        }
        row = next;
    }
    Ok(rows)
}

/// The soft values by sweeps over the whole word that keep each row.
fn swept(
    alloc: Global,
    columns: &[[bool; 3]],
    l: &[i32],
    free: usize,
) -> Result<Vec<i32>, AllocError>
    requires columns { 1 ≤ length columns.now }
    requires free { free ≤ 10078 }
{
    let places = places(alloc, columns, free + 2)?;
    let rows = fore_rows(alloc, columns, l, &places)?;
    let mut info = vec![in alloc; 0; free]?;
    let mut code = vec![in alloc; 0; l.len()]?;
    let mut back = OUTSIDE;
    for k in 0..free + 2 {
        let t = free + 1 - k;
        let column = &columns[t % columns.len()];
        let mut before = [-1_000_000_i32; 4];
        let mut best = [[-2_000_000_i32; 2]; 4];
        let mut place = 0_usize;
        if let Some(fore) = rows.get(t)
            && let Some(at) = places.get(t)
        {
            place = *at;
            for p in 0..4 {
                for x in 0..2 {
                    let rest = edge(column, l, *at, p, x).saturating_add(back[2 * x + p / 2]);
                    before[p] = rest.max(before[p]);
                    let score = fore[p].saturating_add(rest);
                    best[0][x] = score.max(best[0][x]);
                    for (i, output) in outputs(p, x).iter().enumerate() {
                        best[i + 1][output % 2] = score.max(best[i + 1][output % 2]);
                    }
                }
            }
        }
        if let Some(value) = info.get_mut(t) {
            *value = best[0][1].saturating_sub(best[0][0]);
        }
        for (i, flag) in column.iter().enumerate() {
            if *flag {
                if let Some(value) = code.get_mut(place) {
                    *value = best[i + 1][1].saturating_sub(best[i + 1][0]);
                }
                place = place.saturating_add(1);
            }
        }
        back = before;
    }
    for value in code.iter() {
        info.push(*value)?;
    }
    Ok(info)
}

/// Compares the soft values in windows with those of sweeps over the whole word, about where a window ends.
fn windows_agree<R: Abort>(rt: &R, alloc: Global, columns: &[[bool; 3]]) -> Result<(), Fail>
    requires columns { AreColumns columns.now }
{
    for free in [61, 62, 63, 64, 65, 125, 126, 127, 128, 129] {
        assert!(rt; 2 <= free && free <= 129);
        let mut l = vec![in alloc; 0; kept_length(columns, free + 2)]?;
        for (i, number) in l.iter_mut().enumerate() {
            *number = (i % 13 * 5 % 13) as i32 - 6;
        }
        let values = soft_values(rt, alloc, columns, &l, free)?;
        let wanted = swept(alloc, columns, &l, free)?;
        assert!(rt; values == wanted, "{free} information bits");
    }
    Ok(())
}

#[test]
fn windows_beside_whole_sweeps(rt: HostRuntime) -> Result<(), Fail> {
    windows_agree(&rt, rt.alloc(), &[[true, true, true]])
}

#[test]
fn windows_of_columns_in_turn(rt: HostRuntime) -> Result<(), Fail> {
    windows_agree(
        &rt,
        rt.alloc(),
        &[[true, true, false], [false, true, false]],
    )
}

/// Numbers that say nothing give soft values that say nothing.
fn says_nothing<R: Abort>(
    rt: &R,
    alloc: Global,
    columns: &[[bool; 3]],
    free: usize,
) -> Result<(), Fail>
    requires columns { AreColumns columns.now }
    requires free { (2 ≤ free) × (free ≤ 10078) }
{
    let l = vec![in alloc; 0; 15_120]?;
    let values = soft_values(rt, alloc, columns, &l, free)?;
    assert_eq!(rt; values.len(), free.saturating_add(15_120));
    assert!(rt; values.iter().all(|value| *value == 0));
    Ok(())
}

#[test]
fn whole_codewords(rt: HostRuntime) -> Result<(), Fail> {
    says_nothing(&rt, rt.alloc(), &[[true, true, true]], 5_038)?;
    says_nothing(&rt, rt.alloc(), &[[true, true, false]], 7_558)?;
    says_nothing(
        &rt,
        rt.alloc(),
        &[[true, true, false], [false, true, false]],
        10_078,
    )?;
    Ok(())
}
