//! Soft values of short words beside the scores of all words, and of longer ones beside sweeps that keep each row.
ghost use Rattle.std.specs.Prelude.{◌≡◌, ◌<◌, ◌≤◌, ◌*◌, true, length};
ghost use Rattle.hpe_base.specs.Sizes.{AllWithin};
ghost use Rattle.hpe_base.specs.Parameters.{clamp};

use crate::{inner_rows, inner_soft};
use hpe_base::{CODE_BITS, Order, Steps};
use std::alloc::{AllocError, Global};
use std::marker::Brand;
use std::process::Abort;
use std::sync::ledger::{Blank, Ledger};
use std::test::Fail;

/// Whether each number is at most 16,383 in size.
fn are_small(l: &[i32]) -> bool
    ensures { result ≡ true → AllWithin clamp l.now }
{
    for number in l {
        if *number < -16_383 || 16_383 < *number {
            return false;
        }
    }
    true
}

/// The soft values of a word of so many symbols, by a counter of its own.
fn counted<R: Abort, L: Ledger>(
    rt: &R,
    alloc: Global,
    order: Order,
    symbols: usize,
    counts: &[u16],
    l: &[i32],
    blank: Blank,
) -> Result<Vec<i32>, Fail>
    requires name { blank.name ≡ L.name }
    requires parts { blank.parts ≡ L.parts }
    requires some { 0 < blank.parts }
{
    assert!(rt; 1 <= symbols && symbols <= order.symbols());
    assert!(rt; l.len() == symbols * order.bits() as usize && are_small(l));
    assert!(rt; counts.len() == symbols * order.slots());
    assert!(rt; counts.iter().all(|count| *count <= 16_383));
    let mut rows = vec![in alloc; [0; 2]; inner_rows(symbols)]?;
    let mut soft = vec![in alloc; 7; l.len()]?;
    let mut steps = Steps::<L>::new(blank);
    inner_soft(order, counts, l, &mut rows, &mut soft, &mut steps);
    Ok(soft)
}

fn soft_values<R: Abort>(
    rt: &R,
    alloc: Global,
    order: Order,
    symbols: usize,
    counts: &[u16],
    l: &[i32],
) -> Result<Vec<i32>, Fail> {
    counted::<R, Brand>(rt, alloc, order, symbols, counts, l, Blank::new(1))
}

#[test]
fn one_symbol_by_hand(rt: HostRuntime) -> Result<(), Fail> {
    // The words 00, 01, 10, 11 give the symbols 0, 1, 3, 2, and score 0, 3, 0, 1.
    let soft = soft_values(&rt, rt.alloc(), Order::P4, 1, &[0, 3, 1, 0], &[0, 0])?;
    assert!(rt; soft.as_slice() == [-2, 3].as_slice());
    Ok(())
}

/// What a word scores, whose bit j has the value 2^j.
fn score(order: Order, counts: &[u16], l: &[i32], word: u32) -> i32 {
    let mut rest = word;
    let mut score = 0_i32;
    let mut parity = 0_usize;
    let symbols = counts.chunks_exact(order.slots().max(1));
    for (numbers, counts) in l.chunks_exact(order.bits().max(1) as usize).zip(symbols) {
        let mut symbol = 0_usize;
        for number in numbers {
            if rest % 2 == 1 {
                parity ^= 1;
                score = score.saturating_add(*number);
            }
            rest /= 2;
            symbol = symbol << 1 | parity;
        }
        if let Some(count) = counts.get(symbol) {
            score = score.saturating_add(i32::from(*count));
        }
    }
    score
}

/// The soft values by the scores of all words.
fn enumerated(
    alloc: Global,
    order: Order,
    counts: &[u16],
    l: &[i32],
) -> Result<Vec<i32>, AllocError>
    requires { length l.now ≤ 8 }
{
    let mut ones = vec![in alloc; -1_000_000; l.len()]?;
    let mut zeros = vec![in alloc; -1_000_000; l.len()]?;
    for word in 0..1_u32 << l.len() {
        let score = score(order, counts, l, word);
        for place in 0..l.len() {
            let best = if word >> place & 1 == 1 {
                &mut ones
            } else {
                &mut zeros
            };
            if let Some(best) = best.get_mut(place) {
                *best = score.max(*best);
            }
        }
    }
    for (one, zero) in ones.iter_mut().zip(zeros.iter()) {
        *one = one.saturating_sub(*zero);
    }
    Ok(ones)
}

#[test]
fn all_words(rt: HostRuntime) -> Result<(), Fail> {
    for (order, symbols) in [
        (Order::P4, 1),
        (Order::P4, 2),
        (Order::P4, 3),
        (Order::P4, 4),
        (Order::P8, 1),
        (Order::P8, 2),
        (Order::P16, 1),
        (Order::P16, 2),
        (Order::P256, 1),
    ] {
        let mut counts = vec![in rt.alloc(); 0; symbols * order.slots()]?;
        for (i, count) in counts.iter_mut().enumerate() {
            *count = (i % 11 * 7 % 11) as u16;
        }
        let mut l = vec![in rt.alloc(); 0; symbols * order.bits() as usize]?;
        for (i, number) in l.iter_mut().enumerate() {
            *number = (i % 13 * 5 % 13) as i32 - 6;
        }
        let soft = soft_values(&rt, rt.alloc(), order, symbols, &counts, &l)?;
        assert!(rt; l.len() <= 8);
        let wanted = enumerated(rt.alloc(), order, &counts, &l)?;
        assert!(rt; soft == wanted, "{symbols} symbols");
    }
    Ok(())
}

/// What the edge of symbol v from state s scores at stage t of a word at order 4.
fn edge(counts: &[u16], l: &[i32], t: usize, s: usize, v: usize) -> i32 {
    let mut score = 0_i32;
    if let Some(count) = counts.get(t.saturating_mul(4).saturating_add(v)) {
        score = i32::from(*count);
    }
    for (i, bit) in [v / 2 ^ s, v / 2 ^ v % 2].iter().enumerate() {
        if *bit == 1
            && let Some(number) = l.get(t.saturating_mul(2).saturating_add(i))
        {
            score = score.saturating_add(*number);
        }
    }
    score
}

/// The soft values at order 4, by sweeps over the whole word that keep each row.
fn swept(alloc: Global, symbols: usize, counts: &[u16], l: &[i32]) -> Result<Vec<i32>, AllocError> {
    let mut rows = Vec::new(alloc);
    let mut row = [0_i32, -1_000_000];
    for t in 0..symbols {
        rows.push(row)?;
        let mut next = [-1_000_000_i32; 2];
        for s in 0..2 {
            for v in 0..4 {
                let score = row[s].saturating_add(edge(counts, l, t, s, v));
                next[v % 2] = score.max(next[v % 2]);
            }
        }
        row = next;
    }
    let mut soft = vec![in alloc; 0; l.len()]?;
    let mut back = [0_i32; 2];
    for k in 0..symbols {
        let t = symbols - 1 - k;
        let mut before = [-1_000_000_i32; 2];
        let mut best = [[-1_000_000_i32; 2]; 2];
        for s in 0..2 {
            for v in 0..4 {
                let rest = edge(counts, l, t, s, v).saturating_add(back[v % 2]);
                before[s] = rest.max(before[s]);
                if let Some(fore) = rows.get(t) {
                    let score = fore[s].saturating_add(rest);
                    for (i, bit) in [v / 2 ^ s, v / 2 ^ v % 2].iter().enumerate() {
                        best[i][bit % 2] = score.max(best[i][bit % 2]);
                    }
                }
            }
        }
        for i in 0..2 {
            if let Some(place) = soft.get_mut(t.saturating_mul(2).saturating_add(i)) {
                *place = best[i][1].saturating_sub(best[i][0]);
            }
        }
        back = before;
    }
    Ok(soft)
}

#[test]
fn windows_beside_whole_sweeps(rt: HostRuntime) -> Result<(), Fail> {
    for symbols in [1, 63, 64, 65, 129] {
        let mut counts = vec![in rt.alloc(); 0; symbols * Order::P4.slots()]?;
        for (i, count) in counts.iter_mut().enumerate() {
            *count = (i % 11 * 7 % 11) as u16;
        }
        let mut l = vec![in rt.alloc(); 0; symbols * Order::P4.bits() as usize]?;
        for (i, number) in l.iter_mut().enumerate() {
            *number = (i % 13 * 5 % 13) as i32 - 6;
        }
        let soft = soft_values(&rt, rt.alloc(), Order::P4, symbols, &counts, &l)?;
        let wanted = swept(rt.alloc(), symbols, &counts, &l)?;
        assert!(rt; soft == wanted, "{symbols} symbols");
    }
    Ok(())
}

#[test]
fn rows_of_windows(rt: HostRuntime) {
    for (symbols, rows) in [
        (1, 65),
        (63, 65),
        (64, 65),
        (65, 66),
        (129, 67),
        (3_780, 124),
    ] {
        assert!(rt; symbols <= 10_080);
        assert_eq!(rt; inner_rows(symbols), rows);
    }
}

/// The counts of a whole codeword: 3 in each slot, but for the first of each symbol.
fn counts_of(alloc: Global, order: Order, first: u16) -> Result<Vec<u16>, AllocError> {
    let mut counts = Vec::new(alloc);
    for _symbol in 0..order.symbols() {
        for slot in 0..order.slots() {
            counts.push(if slot == 0 { first } else { 3 })?;
        }
    }
    Ok(counts)
}

#[test]
fn whole_codewords(rt: HostRuntime) -> Result<(), Fail> {
    let l = vec![in rt.alloc(); 0; CODE_BITS]?;
    for order in [
        Order::P4,
        Order::P8,
        Order::P16,
        Order::P32,
        Order::P64,
        Order::P128,
        Order::P256,
    ] {
        // Counts that are all alike say nothing of any bit.
        let counts = counts_of(rt.alloc(), order, 3)?;
        let soft = soft_values(&rt, rt.alloc(), order, order.symbols(), &counts, &l)?;
        assert_eq!(rt; soft.len(), CODE_BITS);
        assert!(rt; soft.iter().all(|value| *value == 0));
        // Pulses in the first slot of each symbol say that each bit is 0.
        let counts = counts_of(rt.alloc(), order, 4)?;
        let soft = soft_values(&rt, rt.alloc(), order, order.symbols(), &counts, &l)?;
        assert!(rt; soft.iter().all(|value| *value < 0));
    }
    Ok(())
}
