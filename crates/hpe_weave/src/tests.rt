ghost use Rattle.std.specs.Prelude.{◌≡◌, ◌≤◌, ◌^◌};

use crate::{Unweaver, Weaver};
use hpe_base::{Fields, Order, Profile};
use std::alloc::{AllocError, Global};
use std::process::Abort;
use std::test::Fail;

/// The orders, numbers of rows and delays of the profiles that both are compared at with their definitions.
const ORDERS: [i64; 3] = [4, 16, 128];

const ROWS: [i64; 4] = [1, 2, 3, 60];

const DELAYS: [i64; 2] = [1, 5];

/// The pushes after the interleaver's depth.
const BEYOND: usize = 200;

/// A profile of this order, with so many rows and so long a delay.
fn profile(order: i64, rows: i64, delay: i64) -> Result<Profile, Fail> {
    let p = Profile::new(&Fields {
        order,
        rows,
        delay,
        marker: &[3],
        ..Fields::basic()
    })?;
    Ok(p)
}

#[test]
fn order_of_the_channel(rt: HostRuntime) -> Result<(), Fail> {
    // the symbols that are pushed are 10, 11, 12 and so on
    for (rows, delay, sent) in [
        (1, 1, [10, 11, 12, 13, 14, 15, 16, 17, 18, 19, 20, 21]),
        (2, 1, [10, 0, 12, 11, 14, 13, 16, 15, 18, 17, 20, 19]),
        (2, 5, [10, 0, 12, 0, 14, 0, 16, 0, 18, 0, 20, 11]),
        (3, 1, [10, 0, 0, 13, 11, 0, 16, 14, 12, 19, 17, 15]),
        (60, 5, [10, 0, 0, 0, 0, 0, 0, 0, 0, 0, 0, 0]),
    ] {
        let mut weaver = Weaver::new(rt.alloc(), &profile(16, rows, delay)?)?;
        for (symbol, wanted) in (10..22).zip(sent) {
            assert_eq!(rt;
                weaver.push(symbol),
                wanted,
                "{rows} rows, delay {delay}, symbol {symbol}"
            );
        }
    }
    Ok(())
}

#[test]
fn order_of_the_codewords(rt: HostRuntime) -> Result<(), Fail> {
    // three rows of delay 1: the depth is 6, and the rows hold two, one and no times sixteen sums
    let p = profile(16, 3, 1)?;
    assert_eq!(rt; p.order(), Order::P16);
    let mut unweaver = Unweaver::new(rt.alloc(), &p)?;
    assert_eq!(rt; unweaver.held(), 0);
    for (received, given, held) in [
        (10, None, 16),
        (0, None, 32),
        (0, None, 32),
        (13, None, 48),
        (11, None, 48),
        (0, None, 48),
        (16, Some(10), 48),
        (14, Some(11), 48),
        (12, Some(12), 48),
    ] {
        let mut out = [999; 16];
        assert_eq!(rt; unweaver.push(&[received; 16], &mut out), given.is_some());
        assert_eq!(rt; out, [given.unwrap_or(999); 16]);
        assert_eq!(rt; unweaver.held(), held, "after {received}");
    }
    Ok(())
}

#[test]
fn there_and_back(rt: HostRuntime) -> Result<(), Fail> {
    for (rows, delay, depth, held) in [(1, 1, 0, 0), (2, 5, 10, 80), (60, 5, 17_700, 141_600)] {
        let p = profile(16, rows, delay)?;
        assert_eq!(rt; p.order(), Order::P16);
        let mut weaver = Weaver::new(rt.alloc(), &p)?;
        let mut unweaver = Unweaver::new(rt.alloc(), &p)?;
        let mut out = [999; 16];
        for place in 0..18_000_u32 {
            let sent = weaver.push((place % 251) as u8);
            assert_eq!(rt;
                unweaver.push(&[u16::from(sent); 16], &mut out),
                place >= depth
            );
            let wanted = if place < depth {
                999
            } else {
                ((place - depth) % 251) as u16
            };
            assert_eq!(rt; out, [wanted; 16], "place {place} of {rows} rows");
        }
        assert_eq!(rt; unweaver.held(), held);
    }
    Ok(())
}

/// Numbers that follow no simple rule.
fn mixed(alloc: Global, length: usize) -> Result<Vec<u16>, AllocError> {
    let mut numbers = Vec::new(alloc);
    let mut state = 1_u32;
    for _ in 0..length {
        state = state.wrapping_mul(1_664_525).wrapping_add(1_013_904_223);
        numbers.push((state >> 16) as u16)?;
    }
    Ok(numbers)
}

/// The pushes before the first row in the order of the codewords.
fn depth(p: &Profile) -> usize
    ensures { result ≤ 2 ^ 26 }
{
    p.rows() * (p.rows() - 1) * p.delay()
}

/// How many places the interleaver delays what falls at place t.
fn delay_at(p: &Profile, t: usize) -> usize
    ensures { result ≤ 2 ^ 35 }
{
    t % p.rows() * p.rows() * p.delay()
}

/// Pushes symbols, and compares each answer with the symbol so far back as its row is delayed.
fn weaver_agrees<R: Abort>(rt: &R, alloc: Global, p: &Profile) -> Result<(), Fail> {
    let mut sent = Vec::new(alloc);
    for number in mixed(alloc, depth(p) + BEYOND)? {
        sent.push((number % 256) as u8)?;
    }
    let mut weaver = Weaver::new(alloc, p)?;
    for (t, symbol) in sent.iter().enumerate() {
        let back = delay_at(p, t);
        let wanted = if back <= t { sent[t - back] } else { 0 };
        assert_eq!(rt; weaver.push(*symbol), wanted, "place {t}");
    }
    Ok(())
}

#[test]
fn symbols_as_defined(rt: HostRuntime) -> Result<(), Fail> {
    for order in ORDERS {
        for rows in ROWS {
            for delay in DELAYS {
                weaver_agrees(&rt, rt.alloc(), &profile(order, rows, delay)?)?;
            }
        }
    }
    Ok(())
}

/// The sums that wait where so many pushes fell on each row: all of them, or as many as the row is held back by.
fn waiting(p: &Profile, turns: &[usize]) -> usize {
    let mut pushes = 0;
    for (i, turns) in turns.iter().enumerate() {
        let most = p.rows().saturating_sub(i + 1) * p.delay();
        pushes = most.min(*turns).saturating_add(pushes);
    }
    pushes.saturating_mul(p.order().slots())
}

/// Pushes a row, and answers whether one was given.
fn pushed<R: Abort>(
    rt: &R,
    unweaver: &mut Unweaver,
    p: &Profile,
    counts: &[u16],
    out: &mut [u16],
) -> bool
    requires { unweaver.old.parameters ≡ p.now }
    ensures { unweaver.new.parameters ≡ p.now }
{
    assert!(rt; counts.len() == p.order().slots() && out.len() == p.order().slots());
    unweaver.push(counts, out)
}

/// Pushes rows, and compares each answer, and the count of sums that wait, with the definitions.
fn unweaver_agrees<R: Abort>(rt: &R, alloc: Global, p: &Profile) -> Result<(), Fail> {
    let size = p.order().slots();
    let received = mixed(alloc, (depth(p) + BEYOND).saturating_mul(size))?;
    let mut turns = vec![in alloc; 0_usize; p.rows()]?;
    let mut unweaver = Unweaver::new(alloc, p)?;
    let mut out = vec![in alloc; 7; size]?;
    for (c, counts) in received.chunks_exact(size).enumerate() {
        let given = pushed(rt, &mut unweaver, p, counts, &mut out);
        match c.checked_sub(depth(p)) {
            Some(v) => {
                let place = v.saturating_add(delay_at(p, v));
                let wanted = received.chunks_exact(size).nth(place);
                assert!(rt; given && wanted == Some(out.as_slice()), "row {v}");
            }
            None => assert!(rt; !given && out.iter().all(|sum| *sum == 7)),
        }
        if let Some(turns) = turns.get_mut(c % p.rows()) {
            *turns = turns.saturating_add(1);
        }
        assert_eq!(rt; unweaver.held(), waiting(p, &turns) as u64);
    }
    Ok(())
}

#[test]
fn rows_as_defined(rt: HostRuntime) -> Result<(), Fail> {
    for order in ORDERS {
        for rows in ROWS {
            for delay in DELAYS {
                unweaver_agrees(&rt, rt.alloc(), &profile(order, rows, delay)?)?;
            }
        }
    }
    Ok(())
}
