ghost use Rattle.std.specs.Prelude.{◌≡◌, ◌<◌};

use crate::{Desk, Verdict, cut, scaled};
use hpe_base::{Fields, Profile, Steps};
use hpe_code::CodeTables;
use hpe_word::encode_word;
use std::alloc::Global;
use std::marker::Brand;
use std::process::Abort;
use std::sync::ledger::{Blank, Ledger};
use std::test::Fail;

/// The bits of the default frame marker.
const FRAME_MARKER: [u8; 32] = [
    0, 0, 0, 1, 1, 0, 1, 0, 1, 1, 0, 0, 1, 1, 1, 1, 1, 1, 1, 1, 1, 1, 0, 0, 0, 0, 0, 1, 1, 1, 0, 1,
];

/// The symbols of a block's codeword.
fn encoded<R: Abort>(rt: &R, alloc: Global, p: &Profile, block: &[u8]) -> Result<Vec<u8>, Fail> {
    let tables = CodeTables::new(alloc)?;
    assert!(rt; block.len() == p.rate().block() && block.iter().all(|bit| *bit < 2));
    let mut symbols = vec![in alloc; 0; p.order().symbols()]?;
    encode_word(&tables, p, block, &mut symbols);
    Ok(symbols)
}

/// Sums with a count of 1 at each symbol's pulse, but for symbols that are dark.
fn received(alloc: Global, p: &Profile, symbols: &[u8], dark: &[usize]) -> Result<Vec<u16>, Fail> {
    let mut counts = Vec::new(alloc);
    for (s, symbol) in symbols.iter().enumerate() {
        let is_dark = dark.contains(&s);
        for v in 0..p.order().slots() {
            counts.push(u16::from(v == usize::from(*symbol) && !is_dark))?;
        }
    }
    Ok(counts)
}

/// A word decoded by a counter of its own.
fn counted<R: Abort, L: Ledger>(
    rt: &R,
    p: &Profile,
    desk: &mut Desk,
    counts: &[u16],
    block: &mut [u8],
    blank: Blank,
) -> Verdict
    requires desk { desk.old ≡ p.now }
    requires name { blank.name ≡ L.name }
    requires parts { blank.parts ≡ L.parts }
    requires some { 0 < blank.parts }
    ensures { desk.new ≡ p.now }
{
    assert!(rt; counts.len() == p.order().symbols() * p.order().slots());
    assert!(rt; block.len() == p.rate().block() && p.rounds() <= 64);
    assert!(rt; counts.iter().all(|count| *count <= 16_383));
    let mut steps = Steps::<L>::new(blank);
    desk.decode_word(counts, block, &mut steps)
}

/// The same, by a counter that is never read.
fn decoded<R: Abort>(
    rt: &R,
    p: &Profile,
    desk: &mut Desk,
    counts: &[u16],
    block: &mut [u8],
) -> Verdict
    requires desk { desk.old ≡ p.now }
    ensures { desk.new ≡ p.now }
{
    counted::<R, Brand>(rt, p, desk, counts, block, Blank::new(1))
}

#[test]
fn clamped_numbers(rt: HostRuntime) {
    for (number, clamped) in [
        (0, 0),
        (16_383, 16_383),
        (16_384, 16_383),
        (-16_383, -16_383),
        (-16_384, -16_383),
        (i32::MIN, -16_383),
    ] {
        assert_eq!(rt; cut(number), clamped);
    }
}

#[test]
fn scaled_numbers(rt: HostRuntime) {
    for (number, scale, eighths) in [
        (0, 3, 0),
        (1, 1, 1),
        (-1, 1, -1),
        (-9, 4, -5),
        (16_383, 6, 12_288),
        (16_383, 8, 16_383),
    ] {
        assert_eq!(rt; scaled(number, scale), eighths);
    }
}

#[test]
fn clean_then_dark(rt: HostRuntime) -> Result<(), Fail> {
    let p = Profile::basic();
    let mut desk = Desk::new(rt.alloc(), &p)?;
    let zeros = vec![in rt.alloc(); 0; p.rate().block()]?;
    let symbols = encoded(&rt, rt.alloc(), &p, &zeros)?;
    let mut block = vec![in rt.alloc(); 7; p.rate().block()]?;

    let clean = received(rt.alloc(), &p, &symbols, &[])?;
    assert_eq!(rt;
        decoded(&rt, &p, &mut desk, &clean, &mut block),
        Verdict::Kept { round: 1 }
    );
    assert!(rt; block.as_slice() == zeros.as_slice());

    block.fill(7);
    let dark = vec![in rt.alloc(); 0; clean.len()]?;
    assert_eq!(rt;
        decoded(&rt, &p, &mut desk, &dark, &mut block),
        Verdict::Lost
    );
    assert!(rt; block.iter().all(|bit| *bit == 7));
    Ok(())
}

#[test]
fn kept_in_the_second_round(rt: HostRuntime) -> Result<(), Fail> {
    for scale in [8, 6, 1] {
        let p = Profile::new(&Fields {
            scale,
            ..Fields::basic()
        })?;
        let mut desk = Desk::new(rt.alloc(), &p)?;
        let mut sent = Vec::from_slice(rt.alloc(), &FRAME_MARKER)?;
        sent.resize(p.rate().block(), 0)?;
        let symbols = encoded(&rt, rt.alloc(), &p, &sent)?;
        let dark = [570, 799, 1_415, 2_064, 2_446, 2_975, 3_419, 3_610];
        let counts = received(rt.alloc(), &p, &symbols, &dark)?;
        let mut block = vec![in rt.alloc(); 7; p.rate().block()]?;
        let first = decoded(&rt, &p, &mut desk, &counts, &mut block);
        assert!(rt; first == Verdict::Kept { round: 2 } && block.as_slice() == sent.as_slice());
        block.fill(7);
        let again = decoded(&rt, &p, &mut desk, &counts, &mut block);
        assert!(rt; again == Verdict::Kept { round: 2 } && block.as_slice() == sent.as_slice());
    }
    Ok(())
}

/// A word of the bit alone, sent clean.
fn sent_clean<R: Abort>(
    rt: &R,
    alloc: Global,
    p: &Profile,
    desk: &mut Desk,
    bit: u8,
) -> Result<(), Fail>
    requires { desk.old ≡ p.now }
    ensures { desk.new ≡ p.now }
{
    let sent = vec![in alloc; bit; p.rate().block()]?;
    let symbols = encoded(rt, alloc, p, &sent)?;
    let counts = received(alloc, p, &symbols, &[])?;
    let mut block = vec![in alloc; 7; p.rate().block()]?;
    let verdict = decoded(rt, p, desk, &counts, &mut block);
    assert!(rt; verdict == Verdict::Kept { round: 1 } && block.as_slice() == sent.as_slice());
    Ok(())
}

/// Words of zeros and of ones, sent clean at each order, at one desk.
fn each_order<R: Abort>(rt: &R, alloc: Global, rate: &str, columns: &str) -> Result<(), Fail> {
    for order in [4, 8, 16, 32, 64, 128, 256] {
        let p = Profile::new(&Fields {
            order,
            rate,
            columns,
            marker: &[3],
            rounds: 2,
            ..Fields::basic()
        })?;
        let mut desk = Desk::new(alloc, &p)?;
        sent_clean(rt, alloc, &p, &mut desk, 0)?;
        sent_clean(rt, alloc, &p, &mut desk, 1)?;
    }
    Ok(())
}

#[test]
fn each_order_at_one_third(rt: HostRuntime) -> Result<(), Fail> {
    each_order(&rt, rt.alloc(), "1/3", "111")
}

#[test]
fn each_order_at_one_half(rt: HostRuntime) -> Result<(), Fail> {
    each_order(&rt, rt.alloc(), "1/2", "110")
}

#[test]
fn each_order_at_two_thirds(rt: HostRuntime) -> Result<(), Fail> {
    each_order(&rt, rt.alloc(), "2/3", "110 010")
}
