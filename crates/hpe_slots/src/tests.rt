use crate::{gather, marker_score, read_counts, write_pulses, write_symbol};
use hpe_base::{Fields, Order, Profile};
use hpe_io::{Failed, MemSink};
use std::test::Fail;

/// Symbol 5 at order 16, sent once: 16 positions and 4 guard slots.
const FIVE: [u8; 20] = [0, 0, 0, 0, 0, 1, 0, 0, 0, 0, 0, 0, 0, 0, 0, 0, 0, 0, 0, 0];

#[test]
fn slots_of_a_symbol(rt: HostRuntime) {
    let p = Profile::basic();
    assert_eq!(rt; p.symbol_slots(), 20);
    let mut slots = [7; 20];
    write_pulses(&p, 5, &mut slots);
    assert_eq!(rt; slots, FIVE);
}

#[test]
fn put_to_a_sink(rt: HostRuntime) -> Result<(), Fail> {
    let p = Profile::basic();
    for (room, result, count) in [(20, Ok(()), 20), (10, Err(Failed), 10)] {
        let mut sink = MemSink::new(rt.alloc(), room, &[])?;
        assert_eq!(rt; write_symbol(&p, 5, &mut sink), result);
        assert_eq!(rt; sink.bytes(), &FIVE[..count]);
    }
    Ok(())
}

#[test]
fn sums_of_a_symbol(rt: HostRuntime) {
    let p = Profile::basic();
    let counts = [
        1, 2, 3, 4, 5, 6, 7, 8, 9, 10, 11, 12, 13, 14, 15, 16, 17, 18, 19, 20,
    ];
    let mut sums = [7; 16];
    gather(&p, &counts, &mut sums);
    assert_eq!(rt;
        sums,
        [1, 2, 3, 4, 5, 6, 7, 8, 9, 10, 11, 12, 13, 14, 15, 16]
    );
}

#[test]
fn score_of_a_marker(rt: HostRuntime) {
    let p = Profile::basic();
    let mut octets = [3; 320];
    let mut window = [0; 320];
    read_counts(&p, &octets, &mut window);
    assert_eq!(rt; marker_score(&p, &window), 48);
    for (r, symbol) in p.marker().iter().enumerate() {
        write_pulses(&p, *symbol, &mut octets[20 * r..20 * r + 20]);
    }
    read_counts(&p, &octets, &mut window);
    assert_eq!(rt; marker_score(&p, &window), 16);
}

/// The built-in profile at order 4, with a marker of one symbol so many repeats and octets of a count.
fn repeated(repeat: i64, count_octets: i64) -> Result<Profile, Fail> {
    let p = Profile::new(&Fields {
        order: 4,
        marker: &[3],
        repeat,
        count_octets,
        ..Fields::basic()
    })?;
    Ok(p)
}

#[test]
fn repeats(rt: HostRuntime) -> Result<(), Fail> {
    let p = repeated(2, 1)?;
    assert_eq!(rt; p.order(), Order::P4);
    let mut sink = MemSink::new(rt.alloc(), 10, &[])?;
    assert_eq!(rt; write_symbol(&p, 2, &mut sink), Ok(()));
    assert_eq!(rt; sink.bytes(), [0, 0, 1, 0, 0, 0, 0, 1, 0, 0].as_slice());

    let p = repeated(32, 1)?;
    assert_eq!(rt; p.order(), Order::P4);
    assert_eq!(rt; p.symbol_slots(), 160);
    assert_eq!(rt; p.marker().len(), 1);
    let counts = [255; 160];
    let mut sums = [0; 4];
    gather(&p, &counts, &mut sums);
    assert_eq!(rt; sums, [8_160; 4]);
    assert_eq!(rt; marker_score(&p, &counts), 8_160);
    Ok(())
}

#[test]
fn counts_of_two_octets(rt: HostRuntime) -> Result<(), Fail> {
    let p = repeated(2, 2)?;
    assert_eq!(rt; p.order(), Order::P4);
    assert_eq!(rt; p.count_octets(), 2);
    assert_eq!(rt; p.symbol_octets(), 20);
    let mut sink = MemSink::new(rt.alloc(), 20, &[])?;
    assert_eq!(rt; write_symbol(&p, 2, &mut sink), Ok(()));
    let octets = [0, 0, 0, 0, 0, 1, 0, 0, 0, 0, 0, 0, 0, 0, 0, 1, 0, 0, 0, 0];
    assert_eq!(rt; sink.bytes(), octets.as_slice());
    let mut counts = [7; 3];
    read_counts(&p, &[1, 2, 0, 255, 255, 255], &mut counts);
    assert_eq!(rt; counts, [258, 255, 65_535]);

    let p = repeated(32, 2)?;
    assert_eq!(rt; p.order(), Order::P4);
    assert_eq!(rt; p.symbol_slots(), 160);
    assert_eq!(rt; p.marker().len(), 1);
    let counts = [65_535; 160];
    let mut sums = [0; 4];
    gather(&p, &counts, &mut sums);
    assert_eq!(rt; sums, [16_383; 4]);
    assert_eq!(rt; marker_score(&p, &counts), 2_097_120);
    Ok(())
}
