//! The measures of links, by tables and by hand.

use crate::{Fields, Measures, Order, Profile, Rate, geometry};
use std::process::Abort;
use std::test::Fail;

#[test]
fn measures_of_orders(rt: HostRuntime) -> Result<(), Fail> {
    for (order, symbols, symbol_slots, marker_slots, period, marker) in [
        (
            4,
            7_560,
            5,
            80,
            37_880,
            [0, 1, 3, 2, 2, 3, 1, 0, 0, 1, 3, 2, 2, 3, 1, 0],
        ),
        (
            8,
            5_040,
            10,
            160,
            50_560,
            [0, 5, 7, 6, 2, 3, 1, 4, 4, 1, 3, 2, 6, 7, 5, 0],
        ),
        (
            16,
            3_780,
            20,
            320,
            75_920,
            [0, 5, 15, 14, 2, 11, 9, 12, 4, 1, 3, 10, 6, 7, 13, 8],
        ),
        (
            32,
            3_024,
            40,
            640,
            121_600,
            [0, 5, 15, 30, 18, 11, 9, 12, 20, 1, 19, 10, 6, 7, 13, 24],
        ),
        (
            64,
            2_520,
            80,
            1_280,
            202_880,
            [0, 5, 15, 30, 50, 11, 41, 12, 52, 33, 19, 10, 6, 7, 13, 24],
        ),
        (
            128,
            2_160,
            160,
            2_560,
            348_160,
            [0, 5, 15, 30, 50, 75, 105, 12, 52, 97, 19, 74, 6, 71, 13, 88],
        ),
        (
            256,
            1_890,
            320,
            5_120,
            609_920,
            [
                0, 5, 15, 30, 50, 75, 105, 140, 180, 225, 19, 74, 134, 199, 13, 88,
            ],
        ),
    ] {
        let p = Profile::new(&Fields {
            order,
            marker: &marker,
            ..Fields::basic()
        })?;
        let expected = Measures {
            steps: 5_040,
            block: 5_006,
            symbols,
            symbol_slots,
            marker_slots,
            period,
            depth: 0,
            flush: 0,
        };
        assert_eq!(rt; geometry(&p), expected, "order {order}");
        assert_is_default(&rt, p.marker(), p.order().slots());
    }
    Ok(())
}

/// Asserts that symbol `i` of a default codeword marker is `5 i (i + 1) / 2` modulo the order.
fn assert_is_default(rt: &impl Abort, marker: &[u8], slots: usize) {
    assert_eq!(rt; marker.len(), 16);
    for i in 0..16usize {
        assert_eq!(rt;
            (5 * i * (i + 1) / 2).checked_rem(slots),
            Some(marker[i] as usize),
            "{slots} {i}"
        );
    }
}

#[test]
fn another_link(rt: HostRuntime) -> Result<(), Fail> {
    let fields = Fields {
        order: 64,
        rate: "1/2",
        frame_octets: 65_536,
        frame_marker: 1,
        taps: 0,
        seed: 2,
        check: 3,
        columns: "110 101",
        rows: 12,
        delay: 100,
        marker: &[63, 0],
        repeat: 3,
        rounds: 4,
        search: 2,
        count_octets: 2,
        scale: 6,
    };
    let p = Profile::new(&fields)?.copy();
    assert_eq!(rt; p.order(), Order::P64);
    assert_eq!(rt; p.rate(), Rate::Half);
    assert_eq!(rt; p.frame_octets(), 65_536);
    assert_eq!(rt; p.frame_marker(), 1);
    assert_eq!(rt; p.taps(), 0);
    assert_eq!(rt; p.seed(), 2);
    assert_eq!(rt; p.check(), 3);
    assert_eq!(rt;
        p.columns(),
        [[true, true, false], [true, false, true]].as_slice()
    );
    assert_eq!(rt; p.rows(), 12);
    assert_eq!(rt; p.delay(), 100);
    assert_eq!(rt; p.marker(), [63, 0].as_slice());
    assert_eq!(rt; p.repeat(), 3);
    assert_eq!(rt; p.rounds(), 4);
    assert_eq!(rt; p.rounds(), 4);
    assert_eq!(rt; p.search(), 2);
    assert_eq!(rt; p.count_octets(), 2);
    assert_eq!(rt; p.scale(), 6);
    let expected = Measures {
        steps: 7_560,
        block: 7_526,
        symbols: 2_520,
        symbol_slots: 240,
        marker_slots: 480,
        period: 605_280,
        depth: 13_200,
        flush: 6,
    };
    assert_eq!(rt; geometry(&p), expected);
    Ok(())
}
