mod measures;
mod validity;

use crate::{Fields, Order, Profile, Rate};
use std::test::Fail;

/// The codeword marker of the built-in profile.
pub const MARKER: [i64; 16] = [0, 5, 15, 14, 2, 11, 9, 12, 4, 1, 3, 10, 6, 7, 13, 8];

/// The fields of the built-in profile.
pub fn basic_fields<'a>(marker: &'a [i64]) -> Fields<'a> {
    Fields {
        marker,
        ..Fields::basic()
    }
}

#[test]
fn orders_and_rates(rt: HostRuntime) {
    let orders = [
        (Order::P4, 2, 4, 7_560),
        (Order::P8, 3, 8, 5_040),
        (Order::P16, 4, 16, 3_780),
        (Order::P32, 5, 32, 3_024),
        (Order::P64, 6, 64, 2_520),
        (Order::P128, 7, 128, 2_160),
        (Order::P256, 8, 256, 1_890),
    ];
    for (order, bits, slots, symbols) in orders {
        assert_eq!(rt; order.bits(), bits);
        assert_eq!(rt; order.slots(), slots);
        assert_eq!(rt; order.symbols(), symbols);
    }
    for (rate, steps, information, block) in [
        (Rate::Third, 5_040, 5_038, 5_006),
        (Rate::Half, 7_560, 7_558, 7_526),
        (Rate::TwoThirds, 10_080, 10_078, 10_046),
    ] {
        assert_eq!(rt; rate.steps(), steps);
        assert_eq!(rt; rate.information(), information);
        assert_eq!(rt; rate.block(), block);
    }
}

#[test]
fn built_in_profile(rt: HostRuntime) -> Result<(), Fail> {
    let p = Profile::basic();
    assert_eq!(rt; p.order(), Order::P16);
    assert_eq!(rt; p.rate(), Rate::Third);
    assert_eq!(rt; p.frame_octets(), 100);
    assert_eq!(rt; p.frame_marker(), 449_838_109);
    assert_eq!(rt; p.taps(), 169);
    assert_eq!(rt; p.seed(), 255);
    assert_eq!(rt; p.check(), 537_149_449);
    assert_eq!(rt; p.columns().len(), 1);
    assert_eq!(rt; p.columns()[0], [true, true, true]);
    assert_eq!(rt; p.rows(), 1);
    assert_eq!(rt; p.delay(), 1);
    let marker = [0, 5, 15, 14, 2, 11, 9, 12, 4, 1, 3, 10, 6, 7, 13, 8];
    assert_eq!(rt; p.marker(), marker.as_slice());
    assert_eq!(rt; p.repeat(), 1);
    assert_eq!(rt; p.rounds(), 16);
    assert_eq!(rt; p.search(), 1);
    assert_eq!(rt; p.count_octets(), 1);
    assert_eq!(rt; p.scale(), 8);
    Ok(())
}
