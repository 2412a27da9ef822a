ghost use Rattle.std.specs.Prelude.{◌≡◌, true};
ghost use Rattle.hpe_base.specs.Parameters.{clamp};
ghost use Rattle.hpe_base.specs.Sizes.{AllWithin};

use crate::{UseFault, inner_values, profile_with, received_frames, sent_slots};
use hpe_base::{CODE_BITS, Key, Order, Profile, ProfileFault};
use hpe_recv::{RecvFault, Tally};
use hpe_send::{SendFault, Sent};
use std::alloc::Global;
use std::process::Abort;
use std::test::Fail;

/// The slots of a period of the built-in profile.
const PERIOD: usize = 75_920;

/// The octets of a frame that fills a word and most of another: 8,952 bits with its marker, of 5,006 a word.
const FRAME: usize = 1_115;

/// So many octets, each its place modulo 251.
fn octets(alloc: Global, count: usize) -> Result<Vec<u8>, Fail> {
    let mut octets = vec![in alloc; 0u8; count]?;
    for (n, octet) in octets.iter_mut().enumerate() {
        *octet = (n % 251) as u8;
    }
    Ok(octets)
}

#[test]
fn a_profile_and_a_refusal(rt: HostRuntime) -> Result<(), Fail> {
    let p = profile_with(1_115)?;
    assert!(rt; p.order() == Order::P16);
    assert!(rt; p.frame_octets() == 1_115 && p.count_octets() == 2);
    let refused = ProfileFault::Range(Key::FrameOctets);
    assert_eq!(rt; profile_with(0).err(), Some(refused));
    Ok(())
}

#[test]
fn slots_of_a_frame(rt: HostRuntime) -> Result<(), Fail> {
    let p = Profile::basic();
    let frame = octets(rt.alloc(), 100)?;
    let slots = sent_slots(rt.alloc(), &p, &frame, PERIOD)?;
    assert_eq!(rt; slots.bytes().len(), PERIOD);
    // a pulse for each of 16 symbols of the marker and 3,780 of the codeword
    assert_eq!(rt;
        slots.bytes().iter().filter(|slot| **slot == 1).count(),
        3_796
    );
    // the marker begins 0, 5, 15, 14, and a symbol has 20 slots
    for place in [0, 25, 55, 74] {
        assert_eq!(rt; slots.bytes().get(place), Some(&1));
    }
    Ok(())
}

#[test]
fn frames_that_are_not_sent(rt: HostRuntime) -> Result<(), Fail> {
    let p = Profile::basic();
    let octets = octets(rt.alloc(), 101)?;
    let sent = Sent {
        frames: 1,
        words: 1,
    };
    let ragged = UseFault::Unsent(SendFault::Ragged { rest: 1, sent });
    assert_eq!(rt;
        sent_slots(rt.alloc(), &p, &octets, PERIOD).err(),
        Some(ragged)
    );
    let narrow = UseFault::Unsent(SendFault::Write);
    assert_eq!(rt;
        sent_slots(rt.alloc(), &p, &octets, PERIOD - 1).err(),
        Some(narrow)
    );
    Ok(())
}

#[test]
fn frames_come_back(rt: HostRuntime) -> Result<(), Fail> {
    let p = profile_with(1_115)?;
    let frame = octets(rt.alloc(), FRAME)?;
    // two words, and two octets a slot
    let slots = sent_slots(rt.alloc(), &p, &frame, 4 * PERIOD)?;
    assert_eq!(rt; slots.bytes().len(), 4 * PERIOD);
    let back = received_frames(&rt, &p, 2, slots.bytes(), 2_000)?;
    assert!(rt; back.frames.bytes() == frame.as_slice());
    assert_eq!(rt;
        back.report.bytes(),
        b"word 0 kept 1\nword 1 kept 1\nwords 2 kept 2 lost 0 frames 1 lead 0 tail 0\n".as_slice()
    );
    let tally = Tally {
        words: 2,
        kept: 2,
        lost: 0,
        frames: 1,
        lead: 0,
        tail: 0,
    };
    assert_eq!(rt; back.tally, tally);
    Ok(())
}

#[test]
fn counts_that_are_not_received(rt: HostRuntime) -> Result<(), Fail> {
    let p = Profile::basic();
    let dark = vec![in rt.alloc(); 0u8; PERIOD]?;
    let none = UseFault::Unreceived(RecvFault::NoMarker { counts: 75_920 });
    assert_eq!(rt; received_frames(&rt, &p, 1, &dark, 100).err(), Some(none));
    let narrow = UseFault::Unreceived(RecvFault::Report);
    assert_eq!(rt; received_frames(&rt, &p, 1, &dark, 10).err(), Some(narrow));
    Ok(())
}

/// Whether each number is at most 16,383 in size.
fn are_small(l: &[i32]) -> bool
    ensures { result ≡ true → AllWithin clamp l.now }
{
    for number in l {
        if *number < -16_383 || 16_383 < *number {
            return false;
        }
    }
    true
}

/// The soft values of a codeword at this order.
fn values<R: Abort>(
    rt: &R,
    alloc: Global,
    order: Order,
    counts: &[u16],
    numbers: &[i32],
) -> Result<Vec<i32>, Fail> {
    assert!(rt; counts.len() == order.symbols() * order.slots());
    assert!(rt; counts.iter().all(|count| *count <= 16_383));
    assert!(rt; numbers.len() == CODE_BITS && are_small(numbers));
    Ok(inner_values(alloc, order, counts, numbers)?)
}

/// At order 16, 3 photons at position 0 of each symbol but the second, which is dark.
fn dark_second(alloc: Global) -> Result<Vec<u16>, Fail> {
    let mut counts = vec![in alloc; 0u16; 3_780 * 16]?;
    for (place, count) in counts.iter_mut().enumerate() {
        if place % 16 == 0 && place != 16 {
            *count = 3;
        }
    }
    Ok(counts)
}

/// An a-priori number of 5 for the last bit alone.
fn last_number(alloc: Global) -> Result<Vec<i32>, Fail> {
    let mut numbers = vec![in alloc; 0; CODE_BITS]?;
    if let Some(last) = numbers.last_mut() {
        *last = 5;
    }
    Ok(numbers)
}

/// What the soft values are then.
fn by_hand(place: usize) -> i32 {
    match place {
        // a bit of the dark symbol, or the first behind it, changes that symbol alone, which costs nothing
        4..=8 => 0,
        // the last symbol is changed in any case, since the number of its last bit outweighs its count by 2
        15_116..=15_118 => 0,
        15_119 => 2,
        // another bit changes a symbol, which costs its count
        _ => -3,
    }
}

#[test]
fn a_dark_symbol_and_a_number(rt: HostRuntime) -> Result<(), Fail> {
    let counts = dark_second(rt.alloc())?;
    let numbers = last_number(rt.alloc())?;
    let values = values(&rt, rt.alloc(), Order::P16, &counts, &numbers)?;
    assert_eq!(rt; values.len(), CODE_BITS);
    for (place, value) in values.iter().enumerate() {
        assert_eq!(rt; *value, by_hand(place));
    }
    Ok(())
}
