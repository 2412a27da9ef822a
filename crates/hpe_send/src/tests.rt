ghost use Rattle.std.specs.Prelude.{◌<◌, ◌≤◌, ◌^◌};

use crate::{SendFault, Sender, Sent};
use hpe_base::{Fields, Profile};
use hpe_io::{MemSink, MemSource, SureSource};
use std::alloc::Global;
use std::test::Fail;

/// The slots of a period under the built-in profile.
const PERIOD: usize = 75_920;

/// The pulses of a period: one for each of 16 marker symbols and 3,780 codeword symbols.
const PULSES: usize = 3_796;

/// More octets than any test sends.
const LIMIT: u64 = 1_000_000;

/// So many octets: 0, or each its place modulo 251.
fn octets(alloc: Global, count: usize, counted: bool) -> Result<Vec<u8>, Fail> {
    let mut octets = vec![in alloc; 0u8; count]?;
    if counted {
        for (n, octet) in octets.iter_mut().enumerate() {
            *octet = (n % 251) as u8;
        }
    }
    Ok(octets)
}

/// Sends octets that come in pieces of this size.
fn send(
    alloc: Global,
    p: &Profile,
    octets: &[u8],
    piece: u32,
    limit: u64,
    room: usize,
) -> Result<(Result<Sent, SendFault>, MemSink), Fail>
    requires piece { 0 < piece }
    requires limit { (1 ≤ limit) × (limit ≤ 2 ^ 40) }
{
    let sender = Sender::new(alloc, p)?;
    let mut input = SureSource::new(alloc, octets, &[piece])?;
    let mut output = MemSink::new(alloc, room, &[])?;
    let ended = sender.send(limit, &mut input, &mut output);
    Ok((ended, output))
}

/// The number of slots that are 1.
fn pulses(slots: &[u8]) -> usize {
    slots.iter().filter(|slot| **slot == 1).count()
}

/// The built-in profile but for the rows and the delay of the channel interleaver.
fn interleaved(rows: i64, delay: i64) -> Result<Profile, Fail> {
    let p = Profile::new(&Fields {
        rows,
        delay,
        ..Fields::basic()
    })?;
    Ok(p)
}

/// A profile of order 128 whose channel interleaver has 60 rows.
fn order_128() -> Result<Profile, Fail> {
    let p = Profile::new(&Fields {
        order: 128,
        rate: "2/3",
        columns: "110 010",
        rows: 60,
        marker: &[0, 5, 15, 30, 50, 75, 105, 12, 52, 97, 19, 74, 6, 71, 13, 88],
        ..Fields::basic()
    })?;
    Ok(p)
}

#[test]
fn whole_and_ragged_inputs(rt: HostRuntime) -> Result<(), Fail> {
    for (count, frames, words, rest, slots) in [
        (0, 0, 0, 0, 0),
        (1, 0, 0, 1, 0),
        (100, 1, 1, 0, PERIOD),
        (101, 1, 1, 1, PERIOD),
        (3_000, 30, 5, 0, 379_600),
    ] {
        let octets = octets(rt.alloc(), count, false)?;
        let (ended, output) = send(rt.alloc(), &Profile::basic(), &octets, 64, LIMIT, 400_000)?;
        let sent = Sent { frames, words };
        if rest == 0 {
            assert_eq!(rt; ended, Ok(sent));
        } else {
            assert_eq!(rt; ended, Err(SendFault::Ragged { rest, sent }));
        }
        assert_eq!(rt; output.bytes().len(), slots);
    }
    Ok(())
}

#[test]
fn slots_of_a_period(rt: HostRuntime) -> Result<(), Fail> {
    let octets = octets(rt.alloc(), 100, false)?;
    let (ended, output) = send(rt.alloc(), &Profile::basic(), &octets, 64, 100, PERIOD)?;
    let sent = Sent {
        frames: 1,
        words: 1,
    };
    assert_eq!(rt; ended, Ok(sent));
    assert_eq!(rt; output.bytes().len(), PERIOD);
    assert_eq!(rt; pulses(output.bytes()), PULSES);
    // The marker begins 0, 5, 15, 14, and the codeword begins 12, 14.
    for place in [0, 25, 55, 74, 332, 354] {
        assert_eq!(rt; output.bytes().get(place), Some(&1));
    }
    Ok(())
}

/// The slots at two octets each, of which the high one is 0.
fn widened(alloc: Global, slots: &[u8]) -> Result<Vec<u8>, Fail> {
    let mut octets = Vec::new(alloc);
    for slot in slots {
        octets.push(0)?;
        octets.push(*slot)?;
    }
    Ok(octets)
}

#[test]
fn slots_of_two_octets(rt: HostRuntime) -> Result<(), Fail> {
    let wide = Profile::new(&Fields {
        count_octets: 2,
        ..Fields::basic()
    })?;
    let octets = octets(rt.alloc(), 100, false)?;
    let (_, narrow) = send(rt.alloc(), &Profile::basic(), &octets, 64, 100, PERIOD)?;
    let (ended, output) = send(rt.alloc(), &wide, &octets, 64, 100, 200_000)?;
    let sent = Sent {
        frames: 1,
        words: 1,
    };
    assert_eq!(rt; ended, Ok(sent));
    assert_eq!(rt; output.bytes().len(), 151_840);
    let expected = widened(rt.alloc(), narrow.bytes())?;
    assert_eq!(rt; output.bytes(), expected.as_slice());
    Ok(())
}

#[test]
fn octet_past_the_limit(rt: HostRuntime) -> Result<(), Fail> {
    let octets = octets(rt.alloc(), 100, false)?;
    let (ended, output) = send(rt.alloc(), &Profile::basic(), &octets, 7, 99, PERIOD)?;
    assert_eq!(rt; ended, Err(SendFault::TooLong));
    assert_eq!(rt; output.bytes().len(), 0);
    Ok(())
}

#[test]
fn failing_output(rt: HostRuntime) -> Result<(), Fail> {
    let octets = octets(rt.alloc(), 100, false)?;
    let (_, whole) = send(rt.alloc(), &Profile::basic(), &octets, 64, LIMIT, PERIOD)?;
    let (ended, output) = send(rt.alloc(), &Profile::basic(), &octets, 64, LIMIT, 1_000)?;
    assert_eq!(rt; ended, Err(SendFault::Write));
    assert_eq!(rt; output.bytes().len(), 1_000);
    assert!(rt; whole.bytes().starts_with(output.bytes()));
    Ok(())
}

#[test]
fn failing_input(rt: HostRuntime) -> Result<(), Fail> {
    // Pieces of 40 and 40 octets, and then a fault.
    let octets = octets(rt.alloc(), 100, false)?;
    let sender = Sender::new(rt.alloc(), &Profile::basic())?;
    let mut input = MemSource::new(rt.alloc(), &octets, &[40], &[2])?;
    let mut output = MemSink::new(rt.alloc(), PERIOD, &[])?;
    let ended = sender.send(LIMIT, &mut input, &mut output);
    assert_eq!(rt; ended, Err(SendFault::Read));
    assert_eq!(rt; output.bytes().len(), 0);
    Ok(())
}

#[test]
fn pieces_of_any_size(rt: HostRuntime) -> Result<(), Fail> {
    let p = order_128()?;
    let octets = octets(rt.alloc(), 3_000, true)?;
    let (ended, first) = send(rt.alloc(), &p, &octets, 65_536, LIMIT, 2_000_000)?;
    let sent = Sent {
        frames: 30,
        words: 3,
    };
    assert_eq!(rt; ended, Ok(sent));
    assert_eq!(rt; first.bytes().len(), 1_740_800);
    let (_, second) = send(rt.alloc(), &p, &octets, 7, LIMIT, 2_000_000)?;
    assert!(rt; first.bytes() == second.bytes());
    let (_, third) = send(rt.alloc(), &p, &octets, 1, LIMIT, 2_000_000)?;
    assert!(rt; first.bytes() == third.bytes());
    Ok(())
}

#[test]
fn delayed_symbols(rt: HostRuntime) -> Result<(), Fail> {
    let octets = octets(rt.alloc(), 100, false)?;
    // The codeword begins 12, 14. Its second symbol is sent `rows * delay` places later, and 0 in its place.
    for (rows, delay, second) in [(2, 1, 394), (3, 5, 654)] {
        let p = interleaved(rows, delay)?;
        let (_, output) = send(rt.alloc(), &p, &octets, 64, LIMIT, 2 * PERIOD)?;
        assert_eq!(rt; output.bytes().len(), 2 * PERIOD);
        for place in [332, 340, second] {
            assert_eq!(rt; output.bytes().get(place), Some(&1));
        }
    }
    Ok(())
}
