//! Frames that are encoded.

use super::{ENCODE, Given, ONE_SENT, PERIOD, PULSES, one_frame, pulses, sound, written, zeros};
use crate::ending::Status;
use std::test::Fail;

#[test]
fn encodings(rt: HostRuntime) -> Result<(), Fail> {
    let whole_slots = one_frame(&rt)?;
    let places = pulses(rt.alloc(), &whole_slots)?;
    assert_eq!(rt; places.len(), PULSES);
    // The marker begins 0, 5, 15, 14, and the codeword begins 12, 14.
    assert_eq!(rt; &places[..4], [0, 25, 55, 74].as_slice());
    assert_eq!(rt; &places[16..18], [332, 354].as_slice());
    let whole = sound(ENCODE);
    let cases: [(Given, usize, Status, &str, usize); 14] = [
        (whole, 0, Status::Done, "frames 0 words 0 slots 0\n", 0),
        (whole, 1, Status::Ragged, "ragged: rest 1\n", 0),
        (whole, 101, Status::Ragged, "ragged: rest 1\n", PERIOD),
        // An output without room, with some, and with room for all but one slot.
        (
            Given { room: 0, ..whole },
            100,
            Status::WriteFault,
            "write fault\n",
            0,
        ),
        (
            Given {
                room: 1_000,
                ..whole
            },
            100,
            Status::WriteFault,
            "write fault\n",
            1_000,
        ),
        (
            Given {
                room: PERIOD - 1,
                ..whole
            },
            100,
            Status::WriteFault,
            "write fault\n",
            PERIOD - 1,
        ),
        // A put of the line on what was sent that fails is a fault, and that of a fault line is none.
        (
            Given { told: 0, ..whole },
            100,
            Status::ReportFault,
            "",
            PERIOD,
        ),
        (
            Given { told: 9, ..whole },
            100,
            Status::ReportFault,
            "frames 1 ",
            PERIOD,
        ),
        (Given { told: 0, ..whole }, 101, Status::Ragged, "", PERIOD),
        (
            Given { told: 9, ..whole },
            101,
            Status::Ragged,
            "ragged: r",
            PERIOD,
        ),
        (
            sound(&["hpe", "encode", "--limit", "100"]),
            100,
            Status::Done,
            ONE_SENT,
            PERIOD,
        ),
        (
            sound(&["hpe", "encode", "--limit=+0100"]),
            100,
            Status::Done,
            ONE_SENT,
            PERIOD,
        ),
        (
            sound(&["hpe", "encode", "--limit", "99"]),
            100,
            Status::TooLong,
            "too long: limit 99\n",
            0,
        ),
        (
            sound(&["hpe", "encode", "--limit", "100"]),
            101,
            Status::TooLong,
            "too long: limit 100\n",
            0,
        ),
    ];
    for (given, octets, status, told, slots) in &cases {
        let some = written(&rt, given, &zeros(rt.alloc(), *octets)?, *status, told)?;
        assert_eq!(rt; some.len(), *slots);
        let due = whole_slots.len().min(*slots);
        assert_eq!(rt; some.as_slice(), &whole_slots[..due]);
    }
    Ok(())
}
