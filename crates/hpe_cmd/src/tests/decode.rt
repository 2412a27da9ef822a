//! Counts that are decoded under the built-in profile.

use super::{
    DECODE, Given, PERIOD, PULSES, one_frame, pulses, sound, thirty_frames, written, zeros,
};
use crate::ending::Status;
use std::alloc::Global;
use std::test::Fail;

/// The slots, of which `count` from each of the starts on are made dark.
fn darkened(alloc: Global, slots: &[u8], starts: &[usize], count: usize) -> Result<Vec<u8>, Fail> {
    let mut all = Vec::new(alloc);
    for (place, slot) in slots.iter().enumerate() {
        let mut kept = *slot;
        for start in starts {
            if place >= *start && place - *start < count {
                kept = 0;
            }
        }
        all.push(kept)?;
    }
    Ok(all)
}

#[test]
fn streams_of_one_frame(rt: HostRuntime) -> Result<(), Fail> {
    let frame = one_frame(&rt)?;
    let mut dark_after = darkened(rt.alloc(), &frame, &[], 0)?;
    dark_after.extend_from_slice(&[0; 10])?;
    let mut dark_before = zeros(rt.alloc(), PERIOD - 1)?;
    dark_before.extend_from_slice(&frame)?;
    // Eight symbols of the codeword, of twenty slots each.
    let gaps = [
        11_720, 16_300, 28_620, 41_600, 49_240, 59_820, 68_700, 72_520,
    ];
    let gapped = darkened(rt.alloc(), &frame, &gaps, 20)?;
    let dark = zeros(rt.alloc(), PERIOD)?;
    let short = zeros(rt.alloc(), PERIOD - 1)?;
    let whole = sound(DECODE);
    let ones = Given { piece: 1, ..whole };
    let sevens = Given { piece: 7, ..whole };
    let untold = Given { told: 0, ..whole };
    let half = Given { room: 50, ..whole };
    let after = "word 0 kept 1\nwords 1 kept 1 lost 0 frames 1 lead 0 tail 10\n";
    let twice = "word 0 kept 2\nwords 1 kept 1 lost 0 frames 1 lead 0 tail 0\n";
    let many = Given {
        words: &["hpe", "decode", "--workers", "16"],
        ..whole
    };
    let cases: [(Given, &[u8], Status, &str, usize); 15] = [
        (
            whole,
            &[],
            Status::Done,
            "words 0 kept 0 lost 0 frames 0 lead 0 tail 0\n",
            0,
        ),
        (
            whole,
            &frame,
            Status::Done,
            "word 0 kept 1\nwords 1 kept 1 lost 0 frames 1 lead 0 tail 0\n",
            100,
        ),
        (many, &dark_after, Status::Done, after, 100),
        (ones, &dark_after, Status::Done, after, 100),
        (sevens, &dark_after, Status::Done, after, 100),
        (whole, &dark_after, Status::Done, after, 100),
        (
            whole,
            &dark_before,
            Status::Done,
            "word 0 kept 1\nwords 1 kept 1 lost 0 frames 1 lead 75919 tail 0\n",
            100,
        ),
        (many, &gapped, Status::Done, twice, 100),
        (ones, &gapped, Status::Done, twice, 100),
        (sevens, &gapped, Status::Done, twice, 100),
        (whole, &gapped, Status::Done, twice, 100),
        (
            whole,
            &dark,
            Status::NoMarker,
            "no marker in 75920 slots\n",
            0,
        ),
        (
            whole,
            &short,
            Status::Done,
            "words 0 kept 0 lost 0 frames 0 lead 0 tail 75919\n",
            0,
        ),
        // A report without room, and an output with room for half of the frame.
        (untold, &frame, Status::ReportFault, "", 100),
        (half, &frame, Status::WriteFault, "write fault\n", 50),
    ];
    for (given, counts, status, told, octets) in &cases {
        let frames = written(&rt, given, counts, *status, told)?;
        assert_eq!(rt; frames.as_slice(), zeros(rt.alloc(), *octets)?.as_slice());
    }
    Ok(())
}

#[test]
fn streams_of_many_frames(rt: HostRuntime) -> Result<(), Fail> {
    let thirty = thirty_frames(&rt)?;
    assert_eq!(rt; pulses(rt.alloc(), &thirty)?.len(), 5 * PULSES);
    let gapped = darkened(rt.alloc(), &thirty, &[2 * PERIOD], PERIOD)?;
    let whole = sound(DECODE);
    let lost =
        "word 0 kept 1\nword 1 kept 1\nword 2 lost\nword 3 kept 1\nword 4 kept 1\nwords 5 kept 4 lost 1 frames 23 lead 0 tail 0\n";
    let cases: [(Given, Status, &str, usize); 3] = [
        (Given { piece: 7, ..whole }, Status::WordsLost, lost, 2_300),
        (whole, Status::WordsLost, lost, 2_300),
        // The search takes ten pieces, which hold the first word. The take behind them fails.
        (
            Given {
                takes: &[10],
                ..whole
            },
            Status::ReadFault,
            "word 0 kept 1\nread fault\n",
            600,
        ),
    ];
    for (given, status, told, octets) in &cases {
        let some = written(&rt, given, &gapped, *status, told)?;
        assert_eq!(rt; some.as_slice(), zeros(rt.alloc(), *octets)?.as_slice());
    }
    Ok(())
}

#[test]
fn streams_that_are_cut_or_always_bright(rt: HostRuntime) -> Result<(), Fail> {
    let thirty = thirty_frames(&rt)?;
    let bright = vec![in rt.alloc(); 255; PERIOD]?;
    let one = "word 0 kept 1\nwords 1 kept 1 lost 0 frames 6 lead 0 tail 0\n";
    let one_and_more = "word 0 kept 1\nwords 1 kept 1 lost 0 frames 6 lead 0 tail 75919\n";
    let four =
        "word 0 kept 1\nword 1 kept 1\nword 2 kept 1\nword 3 kept 1\nwords 4 kept 4 lost 0 frames 24 lead 0 tail 75919\n";
    let lost = "word 0 lost\nwords 1 kept 0 lost 1 frames 0 lead 0 tail 0\n";
    let cases: [(&[u8], usize, Status, &str, usize); 5] = [
        (
            &thirty,
            PERIOD - 1,
            Status::Done,
            "words 0 kept 0 lost 0 frames 0 lead 0 tail 75919\n",
            0,
        ),
        (&thirty, PERIOD, Status::Done, one, 600),
        (&thirty, 2 * PERIOD - 1, Status::Done, one_and_more, 600),
        (&thirty, 5 * PERIOD - 1, Status::Done, four, 2_400),
        (&bright, PERIOD, Status::WordsLost, lost, 0),
    ];
    for (counts, first, status, told, octets) in &cases {
        let first = counts.len().min(*first);
        let frames = written(&rt, &sound(DECODE), &counts[..first], *status, told)?;
        assert_eq!(rt; frames.as_slice(), zeros(rt.alloc(), *octets)?.as_slice());
    }
    Ok(())
}
