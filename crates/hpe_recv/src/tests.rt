ghost use Rattle.std.specs.Prelude.{◌<◌, ◌≤◌, ◌^◌};

use crate::{OpenGate, Receiver, RecvFault, Tally, held_limit};
use hpe_base::{Fields, Profile};
use hpe_io::{MemSink, MemSource};
use std::alloc::AllocGlobal;
use std::process::Abort;
use std::test::Fail;
use std::thread::Threads;

/// More octets than any test has.
const LIMIT: u64 = 2_000_000;

/// A stream without a word.
const NO_WORD: Tally = Tally {
    words: 0,
    kept: 0,
    lost: 0,
    frames: 0,
    lead: 0,
    tail: 0,
};

/// How octets are received.
#[derive(Clone, Copy)]
struct Reads<'a> {
    workers: u32,
    /// The most octets of a take.
    piece: u32,
    /// The numbers of the takes that fail.
    failing: &'a [u64],
    limit: u64,
}

/// One word at a time, in large pieces.
const LARGE: Reads<'static> = Reads {
    workers: 1,
    piece: 65_536,
    failing: &[],
    limit: LIMIT,
};

/// What a receiver answered, the report, and what it keeps then.
#[derive(Drop)]
struct Received {
    ended: Result<Tally, RecvFault>,
    report: MemSink,
    fresh: bool,
    held: u64,
}

/// Receives octets of which no frame comes.
fn receive<T: AllocGlobal + Threads + Sync>(
    rt: &T,
    p: &Profile,
    reads: Reads,
    octets: &[u8],
) -> Result<Received, Fail>
    requires workers { (1 ≤ reads.workers) × (reads.workers ≤ 16) }
    requires piece { 0 < reads.piece }
    requires limit { (1 ≤ reads.limit) × (reads.limit ≤ 2 ^ 40) }
{
    let mut input = MemSource::new(rt.alloc(), octets, &[reads.piece], reads.failing)?;
    let mut receiver = Receiver::new(rt.alloc(), p, reads.workers)?;
    let mut frames = MemSink::new(rt.alloc(), 0, &[])?;
    let mut report = MemSink::new(rt.alloc(), 1_000, &[])?;
    let limit = reads.limit;
    let ended = receiver.receive(rt, &OpenGate, limit, &mut input, &mut frames, &mut report);
    Ok(Received {
        ended,
        report,
        fresh: receiver.fresh(),
        held: receiver.held(),
    })
}

/// Receives octets of which no frame comes, and compares the answer and the report. It answers what is kept then.
fn receives<T: Abort + AllocGlobal + Threads + Sync>(
    rt: &T,
    p: &Profile,
    reads: Reads,
    octets: &[u8],
    ended: Result<Tally, RecvFault>,
    report: &str,
) -> Result<u64, Fail> {
    assert!(rt; 1 <= reads.workers && reads.workers <= 16);
    assert!(rt; 0 < reads.piece && 1 <= reads.limit && reads.limit <= LIMIT);
    let received = receive(rt, p, reads, octets)?;
    assert_eq!(rt; received.ended, ended);
    assert_eq!(rt; received.report.bytes(), report.as_bytes());
    assert!(rt; !received.fresh && received.held <= held_limit(p, reads.workers));
    Ok(received.held)
}

/// A profile of order 4, with a period of 37,880 slots for each time that a symbol is sent.
fn order_4(repeat: i64, rounds: i64, count_octets: i64) -> Result<Profile, Fail> {
    let p = Profile::new(&Fields {
        order: 4,
        marker: &[0, 1, 3, 2, 2, 3, 1, 0, 0, 1, 3, 2, 2, 3, 1, 0],
        repeat,
        rounds,
        count_octets,
        ..Fields::basic()
    })?;
    Ok(p)
}

#[test]
fn all_counts_at_their_greatest(rt: HostRuntime) -> Result<(), Fail> {
    let p = order_4(32, 16, 1)?;
    let counts = vec![in rt.alloc(); 255u8; 1_212_160]?;
    let tally = Tally {
        words: 1,
        lost: 1,
        ..NO_WORD
    };
    let report = "word 0 lost\nwords 1 kept 0 lost 1 frames 0 lead 0 tail 0\n";
    let held = receives(&rt, &p, LARGE, &counts, Ok(tally), report)?;
    assert_eq!(rt; held, 1_212_160);
    assert_eq!(rt; held_limit(&p, 1), 1_245_120);
    Ok(())
}

#[test]
fn dark_counts(rt: HostRuntime) -> Result<(), Fail> {
    let p = Profile::basic();
    let short = Tally {
        tail: 75_919,
        ..NO_WORD
    };
    let dark = Err(RecvFault::NoMarker { counts: 75_920 });
    for (count, limit, ended, report) in [
        (
            75_919,
            75_919,
            Ok(short),
            "words 0 kept 0 lost 0 frames 0 lead 0 tail 75919\n",
        ),
        (75_920, 75_920, dark, "no marker in 75920 slots\n"),
        (75_920, 75_919, Err(RecvFault::TooLong), ""),
    ] {
        let counts = vec![in rt.alloc(); 0u8; count]?;
        let reads = Reads {
            workers: 16,
            piece: 7,
            limit,
            ..LARGE
        };
        receives(&rt, &p, reads, &counts, ended, report)?;
    }
    Ok(())
}

#[test]
fn received_once(rt: HostRuntime) -> Result<(), Fail> {
    let p = Profile::basic();
    let receiver = Receiver::new(rt.alloc(), &p, 2)?;
    assert!(rt; receiver.fresh() && receiver.held() == 0);
    let reads = Reads {
        piece: 1,
        failing: &[2],
        ..LARGE
    };
    let held = receives(&rt, &p, reads, &[0, 0, 0], Err(RecvFault::Read), "")?;
    assert_eq!(rt; held, 2);
    Ok(())
}

#[test]
fn any_cutting_and_number_of_workers(rt: HostRuntime) -> Result<(), Fail> {
    let p = order_4(1, 1, 1)?;
    let counts = vec![in rt.alloc(); 255u8; 3 * 37_880 + 7]?;
    let tally = Tally {
        words: 3,
        lost: 3,
        tail: 7,
        ..NO_WORD
    };
    let report =
        "word 0 lost\nword 1 lost\nword 2 lost\nwords 3 kept 0 lost 3 frames 0 lead 0 tail 7\n";
    for (piece, workers) in [(7, 2), (1_000, 1), (1_000, 16), (65_536, 2)] {
        let reads = Reads {
            workers,
            piece,
            ..LARGE
        };
        receives(&rt, &p, reads, &counts, Ok(tally), report)?;
    }
    Ok(())
}

/// The octets of ten slots, a period and three slots, two octets a count, and one octet more.
const TWO_OCTETS: usize = 2 * (10 + 37_880 + 3) + 1;

/// The slots of the marker's pulses behind ten slots.
const PULSES: [usize; 16] = [
    10, 16, 23, 27, 32, 38, 41, 45, 50, 56, 63, 67, 72, 78, 81, 85,
];

#[test]
fn two_octets_a_count(rt: HostRuntime) -> Result<(), Fail> {
    let p = order_4(1, 1, 2)?;
    // a count of 257 everywhere, and of 512 at the pulses of the marker
    let mut octets = vec![in rt.alloc(); 1u8; TWO_OCTETS]?;
    for slot in PULSES {
        assert!(rt; slot < 100);
        assert!(rt; octets.len() == TWO_OCTETS);
        octets[2 * slot] = 2;
        octets[2 * slot + 1] = 0;
    }
    assert!(rt; octets.len() == TWO_OCTETS);
    let whole = "word 0 lost\nwords 1 kept 0 lost 1 frames 0 lead 10 tail 3\n";
    let odd = "word 0 lost\nwords 1 kept 0 lost 1 frames 0 lead 10 tail 4\n";
    for (piece, count, tail, report) in [
        (1, TWO_OCTETS, 4, odd),
        (7, TWO_OCTETS, 4, odd),
        (7, TWO_OCTETS - 1, 3, whole),
        (65_536, TWO_OCTETS - 1, 3, whole),
    ] {
        assert!(rt; count <= octets.len());
        let tally = Tally {
            words: 1,
            lost: 1,
            lead: 10,
            tail,
            ..NO_WORD
        };
        let reads = Reads {
            workers: 2,
            piece,
            ..LARGE
        };
        receives(&rt, &p, reads, &octets[..count], Ok(tally), report)?;
    }
    Ok(())
}

#[test]
fn half_a_count(rt: HostRuntime) -> Result<(), Fail> {
    let p = order_4(1, 1, 2)?;
    let tally = Tally { tail: 1, ..NO_WORD };
    let report = "words 0 kept 0 lost 0 frames 0 lead 0 tail 1\n";
    let held = receives(&rt, &p, LARGE, &[9], Ok(tally), report)?;
    assert_eq!(rt; held, 0);
    Ok(())
}

#[test]
fn takes_that_fail(rt: HostRuntime) -> Result<(), Fail> {
    // of pieces of 5,001 octets the search takes eight, or sixteen at two octets a count, and the first word is whole
    // with them
    for (count_octets, octet, failing, report) in [
        (1, 255, 1, ""),
        (1, 255, 7, ""),
        (1, 255, 8, "word 0 lost\n"),
        (1, 255, 10, "word 0 lost\n"),
        (1, 0, 1, ""),
        (1, 0, 10, ""),
        (2, 255, 15, ""),
        (2, 255, 16, "word 0 lost\n"),
        (2, 0, 16, ""),
    ] {
        let p = order_4(1, 1, count_octets)?;
        let octets = vec![in rt.alloc(); octet; 4 * 37_880]?;
        let reads = Reads {
            piece: 5_001,
            failing: &[failing],
            ..LARGE
        };
        receives(&rt, &p, reads, &octets, Err(RecvFault::Read), report)?;
    }
    Ok(())
}

#[test]
fn bounds_of_what_is_held(rt: HostRuntime) -> Result<(), Fail> {
    let p = Profile::basic();
    for (workers, limit) in [(1, 136_740), (16, 1_043_940)] {
        assert_eq!(rt; held_limit(&p, workers), limit);
    }
    Ok(())
}
