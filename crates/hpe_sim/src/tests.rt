ghost use Rattle.std.specs.Prelude.{◌≤◌, ◌^◌};

use crate::{SimFault, Task, simulate};
use hpe_base::{Fields, Profile};
use hpe_io::MemSink;
use hpe_recv::{OpenGate, Tally};
use std::alloc::AllocGlobal;
use std::test::Fail;
use std::thread::Threads;

/// The slots of a period of the built-in profile.
const PERIOD: u64 = 75_920;

/// Three frames, of which nothing is lost.
const THREE: Task = Task {
    seed: 1,
    frames: 3,
    lost: 0,
    noise: 0,
};

/// What a simulation of three frames reports.
const THREE_REPORT: &[u8] = b"word 0 kept 1\nwords 1 kept 1 lost 0 frames 3 lead 0 tail 0\n";

/// The line on it.
const THREE_LINE: &[u8] =
    b"seed 1 frames 3 words 1 kept 1 lost 0 back 3 same 1 slots 75920 counts 3796\n";

/// What came of a simulation.
#[derive(Drop)]
struct Ending {
    ended: Result<Tally, SimFault>,
    output: MemSink,
    report: MemSink,
}

/// A simulation under the built-in profile, but for the octets of a count, into sinks with so much room.
fn simulated<T: AllocGlobal + Threads + Sync>(
    rt: &T,
    count_octets: i64,
    task: &Task,
    workers: u32,
    limit: u64,
    rooms: (usize, usize),
) -> Result<Ending, Fail>
    requires frames { task.now.frames ≤ 65535 }
    requires workers { (1 ≤ workers) × (workers ≤ 16) }
    requires limit { (1 ≤ limit) × (limit ≤ 2 ^ 28) }
{
    let p = Profile::new(&Fields {
        count_octets,
        ..Fields::basic()
    })?;
    let mut output = MemSink::new(rt.alloc(), rooms.0, &[])?;
    let mut report = MemSink::new(rt.alloc(), rooms.1, &[])?;
    let ended = simulate(
        rt,
        &OpenGate,
        &p,
        task,
        workers,
        limit,
        &mut output,
        &mut report,
    );
    Ok(Ending {
        ended,
        output,
        report,
    })
}

#[test]
fn three_frames_come_back(rt: HostRuntime) -> Result<(), Fail> {
    for count_octets in [1, 2] {
        let s = simulated(&rt, count_octets, &THREE, 2, PERIOD, (100, 100))?;
        assert!(rt; s.ended.is_ok());
        assert_eq!(rt; s.output.bytes(), THREE_LINE);
        assert_eq!(rt; s.report.bytes(), THREE_REPORT);
    }
    Ok(())
}

#[test]
fn lost_pulses_and_noise(rt: HostRuntime) -> Result<(), Fail> {
    let task = Task {
        seed: 5,
        frames: 6,
        lost: 29_491,
        noise: 8,
    };
    for (count_octets, workers) in [(1, 1), (2, 16)] {
        assert!(rt; 1 <= workers && workers <= 16);
        let s = simulated(&rt, count_octets, &task, workers, 1 << 28, (100, 100))?;
        assert!(rt; s.ended.is_ok());
        assert_eq!(rt;
            s.output.bytes(),
            b"seed 5 frames 6 words 1 kept 1 lost 0 back 6 same 1 slots 75920 counts 2173\n".as_slice()
        );
        assert_eq!(rt;
            s.report.bytes(),
            b"word 0 kept 2\nwords 1 kept 1 lost 0 frames 6 lead 0 tail 0\n".as_slice()
        );
    }
    Ok(())
}

#[test]
fn no_frame(rt: HostRuntime) -> Result<(), Fail> {
    let task = Task { frames: 0, ..THREE };
    for count_octets in [1, 2] {
        let s = simulated(&rt, count_octets, &task, 1, 1, (100, 100))?;
        assert!(rt; s.ended.is_ok());
        assert_eq!(rt;
            s.output.bytes(),
            b"seed 1 frames 0 words 0 kept 0 lost 0 back 0 same 1 slots 0 counts 0\n".as_slice()
        );
        assert_eq!(rt;
            s.report.bytes(),
            b"words 0 kept 0 lost 0 frames 0 lead 0 tail 0\n".as_slice()
        );
    }
    Ok(())
}

#[test]
fn no_pulse_comes_through(rt: HostRuntime) -> Result<(), Fail> {
    // no word of the channel's generator has the low half 65,535 here
    let task = Task {
        seed: 6,
        lost: 65_535,
        ..THREE
    };
    for count_octets in [1, 2] {
        let s = simulated(&rt, count_octets, &task, 1, PERIOD, (100, 100))?;
        assert_eq!(rt; s.ended, Err(SimFault::NoMarker { counts: PERIOD }));
        assert_eq!(rt; s.report.bytes(), b"no marker in 75920 slots\n".as_slice());
        assert!(rt; s.output.bytes().is_empty());
    }
    Ok(())
}

#[test]
fn more_slots_than_the_limit(rt: HostRuntime) -> Result<(), Fail> {
    for count_octets in [1, 2] {
        let s = simulated(&rt, count_octets, &THREE, 1, PERIOD - 1, (100, 100))?;
        assert_eq!(rt; s.ended, Err(SimFault::TooLong));
        assert!(rt; s.output.bytes().is_empty() && s.report.bytes().is_empty());
    }
    Ok(())
}

#[test]
fn report_fails(rt: HostRuntime) -> Result<(), Fail> {
    let s = simulated(&rt, 2, &THREE, 1, PERIOD, (100, 20))?;
    assert_eq!(rt; s.ended, Err(SimFault::Report));
    assert_eq!(rt; s.report.bytes(), b"word 0 kept 1\nwords ".as_slice());
    assert!(rt; s.output.bytes().is_empty());
    Ok(())
}

#[test]
fn output_fails(rt: HostRuntime) -> Result<(), Fail> {
    let s = simulated(&rt, 2, &THREE, 1, PERIOD, (10, 100))?;
    assert_eq!(rt; s.ended, Err(SimFault::Write));
    assert_eq!(rt; s.report.bytes(), THREE_REPORT);
    assert_eq!(rt; s.output.bytes(), b"seed 1 fra".as_slice());
    Ok(())
}
