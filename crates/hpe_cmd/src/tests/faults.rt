//! Devices that fail at each of their calls in turn.

use super::{DECODE, ENCODE, Given, Seen, one_frame, run_on, sound, zeros};
use crate::ending::Status;
use hpe_recv::OpenGate;
use std::process::Abort;
use std::test::Fail;
use std::thread::Threads;

/// A device that fails, and how a run ends where it does.
#[derive(Clone, Copy)]
struct Failing<'a> {
    device: Device,
    /// The calls of the device in a run that meets no fault.
    calls: u64,
    status: Status,
    /// The fault line.
    line: &'a str,
}

#[derive(Clone, Copy)]
enum Device {
    Input,
    Output,
    Report,
}

/// Runs where this call of the device fails.
fn run_failing<T: Abort + AllocGlobal + Threads + Sync>(
    rt: &T,
    given: &Given,
    input: &[u8],
    device: Device,
    call: u64,
) -> Result<Seen, Fail> {
    let failing = [call];
    let mut takes: &[u64] = &[];
    let mut puts: &[u64] = &[];
    let mut tells: &[u64] = &[];
    match device {
        Device::Input => takes = &failing,
        Device::Output => puts = &failing,
        Device::Report => tells = &failing,
    }
    let given = Given {
        takes,
        puts,
        tells,
        ..*given
    };
    run_on(rt, &OpenGate, &given, input)
}

/// Lets each call of the device fail in turn: the run ends so, the output holds a front of what the whole run writes, and
/// the report a front of what that tells with the fault line behind it. The call after them is none of the run's.
fn each_call_fails<T: Abort + AllocGlobal + Threads + Sync>(
    rt: &T,
    given: &Given,
    input: &[u8],
    whole: &Seen,
    failing: &Failing,
) -> Result<(), Fail> {
    for call in 0..failing.calls {
        let cut = run_failing(rt, given, input, failing.device, call)?;
        assert_eq!(rt; cut.status, failing.status, "call {call}");
        assert!(rt; whole.written.starts_with(&cut.written));
        let told = cut.told.strip_suffix(failing.line.as_bytes());
        assert!(rt; told.is_some_and(|front| whole.told.starts_with(front)));
    }
    let same = run_failing(rt, given, input, failing.device, failing.calls)?;
    assert_eq!(rt; same.status, Status::Done, "no call {}", failing.calls);
    assert_eq!(rt; same.written.as_slice(), whole.written.as_slice());
    assert_eq!(rt; same.told.as_slice(), whole.told.as_slice());
    Ok(())
}

/// The same for the input, the output and the report, which have so many calls in a whole run.
fn each_device_fails<T: Abort + AllocGlobal + Threads + Sync>(
    rt: &T,
    given: &Given,
    input: &[u8],
    calls: [u64; 3],
) -> Result<(), Fail> {
    let whole = run_on(rt, &OpenGate, given, input)?;
    assert_eq!(rt; whole.status, Status::Done);
    let table = [
        Failing {
            device: Device::Input,
            calls: calls[0],
            status: Status::ReadFault,
            line: "read fault\n",
        },
        Failing {
            device: Device::Output,
            calls: calls[1],
            status: Status::WriteFault,
            line: "write fault\n",
        },
        Failing {
            device: Device::Report,
            calls: calls[2],
            status: Status::ReportFault,
            line: "",
        },
    ];
    for failing in &table {
        each_call_fails(rt, given, input, &whole, failing)?;
    }
    Ok(())
}

#[test]
fn devices_that_fail(rt: HostRuntime) -> Result<(), Fail> {
    let encode = Given {
        piece: 7,
        ..sound(ENCODE)
    };
    // 15 pieces of a frame and then the end. A period is put as 65,520 slots and the 10,400 that are left.
    each_device_fails(&rt, &encode, &zeros(rt.alloc(), 100)?, [16, 2, 1])?;
    let slots = one_frame(&rt)?;
    let decodes: [&[&str]; 3] = [
        DECODE,
        &["hpe", "decode", "--workers", "2"],
        &["hpe", "decode", "--workers", "16"],
    ];
    for words in &decodes {
        let decode = Given {
            piece: 4_096,
            ..sound(*words)
        };
        // 19 pieces of a period and then the end, a frame, and a line for the word and one for all.
        each_device_fails(&rt, &decode, &slots, [20, 1, 2])?;
    }
    Ok(())
}
