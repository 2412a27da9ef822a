//! Runs of the program over devices in memory.

mod decode;
mod encode;
mod faults;
mod gate;
mod profiles;
mod simulate;
mod usage;

use crate::ending::Status;
use crate::run::run;
use hpe_io::{MemShelf, MemSink, MemSource};
use hpe_recv::{Gate, OpenGate};
use std::alloc::Global;
use std::process::Abort;
use std::test::Fail;
use std::thread::Threads;

/// The slots of one frame of zeros under the built-in profile: one period.
const PERIOD: usize = 75_920;

/// The pulses of a period: one for each of 16 marker symbols and 3,780 codeword symbols.
const PULSES: usize = 3_796;

/// Room for any report.
const ROOM: usize = 200;

const ENCODE: &[&str] = &["hpe", "encode"];

const DECODE: &[&str] = &["hpe", "decode"];

/// The line on one frame of zeros that was sent.
const ONE_SENT: &str = "frames 1 words 1 slots 75920\n";

/// So many zero octets.
fn zeros(alloc: Global, count: usize) -> Result<Vec<u8>, Fail> {
    let octets = vec![in alloc; 0; count]?;
    Ok(octets)
}

/// The words as the program is given them.
fn words(alloc: Global, texts: &[&str]) -> Result<Vec<String>, Fail> {
    let mut all = Vec::new(alloc);
    for text in texts {
        all.push(String::from_str(alloc, text)?)?;
    }
    Ok(all)
}

/// The places of the slots that are 1.
fn pulses(alloc: Global, slots: &[u8]) -> Result<Vec<usize>, Fail> {
    let mut places = Vec::new(alloc);
    for (place, slot) in slots.iter().enumerate() {
        if *slot == 1 {
            places.push(place)?;
        }
    }
    Ok(places)
}

/// What a run is given beside its input: the words, the text on the shelf under `p.toml`, and how the devices behave.
#[derive(Clone, Copy)]
struct Given<'a> {
    words: &'a [&'a str],
    profile: Option<&'a [u8]>,
    /// The numbers of the fetches that fail.
    fetches: &'a [u64],
    /// The most octets of a take.
    piece: u32,
    /// The numbers of the takes that fail.
    takes: &'a [u64],
    /// The room of the output.
    room: usize,
    /// The numbers of its puts that fail.
    puts: &'a [u64],
    /// The room of the report.
    told: usize,
    /// The numbers of its puts that fail.
    tells: &'a [u64],
}

/// An empty shelf, and devices without faults.
const fn sound<'a>(words: &'a [&'a str]) -> Given<'a> {
    Given {
        words,
        profile: None,
        fetches: &[],
        piece: 65_536,
        takes: &[],
        room: 1_740_800,
        puts: &[],
        told: ROOM,
        tells: &[],
    }
}

/// How a run ended, and what its sinks then hold.
#[derive(Drop)]
struct Seen {
    status: Status,
    written: Vec<u8>,
    told: Vec<u8>,
}

/// Runs over the input. Each job that decodes a word passes the gate.
#[tactic(auto, unfolding(hpe_io::specs::Shelves::text_under))]
fn run_on<T: Abort + AllocGlobal + Threads + Sync, G: Gate>(
    rt: &T,
    gate: &G,
    given: &Given,
    input: &[u8],
) -> Result<Seen, Fail> {
    let command = words(rt.alloc(), given.words)?;
    let mut shelf = MemShelf::new(rt.alloc(), given.fetches)?;
    if let Some(text) = given.profile {
        shelf.add(rt.alloc(), "p.toml", text)?;
    }
    assert!(rt; given.piece > 0);
    let input = MemSource::new(rt.alloc(), input, &[given.piece], given.takes)?;
    let mut output = MemSink::new(rt.alloc(), given.room, given.puts)?;
    let mut report = MemSink::new(rt.alloc(), given.told, given.tells)?;
    let ended = run(
        rt,
        gate,
        &command,
        &mut shelf,
        input,
        &mut output,
        &mut report,
    );
    Ok(Seen {
        status: ended.status,
        written: Vec::from_slice(rt.alloc(), output.bytes())?,
        told: Vec::from_slice(rt.alloc(), report.bytes())?,
    })
}

/// Runs over the input and compares the status and the report. It answers what was written.
fn written<T: Abort + AllocGlobal + Threads + Sync>(
    rt: &T,
    given: &Given,
    input: &[u8],
    status: Status,
    told: &str,
) -> Result<Vec<u8>, Fail> {
    written_past(rt, &OpenGate, given, input, status, told)
}

/// The same, where each job that decodes a word passes the gate.
fn written_past<T: Abort + AllocGlobal + Threads + Sync, G: Gate>(
    rt: &T,
    gate: &G,
    given: &Given,
    input: &[u8],
    status: Status,
    told: &str,
) -> Result<Vec<u8>, Fail> {
    let seen = run_on(rt, gate, given, input)?;
    assert_eq!(rt; seen.status, status, "the status beside {told}");
    assert_eq!(rt; seen.told.as_slice(), told.as_bytes());
    Ok(seen.written)
}

/// The slots of a frame of 100 zeros under the built-in profile.
fn one_frame<T: Abort + AllocGlobal + Threads + Sync>(rt: &T) -> Result<Vec<u8>, Fail> {
    written(
        rt,
        &sound(ENCODE),
        &zeros(rt.alloc(), 100)?,
        Status::Done,
        ONE_SENT,
    )
}

/// The slots of 30 frames of zeros under the built-in profile: five periods.
fn thirty_frames<T: Abort + AllocGlobal + Threads + Sync>(rt: &T) -> Result<Vec<u8>, Fail> {
    let five = "frames 30 words 5 slots 379600\n";
    written(
        rt,
        &sound(ENCODE),
        &zeros(rt.alloc(), 3_000)?,
        Status::Done,
        five,
    )
}
