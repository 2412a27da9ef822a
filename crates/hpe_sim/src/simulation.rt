//! A simulation from its task to its summary.
//!
//! How many slots there are is known before anything is made, so a simulation that is too long takes no memory. All
//! lists have their room from the start, and no more than two as long as the slots stand at the same time.
ghost use Rattle.std.specs.Prelude.{◌≡◌, ◌≤◌, ◌<◌, ◌+◌, ◌*◌, ◌/◌, ◌^◌, ◌↔◌, IfOk, IsErrOf, List, ℕ, [], length, sum, true};
ghost use Rattle.hpe_base.specs.Counts.{counts_of};
ghost use Rattle.hpe_base.specs.Parameters.{IsValid, period_slots, block_bits};
ghost use Rattle.hpe_io.specs.Standing.{SinkStands};
ghost use Rattle.hpe_recv.specs.Receiving.{tallied};
ghost use Rattle.hpe_sim.specs.Outcome.{HasAnswer, HasReportCause, HasReported, HasSummed, HasWriteCause};
ghost use Rattle.hpe_sim.specs.declared.simulation.SimFault.TheVariants.{NoMemory as Memory, Write};
ghost use Rattle.hpe_sim.specs.Simulated.{slots_for, sim_counts, sim_octets, summary, summary_line};

use crate::channel::{counts, random_octets, total};
use crate::link::{receive_counts, sent_slots};
use crate::task::Task;
use hpe_base::{NoMemory, Profile, geometry};
use hpe_io::{Failed, MemSink, Sink, SureSource};
use hpe_recv::{Gate, Receiver, Tally};
use hpe_text::{Line, push_entry};
use std::alloc::{AllocGlobal, Global};
use std::thread::Threads;
use thiserror::Error;

/// Why a simulation did not come to its end.
#[derive(Clone, Copy, Debug, PartialEq, Eq, Error)]
pub enum SimFault {
    /// The output failed. The report is whole, and some front of the summary is written.
    #[error("the output failed")]
    Write,
    /// The report failed. Some front of it is written, and nothing to the output.
    #[error("the report failed")]
    Report,
    /// There are more slots than the limit. Nothing is written.
    #[error("the simulation is too long")]
    TooLong,
    /// All that the marker search sees of the `counts` slots is dark. The report has the line on it, and nothing is
    /// written to the output.
    #[error("no marker was found")]
    NoMarker { counts: u64 },
    /// There is too little memory. Nothing is written.
    #[error("there is too little memory")]
    NoMemory,
}

impl From<NoMemory> for SimFault {
    ghost from_gives = { λ _ fault. fault ≡ Memory };

    fn from(_: NoMemory) -> SimFault {
        SimFault::NoMemory
    }
}

impl From<Failed> for SimFault {
    ghost from_gives = { λ _ fault. fault ≡ Write };

    fn from(_: Failed) -> SimFault {
        SimFault::Write
    }
}

/// The slots that so many frames make.
fn slot_count(p: &Profile, frames: u32) -> u64
    requires { frames ≤ 65535 }
    ensures slots { result ≡ slots_for p.now frames }
    ensures few { result ≤ 2 ^ 63 }
    ensures valid { IsValid p.now }
{
    let measures = geometry(p);
    let bits = frames as u64 * p.span_bits() as u64;
    let words = bits.div_ceil(measures.block as u64);
    if words == 0 {
        0
    } else {
        (words + measures.flush as u64) * measures.period as u64
    }
}

/// What is made for a simulation before anything is written.
#[derive(Drop)]
struct Bench {
    /// The octets of the frames that are sent.
    octets: Vec<u8>,
    /// The sum of all counts.
    total: u64,
    /// The octets of the counts.
    input: SureSource,
    receiver: Receiver,
    /// Where the frames go that come back.
    frames: MemSink,
}

/// The line on a simulation, with its line feed.
fn summary_line(task: &Task, tally: &Tally, same: bool, slots: u64, total: u64) -> Line
    ensures text { (counts : List ℕ) → length counts ≡ slots → sum counts ≡ total
        → result.bytes ≡ summary_line task.now (tallied tally.now) same counts }
    ensures some { 0 < length result.bytes }
{
    let mut line = Line::new();
    push_entry(&mut line, "seed ", task.seed);
    push_entry(&mut line, " frames ", task.frames as u64);
    push_entry(&mut line, " words ", tally.words);
    push_entry(&mut line, " kept ", tally.kept);
    push_entry(&mut line, " lost ", tally.lost);
    push_entry(&mut line, " back ", tally.frames);
    push_entry(&mut line, " same ", same as u64);
    push_entry(&mut line, " slots ", slots);
    push_entry(&mut line, " counts ", total);
    line.push_str("\n");
    line
}

/// The octets of the counts of the slots that carry the octets, so many slots. The slots are dropped.
fn made_counts(
    alloc: Global,
    p: &Profile,
    task: &Task,
    octets: &[u8],
    slots: usize,
) -> Result<Vec<u8>, NoMemory>
    requires valid { IsValid p.now }
    requires frames { task.now.frames ≤ 65535 }
    requires octets { octets.now ≡ sim_octets p.now task.now }
    requires slots { slots ≡ slots_for p.now task.now.frames }
    requires few { slots ≤ 2 ^ 28 }
    ensures { IfOk result (λ v. v.items ≡ sim_counts p.now task.now) }
{
    let sent = sent_slots(alloc, p, octets, slots)?;
    counts(alloc, p, task, sent.bytes())
}

/// One octet more than so many slots can deliver.
fn frames_room(p: &Profile, slots: usize) -> usize
    requires { slots ≤ 2 ^ 28 }
    ensures { result ≡ slots / period_slots p.now * block_bits p.now.rate / 8 + 1 }
{
    let measures = geometry(p);
    slots / measures.period * measures.block / 8 + 1
}

/// Makes the frames, the counts of their slots, and what receives them, for a simulation of so many slots.
fn make_bench(
    alloc: Global,
    p: &Profile,
    task: &Task,
    workers: u32,
    slots: usize,
) -> Result<Bench, NoMemory>
    requires valid { IsValid p.now }
    requires frames { task.now.frames ≤ 65535 }
    requires slots { slots ≡ slots_for p.now task.now.frames }
    requires few { slots ≤ 2 ^ 28 }
    requires workers { (1 ≤ workers) × (workers ≤ 16) }
    ensures octets { IfOk result (λ b. b.octets.items ≡ sim_octets p.now task.now) }
    ensures total { IfOk result (λ b. b.total ≡ sum (counts_of p.now (sim_counts p.now task.now))) }
    ensures input { IfOk result (λ b. b.input.left ≡ sim_counts p.now task.now) }
    ensures receiver { IfOk result (λ b. (b.receiver.parameters ≡ p.now) × (b.receiver.fresh ≡ true)) }
    ensures frames { IfOk result (λ b. (b.frames.bytes ≡ []) × (b.frames.failing ≡ []) × (b.frames.faults ≡ 0)) }
    ensures room { IfOk result (λ b. b.frames.room ≡ slots / period_slots p.now * block_bits p.now.rate / 8 + 1) }
{
    let octets = random_octets(alloc, p, task)?;
    let counts = made_counts(alloc, p, task, &octets, slots)?;
    let total = total(&counts);
    let Ok(input) = SureSource::new(alloc, &counts, &[]) else {
        return Err(NoMemory);
    };
    let receiver = Receiver::new(alloc, p, workers)?;
    let Ok(frames) = MemSink::new(alloc, frames_room(p, slots), &[]) else {
        return Err(NoMemory);
    };
    Ok(Bench {
        octets,
        total,
        input,
        receiver,
        frames,
    })
}

/// Simulates a link: frames of random octets are sent, pulses are lost and noise is counted, and what the receiver
/// makes of the counts is compared with what was sent. The report gets the receiver's lines, and the output a line on
/// all of it.
///
/// The slots may be at most `limit`, 1 to 2^28, of one octet or of two. The words are decoded by 1 to 16 `workers` at
/// once, each of which passes the gate. The answer is the receiver's tally.
pub fn simulate<T: AllocGlobal + Threads + Sync, G: Gate, O: Sink, R: Sink>(
    rt: &T,
    gate: &G,
    p: &Profile,
    task: &Task,
    workers: u32,
    limit: u64,
    output: &mut O,
    report: &mut R,
) -> Result<Tally, SimFault>
    requires frames { task.now.frames ≤ 65535 }
    requires workers { (1 ≤ workers) × (workers ≤ 16) }
    requires limit { (1 ≤ limit) × (limit ≤ 2 ^ 28) }
    ensures answer { HasAnswer p.now (sim_counts p.now task.now) result }
    ensures long { IsErrOf result SimFault.TooLong ↔ (limit < slots_for p.now task.now.frames) }
    ensures report { HasReported R.written report.old report.new p.now (sim_counts p.now task.now) result }
    ensures output { HasSummed O.written output.old output.new (summary p.now task.now) result }
    ensures report_cause { HasReportCause (R.faults report.old) (R.faults report.new) result }
    ensures output_cause { HasWriteCause (O.faults output.old) (O.faults output.new) result }
    ensures report_stands { SinkStands R.faults R.mark report.old report.new }
    ensures output_stands { SinkStands O.faults O.mark output.old output.new }
{
    let slots = slot_count(p, task.frames);
    if slots > limit {
        return Err(SimFault::TooLong);
    }
    let Bench {
        octets,
        total,
        mut input,
        mut receiver,
        mut frames,
    } = make_bench(rt.alloc(), p, task, workers, slots as usize)?;
    let tally = receive_counts(rt, gate, &mut receiver, &mut input, &mut frames, report)?;
    let same = frames.bytes() == octets.as_slice();
    output.put(summary_line(task, &tally, same, slots, total).as_bytes())?;
    Ok(tally)
}
