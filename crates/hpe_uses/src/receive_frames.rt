//! Counts to frames and a report, in memory.
ghost use Rattle.std.specs.Prelude.{◌≡◌, ◌≢◌, ◌≤◌, IfErr, IfOk, OnOk};
ghost use Rattle.hpe_base.specs.Counts.{counts_of};
ghost use Rattle.hpe_base.specs.Decoded.{decoded, report_of, tally_of};
ghost use Rattle.hpe_base.specs.MarkerSearch.{Dark, offset_of};
ghost use Rattle.hpe_recv.specs.Receiving.{tallied};
ghost use Rattle.hpe_uses.specs.Causes.{IsReceiveCause};

use crate::fault::{LIMIT, UseFault};
use hpe_base::Profile;
use hpe_io::{MemSink, SureSource};
use hpe_recv::{OpenGate, Receiver, Tally};
use std::alloc::AllocGlobal;
use std::thread::Threads;

/// What was received.
#[derive(Drop)]
pub struct Received {
    /// The octets of the frames that were delivered.
    pub frames: MemSink,
    /// A line for each word, and one for the tally.
    pub report: MemSink,
    pub tally: Tally,
}

/// The transfer frames of the octets of counts, and the report on their words, in memory.
///
/// `counts` has up to 2^40 octets, and frames and report have room for `room` octets each. The words are decoded by 1
/// to 16 `workers` at once. Where there is memory, a fault says that the counts are dark or too many, or that there is
/// more of the frames or of the report.
pub fn received_frames<T: AllocGlobal + Threads + Sync>(
    rt: &T,
    p: &Profile,
    workers: u32,
    counts: &[u8],
    room: usize,
) -> Result<Received, UseFault>
    requires workers { (1 ≤ workers) × (workers ≤ 16) }
    ensures frames { IfOk result (λ r. r.frames.bytes ≡ decoded p.now counts.now) }
    ensures report { IfOk result (λ r. r.report.bytes ≡ report_of p.now counts.now) }
    ensures tally { IfOk result (λ r. tallied r.tally ≡ tally_of p.now counts.now) }
    ensures marker { OnOk result (offset_of p.now (counts_of p.now counts.now) ≢ Dark) }
    ensures cause { IfErr result (IsReceiveCause p.now counts.now room) }
{
    let mut receiver = Receiver::new(rt.alloc(), p, workers)?;
    let mut input = SureSource::new(rt.alloc(), counts, &[])?;
    let mut frames = MemSink::new(rt.alloc(), room, &[])?;
    let mut report = MemSink::new(rt.alloc(), room, &[])?;
    let tally = receiver.receive(rt, &OpenGate, LIMIT, &mut input, &mut frames, &mut report)?;
    Ok(Received {
        frames,
        report,
        tally,
    })
}
