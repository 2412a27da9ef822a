//! Frames to slots and counts to frames in memory, with room for all of them, so that nothing but memory and the report
//! can fail.
ghost use Rattle.std.specs.Prelude.{◌≡◌, ◌≤◌, ◌<◌, ◌*◌, ◌%◌, ◌^◌, ℕ, [], IfOk, IsErrOf, OnOk, length, take, true};
ghost use Rattle.hpe_base.specs.Decoded.{decoded};
ghost use Rattle.hpe_base.specs.Slots.{slots_of};
ghost use Rattle.hpe_io.specs.Standing.{SinkStands};
ghost use Rattle.hpe_sim.specs.Outcome.{HasAnswer, HasReportCause, HasReported};

use crate::simulation::SimFault;
use hpe_base::{NoMemory, Profile};
use hpe_io::{MemSink, Sink, SureSource};
use hpe_recv::{Gate, Receiver, RecvFault, Tally};
use hpe_send::{SendFault, Sender};
use std::alloc::Global;
use std::thread::Threads;

/// The most octets that a stream may have, which no simulation reaches.
const MOST_OCTETS: u64 = 1 << 40;

/// The octets of the slots of whole frames, of which there are `slots`.
pub(crate) fn sent_slots(
    alloc: Global,
    p: &Profile,
    octets: &[u8],
    slots: usize,
) -> Result<MemSink, NoMemory>
    requires octets { length octets.now ≤ 2 ^ 40 }
    requires whole { length octets.now % p.now.frame_octets ≡ 0 }
    requires slots { length (slots_of p.now octets.now) ≡ p.now.count_octets * slots }
    requires few { slots ≤ 2 ^ 28 }
    ensures { IfOk result (λ s. s.bytes ≡ slots_of p.now octets.now) }
{
    let width = p.count_octets();
    let sender = Sender::new(alloc, p)?;
    let Ok(mut input) = SureSource::new(alloc, octets, &[]) else {
        return Err(NoMemory);
    };
    let Ok(mut output) = MemSink::new(alloc, width * slots + 1, &[]) else {
        return Err(NoMemory);
    };
    let sent = sender.send(MOST_OCTETS, &mut input, &mut output);
    // it tells that a sink that has failed is full
    let _written = output.bytes();
    match sent {
        Ok(_) => Ok(output),
        Err(SendFault::Write) => unreachable!(),
        Err(SendFault::Read) => unreachable!(),
        Err(SendFault::TooLong) => unreachable!(),
        Err(SendFault::Ragged { .. }) => unreachable!(),
    }
}

/// The frames of the octets of counts, in a sink with room for more than all of them. The report gets the receiver's
/// lines.
pub(crate) fn receive_counts<T: Threads + Sync, G: Gate, R: Sink>(
    rt: &T,
    gate: &G,
    receiver: &mut Receiver,
    input: &mut SureSource,
    frames: &mut MemSink,
    report: &mut R,
) -> Result<Tally, SimFault>
    requires fresh { receiver.old.fresh ≡ true }
    requires few { length input.old.left ≤ 2 ^ 40 }
    requires frames { (frames.old.bytes ≡ []) × (frames.old.failing ≡ []) }
    requires room { (n : ℕ) → length (decoded receiver.old.parameters (take n input.old.left)) < frames.old.room }
    ensures answer { HasAnswer receiver.old.parameters input.old.left result }
    ensures frames { OnOk result (frames.new.bytes ≡ decoded receiver.old.parameters input.old.left) }
    ensures report { HasReported R.written report.old report.new receiver.old.parameters input.old.left result }
    ensures cause { HasReportCause (R.faults report.old) (R.faults report.new) result }
    ensures others { (IsErrOf result SimFault.Write → ⊥)
        × (IsErrOf result SimFault.TooLong → ⊥)
        × (IsErrOf result SimFault.NoMemory → ⊥) }
    ensures stands { SinkStands R.faults R.mark report.old report.new }
{
    let ended = receiver.receive(rt, gate, MOST_OCTETS, input, frames, report);
    // it tells that a sink that has failed is full
    let _written = frames.bytes();
    match ended {
        Ok(tally) => Ok(tally),
        Err(RecvFault::NoMarker { counts }) => Err(SimFault::NoMarker { counts }),
        Err(RecvFault::Report) => Err(SimFault::Report),
        Err(RecvFault::Write) => unreachable!(),
        Err(RecvFault::Read) => unreachable!(),
        Err(RecvFault::TooLong) => unreachable!(),
    }
}
