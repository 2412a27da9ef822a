//! Frames to slots, in memory.
ghost use Rattle.std.specs.Prelude.{◌≡◌, ◌%◌, IfErr, IfOk, OnOk, length};
ghost use Rattle.hpe_base.specs.Slots.{slots_of};
ghost use Rattle.hpe_uses.specs.Causes.{IsSendCause};

use crate::fault::{LIMIT, UseFault};
use hpe_base::Profile;
use hpe_io::{MemSink, SureSource};
use hpe_send::Sender;
use std::alloc::Global;

/// The octets of the slots of transfer frames, in memory.
///
/// `frames` has up to 2^40 octets, and the slots have room for `room` octets. Where there is memory, a fault says that
/// the last frame is not whole, that the frames are too many, or that their slots are.
pub fn sent_slots(
    alloc: Global,
    p: &Profile,
    frames: &[u8],
    room: usize,
) -> Result<MemSink, UseFault>
    ensures slots { IfOk result (λ s. s.bytes ≡ slots_of p.now frames.now) }
    ensures whole { OnOk result (length frames.now % p.now.frame_octets ≡ 0) }
    ensures cause { IfErr result (IsSendCause p.now frames.now room) }
{
    let sender = Sender::new(alloc, p)?;
    let mut input = SureSource::new(alloc, frames, &[])?;
    let mut output = MemSink::new(alloc, room, &[])?;
    sender.send(LIMIT, &mut input, &mut output)?;
    Ok(output)
}
