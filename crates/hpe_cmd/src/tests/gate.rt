//! Words that are decoded side by side.

use super::{sound, thirty_frames, written_past, zeros};
use crate::ending::Status;
use hpe_recv::Gate;
use std::hint::spin_loop;
use std::sync::atomic::{AtomicBool, Ordering};
use std::test::Fail;

/// The report on five words that are kept.
const FIVE_KEPT: &str =
    "word 0 kept 1\nword 1 kept 1\nword 2 kept 1\nword 3 kept 1\nword 4 kept 1\nwords 5 kept 5 lost 0 frames 30 lead 0 tail 0\n";

/// A gate at which each of the first two jobs, when it first comes, sets its own flag and looks for the other's.
#[derive(Drop)]
struct Meeting {
    here: [AtomicBool; 2],
    seen: [AtomicBool; 2],
}

impl Gate for Meeting {
    fn pass(&self, job: u32) {
        let me = job as usize;
        if me > 1 {
            return;
        }
        if self.here[me].swap(true, Ordering::SeqCst) {
            return;
        }
        for _ in 0..1u32 << 28 {
            if self.here[1 - me].load(Ordering::SeqCst) {
                self.seen[me].store(true, Ordering::SeqCst);
                return;
            }
            spin_loop();
        }
    }
}

/// A gate at which no job was.
fn empty_gate() -> Meeting {
    Meeting {
        here: [AtomicBool::new(false), AtomicBool::new(false)],
        seen: [AtomicBool::new(false), AtomicBool::new(false)],
    }
}

#[test]
fn two_words_are_decoded_side_by_side(rt: HostRuntime) -> Result<(), Fail> {
    let slots = thirty_frames(&rt)?;
    let gate = empty_gate();
    let two = sound(&["hpe", "decode", "--workers", "2"]);
    let frames = written_past(&rt, &gate, &two, &slots, Status::Done, FIVE_KEPT)?;
    assert_eq!(rt; frames.as_slice(), zeros(rt.alloc(), 3_000)?.as_slice());
    assert!(rt; gate.seen[0].load(Ordering::SeqCst) && gate.seen[1].load(Ordering::SeqCst));
    Ok(())
}

#[test]
fn two_words_of_a_simulation_are_decoded_side_by_side(rt: HostRuntime) -> Result<(), Fail> {
    let gate = empty_gate();
    let two = sound(&["hpe", "simulate", "--frames", "30", "--workers", "2"]);
    let told = written_past(&rt, &gate, &two, &[], Status::Done, FIVE_KEPT)?;
    // each of the 5 x 3796 pulses counts
    let line = "seed 0 frames 30 words 5 kept 5 lost 0 back 30 same 1 slots 379600 counts 18980\n";
    assert!(rt; told.as_slice() == line.as_bytes());
    assert!(rt; gate.seen[0].load(Ordering::SeqCst) && gate.seen[1].load(Ordering::SeqCst));
    Ok(())
}
