ghost use Rattle.std.specs.Prelude.{◌≡◌};

use crate::{Crew, Gate, OpenGate};
use hpe_base::{Fields, Profile};
use hpe_turn::Verdict;
use std::alloc::Global;
use std::hint::spin_loop;
use std::process::Abort;
use std::sync::atomic::{AtomicBool, AtomicU32, Ordering};
use std::test::Fail;

/// Each of two jobs sets its own flag and looks for the other's.
#[derive(Drop)]
struct Meeting {
    here: [AtomicBool; 2],
    seen: [AtomicBool; 2],
}

impl Gate for Meeting {
    fn pass(&self, job: u32) {
        let me = job as usize;
        if me > 1 {
            return;
        }
        self.here[me].store(true, Ordering::SeqCst);
        for _ in 0..1u32 << 28 {
            if self.here[1 - me].load(Ordering::SeqCst) {
                self.seen[me].store(true, Ordering::SeqCst);
                return;
            }
            spin_loop();
        }
    }
}

/// Counts the calls for each job.
#[derive(Drop)]
struct Roll {
    calls: [AtomicU32; 16],
}

impl Gate for Roll {
    fn pass(&self, job: u32) {
        if job < 16 {
            self.calls[job as usize].fetch_add(1, Ordering::SeqCst);
        }
    }
}

/// The built-in profile with one round, in which a dark word is lost as in sixteen.
fn one_round() -> Result<Profile, Fail> {
    Ok(Profile::new(&Fields {
        rounds: 1,
        ..Fields::basic()
    })?)
}

/// A crew that is full of dark words.
fn dark_crew<R: Abort>(rt: &R, alloc: Global, p: &Profile, workers: u32) -> Result<Crew, Fail> {
    assert!(rt; 1 <= workers && workers <= 16);
    let mut crew = Crew::new(alloc, p, workers)?;
    let dark = vec![in alloc; 0u16; p.order().symbols() * p.order().slots()]?;
    for _ in 0..workers {
        if !crew.full() {
            load(rt, p, &mut crew, &dark);
        }
    }
    Ok(crew)
}

/// Loads a word.
fn load<R: Abort>(rt: &R, p: &Profile, crew: &mut Crew, sums: &[u16])
    requires { crew.old.parameters ≡ p.now }
    ensures { crew.new.parameters ≡ p.now }
{
    assert!(rt; !crew.full());
    assert!(rt; sums.len() == p.order().symbols() * p.order().slots());
    assert!(rt; sums.iter().all(|sum| *sum <= 16_383));
    crew.load(sums);
}

#[test]
fn two_jobs_run_side_by_side(rt: HostRuntime) -> Result<(), Fail> {
    let mut crew = dark_crew(&rt, rt.alloc(), &one_round()?, 2)?;
    let gate = Meeting {
        here: [AtomicBool::new(false), AtomicBool::new(false)],
        seen: [AtomicBool::new(false), AtomicBool::new(false)],
    };
    assert!(rt; crew.loaded() == 2);
    crew.decode_all(&rt, &gate);
    assert!(rt; gate.seen[0].load(Ordering::SeqCst) && gate.seen[1].load(Ordering::SeqCst));
    Ok(())
}

#[test]
fn each_job_passes_once(rt: HostRuntime) -> Result<(), Fail> {
    let mut crew = dark_crew(&rt, rt.alloc(), &one_round()?, 16)?;
    let gate = Roll {
        calls: [
            AtomicU32::new(0),
            AtomicU32::new(0),
            AtomicU32::new(0),
            AtomicU32::new(0),
            AtomicU32::new(0),
            AtomicU32::new(0),
            AtomicU32::new(0),
            AtomicU32::new(0),
            AtomicU32::new(0),
            AtomicU32::new(0),
            AtomicU32::new(0),
            AtomicU32::new(0),
            AtomicU32::new(0),
            AtomicU32::new(0),
            AtomicU32::new(0),
            AtomicU32::new(0),
        ],
    };
    assert!(rt; crew.loaded() == 16 && crew.full());
    crew.decode_all(&rt, &gate);
    for i in 0..16 {
        assert_eq!(rt; gate.calls[i].load(Ordering::SeqCst), 1);
        assert!(rt; (i as u32) < crew.loaded());
        assert!(rt; crew.verdict(i as u32) == Verdict::Lost);
    }
    crew.clear();
    assert!(rt; crew.loaded() == 0 && !crew.full());
    Ok(())
}
