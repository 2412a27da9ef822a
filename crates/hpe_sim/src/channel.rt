//! The two generators of a simulation: one makes the frames that are sent, the other loses pulses and adds noise.
//!
//! The first gives a word for each octet of the frames and the second one for each slot, guard slots included, so that
//! what is simulated follows from the task and the profile alone. A word depends on the one before it, so both go one
//! by one.
ghost use Rattle.std.specs.Prelude.{◌≡◌, ◌≤◌, ◌<◌, ◌+◌, ◌*◌, ◌^◌, ◌++◌, IfOk, length, sum, vec_capacity, vec_len};
ghost use Rattle.hpe_base.specs.Counts.{counts_of, low_octet};
ghost use Rattle.hpe_base.specs.Lists.{tabulate};
ghost use Rattle.hpe_sim.specs.Simulated.{channel_counts, count_octets_of, count_of, sim_octets};

use crate::task::Task;
use hpe_base::{NoMemory, Profile};
use rand_core::utils::NextWord;
use rand_pcg::Lcg64Xsh32;
use std::alloc::Global;

/// The stream of the generator that makes the frames.
const FRAME_STREAM: u64 = 1;

/// The stream of the generator that loses pulses and adds noise.
const CHANNEL_STREAM: u64 = 2;

/// The octets of the frames.
pub(crate) fn random_octets(alloc: Global, p: &Profile, task: &Task) -> Result<Vec<u8>, NoMemory>
    requires { task.now.frames ≤ 65535 }
    ensures { IfOk result (λ v. v.items ≡ sim_octets p.now task.now) }
{
    let size = task.frames as usize * p.frame_octets();
    let Ok(mut octets) = Vec::with_capacity(alloc, size) else {
        return Err(NoMemory);
    };
    let mut words = Lcg64Xsh32::new(task.seed, FRAME_STREAM);
    for _ in 0..size {
        octets.push_reserved((words.next_word() % 256) as u8);
    }
    Ok(octets)
}

/// The count of a slot by a word of 32 bits.
fn count(task: &Task, slot: u8, word: u32) -> u8
    ensures { result ≡ count_of task.now slot word }
{
    let pulse = slot == 1 && (word % 65_536) as u16 >= task.lost;
    let noise = ((word / 65_536) as u16) < task.noise;
    pulse as u8 + noise as u8
}

/// Appends a count as `width` octets, of which the last carries it.
fn push_count(counts: &mut Vec<u8>, width: usize, count: u8)
    requires width { (1 ≤ width) × (width ≤ 2) }
    requires room { vec_len counts.old + width ≤ vec_capacity counts.old }
    ensures items { counts.new.items ≡ counts.old.items ++ tabulate width (low_octet width (λ _. count)) }
    ensures len { vec_len counts.new ≡ vec_len counts.old + width }
    ensures room { vec_capacity counts.new ≡ vec_capacity counts.old }
{
    if width == 1 {
        counts.push_reserved(count);
    } else {
        counts.push_reserved(0);
        counts.push_reserved(count);
    }
}

/// The counts of slots, as octets like the slots themselves.
pub(crate) fn counts(
    alloc: Global,
    p: &Profile,
    task: &Task,
    slots: &[u8],
) -> Result<Vec<u8>, NoMemory>
    requires { slots.now ≡ count_octets_of p.now (counts_of p.now slots.now) }
    ensures { IfOk result (λ v. v.items ≡ count_octets_of p.now (channel_counts task.now (counts_of p.now slots.now))) }
{
    let width = p.count_octets();
    let Ok(mut counts) = Vec::with_capacity(alloc, slots.len()) else {
        return Err(NoMemory);
    };
    let mut words = Lcg64Xsh32::new(task.seed, CHANNEL_STREAM);
    for i in 0..slots.len() / width {
        let slot = slots[width * i + (width - 1)];
        push_count(&mut counts, width, count(task, slot, words.next_word()));
    }
    Ok(counts)
}

/// The sum of counts, which is that of their octets where no count is above 255.
pub(crate) fn total(counts: &[u8]) -> u64
    requires { length counts.now ≤ 2 ^ 29 }
    ensures { result ≡ sum counts.now }
{
    let mut total = 0;
    for count in counts {
        total += *count as u64;
    }
    total
}
