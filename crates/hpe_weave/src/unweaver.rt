// The inverse of the channel interleaver.
ghost use Rattle.std.specs.Prelude.{◌≡◌, ◌≤◌, ◌+◌, ◌*◌, ◌/◌, ◌↔◌, [], ◌∷◌, ◌++◌, length, IfOk, IsTrue, false, if◌then◌else◌, min, take, drop};
ghost use Rattle.hpe_base.specs.ChannelInterleaver.{deinterleaved_channel};
ghost use Rattle.hpe_base.specs.Parameters.{positions, interleaver_depth};
ghost use Rattle.circular_buffer.specs.Buffer.{buffer, keep_last};
ghost use Rattle.hpe_weave.specs.Unweaving.{HasUnwoven, held_after, waiting_in};

use circular_buffer::HeapCircularBuffer;
use hpe_base::columns::place_after;
use hpe_base::{NoMemory, Profile};
use std::alloc::Global;
use std::marker::Model;

/// The inverse of the channel interleaver. A received symbol is a row of slot sums, one for each pulse position; rows
/// come in the order of the channel, and leave in the order of the codewords, once the interleaver's depth of them has
/// come.
#[derive(Drop)]
pub struct Unweaver {
    profile: Profile,
    /// The sums that wait on each row of the interleaver but the last, which has no delay here.
    rings: Vec<HeapCircularBuffer<u16>>,
    /// The interleaver's row of the next push.
    turn: usize,
    /// The pushes that still give nothing.
    wait: usize,
}

impl Model for Unweaver {
    ghost use Rattle.hpe_weave.specs.Unweaving.{Unweaving};

    ghost Value = { Unweaving };

    ghost use Rattle.hpe_weave.specs.UnweaverView.{unweaving, IsUnweavingInside};

    ghost view = { unweaving };

    ghost invariant = { IsUnweavingInside };
}

/// A ring with nothing in it.
fn empty(alloc: Global, capacity: usize) -> Result<HeapCircularBuffer<u16>, NoMemory>
    ensures { IfOk result (λ ring. ring ≡ buffer [] capacity) }
{
    HeapCircularBuffer::with_capacity(alloc, capacity).map_err(|_| NoMemory)
}

/// Takes the sums that waited longest out of a ring, where they are due, and puts new ones in.
fn pass(ring: &mut HeapCircularBuffer<u16>, due: bool, counts: &[u16], out: &mut [u16])
    ensures items { ring.new
        ≡ buffer (keep_last ring.old.capacity ((if due then drop (length out.old) ring.old.items else ring.old.items)
        ++ counts.now)) ring.old.capacity }
    ensures out { out.new
        ≡ (if due then take (length out.old) ring.old.items
        ++ drop (min (length out.old) (length ring.old.items)) out.old else out.old) }
{
    if due {
        ring.read_into(out);
    }
    ring.extend_from_slice(counts);
}

impl Unweaver {
    /// The inverse for a profile before its first row, with empty rings. It takes all the memory that its pushes need,
    /// two octets for each sum that can wait: the positions of a symbol times half the interleaver's depth. The error
    /// is that there is too little.
    pub fn new(alloc: Global, p: &Profile) -> Result<Unweaver, NoMemory>
        ensures profile { IfOk result (λ unweaver. unweaver.parameters ≡ p.now) }
        ensures stands { IfOk result (λ unweaver. HasUnwoven unweaver []) }
    {
        let rows = p.rows();
        let delay = p.delay();
        let sums = p.order().slots();
        let mut rings = Vec::with_capacity(alloc, rows).map_err(|_| NoMemory)?;
        for row in 1..rows {
            let ring = empty(alloc, (rows - row) * delay * sums)?;
            rings.push(ring).map_err(|_| NoMemory)?;
        }
        Ok(Unweaver {
            profile: p.copy(),
            rings,
            turn: 0,
            wait: rows * (rows - 1) * delay,
        })
    }

    /// Takes the next row in the order of the channel and gives the next one in the order of the codewords, where one
    /// is due. `counts` has the sums of the received symbol, one for each pulse position; `out`, of the same length,
    /// is where the sums of the other go, and the answer says whether they did.
    pub fn push(&mut self, counts: &[u16], out: &mut [u16]) -> bool
        requires counts { length counts.now ≡ positions self.old.parameters.order }
        requires out { length out.old ≡ positions self.old.parameters.order }
        ensures profile { self.new.parameters ≡ self.old.parameters }
        ensures stands { (pushed : _) → HasUnwoven self.old pushed → HasUnwoven self.new (pushed ++ counts.now ∷ []) }
        ensures due { (pushed : _) → HasUnwoven self.old pushed
            → (IsTrue result ↔ (interleaver_depth self.old.parameters ≤ length pushed)) }
        ensures rows { (pushed : _) → HasUnwoven self.old pushed
            → deinterleaved_channel self.old.parameters [] (pushed ++ counts.now ∷ [])
            ≡ deinterleaved_channel self.old.parameters [] pushed ++ (if result then out.new ∷ [] else []) }
        ensures kept { result ≡ false → out.new ≡ out.old }
    {
        let row = self.turn;
        self.turn = place_after(row, self.rings.len() + 1);
        let due = self.wait == 0;
        self.wait = self.wait.saturating_sub(1);
        if row < self.rings.len() {
            pass(&mut self.rings[row], due, counts, out);
        } else if due {
            out.copy_from_slice(counts);
        }
        due
    }

    /// The number of slot sums that wait in the rings.
    pub fn held(&self) -> u64
        ensures rings { result ≡ waiting_in self.now }
        ensures value { (pushed : _) → HasUnwoven self.now pushed
            → result ≡ held_after self.now.parameters (length pushed) }
        ensures most { (pushed : _) → HasUnwoven self.now pushed
            → result ≤ positions self.now.parameters.order * interleaver_depth self.now.parameters / 2 }
    {
        let mut sums = 0;
        for ring in &self.rings {
            sums += ring.len() as u64;
        }
        sums
    }
}
