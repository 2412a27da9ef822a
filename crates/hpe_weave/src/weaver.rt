// The channel interleaver.
ghost use Rattle.std.specs.Prelude.{◌≡◌, [], ◌∷◌, ◌++◌, length, IfOk};
ghost use Rattle.hpe_base.specs.ChannelInterleaver.{interleaved_channel};
ghost use Rattle.hpe_base.specs.Bits.{zeros};
ghost use Rattle.hpe_weave.specs.Weaving.{HasWoven};

use circular_buffer::HeapCircularBuffer;
use hpe_base::columns::place_after;
use hpe_base::{NoMemory, Profile};
use std::alloc::Global;
use std::marker::Model;

/// The channel interleaver, by which neighbouring symbols of a codeword are sent far apart: symbols come in the order
/// of the codewords, and leave in the order of the channel, one for one.
#[derive(Drop)]
pub struct Weaver {
    profile: Profile,
    /// The symbols that wait on each row but the first, which has no delay.
    rings: Vec<HeapCircularBuffer<u8>>,
    /// The row of the next push.
    turn: usize,
}

impl Model for Weaver {
    ghost use Rattle.hpe_weave.specs.Weaving.{Weaving};

    ghost Value = { Weaving };

    ghost use Rattle.hpe_weave.specs.WeaverView.{weaving, IsWeavingInside};

    ghost view = { weaving };

    ghost invariant = { IsWeavingInside };
}

/// A ring that is full of zeros.
fn filled(alloc: Global, capacity: usize) -> Result<HeapCircularBuffer<u8>, NoMemory>
    ensures capacity { IfOk result (λ ring. ring.capacity ≡ capacity) }
    ensures items { IfOk result (λ ring. ring.items ≡ zeros capacity) }
{
    let mut ring = HeapCircularBuffer::with_capacity(alloc, capacity).map_err(|_| NoMemory)?;
    for _ in 0..capacity {
        ring.push_back(0);
    }
    Ok(ring)
}

/// Puts a symbol into a full ring and takes out the one that waited longest.
fn through(ring: &mut HeapCircularBuffer<u8>, symbol: u8) -> u8
    requires { length ring.old.items ≡ ring.old.capacity }
    ensures items { result ∷ ring.new.items ≡ ring.old.items ++ symbol ∷ [] }
    ensures capacity { ring.new.capacity ≡ ring.old.capacity }
{
    match ring.push_back(symbol) {
        Some(symbol) => symbol,
        None => unreachable!(),
    }
}

impl Weaver {
    /// The interleaver of a profile before its first symbol, with symbol 0 in each place that waits. It takes all the
    /// memory that its pushes need, an octet for each symbol that waits: half the interleaver's depth. The error is
    /// that there is too little.
    pub fn new(alloc: Global, p: &Profile) -> Result<Weaver, NoMemory>
        ensures profile { IfOk result (λ weaver. weaver.parameters ≡ p.now) }
        ensures stands { IfOk result (λ weaver. HasWoven weaver []) }
    {
        let rows = p.rows();
        let delay = p.delay();
        let mut rings = Vec::with_capacity(alloc, rows).map_err(|_| NoMemory)?;
        for row in 1..rows {
            let ring = filled(alloc, row * delay)?;
            rings.push(ring).map_err(|_| NoMemory)?;
        }
        Ok(Weaver {
            profile: p.copy(),
            rings,
            turn: 0,
        })
    }

    /// Takes the next symbol of the codewords, or of the flush after them, and gives the next one to be sent: of the
    /// same row, this symbol itself or an earlier one, and symbol 0 while no symbol has waited long enough.
    pub fn push(&mut self, symbol: u8) -> u8
        ensures profile { self.new.parameters ≡ self.old.parameters }
        ensures stands { (pushed : _) → HasWoven self.old pushed → HasWoven self.new (pushed ++ symbol ∷ []) }
        ensures answer { (pushed : _) → HasWoven self.old pushed
            → interleaved_channel self.old.parameters (pushed ++ symbol ∷ [])
            ≡ interleaved_channel self.old.parameters pushed ++ result ∷ [] }
    {
        let row = self.turn;
        self.turn = place_after(row, self.rings.len() + 1);
        if row == 0 {
            symbol
        } else {
            through(&mut self.rings[row - 1], symbol)
        }
    }
}
