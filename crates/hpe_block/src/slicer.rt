// A bit stream in blocks. Only the bits of one block are kept, and lent once they are all there.
ghost use Rattle.std.specs.Prelude.{◌≡◌, ◌<◌, ◌+◌, ◌-◌, ◌/◌, ◌%◌, ◌↔◌, [], ◌∷◌, ◌++◌, length, IfOk, IsTrue, false};
ghost use Rattle.hpe_base.specs.Bits.{AreBits, zeros};
ghost use Rattle.hpe_base.specs.Parameters.{block_bits};
ghost use Rattle.hpe_base.specs.Slicer.{block_from};
ghost use Rattle.hpe_block.specs.Slicing.{HasSliced};

use hpe_base::{NoMemory, Profile};
use std::alloc::Global;
use std::marker::Model;

/// The slicer: it takes the bit stream of the frames bit by bit, and cuts it in information blocks.
///
/// A block has the bits that the profile's rate leaves for information. A completed block can be read until the next
/// bit is pushed.
#[derive(Drop)]
pub struct Slicer {
    profile: Profile,
    bits: Vec<u8>,
    used: usize,
}

impl Model for Slicer {
    ghost use Rattle.hpe_block.specs.Slicing.{Slicing};

    ghost Value = { Slicing };

    ghost use Rattle.hpe_block.specs.SlicerView.{slicing, IsSlicing};

    ghost view = { slicing };

    ghost invariant = { IsSlicing };
}

impl Slicer {
    /// A slicer that has no bits yet. It takes all its memory here: room for one block.
    pub fn new(alloc: Global, p: &Profile) -> Result<Slicer, NoMemory>
        ensures profile { IfOk result (λ s. s.parameters ≡ p.now) }
        ensures stands { IfOk result (λ s. HasSliced s []) }
    {
        let bits = vec![in alloc; 0; p.rate().block()].map_err(|_| NoMemory)?;
        Ok(Slicer {
            profile: p.copy(),
            bits,
            used: 0,
        })
    }

    /// Takes the next bit, and answers whether it completes a block.
    pub fn push(&mut self, bit: u8) -> bool
        requires { bit < 2 }
        ensures profile { self.new.parameters ≡ self.old.parameters }
        ensures whole { IsTrue result ↔ (length self.new.held ≡ block_bits self.new.parameters.rate) }
        ensures stands { (pushed : _) → HasSliced self.old pushed → HasSliced self.new (pushed ++ bit ∷ []) }
        ensures completes { (pushed : _) → HasSliced self.old pushed
            → (IsTrue result ↔ ((length pushed + 1) % block_bits self.old.parameters.rate ≡ 0)) }
    {
        let size = self.bits.len();
        let place = if self.used == size { 0 } else { self.used };
        self.bits[place] = bit;
        self.used = place + 1;
        place + 1 == size
    }

    /// Completes a block that is begun with zeros, and answers whether there was one: the last block of a stream. Where
    /// none is begun, nothing changes.
    pub fn pad(&mut self) -> bool
        ensures profile { self.new.parameters ≡ self.old.parameters }
        ensures begun { (pushed : _) → HasSliced self.old pushed
            → (IsTrue result ↔ (0 < length pushed % block_bits self.old.parameters.rate)) }
        ensures whole { IsTrue result → length self.new.held ≡ block_bits self.new.parameters.rate }
        ensures stands { (pushed : _) → HasSliced self.old pushed → IsTrue result
            → HasSliced self.new (pushed
            ++ zeros (block_bits self.old.parameters.rate - length pushed % block_bits self.old.parameters.rate)) }
        ensures unchanged { result ≡ false → self.new ≡ self.old }
    {
        let size = self.bits.len();
        let begun = self.used % size > 0; // neither before its first bit nor whole
        if begun {
            self.bits[self.used..].fill(0);
            self.used = size;
        }
        begun
    }

    /// The bits of the block just completed.
    pub fn block(&self) -> &[u8]
        requires { length self.now.held ≡ block_bits self.now.parameters.rate }
        ensures value { result.now ≡ self.now.held }
        ensures bits { AreBits result.now }
        ensures law { (pushed : _) → HasSliced self.now pushed
            → result.now ≡ block_from pushed (block_bits self.now.parameters.rate)
            (length pushed / block_bits self.now.parameters.rate - 1) }
    {
        &self.bits
    }
}
