// Octets to the bits of marked frames. Only the octets of one frame are kept, and each bit is read from them.
ghost use Rattle.std.specs.Prelude.{◌≡◌, ◌<◌, ◌+◌, ◌*◌, ◌/◌, ◌-◌, ◌%◌, ◌↔◌, [], ◌∷◌, ◌++◌, length, IfOk, IsTrue, slice_index};
ghost use Rattle.hpe_base.specs.Frames.{frame_bits};
ghost use Rattle.hpe_frame.specs.Feeding.{HasFed, marked};

use hpe_base::bits::{OCTET_BITS, bit_of};
use hpe_base::{FRAME_MARKER_BITS, Profile};
use hpe_io::NoMemory;
use std::alloc::Global;
use std::marker::Model;

/// The first stage of the sender: it takes the octets of the input one by one, cuts them in transfer frames, and gives
/// the bits of each frame with the attached frame marker before it.
///
/// A frame has the profile's `frame_octets`. The bits of a completed frame can be read until the next octet is fed.
#[derive(Drop)]
pub struct FrameFeed {
    profile: Profile,
    octets: Vec<u8>,
    used: usize,
}

impl Model for FrameFeed {
    ghost use Rattle.hpe_frame.specs.Feeding.{Feeding};

    ghost Value = { Feeding };

    ghost use Rattle.hpe_frame.specs.FeedView.{feeding, IsFeeding};

    ghost view = { feeding };

    ghost invariant = { IsFeeding };
}

impl FrameFeed {
    /// A feed that has no octets yet. It takes all its memory here: room for one frame.
    pub fn new(alloc: Global, p: &Profile) -> Result<FrameFeed, NoMemory>
        ensures profile { IfOk result (λ f. f.parameters ≡ p.now) }
        ensures stands { IfOk result (λ f. HasFed f []) }
    {
        let octets = vec![in alloc; 0; p.frame_octets()].map_err(|_| NoMemory)?;
        Ok(FrameFeed {
            profile: p.copy(),
            octets,
            used: 0,
        })
    }

    /// Takes the next octet, and answers whether it completes a frame.
    pub fn feed(&mut self, octet: u8) -> bool
        ensures profile { self.new.parameters ≡ self.old.parameters }
        ensures stands { (fed : _) → HasFed self.old fed → HasFed self.new (fed ++ octet ∷ []) }
        ensures completes { (fed : _) → HasFed self.old fed
            → (IsTrue result ↔ ((length fed + 1) % self.old.parameters.frame_octets ≡ 0)) }
        ensures whole { IsTrue result ↔ (length self.new.held ≡ self.new.parameters.frame_octets) }
    {
        let size = self.octets.len();
        let place = if self.used == size { 0 } else { self.used };
        self.octets[place] = octet;
        self.used = place + 1;
        place + 1 == size
    }

    /// Bit `i` of the frame just completed with its marker: first the 32 bits of the marker, then the frame's octets,
    /// eight bits each, the most significant bit of the marker and of each octet first. It is 0 or 1.
    pub fn bit(&self, i: usize) -> u8
        requires whole { length self.now.held ≡ self.now.parameters.frame_octets }
        requires within { i < FRAME_MARKER_BITS + OCTET_BITS * self.now.parameters.frame_octets }
        ensures value { result ≡ slice_index (marked self.now) i }
        ensures law { (fed : _) → HasFed self.now fed
            → result
            ≡ slice_index (frame_bits self.now.parameters fed (length fed / self.now.parameters.frame_octets - 1)) i }
        ensures bit { result < 2 }
    {
        if i < FRAME_MARKER_BITS {
            return bit_of(self.profile.frame_marker(), FRAME_MARKER_BITS, i);
        }
        let place = i - FRAME_MARKER_BITS;
        let octet = self.octets[place / OCTET_BITS];
        bit_of(octet as u32, OCTET_BITS, place % OCTET_BITS)
    }

    /// The number of octets of the frame that is begun and not complete: 0 before the first octet and after the last one
    /// of a frame.
    pub fn rest(&self) -> u64
        ensures { (fed : _) → HasFed self.now fed → result ≡ length fed % self.now.parameters.frame_octets }
    {
        if self.used == self.octets.len() {
            0
        } else {
            self.used as u64
        }
    }
}
