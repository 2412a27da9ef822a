//! The marker search as counts come: they are kept until every offset below a period can be scored, and what is answered
//! then is the answer of every stream that begins so.
ghost use Rattle.std.specs.Prelude.{◌≡◌, ◌≤◌, ◌<◌, ◌+◌, ◌-◌, ◌++◌, [], ℕ, List, length, IfOk};
ghost use Rattle.hpe_base.specs.Parameters.{IsValid};
ghost use Rattle.hpe_base.specs.MarkerSearch.{offset_of};
ghost use Rattle.hpe_find.specs.Finding.{finder_room};
ghost use Rattle.hpe_find.specs.Found.{found_of};

use crate::search::best_offset;
use hpe_base::{NoMemory, Profile, geometry};
use std::alloc::Global;
use std::marker::Model;

/// What is known of the offset of a stream, the slot at which its first codeword marker begins.
#[derive(Clone, Copy, Debug, PartialEq, Eq)]
pub enum Found {
    /// More counts are needed.
    Need,
    /// The offset in slots, below a period, and its score: the sum of the counts at the marker's pulses.
    At { offset: u64, score: u64 },
    /// No offset has a count at the marker's pulses.
    Dark,
    /// The stream is shorter than a period.
    Short,
}

/// Keeps the first counts of a stream and finds its offset.
///
/// The counts that it has room for settle the offset of every stream that begins with them.
#[derive(Drop)]
pub struct Finder {
    profile: Profile,
    counts: Vec<u16>,
}

impl Model for Finder {
    ghost use Rattle.hpe_find.specs.Finding.{Finding};

    ghost Value = { Finding };

    ghost use Rattle.hpe_find.specs.FinderView.{finding, IsFindingInside};

    ghost view = { finding };

    ghost invariant = { IsFindingInside };
}

/// The counts that a finder keeps: those of the periods that are searched, and one marker more.
fn room_for(p: &Profile) -> usize
    ensures value { result ≡ finder_room p.now }
    ensures valid { IsValid p.now }
{
    let measures = geometry(p);
    p.search() * measures.period + measures.marker_slots
}

/// The offset of a whole stream.
fn offset_found(p: &Profile, counts: &[u16]) -> Found
    ensures { result ≡ found_of (offset_of p.now counts.now) }
{
    if counts.len() < geometry(p).period {
        return Found::Short;
    }
    let best = best_offset(p, counts);
    if best.score == 0 {
        return Found::Dark;
    }
    Found::At {
        offset: best.offset as u64,
        score: best.score as u64,
    }
}

impl Finder {
    /// A finder that was fed nothing. It takes all its memory here, two octets for each count that it has room for. The
    /// error is that there is too little.
    pub fn new(alloc: Global, p: &Profile) -> Result<Finder, NoMemory>
        ensures parameters { IfOk result (λ finder. finder.parameters ≡ p.now) }
        ensures counts { IfOk result (λ finder. finder.counts ≡ []) }
    {
        let Ok(counts) = Vec::with_capacity(alloc, room_for(p)) else {
            return Err(NoMemory);
        };
        Ok(Finder {
            profile: p.copy(),
            counts,
        })
    }

    /// How many more counts can be fed: with none left, [`Finder::look`] finds the offset.
    pub fn room(&self) -> usize
        ensures value { result ≡ finder_room self.now.parameters - length self.now.counts }
        ensures within { length self.now.counts ≤ finder_room self.now.parameters }
        ensures valid { IsValid self.now.parameters }
    {
        room_for(&self.profile) - self.counts.len()
    }

    /// Takes the next counts of the stream, at most as many as there is room for.
    pub fn feed(&mut self, counts: &[u16])
        requires { length self.old.counts + length counts.now ≤ finder_room self.old.parameters }
        ensures { self.new ≡ record self.old { counts = self.old.counts ++ counts.now } }
    {
        match self.counts.extend_from_slice(counts) {
            Ok(()) => {}
            Err(_) => unreachable!(),
        }
    }

    /// The counts that were fed, from the first slot of the stream on.
    pub fn counts(&self) -> &[u16]
        ensures { result.now ≡ self.now.counts }
    {
        self.counts.as_slice()
    }

    /// The offset of the counts that were fed, taken as the whole stream.
    pub fn finish(&self) -> Found
        ensures { result ≡ found_of (offset_of self.now.parameters self.now.counts) }
    {
        offset_found(&self.profile, self.counts.as_slice())
    }

    /// The offset of every stream that begins with the counts that were fed, once there is no room for more.
    pub fn look(&self) -> Found
        ensures need { length self.now.counts < finder_room self.now.parameters → result ≡ Found.Need }
        ensures found { length self.now.counts ≡ finder_room self.now.parameters → (rest : List ℕ)
            → result ≡ found_of (offset_of self.now.parameters (self.now.counts ++ rest)) }
    {
        if self.room() > 0 {
            return Found::Need;
        }
        self.finish()
    }
}
