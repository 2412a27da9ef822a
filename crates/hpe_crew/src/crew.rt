// The crew.
ghost use Rattle.std.specs.Prelude.{◌≡◌, ◌≤◌, ◌<◌, ◌+◌, ◌*◌, ◌++◌, ◌∷◌, ◌↔◌, [], ℕ, IsTrue, All, length, map, take, drop, slice_index_or, IfOk, Some, true, false};
ghost use Rattle.hpe_base.specs.Parameters.{clamp, positions, codeword_symbols, block_bits};
ghost use Rattle.hpe_base.specs.Decoded.{block_of, is_kept};
ghost use Rattle.hpe_crew.specs.Answering.{answer_of};
ghost use Rattle.hpe_crew.specs.Working.{answered};
ghost use Rattle.hpe_crew.specs.Crewing.{loaded_verdict};

use crate::gate::Gate;
use crate::job::Job;
use hpe_base::{NoMemory, Profile};
use hpe_turn::Verdict;
use std::alloc::Global;
use std::marker::Model;
use std::thread;
use std::thread::Threads;

/// Decoders for up to 16 words at the same time, each with a place of its own. The jobs share nothing that changes.
///
/// Words are loaded, decoded all at once, and asked for by the number of their load; then the crew is cleared for the
/// next ones. Contracts see the parameters, the workers, the sums of the loaded words, and whether these are decoded.
#[derive(Drop)]
pub struct Crew {
    profile: Profile,
    jobs: Vec<Job>,
    loaded: usize,
    decoded: bool,
}

impl Model for Crew {
    ghost use Rattle.hpe_crew.specs.Crewing.{Crewing};

    ghost Value = { Crewing };

    ghost use Rattle.hpe_crew.specs.CrewView.{crewing, IsCrew};

    ghost view = { crewing };

    ghost invariant = { IsCrew };
}

/// Decodes the word of each job, all at once.
fn decode_jobs<R: Threads + Sync, G: Gate>(rt: &R, gate: &G, jobs: &mut [Job], workers: usize)
    requires workers { (0 < workers) × (length jobs.old ≤ 16) }
    ensures len { length jobs.new ≡ length jobs.old }
    ensures each { (i : ℕ) (d : _) → i < length jobs.old
        → slice_index_or jobs.new i d ≡ answered (slice_index_or jobs.old i d) }
{
    thread::for_each_mut(
        rt,
        jobs,
        workers,
        &|i, job| {
            gate.pass(i as u32);
            job.decode();
        },
    );
}

/// Decodes the words of the first jobs.
fn decode_first<R: Threads + Sync, G: Gate>(
    rt: &R,
    gate: &G,
    jobs: &mut [Job],
    loaded: usize,
    workers: usize,
)
    requires { (0 < workers) × (length jobs.old ≤ 16) × (loaded ≤ length jobs.old) }
    ensures { jobs.new ≡ map answered (take loaded jobs.old) ++ drop loaded jobs.old }
{
    decode_jobs(rt, gate, &mut jobs[..loaded], workers);
}

impl Crew {
    /// A crew with no word. It takes the memory of all its places here, and the error is that there is too little.
    pub fn new(alloc: Global, p: &Profile, workers: u32) -> Result<Crew, NoMemory>
        requires { (1 ≤ workers) × (workers ≤ 16) }
        ensures profile { IfOk result (λ c. c.parameters ≡ p.now) }
        ensures workers { IfOk result (λ c. c.workers ≡ workers) }
        ensures loads { IfOk result (λ c. c.loads ≡ []) }
    {
        let Ok(mut jobs) = Vec::with_capacity(alloc, workers as usize) else {
            return Err(NoMemory);
        };
        for _ in 0..workers {
            let job = Job::new(alloc, p)?;
            match jobs.push(job) {
                Ok(()) => {}
                Err(_) => return Err(NoMemory),
            }
        }
        Ok(Crew {
            profile: p.copy(),
            jobs,
            loaded: 0,
            decoded: false,
        })
    }

    /// How many words are loaded.
    pub fn loaded(&self) -> u32
        ensures value { result ≡ length self.now.loads }
        ensures most { result ≤ self.now.workers }
        ensures few { result ≤ 16 }
    {
        self.loaded as u32
    }

    /// Whether there is no room for a further word.
    pub fn full(&self) -> bool
        ensures full { IsTrue result ↔ (length self.now.loads ≡ self.now.workers) }
        ensures room { result ≡ false → length self.now.loads < self.now.workers }
        ensures some { 1 ≤ self.now.workers }
    {
        self.loaded == self.jobs.len()
    }

    /// Loads the sums of a word, one for each pulse position of each symbol, at most 16,383.
    pub fn load(&mut self, counts: &[u16])
        requires room { length self.old.loads < self.old.workers }
        requires counts { length counts.now
            ≡ codeword_symbols self.old.parameters.order * positions self.old.parameters.order }
        requires most { All (λ c. c ≤ clamp) counts.now }
        ensures { self.new ≡ record self.old { loads = self.old.loads ++ counts.now ∷ []; decoded = false } }
    {
        self.jobs[self.loaded].load(counts);
        self.loaded += 1;
        self.decoded = false;
    }

    /// Decodes every loaded word, all at once. Each job passes the gate once, before it decodes.
    pub fn decode_all<R: Threads + Sync, G: Gate>(&mut self, rt: &R, gate: &G)
        ensures { self.new ≡ record self.old { decoded = true } }
    {
        let workers = self.jobs.len();
        decode_first(rt, gate, self.jobs.as_mut_slice(), self.loaded, workers);
        self.decoded = true;
    }

    /// The verdict on loaded word `i`, counted from 0.
    pub fn verdict(&self, i: u32) -> Verdict
        requires loaded { i < length self.now.loads }
        requires decoded { self.now.decoded ≡ true }
        ensures { result ≡ answer_of (loaded_verdict self.now i) }
    {
        match self.jobs[i as usize].verdict() {
            Some(verdict) => verdict,
            None => unreachable!(),
        }
    }

    /// The block of loaded word `i`, which is kept, in bits.
    pub fn block(&self, i: u32) -> &[u8]
        requires loaded { i < length self.now.loads }
        requires decoded { self.now.decoded ≡ true }
        requires kept { is_kept (loaded_verdict self.now i) ≡ true }
        ensures value { block_of (loaded_verdict self.now i) ≡ Some result.now }
        ensures size { length result.now ≡ block_bits self.now.parameters.rate }
    {
        self.jobs[i as usize].block()
    }

    /// Unloads all words.
    pub fn clear(&mut self)
        ensures { self.new ≡ record self.old { loads = [] } }
    {
        self.loaded = 0;
    }
}
