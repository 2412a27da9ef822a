//! The frames in blocks that come one at a time. Only the bits that are still to be scanned are kept: less than a span
//! and one block.
ghost use Rattle.std.specs.Prelude.{◌≡◌, ◌≤◌, ◌<◌, ◌+◌, ◌^◌, ◌-◌, ◌++◌, ◌∷◌, [], length, drop, IfOk, IfSome, OnErr, OnOk, false, option_copied, is_err, vec_len, vec_capacity};
ghost use Rattle.std.specs.List.{flat_map};
ghost use Rattle.std.specs.Io.KnownBytes.{append_known};
ghost use Rattle.hpe_base.specs.Parameters.{block_bits};
ghost use Rattle.hpe_base.specs.FrameScan.{scan_from, span_bits, block_marks, delivered_frames, delivered};
ghost use Rattle.hpe_io.specs.Devices.{Puts};
ghost use Rattle.hpe_io.specs.Standing.{SinkAnswers};
ghost use Rattle.hpe_frame.specs.Looking.{StandsAt};
ghost use Rattle.hpe_frame.specs.Scanning.{HasScanned, newly};

use crate::span::{Look, UNKNOWN, fill_octets, look_at};
use hpe_base::{FRAME_MARKER_BITS, Profile};
use hpe_io::{Failed, NoMemory, Sink};
use std::alloc::Global;
use std::marker::Model;

/// Where a scan stands: its place in the bits, whether that is on the grid of frames, and the frames delivered so far.
#[derive(Clone, Copy)]
struct Run {
    at: usize,
    grid: bool,
    delivered: u32,
}

/// Scans bits to the last whole span, puts the frames that are delivered, and answers where the scan stands then.
/// `octets` is room for a frame.
fn scan_on<O: Sink>(
    p: &Profile,
    bits: &[u8],
    grid: bool,
    octets: &mut [u8],
    out: &mut O,
) -> Result<Run, Failed>
    requires size { length bits.now < 2 ^ 30 }
    requires octets { length octets.old ≡ p.now.frame_octets }
    ensures octets { length octets.new ≡ length octets.old }
    ensures within { IfOk result (λ run. (run.at ≤ length bits.now) × (length bits.now < run.at + span_bits p.now)) }
    ensures few { IfOk result (λ run. run.delivered ≤ run.at) }
    ensures run { let end = scan_from p.now bits.now (record { grid = grid; place = 0; frames = [] }) in
        IfOk result (λ run. StandsAt run.at run.grid run.delivered end) }
    ensures bytes { let end = scan_from p.now bits.now (record { grid = grid; place = 0; frames = [] }) in
        Puts (O.written out.old) (O.written out.new) result (flat_map (λ frame. frame) end.frames) }
    ensures sink { SinkAnswers O.faults O.mark out.old out.new result }
{
    let span = p.span_bits();
    let mut run = Run {
        at: 0,
        grid,
        delivered: 0,
    };
    while bits.len() - run.at >= span {
        let window = &bits[run.at..run.at + span];
        match look_at(p, run.grid, window) {
            Look::Frame => {
                fill_octets(&window[FRAME_MARKER_BITS..], octets);
                out.put(octets)?;
                run = Run {
                    at: run.at + span,
                    grid: true,
                    delivered: run.delivered + 1,
                };
            }
            Look::Gap => {
                run.at += span;
                run.grid = true;
            }
            Look::Other => {
                run.at += 1;
                run.grid = false;
            }
        }
    }
    Ok(run)
}

/// Appends the bits of a block, or as many unknown ones.
fn append_block(held: &mut Vec<u8>, known: Option<&[u8]>, size: usize)
    requires room { vec_len held.old + size ≤ vec_capacity held.old }
    requires size { IfSome (option_copied known) (λ bits. length bits ≡ size) }
    ensures items { held.new.items ≡ held.old.items ++ block_marks size (option_copied known.entry) }
    ensures capacity { vec_capacity held.old ≤ vec_capacity held.new }
{
    match known {
        Some(bits) => match held.extend_from_slice(bits) {
            Ok(()) => {}
            Err(_) => unreachable!(),
        },
        None => match held.resize(held.len() + size, UNKNOWN) {
            Ok(()) => {}
            Err(_) => unreachable!(),
        },
    }
}

/// Removes the first bits.
fn remove_front(held: &mut Vec<u8>, count: usize)
    requires { count ≤ vec_len held.old }
    ensures items { held.new.items ≡ drop count held.old.items }
    ensures capacity { vec_capacity held.old ≤ vec_capacity held.new }
{
    let rest = held.len() - count;
    held.copy_within(count.., 0);
    held.truncate(rest);
}

/// The last stage of the receiver: it takes the information blocks of the words, of which some are lost, and puts the
/// transfer frames that it finds in them.
///
/// It searches for the frame marker bit by bit until it finds a frame, and then goes on by whole frames, over lost blocks
/// too. It searches again where bits that are known have no marker at the place of one. A frame is delivered once all
/// bits of its marker and its octets are known, and its octets are put without the marker, in one piece.
#[derive(Drop)]
pub struct FrameScan {
    profile: Profile,
    held: Vec<u8>,
    octets: Vec<u8>,
    grid: bool,
    frames: u64,
    /// The number of blocks, which only the contracts read: it bounds the number of frames.
    blocks: u64,
    spent: bool,
}

impl Model for FrameScan {
    ghost use Rattle.hpe_frame.specs.Scanning.{Scanning};

    ghost Value = { Scanning };

    ghost use Rattle.hpe_frame.specs.ScanView.{scanning, IsScanning};

    ghost view = { scanning };

    ghost invariant = { IsScanning };
}

impl FrameScan {
    /// A scan that has no blocks yet. It takes all its memory here: room for a frame with its marker and one block in bits,
    /// one octet a bit, and for one frame in octets.
    pub fn new(alloc: Global, p: &Profile) -> Result<FrameScan, NoMemory>
        ensures profile { IfOk result (λ s. s.parameters ≡ p.now) }
        ensures stands { IfOk result (λ s. HasScanned s []) }
        ensures unspent { IfOk result (λ s. s.spent ≡ false) }
    {
        let Ok(held) = Vec::with_capacity(alloc, p.span_bits() + p.rate().block()) else {
            return Err(NoMemory);
        };
        let Ok(octets) = vec![in alloc; 0; p.frame_octets()] else {
            return Err(NoMemory);
        };
        Ok(FrameScan {
            profile: p.copy(),
            held,
            octets,
            grid: false,
            frames: 0,
            blocks: 0,
            spent: false,
        })
    }

    /// The number of frames that were put, those of a block that was answered with an error left out.
    pub fn frames(&self) -> u64
        ensures value { result ≡ self.now.frames }
        ensures law { (blocks : _) → HasScanned self.now blocks
            → result ≡ length (delivered_frames self.now.parameters blocks) }
    {
        self.frames
    }

    /// Whether a block was answered with an error: then the scan takes no more.
    pub fn spent(&self) -> bool
        ensures { result ≡ self.now.spent }
    {
        self.spent
    }

    /// Takes the bits of the next block, or `None` where it is lost, puts the frames that are now delivered, each in one
    /// piece, and answers their number.
    ///
    /// After `Failed`, which says that the sink had a fault, some front of their octets is put, none of them is counted,
    /// and the scan is spent.
    pub fn block<O: Sink>(&mut self, known: Option<&[u8]>, out: &mut O) -> Result<u32, Failed>
        requires unspent { self.old.spent ≡ false }
        requires few { self.old.blocks < 2 ^ 40 }
        requires size { IfSome (option_copied known) (λ bits. length bits ≡ block_bits self.old.parameters.rate) }
        ensures profile { self.new.parameters ≡ self.old.parameters }
        ensures stands { (blocks : _) → HasScanned self.old blocks
            → OnOk result (HasScanned self.new (blocks ++ option_copied known.entry ∷ [])) }
        ensures count { (blocks : _) → HasScanned self.old blocks
            → IfOk result (λ n. length (delivered_frames self.old.parameters (blocks ++ option_copied known.entry ∷ []))
            ≡ length (delivered_frames self.old.parameters blocks) + n) }
        ensures bytes { (blocks : _) → HasScanned self.old blocks
            → Puts (O.written out.old) (O.written out.new) result
            (newly self.old.parameters blocks (option_copied known.entry)) }
        ensures grows { (blocks : _) → delivered self.old.parameters (blocks ++ option_copied known.entry ∷ [])
            ≡ delivered self.old.parameters blocks ++ newly self.old.parameters blocks (option_copied known.entry) }
        // From the first block to this one: `start` is what had been written before.
        ensures written { (start : _) (blocks : _) → HasScanned self.old blocks
            → O.written out.old ≡ append_known start (delivered self.old.parameters blocks)
            → Puts start (O.written out.new) result (delivered self.old.parameters (blocks
            ++ option_copied known.entry ∷ [])) }
        ensures failed { OnErr result (self.new.frames ≡ self.old.frames) }
        ensures spent { self.new.spent ≡ is_err result }
        ensures blocks { self.new.blocks ≡ self.old.blocks + 1 }
        ensures sink { SinkAnswers O.faults O.mark out.old out.new result }
    {
        let size = self.profile.rate().block();
        append_block(&mut self.held, known, size);
        self.blocks += 1;
        match scan_on(
            &self.profile,
            self.held.as_slice(),
            self.grid,
            &mut self.octets,
            out,
        ) {
            Ok(run) => {
                self.grid = run.grid;
                self.frames += run.delivered as u64;
                remove_front(&mut self.held, run.at);
                Ok(run.delivered)
            }
            Err(failed) => {
                self.held.clear();
                self.spent = true;
                Err(failed)
            }
        }
    }
}
