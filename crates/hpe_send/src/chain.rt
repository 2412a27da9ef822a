//! The stages of the sender in a row: from the octets of transfer frames to slots. Each hands on what it has completed,
//! so that an octet goes as far as it can before the next is taken.
ghost use Rattle.std.specs.Prelude.{◌≡◌, ◌<◌, ◌+◌, ◌*◌, ◌/◌, ◌≤◌, ◌^◌, ◌%◌, ◌==◌, if◌then◌else◌, [], ◌∷◌, ◌++◌, length, IfOk, OnOk, OnErr};
ghost use Rattle.std.specs.Int.{div_ceil};
ghost use Rattle.std.specs.Io.KnownBytes.{append_known};
ghost use Rattle.hpe_base.specs.Codeword.{word_symbols};
ghost use Rattle.hpe_base.specs.Frames.{bit_stream};
ghost use Rattle.hpe_base.specs.Lists.{joined};
ghost use Rattle.hpe_base.specs.Parameters.{block_bits};
ghost use Rattle.hpe_base.specs.Slicer.{block_count};
ghost use Rattle.hpe_base.specs.Slots.{flush_words, slots_of, octets_to};
ghost use Rattle.hpe_frame.specs.Feeding.{marked};
ghost use Rattle.hpe_io.specs.Devices.{GrowsByFront};
ghost use Rattle.hpe_io.specs.Standing.{SinkAnswers};
ghost use Rattle.hpe_send.specs.Chaining.{HasPushed, HasTaken};
ghost use Rattle.hpe_send.specs.Coding.{HasCoded};
ghost use Rattle.hpe_send.specs.Streaming.{bit_slots};

use crate::coder::Coder;
use crate::sender::Sent;
use hpe_base::{NoMemory, Profile, geometry};
use hpe_block::Slicer;
use hpe_frame::FrameFeed;
use hpe_io::{Failed, Sink};
use std::alloc::Global;
use std::marker::Model;

/// The periods that flush the channel interleaver after so many codewords: none where there is none.
fn flush_periods(p: &Profile, words: u64) -> usize
    ensures { result ≡ (if words == 0 then 0 else flush_words p.now) }
{
    if words == 0 { 0 } else { geometry(p).flush }
}

/// The stages of the sender, each of which hands on what it has completed.
#[derive(Drop)]
pub struct Chain {
    feed: FrameFeed,
    slicer: Slicer,
    coder: Coder,
}

impl Model for Chain {
    ghost use Rattle.hpe_send.specs.Chaining.{Chaining};

    ghost Value = { Chaining };

    ghost use Rattle.hpe_send.specs.ChainView.{chaining, IsChaining};

    ghost view = { chaining };

    ghost invariant = { IsChaining };
}

impl Chain {
    /// The stages before the first octet. They take all their memory.
    pub fn new(alloc: Global, p: &Profile) -> Result<Chain, NoMemory>
        ensures profile { IfOk result (λ c. c.coder.parameters ≡ p.now) }
        ensures stands { IfOk result (λ c. (start : _) → HasTaken c [] start start) }
    {
        let Ok(feed) = FrameFeed::new(alloc, p) else {
            return Err(NoMemory);
        };
        let slicer = Slicer::new(alloc, p)?;
        let coder = Coder::new(alloc, p)?;
        Ok(Chain {
            feed,
            slicer,
            coder,
        })
    }

    /// What a stream of so many octets makes.
    pub fn sent(&self, octets: u64) -> Sent
        requires { octets ≤ 2 ^ 40 }
        ensures frames { result.frames ≡ octets / self.now.coder.parameters.frame_octets }
        ensures words { result.words ≡ div_ceil (result.frames * (32 + 8 * self.now.coder.parameters.frame_octets))
            (block_bits self.now.coder.parameters.rate) }
    {
        let p = self.coder.profile();
        let frames = octets / p.frame_octets() as u64;
        let words = (frames * p.span_bits() as u64).div_ceil(p.rate().block() as u64);
        Sent { frames, words }
    }

    /// Takes a bit, and sends the period of the block that it completes.
    fn push<O: Sink>(&mut self, bit: u8, output: &mut O) -> Result<(), Failed>
        requires { bit < 2 }
        ensures profile { self.new.coder.parameters ≡ self.old.coder.parameters }
        ensures feed { self.new.feed ≡ self.old.feed }
        ensures ok { (bits : _) (start : _) → HasPushed self.old bits start (O.written output.old)
            → OnOk result (HasPushed self.new (bits ++ bit ∷ []) start (O.written output.new)) }
        ensures cut { (bits : _) (start : _) → HasPushed self.old bits start (O.written output.old)
            → OnErr result (GrowsByFront start (O.written output.new)
            (bit_slots self.old.coder.parameters (bits ++ bit ∷ []))) }
        ensures output { SinkAnswers O.faults O.mark output.old output.new result }
    {
        if self.slicer.push(bit) {
            self.coder.send_block(self.slicer.block(), output)
        } else {
            Ok(())
        }
    }

    /// Takes the bits of the completed frame with its marker.
    fn push_frame<O: Sink>(&mut self, output: &mut O) -> Result<(), Failed>
        requires { length self.old.feed.held ≡ self.old.feed.parameters.frame_octets }
        ensures profile { self.new.coder.parameters ≡ self.old.coder.parameters }
        ensures feed { self.new.feed ≡ self.old.feed }
        ensures ok { (bits : _) (start : _) → HasPushed self.old bits start (O.written output.old)
            → OnOk result (HasPushed self.new (bits ++ marked self.old.feed) start (O.written output.new)) }
        ensures cut { (bits : _) (start : _) → HasPushed self.old bits start (O.written output.old)
            → OnErr result (GrowsByFront start (O.written output.new)
            (bit_slots self.old.coder.parameters (bits ++ marked self.old.feed))) }
        ensures output { SinkAnswers O.faults O.mark output.old output.new result }
    {
        for i in 0..self.coder.profile().span_bits() {
            let bit = self.feed.bit(i);
            self.push(bit, output)?;
        }
        Ok(())
    }

    /// Takes an octet, and sends what the frame that it completes completes.
    fn octet<O: Sink>(&mut self, octet: u8, output: &mut O) -> Result<(), Failed>
        ensures profile { self.new.coder.parameters ≡ self.old.coder.parameters }
        ensures ok { (fed : _) (start : _) → HasTaken self.old fed start (O.written output.old)
            → OnOk result (HasTaken self.new (fed ++ octet ∷ []) start (O.written output.new)) }
        ensures cut { (fed : _) (start : _) → HasTaken self.old fed start (O.written output.old)
            → OnErr result (GrowsByFront start (O.written output.new)
            (bit_slots self.old.coder.parameters (bit_stream self.old.coder.parameters (fed ++ octet ∷ [])))) }
        ensures output { SinkAnswers O.faults O.mark output.old output.new result }
    {
        if self.feed.feed(octet) {
            self.push_frame(output)
        } else {
            Ok(())
        }
    }

    /// Takes the octets of a piece of the input.
    pub fn take<O: Sink>(&mut self, piece: &[u8], output: &mut O) -> Result<(), Failed>
        ensures profile { self.new.coder.parameters ≡ self.old.coder.parameters }
        ensures ok { (fed : _) (start : _) → HasTaken self.old fed start (O.written output.old)
            → OnOk result (HasTaken self.new (fed ++ piece.now) start (O.written output.new)) }
        ensures cut { (fed : _) (start : _) → HasTaken self.old fed start (O.written output.old)
            → OnErr result (GrowsByFront start (O.written output.new)
            (bit_slots self.old.coder.parameters (bit_stream self.old.coder.parameters (fed ++ piece.now)))) }
        ensures output { SinkAnswers O.faults O.mark output.old output.new result }
    {
        for octet in piece {
            self.octet(*octet, output)?;
        }
        Ok(())
    }

    /// Sends the period of a block that is begun, filled with zeros.
    fn pad<O: Sink>(&mut self, output: &mut O) -> Result<(), Failed>
        ensures profile { self.new.coder.parameters ≡ self.old.coder.parameters }
        ensures ok { (bits : _) (start : _) → HasPushed self.old bits start (O.written output.old)
            → OnOk result (HasCoded self.new.coder (div_ceil (length bits) (block_bits self.old.coder.parameters.rate))
            (joined (div_ceil (length bits) (block_bits self.old.coder.parameters.rate))
            (word_symbols self.old.coder.parameters bits)) start (O.written output.new)) }
        ensures cut { (bits : _) (start : _) → HasPushed self.old bits start (O.written output.old)
            → OnErr result (GrowsByFront start (O.written output.new)
            (octets_to self.old.coder.parameters (div_ceil (length bits) (block_bits self.old.coder.parameters.rate))
            (joined (div_ceil (length bits) (block_bits self.old.coder.parameters.rate))
            (word_symbols self.old.coder.parameters bits)))) }
        ensures output { SinkAnswers O.faults O.mark output.old output.new result }
    {
        if self.slicer.pad() {
            self.coder.send_block(self.slicer.block(), output)
        } else {
            Ok(())
        }
    }

    /// Ends the stream of so many codewords: sends the last block, flushes the channel interleaver, and puts all slots
    /// that wait. It answers how many octets of a frame that isn't complete are left over.
    pub fn finish<O: Sink>(&mut self, words: u64, output: &mut O) -> Result<u64, Failed>
        ensures rest { (fed : _) (start : _) → HasTaken self.old fed start (O.written output.old)
            → IfOk result (λ rest. rest ≡ length fed % self.old.coder.parameters.frame_octets) }
        ensures ok { (fed : _) (start : _) → HasTaken self.old fed start (O.written output.old)
            → words ≡ block_count self.old.coder.parameters fed
            → OnOk result (O.written output.new ≡ append_known start (slots_of self.old.coder.parameters fed)) }
        ensures cut { (fed : _) (start : _) → HasTaken self.old fed start (O.written output.old)
            → words ≡ block_count self.old.coder.parameters fed
            → OnErr result (GrowsByFront start (O.written output.new) (slots_of self.old.coder.parameters fed)) }
        ensures output { SinkAnswers O.faults O.mark output.old output.new result }
    {
        let rest = self.feed.rest();
        self.pad(output)?;
        let count = flush_periods(self.coder.profile(), words);
        self.coder.finish(count, output)?;
        Ok(rest)
    }
}
