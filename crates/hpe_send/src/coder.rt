//! The coder of the sender: from information blocks to slots. A period is sent as soon as its codeword is made, so
//! there is room for one codeword.
ghost use Rattle.std.specs.Prelude.{◌≡◌, ◌<◌, ◌+◌, ◌*◌, [], ◌++◌, length, All, IfOk, OnOk, OnErr};
ghost use Rattle.hpe_base.specs.Bits.{AreBits, zeros};
ghost use Rattle.hpe_base.specs.Codeword.{codeword};
ghost use Rattle.hpe_base.specs.Parameters.{block_bits, codeword_symbols, positions};
ghost use Rattle.hpe_base.specs.Slots.{octets_to};
ghost use Rattle.std.specs.Io.KnownBytes.{append_known};
ghost use Rattle.hpe_io.specs.Devices.{GrowsByFront};
ghost use Rattle.hpe_io.specs.Standing.{SinkAnswers};
ghost use Rattle.hpe_send.specs.Coding.{HasCoded};

use crate::outbox::Outbox;
use crate::period::{send_period, weave_word};
use crate::room::blank_room;
use hpe_base::{NoMemory, Profile};
use hpe_code::CodeTables;
use hpe_io::{Failed, Sink};
use hpe_weave::Weaver;
use hpe_word::encode_word;
use std::alloc::Global;
use std::marker::Model;

/// The stages from a block to its period of slots: encoder, channel interleaver, codeword marker and repeater.
#[derive(Drop)]
pub struct Coder {
    profile: Profile,
    tables: CodeTables,
    weaver: Weaver,
    /// The symbols of the codeword that is on its way.
    word: Vec<u8>,
    outbox: Outbox,
}

impl Model for Coder {
    ghost use Rattle.hpe_send.specs.Coding.{Coding};

    ghost Value = { Coding };

    ghost use Rattle.hpe_send.specs.CoderView.{coding, IsCoding};

    ghost view = { coding };

    ghost invariant = { IsCoding };
}

impl Coder {
    /// A coder before its first block. It takes all its memory.
    pub fn new(alloc: Global, p: &Profile) -> Result<Coder, NoMemory>
        ensures profile { IfOk result (λ c. c.parameters ≡ p.now) }
        ensures stands { IfOk result (λ c. (start : _) → HasCoded c 0 [] start start) }
    {
        let tables = CodeTables::new(alloc)?;
        let weaver = Weaver::new(alloc, p)?;
        let word = blank_room(alloc, p.order().symbols())?;
        let outbox = Outbox::new(alloc)?;
        Ok(Coder {
            profile: p.copy(),
            tables,
            weaver,
            word,
            outbox,
        })
    }

    /// The parameters of the link.
    pub fn profile(&self) -> &Profile
        ensures { result.now ≡ self.now.parameters }
    {
        &self.profile
    }

    /// Sends the period of the codeword that stands in its room.
    fn send_word<O: Sink>(&mut self, output: &mut O) -> Result<(), Failed>
        requires { All (λ s. s < positions self.old.parameters.order) self.old.word }
        ensures profile { self.new.parameters ≡ self.old.parameters }
        ensures ok { (n : _) (symbols : _) (start : _) → HasCoded self.old n symbols start (O.written output.old)
            → OnOk result (HasCoded self.new (n + 1) (symbols ++ self.old.word) start (O.written output.new)) }
        ensures cut { (n : _) (symbols : _) (start : _) → HasCoded self.old n symbols start (O.written output.old)
            → OnErr result (GrowsByFront start (O.written output.new)
            (octets_to self.old.parameters (n + 1) (symbols ++ self.old.word))) }
        ensures output { SinkAnswers O.faults O.mark output.old output.new result }
    {
        weave_word(&mut self.weaver, &mut self.word);
        send_period(&self.profile, &self.word, &mut self.outbox, output)
    }

    /// Sends the period of a block.
    pub fn send_block<O: Sink>(&mut self, block: &[u8], output: &mut O) -> Result<(), Failed>
        requires bits { AreBits block.now }
        requires size { length block.now ≡ block_bits self.old.parameters.rate }
        ensures profile { self.new.parameters ≡ self.old.parameters }
        ensures ok { (n : _) (symbols : _) (start : _) → HasCoded self.old n symbols start (O.written output.old)
            → OnOk result (HasCoded self.new (n + 1) (symbols ++ codeword self.old.parameters block.now) start
            (O.written output.new)) }
        ensures cut { (n : _) (symbols : _) (start : _) → HasCoded self.old n symbols start (O.written output.old)
            → OnErr result (GrowsByFront start (O.written output.new)
            (octets_to self.old.parameters (n + 1) (symbols ++ codeword self.old.parameters block.now))) }
        ensures output { SinkAnswers O.faults O.mark output.old output.new result }
    {
        encode_word(&self.tables, &self.profile, block, &mut self.word);
        self.send_word(output)
    }

    /// Sends a period of symbols 0, behind which the symbols of codewords leave the channel interleaver.
    fn send_flush<O: Sink>(&mut self, output: &mut O) -> Result<(), Failed>
        ensures profile { self.new.parameters ≡ self.old.parameters }
        ensures ok { (n : _) (symbols : _) (start : _) → HasCoded self.old n symbols start (O.written output.old)
            → OnOk result (HasCoded self.new (n + 1)
            (symbols ++ zeros (codeword_symbols self.old.parameters.order)) start (O.written output.new)) }
        ensures cut { (n : _) (symbols : _) (start : _) → HasCoded self.old n symbols start (O.written output.old)
            → OnErr result (GrowsByFront start (O.written output.new)
            (octets_to self.old.parameters (n + 1) (symbols ++ zeros (codeword_symbols self.old.parameters.order)))) }
        ensures output { SinkAnswers O.faults O.mark output.old output.new result }
    {
        self.word.fill(0);
        self.send_word(output)
    }

    /// Ends the stream: sends so many periods of symbols 0, and puts the slots that wait for the output.
    pub fn finish<O: Sink>(&mut self, count: usize, output: &mut O) -> Result<(), Failed>
        ensures profile { self.new.parameters ≡ self.old.parameters }
        ensures ok { (n : _) (symbols : _) (start : _) → HasCoded self.old n symbols start (O.written output.old)
            → OnOk result (O.written output.new ≡ append_known start (octets_to self.old.parameters (n + count)
            (symbols ++ zeros (count * codeword_symbols self.old.parameters.order)))) }
        ensures cut { (n : _) (symbols : _) (start : _) → HasCoded self.old n symbols start (O.written output.old)
            → OnErr result (GrowsByFront start (O.written output.new) (octets_to self.old.parameters (n + count)
            (symbols ++ zeros (count * codeword_symbols self.old.parameters.order)))) }
        ensures output { SinkAnswers O.faults O.mark output.old output.new result }
    {
        for _ in 0..count {
            self.send_flush(output)?;
        }
        self.outbox.flush(output)
    }
}
