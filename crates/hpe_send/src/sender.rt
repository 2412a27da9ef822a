//! The sender of a link: one loop that takes the input piece by piece and sends what each piece completes.
ghost use Rattle.std.specs.Prelude.{◌≡◌, ◌<◌, ◌≤◌, ◌+◌, ◌%◌, ◌^◌, ℕ, List, length, take, IfOk, IsErrOf};
ghost use Rattle.std.specs.Io.KnownBytes.{prepend_known};
ghost use Rattle.hpe_base.specs.Slots.{slots_of};
ghost use Rattle.hpe_io.specs.Devices.{Grows, GrowsByFront, TakesAtMost, TakesCount};
ghost use Rattle.hpe_io.specs.Standing.{SinkStands, SourceStands};
ghost use Rattle.hpe_send.specs.Sending.{HasCounts, HasReadCause, HasWriteCause, IfCutOff, IfRagged, IfSent, Sends, fault_of};
ghost use Rattle.hpe_send.specs.declared.sender.SendFault.TheVariants.{Write};

use crate::chain::Chain;
use hpe_base::{NoMemory, Profile};
use hpe_io::{Failed, Intake, IntakeFault, Sink, Source};
use std::alloc::Global;
use std::marker::Model;
use thiserror::Error;

/// The octets that are taken from the input at once.
const PIECE: usize = 65_536;

/// What was sent.
#[derive(Clone, Copy, Debug, PartialEq, Eq)]
pub struct Sent {
    /// The whole frames of the input.
    pub frames: u64,
    /// The codewords that carry them, without those that flush the channel interleaver.
    pub words: u64,
}

/// Why not all of an input was sent.
#[derive(Clone, Copy, Debug, PartialEq, Eq, Error)]
pub enum SendFault {
    /// The input failed. Some front of the slots of the octets that it gave is written.
    #[error("the input failed")]
    Read,
    /// The output failed. Some front of the slots is written.
    #[error("the output failed")]
    Write,
    /// The input has more octets than the limit. One more than the limit was taken, and some front of the slots of the
    /// octets within the limit is written.
    #[error("the input is too long")]
    TooLong,
    /// The input ended within a frame, of which it gave `rest` octets. All frames before it are sent.
    #[error("the input ends within a frame")]
    Ragged { rest: u64, sent: Sent },
}

impl From<IntakeFault> for SendFault {
    ghost from_gives = { λ cause fault. fault ≡ fault_of cause };

    fn from(cause: IntakeFault) -> SendFault {
        match cause {
            IntakeFault::Read => SendFault::Read,
            IntakeFault::TooLong => SendFault::TooLong,
        }
    }
}

impl From<Failed> for SendFault {
    ghost from_gives = { λ _ fault. fault ≡ Write };

    fn from(_: Failed) -> SendFault {
        SendFault::Write
    }
}

/// The sender of a link: it reads transfer frames and writes slots, one octet for each slot.
///
/// It holds one frame, one block, one codeword and the channel interleaver, whatever the length of the input.
#[derive(Drop)]
pub struct Sender {
    chain: Chain,
    intake: Intake,
}

impl Model for Sender {
    ghost use Rattle.hpe_base.specs.Parameters.{Parameters};

    ghost Value = { Parameters };

    ghost use Rattle.hpe_send.specs.SenderView.{parameters, IsNew};

    ghost view = { parameters };

    ghost invariant = { IsNew };
}

impl Sender {
    /// A sender that has sent nothing. It takes all its memory here, and the error is that there is too little.
    pub fn new(alloc: Global, p: &Profile) -> Result<Sender, NoMemory>
        ensures { IfOk result (λ s. s ≡ p.now) }
    {
        let chain = Chain::new(alloc, p)?;
        let intake = Intake::new(alloc).map_err(|_| NoMemory)?;
        Ok(Sender { chain, intake })
    }

    /// Sends the whole frames of the input, which may have up to `limit` octets, a number from 1 to 2^40: the slots of
    /// all periods, and of the periods that flush the channel interleaver behind them. The first failure of the input or
    /// of the output ends the call.
    pub fn send<I: Source, O: Sink>(
        self,
        limit: u64,
        input: &mut I,
        output: &mut O,
    ) -> Result<Sent, SendFault>
        requires limit { (1 ≤ limit) × (limit ≤ 2 ^ 40) }
        ensures ok { IfOk result (λ sent. (octets : List ℕ)
            × Sends self limit (I.left input.old) (I.left input.new) (O.written output.old) (O.written output.new)
            octets sent
            × (length octets % self.frame_octets ≡ 0)) }
        ensures ragged { IfRagged result (λ rest sent. (octets : List ℕ)
            × Sends self limit (I.left input.old) (I.left input.new) (O.written output.old) (O.written output.new)
            octets sent
            × (rest ≡ length octets % self.frame_octets)
            × (0 < rest)) }
        ensures counts { IfSent result (HasCounts self limit) }
        ensures cut { IfCutOff result ((octets : List ℕ)
            × (I.left input.old ≡ prepend_known octets (I.left input.new))
            × (length octets ≤ limit + 1)
            × GrowsByFront (O.written output.old) (O.written output.new) (slots_of self (take limit octets))) }
        ensures long { IsErrOf result SendFault.TooLong → TakesCount (I.left input.old) (I.left input.new) (limit + 1) }
        ensures read { HasReadCause (I.faults input.old) (I.faults input.new) result }
        ensures write { HasWriteCause (O.faults output.old) (O.faults output.new) result }
        ensures taken { TakesAtMost (I.left input.old) (I.left input.new) (limit + 1) }
        ensures grows { Grows (O.written output.old) (O.written output.new) }
        ensures input { SourceStands I.faults I.mark I.build input.old input.new }
        ensures output { SinkStands O.faults O.mark output.old output.new }
    {
        let Sender {
            mut chain,
            mut intake,
        } = self;
        intake.begin(limit);
        while intake.next(input, PIECE)? {
            chain.take(intake.piece(), output)?;
        }
        let sent = chain.sent(intake.taken());
        let rest = chain.finish(sent.words, output)?;
        if rest == 0 {
            Ok(sent)
        } else {
            Err(SendFault::Ragged { rest, sent })
        }
    }
}
