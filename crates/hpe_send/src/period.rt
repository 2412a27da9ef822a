//! One period of the channel: a codeword passes the channel interleaver and goes out behind the codeword marker.
ghost use Rattle.std.specs.Prelude.{◌≡◌, ◌<◌, ◌++◌, All, OnOk, OnErr};
ghost use Rattle.std.specs.List.{flat_map};
ghost use Rattle.hpe_base.specs.ChannelInterleaver.{interleaved_channel};
ghost use Rattle.hpe_base.specs.Parameters.{positions};
ghost use Rattle.hpe_base.specs.Slots.{symbol_octets};
ghost use Rattle.hpe_io.specs.Devices.{GrowsByFront};
ghost use Rattle.hpe_io.specs.Standing.{SinkAnswers};
ghost use Rattle.hpe_send.specs.Outgoing.{IsPending};
ghost use Rattle.hpe_send.specs.Weave.{IsWithin};
ghost use Rattle.hpe_weave.specs.Weaving.{HasWoven};

use crate::outbox::Outbox;
use hpe_base::Profile;
use hpe_io::{Failed, Sink};
use hpe_weave::Weaver;

/// Puts each symbol of a codeword through the channel interleaver, and in its place the one that comes out.
pub fn weave_word(weaver: &mut Weaver, word: &mut [u8])
    requires within { IsWithin weaver.old }
    requires word { All (λ s. s < positions weaver.old.parameters.order) word.old }
    ensures profile { weaver.new.parameters ≡ weaver.old.parameters }
    ensures stands { (pushed : _) → HasWoven weaver.old pushed → HasWoven weaver.new (pushed ++ word.old) }
    ensures answers { (pushed : _) → HasWoven weaver.old pushed
        → interleaved_channel weaver.old.parameters (pushed ++ word.old)
        ≡ interleaved_channel weaver.old.parameters pushed ++ word.new }
    ensures within { IsWithin weaver.new }
    ensures word { All (λ s. s < positions weaver.old.parameters.order) word.new }
{
    for symbol in word.iter_mut() {
        *symbol = weaver.push(*symbol);
    }
}

/// Sends symbols as slots, each with its repeats.
fn send_symbols<O: Sink>(
    p: &Profile,
    symbols: &[u8],
    outbox: &mut Outbox,
    output: &mut O,
) -> Result<(), Failed>
    requires { All (λ s. s < positions p.now.order) symbols.now }
    ensures ok { (start : _) (all : _) → IsPending start (O.written output.old) outbox.old all
        → OnOk result (IsPending start (O.written output.new) outbox.new
        (all ++ flat_map (symbol_octets p.now) symbols.now)) }
    ensures cut { (start : _) (all : _) → IsPending start (O.written output.old) outbox.old all
        → OnErr result (GrowsByFront start (O.written output.new) (all ++ flat_map (symbol_octets p.now) symbols.now)) }
    ensures output { SinkAnswers O.faults O.mark output.old output.new result }
{
    for symbol in symbols {
        outbox.add(p, *symbol, output)?;
    }
    Ok(())
}

/// Sends one period: the codeword marker and the symbols of a codeword in the order of the channel.
pub fn send_period<O: Sink>(
    p: &Profile,
    woven: &[u8],
    outbox: &mut Outbox,
    output: &mut O,
) -> Result<(), Failed>
    requires { All (λ s. s < positions p.now.order) woven.now }
    ensures ok { (start : _) (all : _) → IsPending start (O.written output.old) outbox.old all
        → OnOk result (IsPending start (O.written output.new) outbox.new
        (all ++ flat_map (symbol_octets p.now) (p.now.marker ++ woven.now))) }
    ensures cut { (start : _) (all : _) → IsPending start (O.written output.old) outbox.old all
        → OnErr result (GrowsByFront start (O.written output.new)
        (all ++ flat_map (symbol_octets p.now) (p.now.marker ++ woven.now))) }
    ensures output { SinkAnswers O.faults O.mark output.old output.new result }
{
    send_symbols(p, p.marker(), outbox, output)?;
    send_symbols(p, woven, outbox, output)
}
