//! The slots of a symbol as they are sent.
//!
//! The repeater sends each symbol several times. One sending has a slot for each pulse position, of which that of the
//! symbol has the pulse, and then a quarter as many guard slots, which stay dark.
ghost use Rattle.std.specs.Prelude.{◌≡◌, ◌<◌, ◌*◌, length};
ghost use Rattle.hpe_base.specs.Parameters.{positions, symbol_slots};
ghost use Rattle.hpe_base.specs.Slots.{symbol_octets};
ghost use Rattle.hpe_io.specs.Devices.{Puts};
ghost use Rattle.hpe_io.specs.Standing.{SinkAnswers};

use hpe_base::Profile;
use hpe_io::{Failed, Sink};

/// The most sendings of a symbol.
const MOST_REPEATS: usize = 32;

/// The most slots of a sending: 256 pulse positions and 64 guard slots.
const MOST_SENDING_SLOTS: usize = 320;

/// The most slots of a symbol with its repeats.
const MOST_SYMBOL_SLOTS: usize = MOST_REPEATS * MOST_SENDING_SLOTS;

/// The most octets of a symbol with its repeats.
const MOST_SYMBOL_OCTETS: usize = 2 * MOST_SYMBOL_SLOTS;

/// Fills `into`, of as many octets as [`Profile::symbol_octets`] says, with the slots of one symbol and its repeats: 1 where the
/// pulse is, and 0 at the other positions and the guard slots. Of the octets of a slot the last carries it.
///
/// These are the repeater and the guard slots. It is called for each symbol that is sent, so it only adds.
pub fn write_pulses(p: &Profile, symbol: u8, into: &mut [u8])
    requires symbol { symbol < positions p.now.order }
    requires size { length into.old ≡ p.now.count_octets * symbol_slots p.now }
    ensures { into.new ≡ symbol_octets p.now symbol }
{
    let octets = p.count_octets();
    let size = octets * p.order().sending_slots();
    into.fill(0);
    let mut place = octets * symbol as usize + octets - 1;
    for _ in 0..p.repeat() {
        into[place] = 1;
        place += size;
    }
}

/// Room for the slots of any symbol.
fn blank_slots() -> [u8; MOST_SYMBOL_OCTETS]
    ensures { length result ≡ 20480 }
{
    [0; MOST_SYMBOL_OCTETS]
}

/// Puts the slots of one symbol and its repeats, those of [`write_pulses`], in one piece. After `Failed` some front of
/// them is put.
pub fn write_symbol<O: Sink>(p: &Profile, symbol: u8, out: &mut O) -> Result<(), Failed>
    requires { symbol < positions p.now.order }
    ensures bytes { Puts (O.written out.old) (O.written out.new) result (symbol_octets p.now symbol) }
    ensures sink { SinkAnswers O.faults O.mark out.old out.new result }
{
    let mut room = blank_slots();
    let slots = &mut room[..p.symbol_octets()];
    write_pulses(p, symbol, slots);
    out.put(slots)
}
