//! Slots on their way to the output, put in large pieces: a put for each symbol would be one call of the system for a
//! few hundred octets.
ghost use Rattle.std.specs.Prelude.{◌≡◌, ◌<◌, ◌≤◌, ◌+◌, ◌*◌, [], ◌++◌, length, IfOk, OnOk, OnErr};
ghost use Rattle.hpe_base.specs.Parameters.{positions, symbol_slots};
ghost use Rattle.hpe_base.specs.Slots.{symbol_octets};
ghost use Rattle.hpe_io.specs.Devices.{Puts, GrowsByFront};
ghost use Rattle.hpe_io.specs.Standing.{SinkAnswers};
ghost use Rattle.hpe_send.specs.Outgoing.{IsPending};

use hpe_base::{NoMemory, Profile};
use hpe_io::{Failed, Sink};
use hpe_slots::write_pulses;
use std::alloc::Global;
use std::marker::Model;

/// The most octets that are held, and so that are put at once.
const ROOM: usize = 65_536;

/// Slots that wait until there are enough of them to be put.
#[derive(Drop)]
pub struct Outbox {
    octets: Vec<u8>,
    used: usize,
}

impl Model for Outbox {
    ghost use Rattle.std.specs.Prelude.{ℕ, List};

    ghost Value = { List ℕ };

    ghost use Rattle.hpe_send.specs.OutboxView.{held_octets, IsOutbox};

    ghost view = { held_octets };

    ghost invariant = { IsOutbox };
}

impl Outbox {
    /// An outbox that holds nothing. It takes all its memory.
    pub fn new(alloc: Global) -> Result<Outbox, NoMemory>
        ensures { IfOk result (λ o. o ≡ []) }
    {
        let octets = vec![in alloc; 0; ROOM].map_err(|_| NoMemory)?;
        Ok(Outbox { octets, used: 0 })
    }

    fn free(&self) -> usize
        ensures { result + length self.now ≡ ROOM }
    {
        ROOM - self.used
    }

    /// Appends the slots of a symbol with its repeats.
    fn store(&mut self, p: &Profile, symbol: u8)
        requires symbol { symbol < positions p.now.order }
        requires room { length self.old + p.now.count_octets * symbol_slots p.now ≤ ROOM }
        ensures { self.new ≡ self.old ++ symbol_octets p.now symbol }
    {
        let end = self.used + p.symbol_octets();
        write_pulses(p, symbol, &mut self.octets[self.used..end]);
        self.used = end;
    }

    /// Puts all that is held, in one piece.
    pub fn flush<O: Sink>(&mut self, output: &mut O) -> Result<(), Failed>
        ensures bytes { Puts (O.written output.old) (O.written output.new) result self.old }
        ensures held { OnOk result (self.new ≡ []) }
        ensures output { SinkAnswers O.faults O.mark output.old output.new result }
    {
        if self.used == 0 {
            return Ok(());
        }
        output.put(&self.octets[..self.used])?;
        self.used = 0;
        Ok(())
    }

    /// Takes the slots of a symbol with its repeats, and puts what was held before where the room doesn't suffice.
    pub fn add<O: Sink>(&mut self, p: &Profile, symbol: u8, output: &mut O) -> Result<(), Failed>
        requires { symbol < positions p.now.order }
        ensures ok { (start : _) (all : _) → IsPending start (O.written output.old) self.old all
            → OnOk result (IsPending start (O.written output.new) self.new (all ++ symbol_octets p.now symbol)) }
        ensures cut { (start : _) (all : _) → IsPending start (O.written output.old) self.old all
            → OnErr result (GrowsByFront start (O.written output.new) (all ++ symbol_octets p.now symbol)) }
        ensures output { SinkAnswers O.faults O.mark output.old output.new result }
    {
        if p.symbol_octets() > self.free() {
            self.flush(output)?;
        }
        self.store(p, symbol);
        Ok(())
    }
}
