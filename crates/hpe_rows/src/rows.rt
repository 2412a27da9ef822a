//! The course of a stream, symbol by symbol: counts are gathered to whole symbols, markers are passed over, and the sums
//! of the other symbols go through the inverse of the channel interleaver.
//!
//! A symbol that is whole in a piece is worked off where it stands; only of one that is begun the counts are kept. A
//! row that leaves the interleaver is put straight where the caller wants it.
ghost use Rattle.std.specs.Prelude.{◌≡◌, ◌≤◌, ◌<◌, ◌+◌, ◌*◌, ◌/◌, ◌^◌, ◌++◌, ◌↔◌, [], All, IfOk, IsTrue, false, length, take};
ghost use Rattle.hpe_base.specs.Parameters.{clamp, interleaver_depth, period_slots, positions, symbol_slots};
ghost use Rattle.hpe_rows.specs.Rows.{periods_in, placed_rows, row_if, rows_of};
ghost use Rattle.hpe_rows.specs.RowsState.{HasPassed, HasRows};
ghost use Rattle.hpe_weave.specs.Unweaving.{HasUnwoven, waiting_in};

use hpe_base::columns::place_after;
use hpe_base::{NoMemory, Profile};
use hpe_slots::gather;
use hpe_weave::Unweaver;
use std::alloc::Global;
use std::marker::Model;

/// What was taken of a piece of counts.
#[derive(Clone, Copy, Debug, PartialEq, Eq)]
pub struct Taken {
    /// The number of counts.
    pub counts: usize,
    /// Whether a row has come with them.
    pub row: bool,
    /// Whether the period ends with them.
    pub ended: bool,
}

/// The rows of a stream of counts that begins with a codeword marker. A row has a sum for each pulse position, and rows
/// come in the order of the codewords.
#[derive(Drop)]
pub struct Rows {
    profile: Profile,
    /// The slots of a symbol, and the symbols of a period.
    slots: usize,
    period: usize,
    /// The symbols of the period that have come.
    symbol: usize,
    /// The counts of the symbol that is begun.
    begun: Vec<u16>,
    /// The sums of one symbol, in the order of the channel.
    row: Vec<u16>,
    unweaver: Unweaver,
}

impl Model for Rows {
    ghost use Rattle.hpe_rows.specs.RowsState.{RowsState};

    ghost Value = { RowsState };

    ghost use Rattle.hpe_rows.specs.RowsView.{rows_state, IsRows};

    ghost view = { rows_state };

    ghost invariant = { IsRows };
}

/// Takes symbol number `symbol` of a period, and answers whether a row has come to `into`: a symbol of a marker is
/// passed over, and the sums of another one go through the inverse of the channel interleaver.
fn pass(
    p: &Profile,
    symbol: usize,
    slots: &[u16],
    row: &mut [u16],
    unweaver: &mut Unweaver,
    into: &mut [u16],
) -> bool
    requires profile { unweaver.old.parameters ≡ p.now }
    requires slots { length slots.now ≡ symbol_slots p.now }
    requires row { length row.old ≡ positions p.now.order }
    requires into { length into.old ≡ positions p.now.order }
    ensures profile { unweaver.new.parameters ≡ unweaver.old.parameters }
    ensures stands { (seen : _) → HasPassed p.now unweaver.old symbol seen
        → HasUnwoven unweaver.new (rows_of p.now (seen ++ slots.now)) }
    ensures rows { (seen : _) → HasPassed p.now unweaver.old symbol seen
        → placed_rows p.now (seen ++ slots.now) ≡ placed_rows p.now seen ++ row_if result into.new }
    ensures kept { result ≡ false → into.new ≡ into.old }
{
    if symbol < p.marker().len() {
        return false;
    }
    gather(p, slots, row);
    unweaver.push(row, into)
}

impl Rows {
    /// The rows of a stream of which nothing has come. It takes all its memory here: that of the channel interleaver,
    /// the counts of a symbol, and a row. The error is that there is too little.
    pub fn new(alloc: Global, p: &Profile) -> Result<Rows, NoMemory>
        ensures profile { IfOk result (λ r. r.parameters ≡ p.now) }
        ensures stands { IfOk result (λ r. HasRows r []) }
    {
        let unweaver = Unweaver::new(alloc, p)?;
        let slots = p.symbol_slots();
        let begun = Vec::with_capacity(alloc, slots).map_err(|_| NoMemory)?;
        let row = vec![in alloc; 0; p.order().slots()].map_err(|_| NoMemory)?;
        Ok(Rows {
            profile: p.copy(),
            slots,
            period: p.marker().len() + p.order().symbols(),
            symbol: 0,
            begun,
            row,
            unweaver,
        })
    }

    /// Takes the first of these counts, up to the end of a symbol, or all where they don't come so far. A row that has
    /// come with them stands in `into`, whose length is that of a row; where none has come, `into` is as it was.
    pub fn take(&mut self, counts: &[u16], into: &mut [u16]) -> Taken
        requires some { 0 < length counts.now }
        requires into { length into.old ≡ positions self.old.parameters.order }
        ensures profile { self.new.parameters ≡ self.old.parameters }
        ensures some { 0 < result.counts }
        ensures within { result.counts ≤ length counts.now }
        ensures stands { (seen : _) → HasRows self.old seen → HasRows self.new (seen ++ take result.counts counts.now) }
        ensures rows { (seen : _) → HasRows self.old seen
            → placed_rows self.old.parameters (seen ++ take result.counts counts.now)
            ≡ placed_rows self.old.parameters seen ++ row_if result.row into.new }
        ensures kept { result.row ≡ false → into.new ≡ into.old }
        ensures most { IsTrue result.row → All (λ s. s ≤ clamp) into.new }
        ensures ended { (seen : _) → HasRows self.old seen
            → (IsTrue result.ended ↔ (length (seen ++ take result.counts counts.now)
            ≡ (periods_in self.old.parameters seen + 1) * period_slots self.old.parameters)) }
        ensures period { (seen : _) → HasRows self.old seen
            → length (seen ++ take result.counts counts.now)
            ≤ (periods_in self.old.parameters seen + 1) * period_slots self.old.parameters }
    {
        let missing = self.slots - self.begun.len();
        if counts.len() < missing {
            match self.begun.extend_from_slice(counts) {
                Ok(()) => {}
                Err(_) => unreachable!(),
            }
            return Taken {
                counts: counts.len(),
                row: false,
                ended: false,
            };
        }
        let symbol = self.symbol;
        self.symbol = place_after(symbol, self.period);
        let ended = self.symbol == 0;
        if self.begun.is_empty() {
            let row = pass(
                &self.profile,
                symbol,
                &counts[..missing],
                &mut self.row,
                &mut self.unweaver,
                into,
            );
            return Taken {
                counts: missing,
                row,
                ended,
            };
        }
        match self.begun.extend_from_slice(&counts[..missing]) {
            Ok(()) => {}
            Err(_) => unreachable!(),
        }
        let row = pass(
            &self.profile,
            symbol,
            &self.begun,
            &mut self.row,
            &mut self.unweaver,
            into,
        );
        self.begun.clear();
        Taken {
            counts: missing,
            row,
            ended,
        }
    }

    /// The profile of the stream.
    pub fn profile(&self) -> &Profile
        ensures { result.now ≡ self.now.parameters }
    {
        &self.profile
    }

    /// The number of counts and sums that are kept: those of the symbol that is begun, and those that wait in the
    /// channel interleaver.
    pub fn held(&self) -> u64
        ensures value { result ≡ length self.now.begun + waiting_in self.now.unweaver }
        ensures most { result ≤ symbol_slots self.now.parameters
            + positions self.now.parameters.order * interleaver_depth self.now.parameters / 2 }
        ensures few { result ≤ 2 ^ 27 }
    {
        self.begun.len() as u64 + self.unweaver.held()
    }
}
