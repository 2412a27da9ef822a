//! The values of a profile, each within its range, before it is known that they agree with each other.
ghost use Rattle.std.specs.Prelude.{◌≡◌, ◌<◌, ◌≤◌, ◌*◌, ◌^◌, length, None, nat_le, nat_lt};
ghost use Rattle.std.specs.List.{list_all};
ghost use Rattle.hpe_base.specs.Parameters.{flags_set, positions, symbol_slots, period_slots, interleaver_depth};
ghost use Rattle.hpe_base.specs.Validity.{columns_of, first_failing, first_out_of_range, parameters_of, first_broken};

use crate::columns::{flags_in_all, flags_set};
use crate::fault::{Rule, first_failing};
use crate::fields::{Fields, MOST_COLUMNS, MOST_MARKER_SYMBOLS, columns_of, marker_of, natural};
use crate::profile::{CODE_BITS, Order, Rate};
use arrayvec::ArrayVec;
use std::marker::Model;

/// The most slots that the channel interleaver holds, and that the marker search adds up.
const MOST_SLOTS: usize = 1 << 26;

/// The values of a profile, each within its range.
#[derive(Drop)]
pub struct Values {
    pub order: Order,
    pub rate: Rate,
    pub frame_octets: usize,
    pub frame_marker: u32,
    pub taps: u8,
    pub seed: u8,
    pub check: u32,
    pub columns: ArrayVec<[bool; 3], MOST_COLUMNS>,
    pub rows: usize,
    pub delay: usize,
    pub marker: ArrayVec<u8, MOST_MARKER_SYMBOLS>,
    pub repeat: usize,
    pub rounds: u32,
    pub search: usize,
    pub count_octets: usize,
    pub scale: u32,
}

impl Model for Values {
    ghost use Rattle.hpe_base.specs.Parameters.{Parameters};

    ghost Value = { Parameters };

    ghost use Rattle.hpe_base.specs.ValuesView.{parameters_in, IsInRangeInside};

    ghost view = { parameters_in };

    ghost invariant = { IsInRangeInside };
}

/// The values in a vector of fixed room.
fn filled<T: Copy + Default, const N: usize>(values: &[T]) -> ArrayVec<T, N>
    requires { length values.now ≤ N }
    ensures { result.items ≡ values.now }
{
    let mut all = ArrayVec::new();
    match all.try_extend_from_slice(values) {
        Ok(()) => all,
        Err(_) => unreachable!(),
    }
}

impl Values {
    /// The values that fields name, each of which is within its range.
    pub fn of(fields: &Fields) -> Values
        requires { first_out_of_range fields.now ≡ None }
        ensures { result ≡ parameters_of fields.now }
    {
        Values {
            order: Order::from_number(&fields.order).unwrap(),
            rate: Rate::from_text(fields.rate).unwrap(),
            frame_octets: natural(&fields.frame_octets) as usize,
            frame_marker: natural(&fields.frame_marker) as u32,
            taps: natural(&fields.taps) as u8,
            seed: natural(&fields.seed) as u8,
            check: natural(&fields.check) as u32,
            columns: columns_of(fields.columns),
            rows: natural(&fields.rows) as usize,
            delay: natural(&fields.delay) as usize,
            marker: marker_of(fields.marker),
            repeat: natural(&fields.repeat) as usize,
            rounds: natural(&fields.rounds) as u32,
            search: natural(&fields.search) as usize,
            count_octets: natural(&fields.count_octets) as usize,
            scale: natural(&fields.scale) as u32,
        }
    }

    /// Equal values.
    pub fn copy(&self) -> Values
        ensures { result ≡ self.now }
    {
        Values {
            order: self.order,
            rate: self.rate,
            frame_octets: self.frame_octets,
            frame_marker: self.frame_marker,
            taps: self.taps,
            seed: self.seed,
            check: self.check,
            columns: filled(self.columns.as_slice()),
            rows: self.rows,
            delay: self.delay,
            marker: filled(self.marker.as_slice()),
            repeat: self.repeat,
            rounds: self.rounds,
            search: self.search,
            count_octets: self.count_octets,
            scale: self.scale,
        }
    }

    /// The slots of a symbol with its repeats.
    pub fn symbol_slots(&self) -> usize
        ensures value { result ≡ symbol_slots self.now }
        ensures some { 0 < result }
        ensures most { result ≤ 10240 }
    {
        self.repeat * self.order.sending_slots()
    }

    /// The slots of a period: the codeword marker and a codeword.
    pub fn period(&self) -> usize
        ensures { result ≡ period_slots self.now }
    {
        (self.marker.len() + self.order.symbols()) * self.symbol_slots()
    }

    /// The delay of the channel interleaver and its inverse together, in symbols.
    pub fn depth(&self) -> usize
        ensures value { result ≡ interleaver_depth self.now }
        ensures few { result ≤ 64 * 63 * 2 ^ 23 }
    {
        self.rows * (self.rows - 1) * self.delay
    }

    /// Whether each puncturing column keeps a code bit.
    fn has_full_columns(&self) -> bool
        ensures { result ≡ list_all (λ column. nat_le 1 (flags_set column)) self.now.columns }
    {
        self.columns.iter().all(|column| flags_set(column) >= 1)
    }

    /// Whether each symbol of the codeword marker is below the order.
    fn has_low_marker(&self) -> bool
        ensures { result ≡ list_all (λ v. nat_lt v (positions self.now.order)) self.now.marker }
    {
        let slots = self.order.slots();
        self.marker.iter().all(|symbol| (*symbol as usize) < slots)
    }

    /// The first rule between the values that fails.
    pub fn first_broken(&self) -> Option<Rule>
        ensures { result ≡ first_broken self.now }
    {
        let steps = self.rate.steps();
        let columns = self.columns.len();
        first_failing(&[
            (Rule::ColumnEmpty, self.has_full_columns()),
            (Rule::ColumnCount, steps % columns == 0),
            (
                Rule::KeptTotal,
                steps / columns * flags_in_all(self.columns.as_slice()) == CODE_BITS,
            ),
            (Rule::RowsDivide, self.order.symbols() % self.rows == 0),
            (Rule::MarkerValue, self.has_low_marker()),
            (Rule::Depth, self.depth() * self.order.slots() <= MOST_SLOTS),
            (Rule::Window, self.search * self.period() <= MOST_SLOTS),
        ])
    }
}
