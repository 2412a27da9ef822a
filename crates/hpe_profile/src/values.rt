//! The values of a profile file, where each is of its kind, and the defaults.
ghost use Rattle.std.specs.Prelude.{◌≡◌, IfOk, []};
ghost use Rattle.toml.specs.View.{items_view, table_view};
ghost use Rattle.hpe_base.specs.Parameters.{positions};
ghost use Rattle.hpe_profile.specs.ProfileText.{number_at, text_at, list_at, integers_in, default_columns, default_marker, rate_in, order_in, marker_in, columns_in, fields_in, IsAlike};

use crate::keys::found;
use hpe_base::{Fields, Key, Order, Rate};
use std::alloc::{AllocError, Global};
use toml::Table;
use toml::value::Array;

/// The symbols of the default codeword marker.
const MARKER_SYMBOLS: usize = 16;

/// The whole number at the key.
fn number_at(table: &Table, key: Key, default: i64) -> i64
    ensures { result ≡ number_at (table_view table.now) key default }
{
    match found(table, key) {
        Some(value) => value.as_integer().unwrap_or(default),
        None => default,
    }
}

/// The text at the key.
fn text_at<'a>(table: &'a Table, key: Key, default: &'a str) -> &'a str
    ensures { result.now ≡ text_at (table_view table.now) key default.now }
{
    match found(table, key) {
        Some(value) => value.as_str().unwrap_or(default),
        None => default,
    }
}

/// The whole numbers of a list.
fn integers_in(alloc: Global, list: &Array) -> Result<Vec<i64>, AllocError>
    ensures { IfOk result (λ v. v.items ≡ integers_in (items_view list.now.items)) }
{
    let mut numbers = Vec::with_capacity(alloc, list.len())?;
    for value in list {
        numbers.push(value.as_integer().unwrap_or(0))?;
    }
    Ok(numbers)
}

/// The list of whole numbers at the key.
fn list_at(alloc: Global, table: &Table, key: Key, default: &[i64]) -> Result<Vec<i64>, AllocError>
    ensures { IfOk result (λ v. v.items ≡ list_at (table_view table.now) key default.now) }
{
    match found(table, key) {
        Some(value) => match value.as_array() {
            Some(list) => integers_in(alloc, list),
            None => Vec::from_slice(alloc, default),
        },
        None => Vec::from_slice(alloc, default),
    }
}

/// The rate that the table names.
fn rate_in(table: &Table) -> Rate
    ensures { result ≡ rate_in (table_view table.now) }
{
    Rate::from_text(rate_text(table)).unwrap_or(Rate::Third)
}

/// The order that the table names.
fn order_in(table: &Table) -> Order
    ensures { result ≡ order_in (table_view table.now) }
{
    let number = number_at(table, Key::Order, 0);
    Order::from_number(&number).unwrap_or(Order::P4)
}

/// The codeword marker, whose default is that of the order.
pub fn marker_in(alloc: Global, table: &Table) -> Result<Vec<i64>, AllocError>
    ensures { IfOk result (λ v. v.items ≡ marker_in (table_view table.now)) }
{
    list_at(alloc, table, Key::Marker, &default_marker(order_in(table)))
}

/// The text of the rate.
pub fn rate_text(table: &Table) -> &str
    ensures { result.now ≡ text_at (table_view table.now) Key.Rate [] }
{
    text_at(table, Key::Rate, "")
}

/// The text of the puncturing columns, whose default is that of the rate.
pub fn columns_in(table: &Table) -> &str
    ensures { result.now ≡ columns_in (table_view table.now) }
{
    text_at(table, Key::Columns, default_columns(rate_in(table)))
}

/// The fields that the table writes, with the defaults. The texts and the marker are given.
pub fn fields_in<'a>(
    table: &Table,
    rate: &'a str,
    columns: &'a str,
    marker: &'a [i64],
) -> Fields<'a>
    requires rate { rate.now ≡ text_at (table_view table.now) Key.Rate [] }
    requires columns { columns.now ≡ columns_in (table_view table.now) }
    requires marker { marker.now ≡ marker_in (table_view table.now) }
    ensures { IsAlike result (fields_in (table_view table.now)) }
{
    Fields {
        order: number_at(table, Key::Order, 0),
        rate,
        frame_octets: number_at(table, Key::FrameOctets, 100),
        frame_marker: number_at(table, Key::FrameMarker, 0x1ACF_FC1D),
        taps: number_at(table, Key::Taps, 0xA9),
        seed: number_at(table, Key::Seed, 255),
        check: number_at(table, Key::Check, 0x2004_4009),
        columns,
        rows: number_at(table, Key::Rows, 1),
        delay: number_at(table, Key::Delay, 1),
        marker,
        repeat: number_at(table, Key::Repeat, 1),
        rounds: number_at(table, Key::Rounds, 16),
        search: number_at(table, Key::Search, 1),
        count_octets: number_at(table, Key::CountOctets, 1),
        scale: number_at(table, Key::Scale, 8),
    }
}

/// The puncturing columns that keep all code bits of a codeword at that rate.
fn default_columns(rate: Rate) -> &'static str
    ensures { result.now ≡ default_columns rate }
{
    match rate {
        Rate::Third => "111",
        Rate::Half => "110",
        Rate::TwoThirds => "110 010",
    }
}

/// The codeword marker of an order: symbol `i` is `5 i (i + 1) / 2` modulo its pulse positions.
fn default_marker(order: Order) -> [i64; MARKER_SYMBOLS]
    ensures { result ≡ default_marker (positions order) }
{
    let slots = order.slots();
    let mut marker = [0; MARKER_SYMBOLS];
    for i in 0..MARKER_SYMBOLS {
        marker[i] = (5 * i * (i + 1) / 2 % slots) as i64;
    }
    marker
}
