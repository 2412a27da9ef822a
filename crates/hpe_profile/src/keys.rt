//! The keys of a profile file, and why what stands at one is refused.
ghost use Rattle.std.specs.Prelude.{◌≡◌, ◌≤◌, length, option_map, string_bytes};
ghost use Rattle.std.specs.List.{list_all};
ghost use Rattle.std.specs.Map.{keys_of};
ghost use Rattle.toml.specs.View.{view, table_view};
ghost use Rattle.toml.specs.Data.{get_member};
ghost use Rattle.hpe_profile.specs.ProfileText.{all_keys, key_name, is_required, names_key, knows_all, are_integers, is_integer, is_kind, refusal_of, first_refusal};

use crate::fault::ReadFault;
use hpe_base::Key;
use toml::value::Array;
use toml::{Table, Value};

/// The keys, in the order in which they are looked at.
pub const KEYS: [Key; 16] = [
    Key::Order,
    Key::Rate,
    Key::FrameOctets,
    Key::FrameMarker,
    Key::Taps,
    Key::Seed,
    Key::Check,
    Key::Columns,
    Key::Rows,
    Key::Delay,
    Key::Marker,
    Key::Repeat,
    Key::Rounds,
    Key::Search,
    Key::CountOctets,
    Key::Scale,
];

/// The key as it is written in a profile file.
pub fn key_name(key: Key) -> &'static str
    ensures text { result.now ≡ key_name key }
    ensures size { length result.now ≤ 12 }
{
    match key {
        Key::Order => "order",
        Key::Rate => "rate",
        Key::FrameOctets => "frame_octets",
        Key::FrameMarker => "frame_marker",
        Key::Taps => "taps",
        Key::Seed => "seed",
        Key::Check => "check",
        Key::Columns => "columns",
        Key::Rows => "rows",
        Key::Delay => "delay",
        Key::Marker => "marker",
        Key::Repeat => "repeat",
        Key::Rounds => "rounds",
        Key::Search => "search",
        Key::CountOctets => "count_octets",
        Key::Scale => "scale",
    }
}

/// Whether a profile must have the key.
fn is_required(key: Key) -> bool
    ensures { result ≡ is_required key }
{
    match key {
        Key::Order | Key::Rate => true,
        _ => false,
    }
}

/// Whether some key of a profile is written so.
fn is_key(name: &str) -> bool
    ensures { result ≡ names_key all_keys name.now }
{
    match name {
        "order" | "rate" | "frame_octets" | "frame_marker" | "taps" | "seed" | "check" => true,
        "columns" | "rows" | "delay" | "marker" | "repeat" | "rounds" | "search" => true,
        "count_octets" | "scale" => true,
        _ => false,
    }
}

/// Whether each key of the table is one of a profile.
pub fn knows_all(table: &Table) -> bool
    ensures { result ≡ list_all (λ name. names_key all_keys (string_bytes name)) (keys_of table.now.entries) }
{
    table.keys().all(|name| is_key(name.as_str()))
}

/// Whether the value is a whole number.
fn is_integer(value: &Value) -> bool
    ensures { result ≡ is_integer (view value.now) }
{
    value.as_integer().is_some()
}

/// Whether each value is a whole number.
fn are_integers(list: &Array) -> bool
    ensures { result ≡ list_all (λ value. is_integer (view value)) list.now.items }
{
    list.iter().all(|value| is_integer(value))
}

/// Whether the value is of the key's kind.
#[tactic(auto, using(crate::proofs::Tables::integers_each))]
fn is_kind(key: Key, value: &Value) -> bool
    ensures { result ≡ is_kind key (view value.now) }
{
    match key {
        Key::Rate | Key::Columns => value.as_str().is_some(),
        Key::Marker => match value.as_array() {
            Some(list) => are_integers(list),
            None => false,
        },
        _ => is_integer(value),
    }
}

/// What stands at the key.
pub fn found<'a>(table: &'a Table, key: Key) -> Option<&'a Value>
    ensures { option_map (λ value. view value.now) result ≡ get_member (key_name key) (table_view table.now) }
{
    table.get(key_name(key))
}

/// Why what stands at the key is refused, if it is.
fn refusal(table: &Table, key: Key) -> Option<ReadFault>
    ensures { result ≡ refusal_of key (get_member (key_name key) (table_view table.now)) }
{
    match found(table, key) {
        None => {
            if is_required(key) {
                Some(ReadFault::Missing(key))
            } else {
                None
            }
        }
        Some(value) => {
            if is_kind(key, value) {
                None
            } else {
                Some(ReadFault::Kind(key))
            }
        }
    }
}

/// Of keys in order, why the first is refused of those that are.
#[tactic(auto, unfolding(crate::specs::ProfileText::first_refusal))]
pub fn first_refusal(table: &Table, keys: &[Key]) -> Option<ReadFault>
    ensures { result ≡ first_refusal (table_view table.now) keys.now }
{
    for key in keys {
        if let Some(fault) = refusal(table, *key) {
            return Some(fault);
        }
    }
    None
}
