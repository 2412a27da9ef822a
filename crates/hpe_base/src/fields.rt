//! The fields of a profile as they are written, the range of each, and what it reads as.
ghost use Rattle.std.specs.Prelude.{◌≡◌, ◌<◌, length, IsTrue, map, unsigned_abs, Ok};
ghost use Rattle.std.specs.List.{list_all};
ghost use Rattle.hpe_base.specs.Validity.{within, order_of, rate_of, columns_of, is_check, is_column_character, is_columns, is_marker, first_out_of_range, profile_of};
ghost use Rattle.hpe_base.specs.Parameters.{basic};

use crate::fault::{Key, first_failing};
use crate::profile::{Order, Rate};
use arrayvec::ArrayVec;

/// The puncturing columns that a profile has room for.
pub const MOST_COLUMNS: usize = 12;

/// The symbols of a codeword marker that a profile has room for.
pub const MOST_MARKER_SYMBOLS: usize = 64;

/// The fields of a profile, one for each key: whole numbers and texts, as a profile file has them.
///
/// [`Fields::basic`] has every default, so that a profile names what differs: `Fields { order: 64, ..Fields::basic() }`,
/// with a marker of its own where the order asks for one.
#[derive(Clone, Copy, Debug)]
pub struct Fields<'a> {
    /// The pulse positions of a symbol: 4, 8, 16, 32, 64, 128 or 256.
    pub order: i64,
    /// The rate of the convolutional code: `1/3`, `1/2` or `2/3`.
    pub rate: &'a str,
    /// The octets of a transfer frame, 1 to 65,536.
    pub frame_octets: i64,
    /// The 32 bits before each transfer frame, as a number of 1 to 4,294,967,295, most significant bit first.
    pub frame_marker: i64,
    /// The taps of the pseudo-randomiser, 0 to 255: the bit of value `2^i` selects the bit that stands `8 - i` places back.
    pub taps: i64,
    /// The first eight bits of the pseudo-random sequence, as a number of 0 to 255, most significant bit first.
    pub seed: i64,
    /// The lower 32 coefficients of the check's generator, as an odd number of 1 to 4,294,967,295, highest power first.
    pub check: i64,
    /// The puncturing columns: 1 to 12 groups of three characters `0` or `1`, one space between two groups. Each group has
    /// the flags of the three code bits of a step.
    pub columns: &'a str,
    /// The rows of the channel interleaver, 1 to 64.
    pub rows: i64,
    /// By how many turns each row of the channel interleaver delays more than the row before it, 1 to 8,388,608.
    pub delay: i64,
    /// The symbols of the codeword marker, 1 to 64 of them, each 0 to 255 and below the order.
    pub marker: &'a [i64],
    /// How often each symbol is sent, 1 to 32.
    pub repeat: i64,
    /// The most rounds that the decoder makes for a codeword, 1 to 64.
    pub rounds: i64,
    /// The most periods that the marker search adds up, 1 to 4.
    pub search: i64,
    /// The octets of a slot in a slot file and of a count in a count file, 1 or 2, the high octet first.
    pub count_octets: i64,
    /// By how many eighths an extrinsic value is multiplied, 1 to 8.
    pub scale: i64,
}

/// The codeword marker of the built-in profile: symbol `i` is `5 i (i + 1) / 2` modulo 16.
const BASIC_MARKER: [i64; 16] = [0, 5, 15, 14, 2, 11, 9, 12, 4, 1, 3, 10, 6, 7, 13, 8];

impl Fields<'_> {
    /// The fields of the built-in profile.
    pub fn basic() -> Fields<'static>
        ensures { profile_of result ≡ Ok basic }
    {
        Fields {
            order: 16,
            rate: "1/3",
            frame_octets: 100,
            frame_marker: 0x1ACF_FC1D,
            taps: 0xA9,
            seed: 255,
            check: 0x2004_4009,
            columns: "111",
            rows: 1,
            delay: 1,
            marker: &BASIC_MARKER,
            repeat: 1,
            rounds: 16,
            search: 1,
            count_octets: 1,
            scale: 8,
        }
    }
}

impl Order {
    /// The order of that many pulse positions, if there is one.
    pub fn from_number(number: &i64) -> Option<Order>
        ensures { result ≡ order_of number.now }
    {
        match *number {
            4 => Some(Order::P4),
            8 => Some(Order::P8),
            16 => Some(Order::P16),
            32 => Some(Order::P32),
            64 => Some(Order::P64),
            128 => Some(Order::P128),
            256 => Some(Order::P256),
            _ => None,
        }
    }
}

impl Rate {
    /// The rate of that name, if there is one.
    pub fn from_text(text: &str) -> Option<Rate>
        ensures { result ≡ rate_of text.now }
    {
        match text {
            "1/3" => Some(Rate::Third),
            "1/2" => Some(Rate::Half),
            "2/3" => Some(Rate::TwoThirds),
            _ => None,
        }
    }
}

/// Whether the number is one of `low` to `high`.
fn is_within(number: &i64, low: u32, high: u32) -> bool
    ensures { result ≡ within low high number.now }
{
    low as i64 <= *number && *number <= high as i64
}

/// A number without its sign.
pub fn natural(number: &i64) -> u64
    ensures { result ≡ unsigned_abs number.now }
{
    number.unsigned_abs()
}

/// Whether the number is one that the check's generator may have: odd, of 32 bits.
fn is_check(number: &i64) -> bool
    ensures { result ≡ is_check number.now }
{
    is_within(number, 1, u32::MAX) && number.unsigned_abs() % 2 == 1
}

/// Whether the character at a place of a text of columns is right: each fourth is a space, each other a flag.
fn is_column_character(text: &[u8], place: usize) -> bool
    requires { place < length text.now }
    ensures { result ≡ is_column_character text.now place }
{
    let character = text[place];
    if place % 4 == 3 {
        character == b' '
    } else {
        character == b'0' || character == b'1'
    }
}

/// Whether the text is 1 to 12 groups of three flags, with one space between two groups and nothing else.
fn is_columns(text: &str) -> bool
    ensures { result ≡ is_columns text.now }
{
    let text = text.as_bytes();
    if text.len() % 4 != 3 || text.len() > 4 * MOST_COLUMNS - 1 {
        return false;
    }
    for place in 0..text.len() {
        if !is_column_character(text, place) {
            return false;
        }
    }
    true
}

/// The puncturing columns that a text writes.
pub fn columns_of(text: &str) -> ArrayVec<[bool; 3], MOST_COLUMNS>
    requires { IsTrue (is_columns text.now) }
    ensures { result.items ≡ columns_of text.now }
{
    let text = text.as_bytes();
    let mut columns = ArrayVec::new();
    for group in 0..(text.len() + 1) / 4 {
        let at = 4 * group;
        columns.push([text[at] == b'1', text[at + 1] == b'1', text[at + 2] == b'1']);
    }
    columns
}

/// Whether each number is an octet.
fn are_octets(numbers: &[i64]) -> bool
    ensures { result ≡ list_all (within 0 255) numbers.now }
{
    numbers.iter().all(|number| is_within(number, 0, 255))
}

/// Whether the numbers are 1 to 64 octets.
fn is_marker(numbers: &[i64]) -> bool
    ensures { result ≡ is_marker numbers.now }
{
    !numbers.is_empty() && numbers.len() <= MOST_MARKER_SYMBOLS && are_octets(numbers)
}

/// The symbols of a codeword marker.
pub fn marker_of(numbers: &[i64]) -> ArrayVec<u8, MOST_MARKER_SYMBOLS>
    requires { IsTrue (is_marker numbers.now) }
    ensures { result.items ≡ map unsigned_abs numbers.now }
{
    let mut marker = ArrayVec::new();
    for number in numbers {
        marker.push(number.unsigned_abs() as u8);
    }
    marker
}

/// The first key whose value is out of its range.
pub fn first_out_of_range(fields: &Fields) -> Option<Key>
    ensures { result ≡ first_out_of_range fields.now }
{
    first_failing(&[
        (Key::Order, Order::from_number(&fields.order).is_some()),
        (Key::Rate, Rate::from_text(fields.rate).is_some()),
        (Key::FrameOctets, is_within(&fields.frame_octets, 1, 65_536)),
        (
            Key::FrameMarker,
            is_within(&fields.frame_marker, 1, u32::MAX),
        ),
        (Key::Taps, is_within(&fields.taps, 0, 255)),
        (Key::Seed, is_within(&fields.seed, 0, 255)),
        (Key::Check, is_check(&fields.check)),
        (Key::Columns, is_columns(fields.columns)),
        (Key::Rows, is_within(&fields.rows, 1, 64)),
        (Key::Delay, is_within(&fields.delay, 1, 8_388_608)),
        (Key::Marker, is_marker(fields.marker)),
        (Key::Repeat, is_within(&fields.repeat, 1, 32)),
        (Key::Rounds, is_within(&fields.rounds, 1, 64)),
        (Key::Search, is_within(&fields.search, 1, 4)),
        (Key::CountOctets, is_within(&fields.count_octets, 1, 2)),
        (Key::Scale, is_within(&fields.scale, 1, 8)),
    ])
}
