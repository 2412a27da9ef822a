//! The counts of the slots as they are received.
//!
//! Octets become counts in one place, so that all else sees counts alone. The sendings of a symbol are added up place by
//! place, and guard slots are left out.
ghost use Rattle.std.specs.Prelude.{◌≡◌, ◌≤◌, ◌<◌, ◌+◌, ◌*◌, ℕ, length, slice_index, sum, min, All};
ghost use Rattle.hpe_base.specs.Lists.{tabulate};
ghost use Rattle.hpe_base.specs.Parameters.{clamp, positions, sending_slots, symbol_slots};
ghost use Rattle.hpe_base.specs.Counts.{counts_of};
ghost use Rattle.hpe_base.specs.MarkerSearch.{marker_sum};
ghost use Rattle.hpe_base.specs.ReceivedWords.{symbol_sums};

use byteorder::{BigEndian, ByteOrder};
use hpe_base::{CLAMP, Profile};

/// Reads counts of which each is one octet.
pub fn widen(octets: &[u8], counts: &mut [u16])
    requires { length counts.old ≡ length octets.now }
    ensures { counts.new ≡ octets.now }
{
    for (i, count) in counts.iter_mut().enumerate() {
        *count = u16::from(octets[i]);
    }
}

/// Reads whole counts: `counts` becomes those that the octets write, each of one octet or of two, the high octet first.
pub fn read_counts(p: &Profile, octets: &[u8], counts: &mut [u16])
    requires { length octets.now ≡ p.now.count_octets * length counts.old }
    ensures { counts.new ≡ counts_of p.now octets.now }
{
    if p.count_octets() == 1 {
        widen(octets, counts);
    } else {
        BigEndian::read_u16_into(octets, counts);
    }
}

/// Makes sums of the counts of one sending, position by position. One that passes 16,383 is cut there.
fn cut_counts(counts: &[u16], sums: &mut [u16])
    requires size { length counts.now ≡ length sums.old }
    ensures { (v : ℕ) → v < length sums.old → slice_index sums.new v ≡ min clamp (slice_index counts.now v) }
{
    for (v, sum) in sums.iter_mut().enumerate() {
        *sum = counts[v].min(CLAMP);
    }
}

/// Adds the counts of one sending to the sums, position by position. A sum that passes 16,383 is cut there.
fn add_counts(counts: &[u16], sums: &mut [u16])
    requires size { length counts.now ≡ length sums.old }
    ensures { (v : ℕ) → v < length sums.old
        → slice_index sums.new v ≡ min clamp (slice_index sums.old v + slice_index counts.now v) }
{
    for (v, sum) in sums.iter_mut().enumerate() {
        *sum = sum.saturating_add(counts[v]).min(CLAMP);
    }
}

/// Adds up the sendings of one symbol: each place of `into` becomes the sum of the counts at that pulse position, or
/// 16,383 where the sum is more.
///
/// `slots` has a count for each slot of the symbol, as many as [`Profile::symbol_slots`] says, and `into` a place for each pulse
/// position of the order. Guard slots are left out.
///
/// This is the receiver's side of the repeater. It is called for each symbol that is received, so it only adds.
pub fn gather(p: &Profile, slots: &[u16], into: &mut [u16])
    requires slots { length slots.now ≡ symbol_slots p.now }
    requires into { length into.old ≡ positions p.now.order }
    ensures value { into.new ≡ symbol_sums p.now slots.now 0 }
    ensures most { All (λ s. s ≤ clamp) into.new }
{
    let size = p.order().sending_slots();
    let positions = p.order().slots();
    cut_counts(&slots[..positions], into);
    let mut start = size;
    for _ in 1..p.repeat() {
        add_counts(&slots[start..start + positions], into);
        start += size;
    }
}

/// The sum of the counts at the pulses of one symbol. `slots` holds its `repeat` sendings, of `size` slots each.
fn pulse_sum(symbol: u8, repeat: usize, size: usize, slots: &[u16]) -> u32
    requires symbol { symbol < size }
    requires repeat { repeat ≤ 32 }
    requires slots { length slots.now ≡ repeat * size }
    ensures value { result ≡ sum (tabulate repeat (λ i. slice_index slots.now (i * size + symbol))) }
    ensures most { result ≤ 32 * 65535 }
{
    let mut total = 0;
    let mut place = symbol as usize;
    for _ in 0..repeat {
        total += u32::from(slots[place]);
        place += size;
    }
    total
}

/// How much a window looks like the codeword marker: the sum of the counts at the marker's pulses, all repeats included,
/// at most 134,215,680.
///
/// `window` has a count for each slot of the marker, [`Profile::symbol_slots`] for each of its symbols.
///
/// This is one term of the search for the codeword marker, which adds such windows a period apart.
pub fn marker_score(p: &Profile, window: &[u16]) -> u32
    requires { length window.now ≡ length p.now.marker * symbol_slots p.now }
    ensures value { result ≡ marker_sum p.now window.now 0 }
    ensures most { result ≤ 64 * 32 * 65535 }
{
    let repeat = p.repeat();
    let size = p.order().sending_slots();
    let symbol_size = p.symbol_slots();
    let mut score = 0;
    let mut start = 0;
    for symbol in p.marker() {
        score += pulse_sum(*symbol, repeat, size, &window[start..start + symbol_size]);
        start += symbol_size;
    }
    score
}
