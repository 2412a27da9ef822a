// What stands at one place of the bits of a scan: the span of a frame marker and a frame.
//
// A search looks at a span for each bit, so a look begins with the marker, of which mostly a few bits are compared.
ghost use Rattle.std.specs.Prelude.{◌≡◌, ◌≤◌, ◌+◌, ◌*◌, ◌↔◌, length, take, IsTrue};
ghost use Rattle.hpe_base.specs.Bits.{AreBits, bits_of};
ghost use Rattle.hpe_base.specs.FrameScan.{all_known, has_marker, span_bits, octets_of};
ghost use Rattle.hpe_frame.specs.Looking.{look_of};

use hpe_base::bits::{OCTET_BITS, bit_of, number_of};
use hpe_base::{FRAME_MARKER_BITS, Profile};

/// The least number that stands for no bit.
pub(crate) const UNKNOWN: u8 = 2;

/// What stands at the place of a scan.
#[derive(Clone, Copy)]
pub(crate) enum Look {
    /// A marker and a frame.
    Frame,
    /// On the grid a span that isn't known: there may be a frame.
    Gap,
    /// Neither.
    Other,
}

/// Whether bits begin with those of a marker.
fn is_marked(marker: u32, bits: &[u8]) -> bool
    requires { 32 ≤ length bits.now }
    ensures { IsTrue result ↔ (take 32 bits.now ≡ bits_of 32 marker) }
{
    for i in 0..FRAME_MARKER_BITS {
        if bits[i] != bit_of(marker, FRAME_MARKER_BITS, i) {
            return false;
        }
    }
    true
}

/// Whether each bit is known.
fn is_known(bits: &[u8]) -> bool
    ensures { result ≡ all_known bits.now }
{
    for bit in bits {
        if *bit >= UNKNOWN {
            return false;
        }
    }
    true
}

/// Looks at a span of bits.
pub(crate) fn look_at(p: &Profile, grid: bool, span: &[u8]) -> Look
    requires { length span.now ≡ span_bits p.now }
    ensures value { result ≡ look_of grid (all_known span.now) (has_marker p.now span.now) }
    ensures known { result ≡ Look.Frame → AreBits span.now }
{
    let marked = is_marked(p.frame_marker(), span);
    if !marked && !grid {
        Look::Other
    } else if !is_known(span) {
        if grid { Look::Gap } else { Look::Other }
    } else if marked {
        Look::Frame
    } else {
        Look::Other
    }
}

/// Writes the octets that bits write.
pub(crate) fn fill_octets(bits: &[u8], into: &mut [u8])
    requires bits { AreBits bits.now }
    requires size { length bits.now ≡ 8 * length into.old }
    ensures { into.new ≡ octets_of bits.now }
{
    for i in 0..into.len() {
        into[i] = number_of(&bits[i * OCTET_BITS..i * OCTET_BITS + OCTET_BITS]);
    }
}
