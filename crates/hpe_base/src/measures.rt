//! The measures of a link, which follow from its profile.
ghost use Rattle.std.specs.Prelude.{◌≡◌};
ghost use Rattle.hpe_base.specs.Geometry.{measures_of};
ghost use Rattle.hpe_base.specs.Parameters.{IsValid};

use crate::profile::Profile;

/// The measures of a link.
#[derive(Clone, Copy, Debug, PartialEq, Eq)]
pub struct Measures {
    /// The bits that enter the convolutional code for a codeword.
    pub steps: usize,
    /// The information bits of a codeword.
    pub block: usize,
    /// The symbols of a codeword, without the codeword marker.
    pub symbols: usize,
    /// The slots of a symbol, with its repeats and guard slots.
    pub symbol_slots: usize,
    /// The slots of the codeword marker.
    pub marker_slots: usize,
    /// The slots of a period: the codeword marker and a codeword.
    pub period: usize,
    /// By how many symbols the channel interleaver and its inverse together delay.
    pub depth: usize,
    /// The codewords of symbol 0 that flush the channel interleaver.
    pub flush: usize,
}

/// The measures of the profile's link. It takes no memory.
pub fn geometry(p: &Profile) -> Measures
    ensures value { result ≡ measures_of p.now }
    ensures valid { IsValid p.now }
{
    let values = p.values();
    let symbols = p.order().symbols();
    let symbol_slots = p.symbol_slots();
    let depth = values.depth();
    Measures {
        steps: p.rate().steps(),
        block: p.rate().block(),
        symbols,
        symbol_slots,
        marker_slots: p.marker().len() * symbol_slots,
        period: values.period(),
        depth,
        flush: depth.div_ceil(symbols),
    }
}
