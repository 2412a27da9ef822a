//! What the sweeps run over: a word, and a window of its stages.
//!
//! They go together from the sweeps down to a stage, so each is a struct that is passed as one. The compiler takes them
//! apart again where a sweep stands in one piece.

use hpe_base::Order;

/// A word of the inner code: the counts at the pulse positions of its symbols, and the a-priori numbers of their bits.
#[derive(Clone, Copy)]
pub struct Word<'a> {
    pub order: Order,
    /// How many symbols the word has.
    pub symbols: usize,
    /// A count for each pulse position of each symbol.
    pub counts: &'a [u16],
    /// A number for each bit of each symbol.
    pub l: &'a [i32],
}

/// The stages of a window: the first, and how many there are.
#[derive(Clone, Copy)]
pub struct Span {
    pub start: usize,
    pub count: usize,
}
