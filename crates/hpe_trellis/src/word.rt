//! What the recursions run over: a word, and the steps of a window with the rows that the forward one made.
//!
//! They go together from the recursions down to a window, so each is a struct that is passed as one. The compiler takes
//! them apart again.

/// A word of the outer code: the puncturing columns, which serve in turn, and a number for each code bit that they
/// keep.
#[derive(Clone, Copy)]
pub struct Word<'a> {
    pub columns: &'a [[bool; 3]],
    pub l: &'a [i32],
}

/// The steps of a window: the first, how many there are, and the rows before them.
#[derive(Clone, Copy)]
pub struct Span<'a> {
    pub start: usize,
    pub count: usize,
    pub rows: &'a [[i32; 4]],
}
