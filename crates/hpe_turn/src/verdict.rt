//! What becomes of a word.

/// What became of a word.
#[derive(Clone, Copy, Debug, PartialEq, Eq)]
pub enum Verdict {
    /// The word was right in this round, the first of which is number 1.
    Kept { round: u32 },
    /// No round was right.
    Lost,
}
