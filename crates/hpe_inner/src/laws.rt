//! The law of the sizes of inner scores, as the contract of a function that does nothing.
ghost use Rattle.hpe_inner.specs.Laws.{InnerScoresAreBounded};

/// With counts of at most 16,383 and a-priori numbers of at most that size, for as many symbols as a codeword has at
/// most, every word's score is within 371,566,440 in size, and two words' scores differ by at most 619,277,400. What
/// the forward sweep starts the other state with, -2^30, is less than any word's score by more than that.
pub fn inner_scores_are_bounded()
    ensures { InnerScoresAreBounded }
{}
