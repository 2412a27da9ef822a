//! The law of the sizes of outer scores, as the contract of a function that does nothing.
ghost use Rattle.hpe_trellis.specs.Laws.{OuterScoresAreBounded};

/// With a-priori numbers of at most 16,383 in size for at most 15,120 code bits, every free word's score is within
/// 247,710,960 in size, and so are two words' scores of each other. What the recursions start the other states with,
/// -500,000,000, is less than any word's score by more than that.
pub fn outer_scores_are_bounded()
    ensures { OuterScoresAreBounded }
{}
