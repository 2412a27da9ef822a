//! Laws of the definitions, each as the contract of a function that does nothing.
ghost use Rattle.hpe_base.specs.Laws.{TopsAreGreatest, OneOctetIsPlain, EightEighthsAreWhole};

/// The greatest score over all words of a code, which branches over both values of every bit, is the score of a word of
/// that length with the bit that is asked for, and no such word scores more; nothing is given exactly where there is no
/// such word.
pub fn tops_are_greatest()
    ensures { TopsAreGreatest }
{}

/// With one octet a count, octets are their own counts, none is odd, no sum of them is cut, and slots are their own
/// octets.
pub fn one_octet_is_plain()
    ensures { OneOctetIsPlain }
{}

/// At scale 8 a number that one code hands to the other is as it was.
pub fn eight_eighths_are_whole()
    ensures { EightEighthsAreWhole }
{}
