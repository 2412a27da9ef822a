//! Laws, each as the contract of a function that does nothing.
ghost use Rattle.hpe_witness.specs.Laws.{BestWordsAreBest, PathAnswersAreUnique, RecordAnswersAreUnique, RecordsAreAnsweredAsPaths};

/// What `write_record` wrote is answered by `check_record` as its path is by `check_path`.
pub fn records_are_answered_as_paths()
    ensures { RecordsAreAnsweredAsPaths }
{}

/// Of the words of n bits none scores more than the best word, and it comes before the others that score as much when
/// they are read from the last bit to the first.
pub fn best_words_are_best()
    ensures { BestWordsAreBest }
{}

/// One answer holds for a path and one for a record, so that `check_path` and `check_record` answer each fault exactly
/// where it is the first that holds.
pub fn answers_are_unique()
    ensures path { PathAnswersAreUnique }
    ensures record_of { RecordAnswersAreUnique }
{}
