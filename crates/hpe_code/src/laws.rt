// Laws of the stages, each as the contract of a function that does nothing.
ghost use Rattle.hpe_code.specs.Laws.{CodeIsOneToOne, DeinterleaveUndoesInterleave, InterleaveUndoesDeinterleave, InterleaverIsPermutation};

/// No two lists of bits of one length have the same code bits, where each puncturing column keeps an output.
pub fn code_is_one_to_one()
    ensures { CodeIsOneToOne }
{}

/// `CodeTables::pi` permutes the 15,120 places of a codeword, and `CodeTables::pi_inverse` is its inverse.
pub fn interleaver_is_a_permutation()
    ensures { InterleaverIsPermutation }
{}

/// `CodeTables::interleave` and `CodeTables::deinterleave` undo each other, in either order and for values of any type.
pub fn moves_undo_each_other<V>()
    ensures there_and_back { DeinterleaveUndoesInterleave V }
    ensures back_and_there { InterleaveUndoesDeinterleave V }
{}
