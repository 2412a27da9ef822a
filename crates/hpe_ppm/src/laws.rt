// Laws of the stages, each as the contract of a function that does nothing.
ghost use Rattle.hpe_ppm.specs.Laws.{MapperIsInvertible, InnerCodeIsOneToOne, InnerCodeIsOnto};

/// `symbols_of` and `bits_of` undo each other, in either order: at any order of modulation, for bits that fill whole
/// symbols and for symbols that are pulse positions.
pub fn mapper_is_invertible()
    ensures { MapperIsInvertible }
{}

/// No two lists of bits of one length, in whole symbols, have the same symbols after `accumulate` and `symbols_of`.
pub fn inner_code_is_one_to_one()
    ensures { InnerCodeIsOneToOne }
{}

/// Each list of pulse positions comes, by `accumulate` and `symbols_of`, from some bits that fill as many symbols.
pub fn inner_code_is_onto()
    ensures { InnerCodeIsOnto }
{}
