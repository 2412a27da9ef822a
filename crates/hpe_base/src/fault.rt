//! Why fields make no profile.
ghost use Rattle.std.specs.Prelude.{◌≡◌};
ghost use Rattle.hpe_base.specs.Validity.{first_failing};

use thiserror::Error;

/// The keys of a profile, in the order in which their ranges are tested.
#[derive(Clone, Copy, Debug, PartialEq, Eq)]
pub enum Key {
    /// The order of modulation: 4, 8, 16, 32, 64, 128 or 256 pulse positions.
    Order,
    /// The rate of the convolutional code: `1/3`, `1/2` or `2/3`.
    Rate,
    /// The octets of a transfer frame, 1 to 65,536.
    FrameOctets,
    /// The marker before each transfer frame, as a number of 32 bits other than 0.
    FrameMarker,
    /// The taps of the pseudo-randomiser, 0 to 255.
    Taps,
    /// The first eight bits of the pseudo-random sequence, 0 to 255.
    Seed,
    /// The lower 32 coefficients of the check's generator, an odd number.
    Check,
    /// The puncturing columns, 1 to 12 groups of three flags.
    Columns,
    /// The rows of the channel interleaver, 1 to 64.
    Rows,
    /// The delay of a row of the channel interleaver over the row before it, 1 to 8,388,608 turns.
    Delay,
    /// The codeword marker, 1 to 64 symbols of 0 to 255.
    Marker,
    /// The sendings of a symbol, 1 to 32.
    Repeat,
    /// The most rounds of the decoder for a codeword, 1 to 64.
    Rounds,
    /// The most periods that the marker search adds up, 1 to 4.
    Search,
    /// The octets of a slot or a count, 1 or 2.
    CountOctets,
    /// The scale of extrinsic values, 1 to 8 eighths.
    Scale,
}

/// The rules between the values of a profile, in the order in which they are tested.
#[derive(Clone, Copy, Debug, PartialEq, Eq)]
pub enum Rule {
    /// Each puncturing column keeps a code bit.
    ColumnEmpty,
    /// The number of puncturing columns divides the steps of the convolutional code in a codeword.
    ColumnCount,
    /// The puncturing columns keep 15,120 code bits of a codeword.
    KeptTotal,
    /// The rows of the channel interleaver divide the symbols of a codeword.
    RowsDivide,
    /// Each symbol of the codeword marker is below the order.
    MarkerValue,
    /// The slots of all symbols that the channel interleaver delays are at most 67,108,864.
    Depth,
    /// The slots of all periods that the marker search adds up are at most 67,108,864.
    Window,
}

/// Why fields make no profile: the first key whose value is out of its range or, where all are within their ranges,
/// the first rule between values that fails.
#[derive(Clone, Copy, Debug, PartialEq, Eq, Error)]
pub enum ProfileFault {
    /// This is the first key whose value is out of its range.
    #[error("a value out of its range")]
    Range(Key),
    /// All values are within their ranges, and this is the first rule that fails.
    #[error("a rule between values that fails")]
    Tie(Rule),
}

/// Of tests in order, what stands beside the first that fails.
#[tactic(auto, unfolding(crate::specs::Validity::first_failing))]
pub fn first_failing<T: Copy>(tests: &[(T, bool)]) -> Option<T>
    ensures { result ≡ first_failing tests.now }
{
    for test in tests {
        if !test.1 {
            return Some(test.0);
        }
    }
    None
}
