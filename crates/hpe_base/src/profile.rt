//! The parameters of a link, valid by their type, and the numbers of the chain that its order and its rate give.
ghost use Rattle.std.specs.Prelude.{◌≡◌, ◌≤◌, ◌<◌, ◌*◌, ◌^◌};
ghost use Rattle.hpe_base.specs.Validity.{profile_of};
ghost use Rattle.hpe_base.specs.Parameters.{symbol_bits, positions, sending_slots, symbol_slots, codeword_symbols, code_steps, information_bits, block_bits, IsValid, basic};
ghost use Rattle.hpe_base.specs.FrameScan.{span_bits};

use crate::bits::OCTET_BITS;
use crate::fault::ProfileFault;
use crate::fields::{Fields, first_out_of_range};
use crate::values::Values;
use std::marker::Model;

/// The code bits of a codeword.
pub const CODE_BITS: usize = 15_120;

/// The greatest sum of the counts of a slot, and the greatest size of a number that one code hands to the other.
pub const CLAMP: u16 = 16_383;

/// The bits of the marker before each transfer frame.
pub const FRAME_MARKER_BITS: usize = 32;

/// The bits of the cyclic redundancy check.
pub const CHECK_BITS: usize = 32;

/// The zero bits that end the convolutional code.
pub const TERMINATION_BITS: usize = 2;

/// The order of pulse-position modulation: the number of pulse positions of a symbol.
#[derive(Clone, Copy, Debug, PartialEq, Eq)]
pub enum Order {
    /// 4 pulse positions: 2 bits a symbol.
    P4,
    /// 8 pulse positions: 3 bits a symbol.
    P8,
    /// 16 pulse positions: 4 bits a symbol.
    P16,
    /// 32 pulse positions: 5 bits a symbol.
    P32,
    /// 64 pulse positions: 6 bits a symbol.
    P64,
    /// 128 pulse positions: 7 bits a symbol.
    P128,
    /// 256 pulse positions: 8 bits a symbol.
    P256,
}

impl Order {
    /// The bits that a symbol carries, 2 to 8.
    pub fn bits(&self) -> u32
        ensures { result ≡ symbol_bits self.now }
    {
        match self {
            Order::P4 => 2,
            Order::P8 => 3,
            Order::P16 => 4,
            Order::P32 => 5,
            Order::P64 => 6,
            Order::P128 => 7,
            Order::P256 => 8,
        }
    }

    /// The pulse positions of a symbol in slots, 4 to 256, without guard slots.
    pub fn slots(&self) -> usize
        ensures { result ≡ positions self.now }
    {
        match self {
            Order::P4 => 4,
            Order::P8 => 8,
            Order::P16 => 16,
            Order::P32 => 32,
            Order::P64 => 64,
            Order::P128 => 128,
            Order::P256 => 256,
        }
    }

    /// The slots of one sending of a symbol, 5 to 320: its pulse positions, and a quarter as many guard slots.
    pub fn sending_slots(&self) -> usize
        ensures value { result ≡ sending_slots self.now }
        ensures some { 0 < result }
        ensures most { result ≤ 320 }
    {
        5 * self.slots() / 4
    }

    /// The symbols of a codeword, 1,890 to 7,560, without the codeword marker.
    pub fn symbols(&self) -> usize
        ensures { result ≡ codeword_symbols self.now }
    {
        CODE_BITS / self.bits() as usize
    }
}

/// The rate of the punctured convolutional code.
#[derive(Clone, Copy, Debug, PartialEq, Eq)]
pub enum Rate {
    /// 1/3: 5,040 steps of the convolutional code in a codeword.
    Third,
    /// 1/2: 7,560 steps.
    Half,
    /// 2/3: 10,080 steps.
    TwoThirds,
}

impl Rate {
    /// The bits that enter the convolutional code for a codeword: 5,040, 7,560 or 10,080.
    pub fn steps(&self) -> usize
        ensures { result ≡ code_steps self.now }
    {
        match self {
            Rate::Third => 5_040,
            Rate::Half => 7_560,
            Rate::TwoThirds => 10_080,
        }
    }

    /// The bits that enter the convolutional code before its termination: 5,038, 7,558 or 10,078. They are the
    /// information bits and their check.
    pub fn information(&self) -> usize
        ensures { result ≡ information_bits self.now }
    {
        self.steps() - TERMINATION_BITS
    }

    /// The information bits of a codeword: 5,006, 7,526 or 10,046.
    pub fn block(&self) -> usize
        ensures { result ≡ block_bits self.now }
    {
        self.information() - CHECK_BITS
    }
}

/// The parameters of a link. Sender and receiver need the same.
///
/// Each profile is valid: its values are within their ranges and agree with each other.
#[derive(Drop)]
pub struct Profile {
    values: Values,
}

impl Model for Profile {
    ghost use Rattle.hpe_base.specs.Parameters.{Parameters};

    ghost Value = { Parameters };

    ghost use Rattle.hpe_base.specs.View.{parameters, IsValidInside};

    ghost view = { parameters };

    ghost invariant = { IsValidInside };
}

impl Profile {
    /// The profile that fields name, or why they name none: the first key whose value is out of its range or, where
    /// there is none, the first rule between values that fails.
    #[tactic(auto, unfolding(crate::specs::Validity::profile_of))]
    pub fn new(fields: &Fields) -> Result<Profile, ProfileFault>
        ensures { result ≡ profile_of fields.now }
    {
        if let Some(key) = first_out_of_range(fields) {
            return Err(ProfileFault::Range(key));
        }
        let values = Values::of(fields);
        match values.first_broken() {
            Some(rule) => Err(ProfileFault::Tie(rule)),
            None => Ok(Profile { values }),
        }
    }

    /// The built-in profile: order 16, rate 1/3, frames of 100 octets, and every default.
    pub fn basic() -> Profile
        ensures { result ≡ basic }
    {
        Profile::new(&Fields::basic()).unwrap()
    }

    /// An equal profile.
    pub fn copy(&self) -> Profile
        ensures { result ≡ self.now }
    {
        Profile {
            values: self.values.copy(),
        }
    }

    /// The values, as they were read.
    pub(crate) fn values(&self) -> &Values
        ensures value { result.now ≡ self.now }
        ensures valid { IsValid self.now }
    {
        &self.values
    }

    /// The order of modulation.
    pub fn order(&self) -> Order
        ensures value { result ≡ self.now.order }
        ensures valid { IsValid self.now }
    {
        self.values.order
    }

    /// The rate of the code.
    pub fn rate(&self) -> Rate
        ensures value { result ≡ self.now.rate }
        ensures valid { IsValid self.now }
    {
        self.values.rate
    }

    /// The octets of a transfer frame, 1 to 65,536.
    pub fn frame_octets(&self) -> usize
        ensures value { result ≡ self.now.frame_octets }
        ensures valid { IsValid self.now }
    {
        self.values.frame_octets
    }

    /// The 32 bits that are attached before each transfer frame, not all zero.
    pub fn frame_marker(&self) -> u32
        ensures value { result ≡ self.now.frame_marker }
        ensures valid { IsValid self.now }
    {
        self.values.frame_marker
    }

    /// The taps of the pseudo-randomiser: the bit of value `2^i` selects the bit that stands `8 - i` places back.
    pub fn taps(&self) -> u8
        ensures value { result ≡ self.now.taps }
        ensures valid { IsValid self.now }
    {
        self.values.taps
    }

    /// The first eight bits of the pseudo-random sequence, most significant first.
    pub fn seed(&self) -> u8
        ensures value { result ≡ self.now.seed }
        ensures valid { IsValid self.now }
    {
        self.values.seed
    }

    /// The lower 32 coefficients of the check's generator, highest power first; the coefficient of `x^32` is 1.
    pub fn check(&self) -> u32
        ensures value { result ≡ self.now.check }
        ensures valid { IsValid self.now }
    {
        self.values.check
    }

    /// The puncturing columns, 1 to 12: which of a step's three code bits are kept. They serve in turn.
    pub fn columns(&self) -> &[[bool; 3]]
        ensures value { result.now ≡ self.now.columns }
        ensures valid { IsValid self.now }
    {
        self.values.columns.as_slice()
    }

    /// The rows of the channel interleaver, 1 to 64. They divide the symbols of a codeword.
    pub fn rows(&self) -> usize
        ensures value { result ≡ self.now.rows }
        ensures valid { IsValid self.now }
    {
        self.values.rows
    }

    /// By how many turns of the channel interleaver each row delays more than the row before it, 1 to 8,388,608.
    pub fn delay(&self) -> usize
        ensures value { result ≡ self.now.delay }
        ensures valid { IsValid self.now }
    {
        self.values.delay
    }

    /// The symbols of the codeword marker, 1 to 64, each below the order's slots.
    pub fn marker(&self) -> &[u8]
        ensures value { result.now ≡ self.now.marker }
        ensures valid { IsValid self.now }
    {
        self.values.marker.as_slice()
    }

    /// How often each symbol is sent, 1 to 32.
    pub fn repeat(&self) -> usize
        ensures value { result ≡ self.now.repeat }
        ensures valid { IsValid self.now }
    {
        self.values.repeat
    }

    /// The most rounds that the decoder makes for a codeword, 1 to 64.
    pub fn rounds(&self) -> u32
        ensures value { result ≡ self.now.rounds }
        ensures valid { IsValid self.now }
    {
        self.values.rounds
    }

    /// The most periods that the marker search adds up, 1 to 4.
    pub fn search(&self) -> usize
        ensures value { result ≡ self.now.search }
        ensures valid { IsValid self.now }
    {
        self.values.search
    }

    /// The octets of a slot in a slot file and of a count in a count file, 1 or 2, the high octet first.
    pub fn count_octets(&self) -> usize
        ensures value { result ≡ self.now.count_octets }
        ensures valid { IsValid self.now }
    {
        self.values.count_octets
    }

    /// By how many eighths a number is multiplied that one code hands to the other, 1 to 8.
    pub fn scale(&self) -> u32
        ensures value { result ≡ self.now.scale }
        ensures valid { IsValid self.now }
    {
        self.values.scale
    }

    /// The bits of a transfer frame with its marker, 40 to 524,320.
    pub fn span_bits(&self) -> usize
        ensures value { result ≡ span_bits self.now }
        ensures low { 40 ≤ result }
        ensures high { result ≤ 2 ^ 20 }
    {
        FRAME_MARKER_BITS + OCTET_BITS * self.values.frame_octets
    }

    /// The slots of a symbol with its repeats and guard slots, 5 to 10,240.
    pub fn symbol_slots(&self) -> usize
        ensures value { result ≡ symbol_slots self.now }
        ensures some { 0 < result }
        ensures most { result ≤ 10240 }
    {
        self.values.symbol_slots()
    }

    /// The octets of the slots of a symbol, 5 to 20,480.
    pub fn symbol_octets(&self) -> usize
        ensures value { result ≡ self.now.count_octets * symbol_slots self.now }
        ensures some { 0 < result }
        ensures most { result ≤ 20480 }
    {
        self.values.count_octets * self.symbol_slots()
    }
}
