//! One codeword: the stages from a block of information bits to the symbols that carry it.
#![tactic(auto)]

#[cfg(test)]
mod tests;
mod word;

pub use word::encode_word;
