//! Profile files: TOML documents that name the parameters of a link.
#![tactic(auto)]

mod fault;
mod keys;
mod read;
#[cfg(test)]
mod tests;
mod values;

pub use fault::ReadFault;
pub use keys::key_name;
pub use read::read_profile;
