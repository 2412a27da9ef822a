//! Why a text names no profile.
use hpe_base::{Key, ProfileFault};
use thiserror::Error;

/// Why a text names no profile. Causes are looked for in this order, and the keys in that of [`Key`].
#[derive(Clone, Copy, Debug, PartialEq, Eq, Error)]
pub enum ReadFault {
    /// The octets are no TOML document.
    #[error("no document")]
    Text,
    /// The table has a key that no profile has.
    #[error("an unknown key")]
    Unknown,
    /// The table lacks a key that has no default.
    #[error("a missing key")]
    Missing(Key),
    /// The value of a key is not of its kind: a whole number, a text or a list of whole numbers.
    #[error("a value of another kind")]
    Kind(Key),
    /// The values make no profile.
    #[error("values that make no profile")]
    Profile(ProfileFault),
    /// Memory ran out.
    #[error("out of memory")]
    NoMemory,
}
