//! The want of memory.
use thiserror::Error;

/// The want of memory, in a call that nothing else can refuse.
#[derive(Clone, Copy, Debug, PartialEq, Eq, Error)]
#[error("no memory")]
pub struct NoMemory;
