//! Why frames were not sent, or counts not received.
//!
//! `?` makes one of each error that a call may answer. Each `From` says which, so that a contract can name it.
ghost use Rattle.std.specs.Prelude.{◌≡◌};
ghost use Rattle.hpe_uses.specs.declared.fault.UseFault.TheVariants.{NoMemory as Memory, Unreceived, Unsent};

use hpe_base::NoMemory;
use hpe_recv::RecvFault;
use hpe_send::SendFault;
use thiserror::Error;

/// The most octets of frames or of counts that are taken, which is the greatest limit that there is.
pub const LIMIT: u64 = 1 << 40;

/// Why frames were not sent, or counts not received.
#[derive(Clone, Copy, Debug, PartialEq, Eq, Error)]
pub enum UseFault {
    /// There is too little memory.
    #[error("there is too little memory")]
    NoMemory,
    /// Not all was sent.
    #[error("not all was sent: {0}")]
    Unsent(SendFault),
    /// Not all was received, or there was nothing to receive.
    #[error("not all was received: {0}")]
    Unreceived(RecvFault),
}

impl From<NoMemory> for UseFault {
    ghost from_gives = { λ _ fault. fault ≡ Memory };

    fn from(_: NoMemory) -> UseFault {
        UseFault::NoMemory
    }
}

impl From<hpe_io::NoMemory> for UseFault {
    ghost from_gives = { λ _ fault. fault ≡ Memory };

    fn from(_: hpe_io::NoMemory) -> UseFault {
        UseFault::NoMemory
    }
}

impl From<SendFault> for UseFault {
    ghost from_gives = { λ cause fault. fault ≡ Unsent cause };

    fn from(cause: SendFault) -> UseFault {
        UseFault::Unsent(cause)
    }
}

impl From<RecvFault> for UseFault {
    ghost from_gives = { λ cause fault. fault ≡ Unreceived cause };

    fn from(cause: RecvFault) -> UseFault {
        UseFault::Unreceived(cause)
    }
}
