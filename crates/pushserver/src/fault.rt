//! Why a call of the hub doesn't do its work.

ghost use Rattle.std.specs.Prelude.{◌≡◌};
ghost use Rattle.pushserver.specs.declared.fault.HubFault.TheVariants as faults;
ghost use Rattle.pushserver.specs.declared.fault.ConnectFault.TheVariants as connects;

use std::alloc::{AllocError, AllocFailed};
use thiserror::Error;

/// Why the hub enters nothing.
#[derive(Clone, Copy, Debug, PartialEq, Eq, Error)]
pub enum HubFault {
    /// Memory ran out.
    #[error("out of memory")]
    NoMemory,
}

impl From<AllocError> for HubFault {
    ghost from_gives = { λ _ e. e ≡ faults.NoMemory };

    fn from(_e: AllocError) -> HubFault {
        HubFault::NoMemory
    }
}

/// Why no session is connected.
#[derive(Clone, Copy, Debug, PartialEq, Eq, Error)]
pub enum ConnectFault {
    /// There are as many sessions as there may be, or all numbers were given out.
    #[error("no seat for a further session")]
    NoSeat,
    /// Memory ran out.
    #[error("out of memory")]
    NoMemory,
}

impl From<AllocError> for ConnectFault {
    ghost from_gives = { λ _ e. e ≡ connects.NoMemory };

    fn from(_e: AllocError) -> ConnectFault {
        ConnectFault::NoMemory
    }
}

impl<T: Drop> From<AllocFailed<T>> for ConnectFault {
    ghost from_gives = { λ _ e. e ≡ connects.NoMemory };

    fn from(_e: AllocFailed<T>) -> ConnectFault {
        ConnectFault::NoMemory
    }
}
