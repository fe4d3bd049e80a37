//! Why a subscriber stopped before an ending was said.

use push_base::NoMemory;

/// Why a subscriber stopped before an ending was said.
#[derive(Clone, Copy, PartialEq, Eq)]
pub(crate) enum Fault {
    /// A read of the line failed.
    Read,
    /// A write to the wire or to the output failed.
    Write,
    /// Memory ran out.
    NoMemory,
}

impl From<NoMemory> for Fault {
    ghost use Rattle.std.specs.Prelude.{◌≡◌};
    ghost use Rattle.subscriber.specs.declared.fault.Fault.TheVariants as faults;

    ghost from_gives = { λ _ e. e ≡ faults.NoMemory };

    fn from(_: NoMemory) -> Self {
        Fault::NoMemory
    }
}
