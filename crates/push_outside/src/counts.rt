//! The counts of an outside.

ghost use Rattle.std.specs.Prelude.{◌≡◌};
ghost use Rattle.push_outside.specs.Opening.{CountsFailure};
ghost use Rattle.push_outside.specs.Outside.{RaisedBy};
ghost use Rattle.push_outside.specs.MemOutside.{failures_after, is_starved as is_starved_by, raised_by as count_raised_by};

use crate::OpenFault;

/// A count after a call that makes an object.
pub(crate) fn counted<T>(count: u64, made: &Result<T, OpenFault>) -> u64
    ensures counts { CountsFailure count result made.now }
    ensures exact { result ≡ failures_after count made.now }
{
    match made {
        Err(OpenFault::Failed) => count.saturating_add(1),
        Ok(_) | Err(OpenFault::NoMemory) => count,
    }
}

/// A count after an object with so many faults was taken back.
pub(crate) fn raised_by(faults: u64, count: u64) -> u64
    ensures raised { RaisedBy faults count result }
    ensures exact { result ≡ count_raised_by faults count }
{
    if faults > 0 {
        count.saturating_add(1)
    } else {
        count
    }
}

/// Whether a call that makes an object found no memory.
pub(crate) fn is_starved<T>(made: &Result<T, OpenFault>) -> bool
    ensures { result ≡ is_starved_by made.now }
{
    matches!(made, Err(OpenFault::NoMemory))
}
