//! How a server ends.

ghost use Rattle.std.specs.Prelude.{◌≡◌};
ghost use Rattle.std.specs.List.{list_any};
ghost use Rattle.serving.specs.declared.serve_end.Fault.TheVariants as faults;
ghost use Rattle.serving.specs.Ends.{cause_of, fails_outside, is_link_fault, is_starved, lacks_memory, worst_cause};

use history::entry::Totals;
use hublock::{Ended, LoopEnd};
use std::alloc::{AllocError, AllocFailed};

/// How a server ended.
#[derive(Clone, Copy, Debug, PartialEq, Eq)]
pub enum ServeEnd {
    /// All sessions were served, and so many entries were accepted.
    Served(Totals),
    /// The doors, the starter or the datagrams of a link failed.
    OutsideFault,
    /// Memory ran out.
    NoMemory,
}

/// Why a server is given up before all its jobs are started.
#[derive(Clone, Copy, Debug, PartialEq, Eq)]
pub(crate) enum Fault {
    /// The doors or the starter failed.
    Outside,
    /// Memory ran out.
    NoMemory,
}

impl From<AllocError> for Fault {
    ghost from_gives = { λ _ e. e ≡ faults.NoMemory };

    fn from(_e: AllocError) -> Fault {
        Fault::NoMemory
    }
}

/// Why a server doesn't end well.
#[derive(Clone, Copy, Debug, PartialEq, Eq)]
pub(crate) enum Cause {
    /// The doors, the starter or the datagrams of a link failed.
    Outside,
    /// Memory ran out.
    NoMemory,
}

/// Whether the server was given up for want of memory.
fn lacks_memory(opened: Result<(), Fault>) -> bool
    ensures { result ≡ lacks_memory opened }
{
    matches!(opened, Err(Fault::NoMemory))
}

/// Whether it was given up for a fault of the outside.
fn fails_outside(opened: Result<(), Fault>) -> bool
    ensures { result ≡ fails_outside opened }
{
    matches!(opened, Err(Fault::Outside))
}

/// Whether memory ran out for a loop.
fn any_starved(told: &[Ended]) -> bool
    ensures { result ≡ list_any is_starved told.now }
{
    told.iter()
        .any(|ended| matches!(ended.end(), LoopEnd::NoMemory))
}

/// Whether the datagrams of a link failed.
fn any_link_fault(told: &[Ended]) -> bool
    ensures { result ≡ list_any is_link_fault told.now }
{
    told.iter()
        .any(|ended| matches!(ended.end(), LoopEnd::LinkFault))
}

/// The worst of the causes that are there.
fn worst_cause(starved: bool, failed: bool) -> Option<Cause>
    ensures { result ≡ worst_cause starved failed }
{
    if starved {
        Some(Cause::NoMemory)
    } else if failed {
        Some(Cause::Outside)
    } else {
        None
    }
}

/// The cause that a server ends for, if it is one: by what it was given up for, by whether memory ran out for the list of the
/// loops' ends, and by these.
pub(crate) fn cause_of(opened: Result<(), Fault>, starved: bool, told: &[Ended]) -> Option<Cause>
    ensures { result ≡ cause_of opened starved told.now }
{
    let starved = starved | (lacks_memory(opened) | any_starved(told));
    let failed = fails_outside(opened) | any_link_fault(told);
    worst_cause(starved, failed)
}
