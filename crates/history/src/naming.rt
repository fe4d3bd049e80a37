//! The names of homes, and why a home is not added (RFC 1034, 4.2; RFC 8766, 5.4 and 5.5).

ghost use Rattle.std.specs.Prelude.{◌≡◌, ◌∷◌, ◌++◌, [], length, filter, position, IfOk, OnOk, OnErr};
ghost use Rattle.dnsname.specs.Names.{same_name};
ghost use Rattle.history.specs.Homes.{NamedHome, clashes, home_fault, is_of_link, name_fault, same_kind};

use crate::entry::{HomeFault, HomeKind};
use dnsname::Name;
use linkmap::ends_in_local;
use push_base::limits::MAX_HOME_OCTETS;
use reversemap::is_reverse_domain;
use rrset::NoMemory;
use std::alloc::Global;

/// The most zones, the most links, and the most reverse domains of all links.
const MAX_ZONES: usize = 16;

/// A home by its name, and what it is added as.
pub(crate) type NamedHome = (Name, HomeKind);

/// Whether two kinds are one.
fn same_kind(kind: HomeKind, other: HomeKind) -> bool
    ensures { result ≡ same_kind kind other }
{
    kind == other
}

/// Whether a home is a link's domain or a reverse domain.
fn is_of_link(kind: HomeKind) -> bool
    ensures { result ≡ is_of_link kind }
{
    !matches!(kind, HomeKind::Zone)
}

/// Whether a new home has the name of another, or one of the two lies under the other, which is no zone.
fn clashes(new: &Name, kind: HomeKind, other: &NamedHome) -> bool
    ensures { result ≡ clashes (new.now, kind) other.now }
{
    new.same(&other.0)
        || (is_of_link(other.1) && new.ends_in(&other.0))
        || (is_of_link(kind) && other.0.ends_in(new))
}

/// The first of some homes with which a new one clashes.
fn clash_of(homes: &[NamedHome], new: &Name, kind: HomeKind) -> Option<usize>
    ensures { result ≡ position (clashes (new.now, kind)) homes.now }
{
    homes.iter().position(|other| clashes(new, kind, other))
}

/// How many of some homes are of a kind.
fn count_of(homes: &[NamedHome], kind: HomeKind) -> usize
    ensures { result ≡ length (filter (λ h. same_kind h.1 kind) homes.now) }
{
    homes.iter().filter(|home| same_kind(home.1, kind)).count()
}

/// What a home's name by itself may not be.
fn name_fault(name: &Name, kind: HomeKind) -> Option<HomeFault>
    ensures { result ≡ name_fault (name.now, kind) }
{
    match kind {
        HomeKind::Zone => None,
        HomeKind::Link => ends_in_local(name).then_some(HomeFault::Local),
        HomeKind::Reverse => (!is_reverse_domain(name)).then_some(HomeFault::Form),
    }
}

/// Why a home is not added to others. It takes no memory.
pub(crate) fn fault_of(homes: &[NamedHome], new: &Name, kind: HomeKind) -> Option<HomeFault>
    ensures { result ≡ home_fault homes.now (new.now, kind) }
{
    if count_of(homes, kind) >= MAX_ZONES {
        return Some(HomeFault::Many);
    }
    if new.octets().len() > MAX_HOME_OCTETS {
        return Some(HomeFault::Long);
    }
    match name_fault(new, kind) {
        Some(fault) => Some(fault),
        None => {
            let index = clash_of(homes, new, kind)?;
            Some(HomeFault::Clash(index))
        }
    }
}

/// Puts a home behind others.
pub(crate) fn put_behind(
    homes: &mut Vec<NamedHome>,
    new: &Name,
    kind: HomeKind,
) -> Result<(), NoMemory>
    ensures ok { OnOk result (homes.new.items ≡ homes.old.items ++ (new.now, kind) ∷ []) }
    ensures err { OnErr result (homes.new.items ≡ homes.old.items) }
{
    let name = new.copy()?;
    homes.push((name, kind))?;
    Ok(())
}

/// The same homes.
pub(crate) fn copies_of(alloc: Global, homes: &[NamedHome]) -> Result<Vec<NamedHome>, NoMemory>
    ensures { IfOk result (λ copy. copy.items ≡ homes.now) }
{
    let mut copy = Vec::with_capacity(alloc, homes.len())?;
    'homes: for (name, kind) in homes {
        copy.push((name.copy()?, *kind))?;
    }
    Ok(copy)
}
