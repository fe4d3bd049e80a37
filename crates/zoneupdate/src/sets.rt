//! The records of one owner and kind, among the records of a name.

ghost use Rattle.std.specs.Prelude.{◌≡◌, ◌==◌, not, Some, None, MatchOption, IsTrue, length};
ghost use Rattle.std.specs.List.{list_any};
ghost use Rattle.rrset.specs.KeyedRows.{is_rising};
ghost use Rattle.rrset.specs.RecordSet.{only, without, is_of_rrset};
ghost use Rattle.rrset.specs.Tables.{HaveLowerOwners};
ghost use Rattle.zoneupdate.specs.Zones.{first_shown, set_at};
ghost use Rattle.zoneupdate.specs.Checking.{is_of_kind, set_cmp};

use dnsname::Name;
use rrset::classes::IN;
use rrset::{Key, Shown, Table};
use std::cmp::Ordering;

/// Whether a key is of an owner and a kind.
pub(crate) fn is_of_rrset(owner: &Name, kind: u16, key: &Key) -> bool
    ensures { result ≡ is_of_rrset owner.now 1 kind key.now }
{
    kind == key.kind && key.class == IN && owner.same(&key.owner)
}

/// The order of a key's owner and kind, and of others.
fn compare_set(owner: &Name, kind: u16, key: &Key) -> Ordering
    ensures { result ≡ set_cmp owner.now kind key.now }
{
    match key.owner.compare_with_lower(owner) {
        Ordering::Equal => key.kind.cmp(&kind),
        unequal => unequal,
    }
}

/// The records of an owner and a kind, of any class, in a list in key order, where they stand together.
pub(crate) fn set_among<'a>(
    owner: &Name,
    kind: u16,
    entries: &'a [(Key, Shown)],
) -> &'a [(Key, Shown)]
    requires order { IsTrue (is_rising entries.now) }
    requires lower { HaveLowerOwners entries.now }
    ensures { only (is_of_kind kind) result.now ≡ set_at owner.now kind entries.now }
{
    let begin = entries.partition_point(|entry| compare_set(owner, kind, &entry.0).is_lt());
    let (_, rest) = entries.split_at(begin);
    let count = rest.partition_point(|entry| compare_set(owner, kind, &entry.0).is_le());
    let (found, _) = rest.split_at(count);
    found
}

/// Takes out the records of an owner and a kind.
pub(crate) fn take_set(work: &mut Table, owner: &Name, kind: u16)
    ensures { work.new.rows ≡ without (is_of_rrset owner.now 1 kind) work.old.rows }
{
    work.retain(|key| !is_of_rrset(owner, kind, key));
}

/// Whether some record is of another kind.
pub(crate) fn any_other_kind(entries: &[(Key, Shown)], kind: u16) -> bool
    ensures { result ≡ list_any (λ e. not (e.0.kind == kind)) entries.now }
{
    entries.iter().any(|entry| entry.0.kind != kind)
}

/// Whether some record is of an owner and a kind.
pub(crate) fn any_of_rrset(entries: &[(Key, Shown)], owner: &Name, kind: u16) -> bool
    ensures { result ≡ list_any (λ e. is_of_rrset owner.now 1 kind e.0) entries.now }
{
    entries
        .iter()
        .any(|entry| is_of_rrset(owner, kind, &entry.0))
}

/// The first record of an owner and a kind.
pub(crate) fn first_of_rrset<'a>(
    entries: &'a [(Key, Shown)],
    owner: &Name,
    kind: u16,
) -> Option<&'a Shown>
    ensures { MatchOption result (first_shown (only (is_of_rrset owner.now 1 kind) entries.now) ≡ None) (λ shown. first_shown (only (is_of_rrset owner.now 1 kind) entries.now) ≡ Some shown.now) }
{
    'entries: for entry in entries {
        if is_of_rrset(owner, kind, &entry.0) {
            return Some(&entry.1);
        }
    }
    None
}

/// How many records an owner and kind have.
pub(crate) fn count_of_rrset(entries: &[(Key, Shown)], owner: &Name, kind: u16) -> usize
    ensures { result ≡ length (only (is_of_rrset owner.now 1 kind) entries.now) }
{
    entries
        .iter()
        .filter(|entry| is_of_rrset(owner, kind, &entry.0))
        .count()
}
