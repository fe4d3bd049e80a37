//! The forms of a net.

ghost use Rattle.std.specs.Prelude.{◌≡◌, ◌+◌, ◌≤◌, ◌++◌, [], false, length, flat_map, IsTrue, MatchOption};
ghost use Rattle.rrset.specs.RecordSet.{same_rows};
ghost use Rattle.rrset.specs.Tables.{counted};
ghost use Rattle.rrset.specs.Kinds.{in_class};
ghost use Rattle.dsotlv.specs.Notices.{notice_octets, push_record, remove_many_ttl};
ghost use Rattle.coalesce.specs.Laws.{can_be_sent};
ghost use Rattle.coalesce.specs.Net.{kinds_of, net, owner_of, single_changes, size_of_notices};
ghost use Rattle.coalesce.specs.Sides.{AreOfOneName, IsOneSide, frame_octets};
ghost use Rattle.coalesce.specs.Steps.{gone_form, notices_as};

use crate::adding::{all_size_up_to, append_all, append_changed, changed_size};
use crate::frame::Frame;
use crate::push_records::{Fields, append_record, record_size};
use crate::removing::{append_removals, removals_size};
use crate::side::{Records, Side};
use dnsname::Name;
use dsotlv::ttls::REMOVE_MANY;
use rrset::classes::IN;
use rrset::kinds::ANY;
use rrset::{same_key, same_shown};

/// How a net tells the change.
#[derive(Clone, Copy)]
pub(crate) enum Form {
    /// There is nothing to tell.
    Empty,
    /// All records are gone, and they were of this kind.
    OneKind(u16),
    /// All records are gone, and they were of several kinds.
    AllKinds,
    /// One record after the other.
    Single,
    /// All goes, and what is there now comes.
    Anew,
}

/// The form of a net, and the octets of its records.
#[derive(Clone, Copy)]
pub(crate) struct Plan {
    /// How the net tells the change.
    pub form: Form,
    /// The octets of its records.
    pub size: u64,
}

/// The name of the records, in lower case; nothing where there are none.
pub(crate) fn owner<'a>(old: &Side<'a>, new: &Side<'a>) -> Option<&'a Name>
    ensures none { MatchOption result ((old.now ≡ []) × (new.now ≡ [])) (λ name. name.now ≡ owner_of (old.now ++ new.now)) }
{
    let mut rest = old.records();
    if let Some((key, _)) = rest.next() {
        return Some(&key.owner);
    }
    let mut rest = new.records();
    let (key, _) = rest.next()?;
    Some(&key.owner)
}

/// Whether both have the same keys, shown the same.
pub(crate) fn same_records<'a>(mut rest: Records<'a>, mut others: Records<'a>) -> bool
    ensures { result ≡ same_rows rest.entry others.entry }
{
    'records: while let Some((key, shown)) = rest.next() {
        let Some((other, other_shown)) = others.next() else {
            return false;
        };
        if !(same_key(key, other) && same_shown(shown, other_shown)) {
            return false;
        }
    }
    others.next().is_none()
}

/// How it is told that all records are gone.
fn gone(old: &Side) -> Form
    ensures { result ≡ gone_form (kinds_of old.now) }
{
    let mut rest = old.records();
    let Some((first, _)) = rest.next() else {
        return Form::AllKinds;
    };
    'records: while let Some((key, _)) = rest.next() {
        if key.kind != first.kind {
            return Form::AllKinds;
        }
    }
    Form::OneKind(first.kind)
}

/// The form of a net where both sides aren't the same, and the octets of the single changes are known: all anew only
/// where that is shorter.
pub(crate) fn shorter_form(name: &Name, old: &Side, new: &Side, single: u64) -> Plan
    requires sides { AreOfOneName old.now new.now }
    requires sent { IsTrue (can_be_sent new.now) }
    requires name { name.now ≡ owner_of (old.now ++ new.now) }
    requires other { same_rows old.now new.now ≡ false }
    requires single { single ≡ counted (size_of_notices (single_changes name.now old.now new.now)) }
    ensures form { notices_as result.form name.now old.now new.now ≡ net old.now new.now }
    ensures size { result.size ≡ size_of_notices (net old.now new.now) }
{
    let all_gone = record_size(name, &[]);
    if new.is_empty() {
        return Plan {
            form: gone(old),
            size: all_gone,
        };
    }
    let anew = all_gone.saturating_add(all_size_up_to(new, single));
    if anew < single {
        Plan {
            form: Form::Anew,
            size: anew,
        }
    } else {
        Plan {
            form: Form::Single,
            size: single,
        }
    }
}

/// The form of a net: all anew only where that is shorter.
pub(crate) fn plan_of(name: &Name, old: &Side, new: &Side) -> Plan
    requires sides { AreOfOneName old.now new.now }
    requires sent { IsTrue (can_be_sent new.now) }
    requires name { name.now ≡ owner_of (old.now ++ new.now) }
    ensures form { notices_as result.form name.now old.now new.now ≡ net old.now new.now }
    ensures size { result.size ≡ size_of_notices (net old.now new.now) }
{
    if same_records(old.records(), new.records()) {
        return Plan {
            form: Form::Empty,
            size: 0,
        };
    }
    let removals = removals_size(name, old.records(), new);
    let single = removals.saturating_add(changed_size(old, new));
    shorter_form(name, old, new, single)
}

/// Appends the removal of a kind, or of all where the kind is ANY.
fn append_all_gone(out: &mut Frame, name: &Name, kind: u16)
    requires room { length out.old + length (push_record name.now kind in_class remove_many_ttl []) ≤ frame_octets }
    ensures { out.new ≡ out.old ++ push_record name.now kind in_class remove_many_ttl [] }
{
    let fields = Fields {
        kind,
        class: IN,
        ttl: REMOVE_MANY,
    };
    append_record(out, name, fields, &[]);
}

/// Appends the records of a net in a form.
pub(crate) fn append_notices(out: &mut Frame, form: Form, name: &Name, old: &Side, new: &Side)
    requires side { IsOneSide old.now }
    requires room { length out.old + size_of_notices (notices_as form name.now old.now new.now) ≤ frame_octets }
    ensures { out.new ≡ out.old ++ flat_map notice_octets (notices_as form name.now old.now new.now) }
{
    match form {
        Form::Empty => {}
        Form::OneKind(kind) => append_all_gone(out, name, kind),
        Form::AllKinds => append_all_gone(out, name, ANY),
        Form::Single => {
            append_removals(out, name, old.records(), new);
            append_changed(out, old, new);
        }
        Form::Anew => {
            append_all_gone(out, name, ANY);
            append_all(out, new);
        }
    }
}
