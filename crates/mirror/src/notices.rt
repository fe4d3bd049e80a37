//! What notices do to sets (RFC 8765, 6.3.1).

ghost use Rattle.std.specs.Prelude.{◌≡◌, ◌≤◌, ◌+◌, IfOk, OnOk, OnErr};
ghost use Rattle.std.specs.List.{AllByRecursion};
ghost use Rattle.std.specs.Vec.Iter.{into_iter_items};
ghost use Rattle.dsotlv.specs.Notices.{removed_by};
ghost use Rattle.dsotlv.specs.declared.message.Notice.TheVariants as notices;
ghost use Rattle.rrset.specs.Records.{key_of, matches, shown_of};
ghost use Rattle.rrset.specs.RecordSet.{without};
ghost use Rattle.mirror.specs.Held.{AreAsked, applied_to, held_of};
ghost use Rattle.mirror.specs.Changes.{change_by, change_of, changed, changes_of, has_change, is_put, owner_of, remains};
ghost use Rattle.mirror.specs.declared.notices.Change.TheVariants as changes;
ghost use Rattle.mirror.specs.Changes.{behind, left_of, performed, room_for, room_of, Fits};

use crate::NoMemory;
use dnsname::Name;
use dsotlv::Notice;
use push_base::Octets;
use rrset::kinds::ANY;
use rrset::record::{Key, Question, Rr, Shown};
use rrset::{Table, classes};
use std::alloc::Global;
use std::vec::IntoIter;

/// What a notice changes in a set by a key, with all the memory that this takes. No other notice takes memory.
#[derive(Drop)]
pub(crate) enum Change {
    Put(Key, Shown),
    Take(Key),
}

/// What is shown of a record, as a value of its own.
fn shown_of(rr: &Rr) -> Result<Shown, NoMemory>
    ensures { IfOk result (λ shown. shown ≡ shown_of rr.now) }
{
    Ok(Shown {
        owner: rr.owner.copy()?,
        ttl: rr.ttl,
        rdata: Octets::from_slice(rr.rdata.allocator(), rr.rdata.as_slice())?,
    })
}

/// Whether a question asks for the key of a record, told without the key.
#[tactic(auto, using(crate::proofs::Asked::by_its_key))]
fn asks_for(question: &Question, rr: &Rr) -> bool
    ensures { result ≡ matches question.now (key_of rr.now) }
{
    question.name.same(&rr.owner)
        && (question.kind == rr.kind || question.kind == ANY)
        && (question.class == rr.class || question.class == classes::ANY)
}

/// Whether a notice changes something by a key in the set of a question, which has no key for which the question
/// doesn't ask.
fn has_change(question: &Question, notice: &Notice) -> bool
    ensures { result ≡ has_change question.now notice.now }
{
    match notice {
        Notice::Add(rr) | Notice::RemoveOne(rr) => asks_for(question, rr),
        Notice::RemoveSet(_, _, _)
        | Notice::RemoveClass(_, _)
        | Notice::RemoveAll(_)
        | Notice::Odd(_, _) => false,
    }
}

/// What adding a record changes, where a question asks for its key.
fn addition(rr: &Rr) -> Result<Change, NoMemory>
    ensures { IfOk result (λ change. change ≡ changes.Put (key_of rr.now) (shown_of rr.now)) }
{
    let key = rr.key()?;
    let shown = shown_of(rr)?;
    Ok(Change::Put(key, shown))
}

/// What a notice changes by a key, where a question asks for that. What else a notice takes out is found without
/// memory.
fn change_by(notice: &Notice) -> Result<Option<Change>, NoMemory>
    ensures { IfOk result (λ change. change ≡ change_by notice.now) }
{
    match notice {
        Notice::Add(rr) => Ok(Some(addition(rr)?)),
        Notice::RemoveOne(rr) => Ok(Some(Change::Take(rr.key()?))),
        Notice::RemoveSet(_, _, _)
        | Notice::RemoveClass(_, _)
        | Notice::RemoveAll(_)
        | Notice::Odd(_, _) => Ok(None),
    }
}

/// What a notice changes by a key in the set of a question: a key is one for which at most four questions ask.
fn change_of(question: &Question, notice: &Notice) -> Result<Option<Change>, NoMemory>
    ensures { IfOk result (λ change. change ≡ change_of question.now notice.now) }
{
    if !has_change(question, notice) {
        return Ok(None);
    }
    change_by(notice)
}

/// What notices change by keys in the set of a question, in order.
fn changes_of(
    alloc: Global,
    question: &Question,
    notices: &[Notice],
) -> Result<Vec<Change>, NoMemory>
    ensures { IfOk result (λ changes. changes.items ≡ changes_of question.now notices.now) }
{
    let mut changes = Vec::new(alloc);
    'notices: for notice in notices {
        match change_of(question, notice)? {
            Some(change) => changes.push(change)?,
            None => {}
        }
    }
    Ok(changes)
}

/// Takes out the records of an owner, class and kind.
fn remove_set(set: &mut Table, owner: &Name, class: u16, kind: u16)
    ensures rows { set.new.rows ≡ without (removed_by (notices.RemoveSet owner.now class kind)) set.old.rows }
    ensures room { set.old.spare ≤ set.new.spare }
{
    set.retain(|key| !(owner.same(&key.owner) && class == key.class && kind == key.kind));
}

/// Takes out the records of an owner and a class.
fn remove_class(set: &mut Table, owner: &Name, class: u16)
    ensures rows { set.new.rows ≡ without (removed_by (notices.RemoveClass owner.now class)) set.old.rows }
    ensures room { set.old.spare ≤ set.new.spare }
{
    set.retain(|key| !(owner.same(&key.owner) && class == key.class));
}

/// Takes out all records of an owner.
fn remove_all(set: &mut Table, owner: &Name)
    ensures rows { set.new.rows ≡ without (removed_by (notices.RemoveAll owner.now)) set.old.rows }
    ensures room { set.old.spare ≤ set.new.spare }
{
    set.retain(|key| !owner.same(&key.owner));
}

/// The owner of the records of which a notice speaks.
fn owner_of(notice: &Notice) -> &Name
    ensures { result.now ≡ owner_of notice.now }
{
    match notice {
        Notice::Add(rr) | Notice::RemoveOne(rr) => &rr.owner,
        Notice::RemoveSet(owner, _, _) => owner,
        Notice::RemoveClass(owner, _) => owner,
        Notice::RemoveAll(owner) => owner,
        Notice::Odd(owner, _) => owner,
    }
}

/// Takes out what a notice removes but by a key, from the set of a question. Most notices of a message are of other
/// names than most questions: such a one doesn't look at the set.
fn remove(set: &mut Table, question: &Question, notice: &Notice)
    ensures rows { set.new.rows ≡ remains question.now notice.now set.old.rows }
    ensures room { set.old.spare ≤ set.new.spare }
{
    if !question.name.same(owner_of(notice)) {
        return;
    }
    match notice {
        Notice::RemoveSet(owner, class, kind) => remove_set(set, owner, *class, *kind),
        Notice::RemoveClass(owner, class) => remove_class(set, owner, *class),
        Notice::RemoveAll(owner) => remove_all(set, owner),
        Notice::Add(_) | Notice::RemoveOne(_) | Notice::Odd(_, _) => {}
    }
}

/// Whether a change puts a key.
fn is_put(change: &Change) -> bool
    ensures { result ≡ is_put change.now }
{
    matches!(change, Change::Put(_, _))
}

/// How many keys changes put: what is taken out needs no room.
fn room_for(changes: &[Change]) -> usize
    ensures { result ≡ room_for changes.now }
{
    let mut room: usize = 0;
    'changes: for change in changes {
        if is_put(change) {
            room += 1;
        }
    }
    room
}

/// Makes a change, in a set that has room for it.
fn make(set: &mut Table, change: Change)
    requires room { room_of change ≤ set.old.spare }
    requires fits { Fits change }
    ensures rows { set.new.rows ≡ changed set.old.rows change }
    ensures room { set.old.spare ≤ set.new.spare + room_of change }
{
    match change {
        Change::Put(key, shown) => {
            if set.put(key, shown).is_err() {
                unreachable!();
            }
        }
        Change::Take(key) => {
            set.remove(&key);
        }
    }
}

/// Does what a notice says in the set of a question: by the first change that is ready where it changes something by a
/// key. The set has room for all changes that are ready.
fn perform(set: &mut Table, question: &Question, notice: &Notice, ready: &mut IntoIter<Change>)
    requires room { room_for (into_iter_items ready.old) ≤ set.old.spare }
    requires fits { AllByRecursion Fits (into_iter_items ready.old) }
    ensures rows { set.new.rows ≡ behind question.now notice.now (into_iter_items ready.old) set.old.rows }
    ensures left { into_iter_items ready.new ≡ left_of question.now notice.now (into_iter_items ready.old) }
    ensures room { room_for (into_iter_items ready.new) ≤ set.new.spare }
    ensures fits { AllByRecursion Fits (into_iter_items ready.new) }
{
    if !has_change(question, notice) {
        remove(set, question, notice);
        return;
    }
    match ready.next() {
        Some(change) => make(set, change),
        None => {}
    }
}

/// Does what all notices say in the set of a question, which has room for the changes that are made ready.
fn perform_all(set: &mut Table, question: &Question, notices: &[Notice], changes: Vec<Change>)
    requires room { room_for changes.items ≤ set.old.spare }
    requires fits { AllByRecursion Fits changes.items }
    ensures { set.new.rows ≡ performed question.now notices.now changes.items set.old.rows }
{
    let mut ready = changes.into_iter();
    'notices: for notice in notices {
        perform(set, question, notice, &mut ready);
    }
}

/// Does to each set what notices say, in order. All memory is taken before any set changes: for each question as much
/// as the notices that change something by a key, of which a notice is one for at most four questions, and room for the
/// keys that they put. It calls itself once for each question, of which a session has at most `MAX_QUESTIONS`.
pub(crate) fn apply_all(
    alloc: Global,
    entries: &mut [(Question, Table)],
    notices: &[Notice],
) -> Result<(), NoMemory>
    requires { AreAsked (held_of entries.old) }
    ensures ok { OnOk result (held_of entries.new ≡ applied_to notices.now (held_of entries.old)) }
    ensures err { OnErr result (held_of entries.new ≡ held_of entries.old) }
{
    let Some((first, rest)) = entries.split_first_mut() else {
        return Ok(());
    };
    let changes = changes_of(alloc, &first.0, notices)?;
    first.1.reserve(room_for(&changes))?;
    apply_all(alloc, rest, notices)?;
    perform_all(&mut first.1, &first.0, notices, changes);
    Ok(())
}
