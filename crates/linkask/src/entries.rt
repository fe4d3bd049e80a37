//! Questions in the order of names and kinds, and the reasons for them.

ghost use Rattle.std.specs.Prelude.{◌≡◌, ◌+◌, ◌<◌, ◌≤◌, IsTrue, OnOk, OnErr};
ghost use Rattle.std.specs.Result.{IfOk, IfErr};
ghost use Rattle.linkask.specs.Asking.{asked_cmp, asked_for};
ghost use Rattle.linkask.specs.Bounds.{IsAt, IsGapFor, are_kept, begun_anew, with_reason, without_reason};

use crate::NoMemory;
use crate::asks::KeptAsks;
use dnsname::Name;
use rrset::Question;
use std::cmp::Ordering;

/// The order of a question and of the one for a name and a kind: by name in lower case, and then by kind.
fn compare(question: &Question, name: &Name, kind: u16) -> Ordering
    ensures { result ≡ asked_cmp question.now (asked_for name.now kind) }
{
    let kinds = question.kind.cmp(&kind);
    question.name.cmp(name).then(kinds)
}

/// Where the question for a name and a kind is, or where it would go.
pub(crate) fn search(
    entries: &[(Question, KeptAsks)],
    name: &Name,
    kind: u16,
) -> Result<usize, usize>
    requires { IsTrue (are_kept entries.now) }
    ensures found { IfOk result (IsAt (asked_for name.now kind) entries.now) }
    ensures absent { IfErr result (IsGapFor (asked_for name.now kind) entries.now) }
{
    entries.binary_search_by(|entry| compare(&entry.0, name, kind))
}

/// One reason more for a question. One that wasn't wanted was never asked. Where memory runs out nothing changes.
pub(crate) fn add_reason(
    entries: &mut Vec<(Question, KeptAsks)>,
    question: Question,
) -> Result<(), NoMemory>
    requires { IsTrue (are_kept entries.old.items) }
    ensures ok { OnOk result (entries.new.items ≡ with_reason question entries.old.items) }
    ensures err { OnErr result (entries.new.items ≡ entries.old.items) }
    ensures order { IsTrue (are_kept entries.new.items) }
{
    match search(entries, &question.name, question.kind) {
        Ok(place) => {
            let asks = entries[place].1;
            entries[place].1 = KeptAsks {
                reasons: asks.reasons.saturating_add(1),
                ..asks
            };
            Ok(())
        }
        Err(place) => Ok(entries.insert(place, (question, KeptAsks::ONE_REASON))?),
    }
}

/// One reason less for a question; with the last it goes.
pub(crate) fn drop_reason(entries: &mut Vec<(Question, KeptAsks)>, question: &Question)
    requires { IsTrue (are_kept entries.old.items) }
    ensures entries { entries.new.items ≡ without_reason question.now entries.old.items }
    ensures order { IsTrue (are_kept entries.new.items) }
{
    let Ok(place) = search(entries, &question.name, question.kind) else {
        return;
    };
    let asks = entries[place].1;
    if asks.reasons > 1 {
        entries[place].1 = KeptAsks {
            reasons: asks.reasons - 1,
            ..asks
        };
    } else {
        entries.remove(place);
    }
}

/// What is kept of a question that begins anew.
fn anew(asks: KeptAsks) -> KeptAsks
    ensures { result ≡ record asks { count = 0; last = 0; due = 0 } }
{
    KeptAsks {
        count: 0,
        last: 0,
        due: 0,
        ..asks
    }
}

/// A question that is there begins anew, as if it had never been asked, for the same reasons.
pub(crate) fn begin_anew(entries: &mut [(Question, KeptAsks)], question: &Question)
    requires { IsTrue (are_kept entries.old) }
    ensures entries { entries.new ≡ begun_anew question.now entries.old }
    ensures order { IsTrue (are_kept entries.new) }
{
    let Ok(place) = search(entries, &question.name, question.kind) else {
        return;
    };
    let asks = entries[place].1;
    entries[place].1 = anew(asks);
}
