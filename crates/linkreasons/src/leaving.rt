//! Reasons of sessions come and go, each on its link.

ghost use Rattle.std.specs.Prelude.{◌≡◌, ◌<◌, ◌==◌, [], filter, length, not, true, position, OnOk, OnErr};
ghost use Rattle.push_base.specs.Cases.{changed_at};
ghost use Rattle.subscr.specs.Asked.{has};
ghost use Rattle.linkreasons.specs.AllReasons.{but_last, in_session, with_reason, with_those, without_session};
ghost use Rattle.linkreasons.specs.Changing.{all_gone, gone_in, have_reasons, is_there, last_of, one_gone, one_wanted};
ghost use Rattle.linkreasons.specs.Counting.{AreDistinct};

use crate::NoMemory;
use crate::asked_link::AskedLink;
use crate::reason::Reason;
use crate::reasons::Reasons;
use subscr::Subscriptions;

/// Where the session of a number stands.
fn place_of(sessions: &[(u64, Reasons)], number: u64) -> Option<usize>
    ensures { result ≡ position (λ e. e.0 == number) sessions.now }
{
    sessions.iter().position(|entry| entry.0 == number)
}

/// Whether a session has this number.
pub(crate) fn is_there(sessions: &[(u64, Reasons)], number: u64) -> bool
    ensures { result ≡ is_there number sessions.now }
{
    sessions.iter().any(|entry| entry.0 == number)
}

/// Whether a session has a reason.
pub(crate) fn have_reasons(sessions: &[(u64, Reasons)]) -> bool
    ensures { result ≡ have_reasons sessions.now }
{
    sessions.iter().any(|entry| !entry.1.is_empty())
}

/// A reason goes. The link may be there or not.
fn drop_one(links: &mut Vec<AskedLink>, reason: &Reason)
    ensures { links.new.items ≡ one_gone reason.now links.old.items }
{
    if reason.link < links.len() {
        links[reason.link].unwant(&reason.question);
    }
}

/// Reasons go.
fn drop_all(links: &mut Vec<AskedLink>, reasons: &[Reason])
    ensures { links.new.items ≡ all_gone reasons.now links.old.items }
{
    'reasons: for reason in reasons {
        drop_one(links, reason);
    }
}

/// Of some reasons those go whose ID isn't asked with.
fn drop_others(links: &mut Vec<AskedLink>, reasons: &[Reason], asked: &Subscriptions)
    ensures { links.new.items ≡ all_gone (filter (λ r. not (has r.id asked.now)) reasons.now) links.old.items }
{
    'reasons: for reason in reasons {
        if !asked.has(reason.id) {
            drop_one(links, reason);
        }
    }
}

/// The last reason of a session goes.
pub(crate) fn take_back_last(
    links: &mut Vec<AskedLink>,
    sessions: &mut Vec<(u64, Reasons)>,
    number: u64,
)
    requires { AreDistinct sessions.old.items }
    ensures sessions { sessions.new.items ≡ in_session number but_last sessions.old.items }
    ensures links { links.new.items ≡ all_gone (gone_in number last_of sessions.old.items) links.old.items }
{
    let Some(place) = place_of(sessions, number) else {
        return;
    };
    if let Some(reason) = sessions[place].1.pop() {
        drop_one(links, &reason);
    }
}

/// Of the reasons of a session those stay whose ID is asked with.
pub(crate) fn keep_those(
    links: &mut Vec<AskedLink>,
    sessions: &mut Vec<(u64, Reasons)>,
    number: u64,
    asked: &Subscriptions,
)
    requires { AreDistinct sessions.old.items }
    ensures sessions { sessions.new.items ≡ in_session number (with_those asked.now) sessions.old.items }
    ensures links { links.new.items ≡ all_gone (gone_in number (λ rs. filter (λ r. not (has r.id asked.now)) rs) sessions.old.items) links.old.items }
{
    let Some(place) = place_of(sessions, number) else {
        return;
    };
    drop_others(links, sessions[place].1.as_slice(), asked);
    sessions[place].1.keep(asked);
}

/// All reasons of a session go.
pub(crate) fn clear_all(links: &mut Vec<AskedLink>, sessions: &mut Vec<(u64, Reasons)>, number: u64)
    requires { AreDistinct sessions.old.items }
    ensures sessions { sessions.new.items ≡ in_session number (λ _. []) sessions.old.items }
    ensures links { links.new.items ≡ all_gone (gone_in number (λ rs. rs) sessions.old.items) links.old.items }
{
    let Some(place) = place_of(sessions, number) else {
        return;
    };
    drop_all(links, sessions[place].1.as_slice());
    sessions[place].1.clear();
}

/// The sessions without that of a number.
fn without(sessions: &mut Vec<(u64, Reasons)>, number: u64)
    ensures { sessions.new.items ≡ without_session number sessions.old.items }
{
    sessions.retain(|entry| entry.0 != number);
}

/// A session goes with its reasons.
pub(crate) fn end_session(
    links: &mut Vec<AskedLink>,
    sessions: &mut Vec<(u64, Reasons)>,
    number: u64,
)
    requires { AreDistinct sessions.old.items }
    ensures sessions { sessions.new.items ≡ without_session number sessions.old.items }
    ensures links { links.new.items ≡ all_gone (gone_in number (λ rs. rs) sessions.old.items) links.old.items }
{
    clear_all(links, sessions, number);
    without(sessions, number);
}

/// A reason comes behind those of its session. Where memory runs out nothing changes.
fn add_one(
    links: &mut Vec<AskedLink>,
    reasons: &mut Reasons,
    reason: Reason,
) -> Result<(), NoMemory>
    requires { reason.link < length links.old.items }
    ensures reasons { OnOk result (reasons.new ≡ with_reason reason reasons.old) }
    ensures links { OnOk result (links.new.items ≡ changed_at reason.link (one_wanted reason.question) links.old.items) }
    ensures same_reasons { OnErr result (reasons.new ≡ reasons.old) }
    ensures same_links { OnErr result (links.new.items ≡ links.old.items) }
{
    let link = reason.link;
    let question = reason.question.copy()?;
    reasons.push(reason)?;
    match links[link].want(question) {
        Ok(()) => Ok(()),
        Err(fault) => {
            reasons.pop();
            Err(fault)
        }
    }
}

/// A reason comes behind those of a session. Where memory runs out nothing changes.
pub(crate) fn add_reason(
    links: &mut Vec<AskedLink>,
    sessions: &mut Vec<(u64, Reasons)>,
    number: u64,
    reason: Reason,
) -> Result<(), NoMemory>
    requires numbers { AreDistinct sessions.old.items }
    requires there { is_there number sessions.old.items ≡ true }
    requires link { reason.link < length links.old.items }
    ensures sessions { OnOk result (sessions.new.items ≡ in_session number (with_reason reason) sessions.old.items) }
    ensures links { OnOk result (links.new.items ≡ changed_at reason.link (one_wanted reason.question) links.old.items) }
    ensures same_sessions { OnErr result (sessions.new.items ≡ sessions.old.items) }
    ensures same_links { OnErr result (links.new.items ≡ links.old.items) }
{
    let Some(place) = place_of(sessions, number) else {
        unreachable!();
    };
    add_one(links, &mut sessions[place].1, reason)
}
