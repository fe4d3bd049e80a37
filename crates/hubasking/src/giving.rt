//! What is made ready for a session's turn, and what follows it.

ghost use Rattle.std.specs.Prelude.{◌≡◌, Some, IfOk, OnErr};
ghost use Rattle.pushsession.specs.declared.request.Request.TheVariants as requests;
ghost use Rattle.pushserver.specs.Hubs.{session_of};
ghost use Rattle.pushserver.specs.Laws.{MayWantMemory};
ghost use Rattle.hubasking.specs.KeptReasons.{AreKept};
ghost use Rattle.hubasking.specs.Turns.{IsReady, KeepsLeft, Settles, Undoes, count_of, first_id, heard_moment, turn_request};

use crate::translating::link_question;
use dsotlv::head;
use linkcache::Cache;
use linkreasons::{LinkReasons, Reason};
use pushserver::NoMemory;
use pushsession::{Request, SessionStatus};
use rrset::{Key, Question, Rr};
use std::alloc::Global;

/// What was made ready for a session's turn.
#[derive(Clone, Copy)]
pub(crate) enum Ready {
    /// Nothing: no reason comes.
    Nothing,
    /// The session has a reason more.
    Reason,
    /// A row of a link is doubted.
    Doubt(usize),
}

/// What is needed for the first message of a session that goes on without output.
fn turn_request(
    hub: &pushserver::Hub,
    alloc: Global,
    number: u64,
) -> Result<Option<Request>, NoMemory>
    ensures request { IfOk result (λ request. request ≡ turn_request (session_of hub.now number)) }
    ensures memory { OnErr result (MayWantMemory hub.now number) }
{
    let Some(session) = hub.session(number) else {
        return Ok(None);
    };
    if session.has_output() {
        return Ok(None);
    }
    match session.standing() {
        SessionStatus::Live => session.request(alloc),
        SessionStatus::AskedToStop(_, _) => Ok(None),
        SessionStatus::Stopped(_) => Ok(None),
        SessionStatus::Ended(_) => Ok(None),
    }
}

/// The ID of the first message of a session, if it has a whole header.
fn first_id(hub: &pushserver::Hub, number: u64) -> Option<u16>
    ensures { result ≡ first_id (session_of hub.now number) }
{
    let session = hub.session(number)?;
    let head = head(session.message())?;
    Some(head.id)
}

/// How many questions a session has.
pub(crate) fn count_of(hub: &pushserver::Hub, number: u64) -> usize
    ensures { result ≡ count_of (session_of hub.now number) }
{
    match hub.session(number) {
        Some(session) => session.subscriptions().len(),
        None => 0,
    }
}

/// A session that subscribes has a reason more, where the home of its question is a link.
fn want(
    hub: &pushserver::Hub,
    reasons: &mut LinkReasons,
    number: u64,
    question: &Question,
) -> Result<Ready, NoMemory>
    requires kept { AreKept hub.now reasons.old }
    requires request { turn_request (session_of hub.now number) ≡ Some (requests.Subscribe (Some question.now)) }
    ensures ready { IfOk result (λ ready. IsReady hub.now number ready reasons.old reasons.new) }
    ensures err { OnErr result (reasons.new ≡ reasons.old) }
{
    let homes = hub.homes();
    let Some((link, question)) = link_question(homes.allocator(), homes, question)? else {
        return Ok(Ready::Nothing);
    };
    let Some(id) = first_id(hub, number) else {
        return Ok(Ready::Nothing);
    };
    let reason = Reason { id, link, question };
    reasons.add(number, reason)?;
    Ok(Ready::Reason)
}

/// The moment at which the row of a key was heard.
fn heard_moment(cache: &Cache, key: &Key) -> Option<u64>
    ensures { result ≡ heard_moment cache.now.state.rows key.now }
{
    match cache.rows().get(key) {
        Some(row) => Some(row.heard),
        None => None,
    }
}

/// The row of a link that a record reconfirms is doubted.
fn doubt(
    hub: &pushserver::Hub,
    reasons: &mut LinkReasons,
    number: u64,
    rr: &Rr,
) -> Result<Ready, NoMemory>
    requires kept { AreKept hub.now reasons.old }
    requires request { turn_request (session_of hub.now number) ≡ Some (requests.Reconfirm (Some rr.now)) }
    ensures ready { IfOk result (λ ready. IsReady hub.now number ready reasons.old reasons.new) }
    ensures err { OnErr result (reasons.new ≡ reasons.old) }
{
    let homes = hub.homes();
    let Some((link, key)) = hub.reconfirm_key(homes.allocator(), rr)? else {
        return Ok(Ready::Nothing);
    };
    let Some(cache) = homes.cache(link) else {
        return Ok(Ready::Nothing);
    };
    let Some(heard) = heard_moment(cache, &key) else {
        return Ok(Ready::Nothing);
    };
    reasons.doubt(link, key, heard)?;
    Ok(Ready::Doubt(link))
}

/// What is made ready for a session's turn: a reason that may come, or a row that may be reconfirmed.
pub(crate) fn make_ready(
    hub: &pushserver::Hub,
    reasons: &mut LinkReasons,
    number: u64,
) -> Result<Ready, NoMemory>
    requires { AreKept hub.now reasons.old }
    ensures ready { IfOk result (λ ready. IsReady hub.now number ready reasons.old reasons.new) }
    ensures err { OnErr result (reasons.new ≡ reasons.old) }
    ensures memory { OnErr result (MayWantMemory hub.now number) }
{
    match turn_request(hub, hub.homes().allocator(), number)? {
        Some(Request::Subscribe(Some(question))) => want(hub, reasons, number, &question),
        Some(Request::Reconfirm(Some(rr))) => doubt(hub, reasons, number, &rr),
        Some(Request::Subscribe(None)) => Ok(Ready::Nothing),
        Some(Request::Reconfirm(None)) => Ok(Ready::Nothing),
        Some(Request::Itself) => Ok(Ready::Nothing),
        Some(Request::Update) => Ok(Ready::Nothing),
        Some(Request::Query) => Ok(Ready::Nothing),
        None => Ok(Ready::Nothing),
    }
}

/// What was made ready is taken back.
pub(crate) fn undo(reasons: &mut LinkReasons, number: u64, ready: Ready)
    ensures { Undoes number ready reasons.old reasons.new }
{
    match ready {
        Ready::Nothing => {}
        Ready::Reason => reasons.take_back(number),
        Ready::Doubt(link) => reasons.take_back_doubt(link),
    }
}

/// The reasons of a session stay whose questions it still has.
fn keep_left(hub: &pushserver::Hub, reasons: &mut LinkReasons, number: u64)
    ensures { KeepsLeft (session_of hub.now number) number reasons.old reasons.new }
{
    if let Some(session) = hub.session(number) {
        reasons.keep(number, session.subscriptions());
    }
}

/// What was made ready stands or is taken back, by what came of a session's turn: before it the session had so many
/// questions, and this was the newest point.
pub(crate) fn settle(
    hub: &pushserver::Hub,
    reasons: &mut LinkReasons,
    number: u64,
    ready: Ready,
    count: usize,
    point: u64,
)
    ensures { Settles hub.now number ready count point reasons.old reasons.new }
{
    let left = count_of(hub, number);
    match ready {
        Ready::Nothing => {
            if left < count {
                keep_left(hub, reasons, number);
            }
        }
        Ready::Reason => {
            if left <= count {
                reasons.take_back(number);
            }
        }
        Ready::Doubt(link) => {
            if hub.point() > point {
                reasons.settle_doubt(link);
            } else {
                reasons.take_back_doubt(link);
            }
        }
    }
}
