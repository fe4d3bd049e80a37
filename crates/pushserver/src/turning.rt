//! What one call of `give` does for a session (RFC 8490, 5; RFC 8765, 6).

ghost use Rattle.std.specs.Prelude.{◌≡◌, [], ℕ, length, IfOk, OnErr};
ghost use Rattle.coalesce.specs.Waiting.{CanBePacked};
ghost use Rattle.pushsession.specs.Sessions.{copied, laid_over};
ghost use Rattle.pushserver.specs.Giving.{given_after, given_of, has_home};
ghost use Rattle.history.specs.Kept.{state_now as past_state};
ghost use Rattle.pushserver.specs.Hubs.{state_now};
ghost use Rattle.pushserver.specs.HubState.{IsSeated, Turns};
ghost use Rattle.pushserver.specs.Laws.{WantsMemoryFor};
ghost use Rattle.pushserver.specs.Rows.{AreTold};
ghost use Rattle.pushserver.specs.KeptHubs.{KeptHub};
ghost use Rattle.subscr.specs.Watching.{watching_of};
ghost use Rattle.pushsession.specs.Watched.{Rewatches};
ghost use Rattle.pushsession.specs.declared.session_status.SessionStatus.TheVariants.{Live};

use crate::decode::read_message;
use crate::given::Given;
use crate::querying::answer_query;
use dnswire::Update;
use dsosession::session::Timers;
use history::Points;
use push_base::Steps;
use pushsession::{NoMemory, PushSession, Request, SessionStatus};
use recordindex::RecordIndex;
use rrset::{Question, Rr};
use std::alloc::Global;
use std::sync::ledger::Ledger;
use subscr::Watchers;

/// What a session's turn came to.
#[derive(Drop)]
pub(crate) enum Turn {
    /// This was done.
    Did(Given),
    /// Nothing yet: its first message is to be judged as an update (RFC 2136, 3). None where it can't be read as one.
    Judge(Option<Update>),
    /// Nothing yet: its first message is to reconfirm this record (RFC 8765, 6.5).
    Reconfirm(Rr),
}

/// Hands on the front of a session's output that fits; where there is none, `otherwise` was done.
pub(crate) fn copy_output(session: &mut PushSession, buf: &mut [u8], otherwise: Given) -> Given
    ensures given { result ≡ given_of otherwise (length buf.old) session.old }
    ensures octets { buf.new ≡ laid_over session.old.output buf.old }
    ensures session { session.new ≡ copied (length buf.old) session.old }
{
    let has_output = session.has_output();
    let count = session.copy(buf);
    if has_output {
        Given::Bytes(count)
    } else {
        otherwise
    }
}

/// What was done where a session reacted without octets.
fn given_after(standing: SessionStatus) -> Given
    ensures { result ≡ given_after standing }
{
    match standing {
        SessionStatus::Ended(reason) => Given::End(reason),
        SessionStatus::Live | SessionStatus::AskedToStop(_, _) | SessionStatus::Stopped(_) =>
            Given::Worked,
    }
}

/// The octets that a reaction wrote, or else what it did.
pub(crate) fn after_reaction(session: &mut PushSession, buf: &mut [u8]) -> Given
    ensures given { result ≡ given_of (given_after session.old.standing) (length buf.old) session.old }
    ensures octets { buf.new ≡ laid_over session.old.output buf.old }
    ensures session { session.new ≡ copied (length buf.old) session.old }
{
    let otherwise = given_after(session.standing());
    copy_output(session, buf, otherwise)
}

/// Whether the name of a question has a home.
fn has_home(points: &Points, question: &Option<Question>) -> bool
    ensures { (kept : KeptHub) → state_now kept ≡ past_state points.now.past → result ≡ has_home kept question.now }
{
    match question {
        Some(question) => points.homes().home(&question.name).is_some(),
        None => false,
    }
}

/// A session without output that goes on: it reacts to a whole message, or packs a PUSH (RFC 8765, 6.3). Where memory
/// runs out nothing changes.
fn work<L: Ledger>(
    session: &mut PushSession,
    alloc: Global,
    points: &Points,
    index: &RecordIndex,
    timers: Timers,
    watchers: &mut Watchers,
    number: u64,
    buf: &mut [u8],
    steps: &mut Steps<L>,
) -> Result<Turn, NoMemory>
    requires live { session.old.standing ≡ Live }
    requires silent { session.old.output ≡ [] }
    requires told { AreTold index.now.rows }
    requires packable { CanBePacked index.now.rows session.old.queue }
    ensures ok { IfOk result (λ turn. (kept : KeptHub) (number : ℕ) → IsSeated kept number session.old (past_state points.now.past) timers index.now.rows → Turns kept number turn buf.old buf.new session.old session.new) }
    ensures err { OnErr result (session.new ≡ session.old) }
    ensures memory { OnErr result (WantsMemoryFor session.old) }
    ensures watched { Rewatches number (watching_of watchers.old) (watching_of watchers.new) session.old session.new }
{
    let now = points.now();
    let rows = index.index();
    let Some(request) = session.request(alloc)? else {
        session.pack(rows, now, steps);
        return Ok(Turn::Did(copy_output(session, buf, Given::Nothing)));
    };
    match request {
        Request::Update => return Ok(Turn::Judge(read_message(alloc, session.message())?)),
        Request::Reconfirm(Some(rr)) => return Ok(Turn::Reconfirm(rr)),
        Request::Reconfirm(None) => session.reconfirm(None, now, watchers, number),
        Request::Itself => session.react(timers, now, watchers, number),
        Request::Query => answer_query(session, alloc, points, index)?,
        Request::Subscribe(question) => {
            let has_home = has_home(points, &question);
            session.subscribe(question, has_home, rows, now, watchers, number, steps)?;
        }
    }
    Ok(Turn::Did(after_reaction(session, buf)))
}

/// One piece of work for a session, in its order: octets of its output that wait, its stop, the reaction to one whole
/// message, or a PUSH of what has changed. Where memory runs out nothing changes.
pub(crate) fn take_turn<L: Ledger>(
    session: &mut PushSession,
    alloc: Global,
    points: &Points,
    index: &RecordIndex,
    timers: Timers,
    watchers: &mut Watchers,
    number: u64,
    buf: &mut [u8],
    steps: &mut Steps<L>,
) -> Result<Turn, NoMemory>
    requires told { AreTold index.now.rows }
    requires packable { CanBePacked index.now.rows session.old.queue }
    ensures ok { IfOk result (λ turn. (kept : KeptHub) (number : ℕ) → IsSeated kept number session.old (past_state points.now.past) timers index.now.rows → Turns kept number turn buf.old buf.new session.old session.new) }
    ensures err { OnErr result (session.new ≡ session.old) }
    ensures memory { OnErr result (WantsMemoryFor session.old) }
    ensures watched { Rewatches number (watching_of watchers.old) (watching_of watchers.new) session.old session.new }
{
    if session.has_output() {
        return Ok(Turn::Did(Given::Bytes(session.copy(buf))));
    }
    match session.standing() {
        SessionStatus::Ended(reason) => Ok(Turn::Did(Given::End(reason))),
        SessionStatus::Stopped(_) => Ok(Turn::Did(Given::Ending)),
        SessionStatus::AskedToStop(rcode, delay) => {
            session.carry_out_stop(rcode, delay, points.now(), watchers, number);
            Ok(Turn::Did(after_reaction(session, buf)))
        }
        SessionStatus::Live => work(
            session, alloc, points, index, timers, watchers, number, buf, steps,
        ),
    }
}
