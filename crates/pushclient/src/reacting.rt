//! The reaction to one whole message (RFC 8490, 5 to 7; RFC 8765, 6).

ghost use Rattle.std.specs.Prelude.{◌≡◌, Some, IfOk, IsSome, OnOk, OnErr};
ghost use Rattle.dsotlv.specs.Messages.{first_message};
ghost use Rattle.pushclient.specs.Clients.{without_wish};
ghost use Rattle.pushclient.specs.HeardMessages.{answer_heard, dropped_on, kept_heard, taken_up, told_on, wanted_on, wanted_sets, wanted_wishes};

use crate::client::Step;
use crate::connection::Connection;
use crate::told::{Answer, Told};
use crate::wish::{Wish, WishStatus};
use crate::{NoMemory, wishes};
use dsosession::ClientSession;
use mirror::Mirror;
use rrset::rcodes::NOERROR;
use rrset::record::Question;

/// Takes up the first message, the answer to a wanted question: after NOERROR its set begins empty, any other RCODE refuses
/// it (RFC 8765, 6.2.2). Where memory runs out nothing changes.
fn answer_wanted(
    connection: &mut Connection,
    wishes: &mut [Wish],
    mirror: &mut Mirror,
    question: &Question,
    answer: Answer,
    session: ClientSession,
) -> Result<(), NoMemory>
    requires { IsSome (first_message connection.old.input) }
    ensures connection { OnOk result (connection.new ≡ wanted_on answer (taken_up session connection.old)) }
    ensures wishes { OnOk result (wishes.new ≡ wanted_wishes question.now answer wishes.old) }
    ensures sets { OnOk result (mirror.new ≡ wanted_sets question.now answer mirror.old) }
    ensures same_connection { OnErr result (connection.new ≡ connection.old) }
    ensures same_wishes { OnErr result (wishes.new ≡ wishes.old) }
    ensures same_sets { OnErr result (mirror.new ≡ mirror.old) }
{
    if answer.rcode != NOERROR {
        wishes::stand(wishes, question, WishStatus::Refused(answer.rcode));
        connection.take_up(session);
        return Ok(());
    }
    mirror.begin(question.copy()?)?;
    wishes::stand(wishes, question, WishStatus::Answered(answer.id));
    connection.establish(session);
    Ok(())
}

/// Takes up the first message, the answer to a question that was dropped meanwhile: it goes, and after NOERROR its
/// subscription is ended at once (RFC 8765, 6.4). Where memory runs out nothing changes.
fn answer_dropped(
    connection: &mut Connection,
    wishes: &mut Vec<Wish>,
    question: &Question,
    answer: Answer,
    session: ClientSession,
    now: u64,
) -> Result<(), NoMemory>
    requires { IsSome (first_message connection.old.input) }
    ensures connection { OnOk result (connection.new ≡ dropped_on answer now (taken_up session connection.old)) }
    ensures wishes { OnOk result (wishes.new.items ≡ without_wish question.now wishes.old.items) }
    ensures same_connection { OnErr result (connection.new ≡ connection.old) }
    ensures same_wishes { OnErr result (wishes.new.items ≡ wishes.old.items) }
{
    if answer.rcode == NOERROR {
        connection.end_dropped(answer.id, session, now)?;
    } else {
        connection.take_up(session);
    }
    wishes::forget(wishes, question);
    Ok(())
}

/// Takes up the first message, an answer: to a wish, or to the client's Keepalive. Where memory runs out nothing changes.
fn take_answer(
    connection: &mut Connection,
    wishes: &mut Vec<Wish>,
    mirror: &mut Mirror,
    answer: Answer,
    session: ClientSession,
    now: u64,
) -> Result<Step, NoMemory>
    requires { IsSome (first_message connection.old.input) }
    ensures step { IfOk result (λ step. step ≡ (answer_heard answer (taken_up session connection.old) (record { wishes = wishes.old.items; connection = Some connection.old; now = now; sets = mirror.old })).0) }
    ensures ok { OnOk result (record { wishes = wishes.new.items; connection = Some connection.new; now = now; sets = mirror.new } ≡ (answer_heard answer (taken_up session connection.old) (record { wishes = wishes.old.items; connection = Some connection.old; now = now; sets = mirror.old })).1) }
    ensures same_connection { OnErr result (connection.new ≡ connection.old) }
    ensures same_wishes { OnErr result (wishes.new.items ≡ wishes.old.items) }
    ensures same_sets { OnErr result (mirror.new ≡ mirror.old) }
{
    let Some(wish) = wishes::request_of(wishes, answer.id) else {
        connection.take_up(session);
        return Ok(connection.take_other(answer));
    };
    let question = wish.question.copy()?;
    if wish.wanted {
        answer_wanted(connection, wishes, mirror, &question, answer, session)?;
    } else {
        answer_dropped(connection, wishes, &question, answer, session, now)?;
    }
    Ok(Step::Answered(answer.id, answer.rcode))
}

/// Takes up the first message, which tells this and leaves the session so. Where memory runs out nothing changes.
fn take(
    connection: &mut Connection,
    wishes: &mut Vec<Wish>,
    mirror: &mut Mirror,
    told: Told,
    session: ClientSession,
    now: u64,
) -> Result<Step, NoMemory>
    requires { IsSome (first_message connection.old.input) }
    ensures step { IfOk result (λ step. step ≡ (told_on told (taken_up session connection.old) (record { wishes = wishes.old.items; connection = Some connection.old; now = now; sets = mirror.old })).0) }
    ensures ok { OnOk result (record { wishes = wishes.new.items; connection = Some connection.new; now = now; sets = mirror.new } ≡ (told_on told (taken_up session connection.old) (record { wishes = wishes.old.items; connection = Some connection.old; now = now; sets = mirror.old })).1) }
    ensures same_connection { OnErr result (connection.new ≡ connection.old) }
    ensures same_wishes { OnErr result (wishes.new.items ≡ wishes.old.items) }
    ensures same_sets { OnErr result (mirror.new ≡ mirror.old) }
{
    match told {
        Told::Answered(answer) => take_answer(connection, wishes, mirror, answer, session, now),
        Told::Typeless(id) => {
            connection.answer_typeless(id, session, now)?;
            Ok(Step::Typeless(id))
        }
        Told::Keepalive(timers) => {
            connection.take_up(session);
            Ok(connection.adopt(timers))
        }
        Told::Push(notices) => {
            mirror.apply(notices.as_slice())?;
            connection.take_up(session);
            Ok(Step::Pushed(notices))
        }
        Told::Close(reason) => {
            connection.take_up(session);
            Ok(connection.close(reason))
        }
    }
}

/// Reacts to the first message, where it is whole and the connection open. Where memory runs out nothing changes.
pub(crate) fn step(
    connection: &mut Option<Connection>,
    wishes: &mut Vec<Wish>,
    mirror: &mut Mirror,
    now: u64,
) -> Result<Step, NoMemory>
    ensures step { IfOk result (λ step. step ≡ (kept_heard (record { wishes = wishes.old.items; connection = connection.old; now = now; sets = mirror.old })).0) }
    ensures ok { OnOk result (record { wishes = wishes.new.items; connection = connection.new; now = now; sets = mirror.new } ≡ (kept_heard (record { wishes = wishes.old.items; connection = connection.old; now = now; sets = mirror.old })).1) }
    ensures same_connection { OnErr result (connection.new ≡ connection.old) }
    ensures same_wishes { OnErr result (wishes.new.items ≡ wishes.old.items) }
    ensures same_sets { OnErr result (mirror.new ≡ mirror.old) }
{
    let Some(open) = connection else {
        return Ok(Step::Waiting);
    };
    if let Some(reason) = open.closed {
        return Ok(Step::Closed(reason));
    }
    match open.hear(now)? {
        Some((told, session)) => take(open, wishes, mirror, told, session, now),
        None => Ok(Step::Waiting),
    }
}
