//! A connection that may be there, and may have closed.

ghost use Rattle.std.specs.Prelude.{◌≡◌, ◌++◌, IfOk, OnOk, OnErr, drop, length, min, take};
ghost use Rattle.pushclient.specs.Kept.{asked_on, ended_on, given_on, output_on, reconfirmed_on, room_on, taken_on, timed_on};
ghost use Rattle.pushclient.specs.Rule.{standing_of};

use crate::NoMemory;
use crate::connection::Connection;
use crate::wish::{Wish, WishStatus};
use rrset::record::{Question, Rr};

/// Asks a question where the connection is open.
pub(crate) fn ask(
    connection: &mut Option<Connection>,
    wishes: &[Wish],
    question: &Question,
    now: u64,
) -> Result<WishStatus, NoMemory>
    ensures standing { IfOk result (λ standing. standing_of standing ≡ (asked_on wishes.now question.now now connection.old).0) }
    ensures ok { OnOk result (connection.new ≡ (asked_on wishes.now question.now now connection.old).1) }
    ensures err { OnErr result (connection.new ≡ connection.old) }
{
    let Some(open) = connection else {
        return Ok(WishStatus::NotAsked);
    };
    if open.closed.is_some() {
        return Ok(WishStatus::NotAsked);
    }
    let id = open.ask(wishes, question, now)?;
    Ok(WishStatus::Unanswered(id))
}

/// Ends a subscription where the connection is open.
pub(crate) fn unsubscribe(
    connection: &mut Option<Connection>,
    id: u16,
    now: u64,
) -> Result<(), NoMemory>
    ensures ok { OnOk result (connection.new ≡ ended_on id now connection.old) }
    ensures err { OnErr result (connection.new ≡ connection.old) }
{
    let Some(open) = connection else {
        return Ok(());
    };
    if open.closed.is_some() {
        return Ok(());
    }
    open.unsubscribe(id, now)
}

/// Says that a record may be out of date where the connection is open and the session established.
pub(crate) fn reconfirm(
    connection: &mut Option<Connection>,
    rr: &Rr,
    now: u64,
) -> Result<bool, NoMemory>
    ensures said { IfOk result (λ said. said ≡ (reconfirmed_on rr.now now connection.old).0) }
    ensures ok { OnOk result (connection.new ≡ (reconfirmed_on rr.now now connection.old).1) }
    ensures err { OnErr result (connection.new ≡ connection.old) }
{
    let Some(open) = connection else {
        return Ok(false);
    };
    if open.closed.is_some() {
        return Ok(false);
    }
    open.reconfirm(rr, now)
}

/// Octets go into the input as far as there is room, where the connection is open. Gives how many.
pub(crate) fn take(connection: &mut Option<Connection>, piece: &[u8]) -> usize
    ensures count { result ≡ min (length piece.now) (room_on connection.old) }
    ensures taken { connection.new ≡ taken_on piece.now connection.old }
{
    let Some(open) = connection else {
        return 0;
    };
    if open.closed.is_some() {
        return 0;
    }
    open.take(piece)
}

/// Copies the longest front of the output that fits, takes it out, and gives its length.
pub(crate) fn give(connection: &mut Option<Connection>, buf: &mut [u8]) -> usize
    ensures count { result ≡ min (length buf.old) (length (output_on connection.old)) }
    ensures octets { buf.new ≡ take (length buf.old) (output_on connection.old) ++ drop (length (output_on connection.old)) buf.old }
    ensures rest { connection.new ≡ given_on (min (length buf.old) (length (output_on connection.old))) connection.old }
{
    match connection {
        Some(connection) => connection.give(buf),
        None => 0,
    }
}

/// What is due at a moment is done where the connection is open: a Keepalive goes out, or it closes (RFC 8490, 6.4 and
/// 6.5).
pub(crate) fn moment(
    connection: &mut Option<Connection>,
    wishes: &[Wish],
    now: u64,
) -> Result<(), NoMemory>
    ensures ok { OnOk result (connection.new ≡ timed_on wishes.now now connection.old) }
    ensures err { OnErr result (connection.new ≡ connection.old) }
{
    let Some(open) = connection else {
        return Ok(());
    };
    if open.closed.is_some() {
        return Ok(());
    }
    open.moment(wishes, now)
}
