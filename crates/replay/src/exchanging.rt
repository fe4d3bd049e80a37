//! What a session has to say, and octets to the session of a peer and back.

ghost use Rattle.std.specs.Prelude.{◌≡◌, ◌==◌, ◌||◌, ◌≤◌, ◌<◌, ◌-◌, ◌^◌, nat_le, false, length, min, IfOk, OnOk};
ghost use Rattle.coalesce.specs.Sides.{frame_octets};
ghost use Rattle.pushserver.specs.Counting.{octets_of};
ghost use Rattle.pushserver.specs.PlainHubs.{Hub as PlainHub};
ghost use Rattle.replay.specs.KeptAskings.{StandsFor};
ghost use Rattle.replay.specs.KeptExchanges.{has_worked, noted_if, turn_of, written, Gives, Emits, Exchanges, Remembers};

use crate::told_ends::put_in_front;
use crate::world::make_room;
use coalesce::MAX_FRAME;
use dsosession::session::EndReason;
use hubasking::{Given, Hub, HubFault};
use push_base::NoMemory;
use pushserver::laws::kept_hubs_stand;
use std::alloc::Global;

/// The octets that came back, and the end of the session, if it was told.
#[derive(Drop)]
pub struct Exchanged {
    /// The octets that came back.
    pub octets: Vec<u8>,
    /// Why the session ended, if its end was told.
    pub over: Option<EndReason>,
}

/// Whether a session reacted to a message without octets, and its end, if it was told.
#[derive(Clone, Copy)]
pub struct Emission {
    /// Whether a message, or a stop, was reacted to without octets.
    pub reacted: bool,
    /// Why the session ended, if its end was told.
    pub over: Option<EndReason>,
}

// Whether a session may have more to say, or said that it has ended.
#[derive(Clone, Copy)]
enum Turn {
    More,
    Last(Option<EndReason>),
}

/// Octets go into a session as far as there is room, and what it has to say is taken, by a buffer; again, until none are
/// left or none were taken.
pub fn exchange(
    alloc: Global,
    hub: &mut Hub,
    session: u64,
    octets: &[u8],
    buffer: &mut Vec<u8>,
) -> Result<Exchanged, NoMemory>
    ensures { IfOk result (λ x. Exchanges hub.old session octets.now hub.new x.octets.items x.over) }
{
    // No output of a session is longer.
    make_room(buffer, MAX_FRAME)?;
    exchange_over(alloc, hub, session, octets, buffer.as_mut_slice())
}

// The same over a buffer that has room for a frame.
fn exchange_over(
    alloc: Global,
    hub: &mut Hub,
    session: u64,
    octets: &[u8],
    buffer: &mut [u8],
) -> Result<Exchanged, NoMemory>
    requires { frame_octets ≤ length buffer.old }
    ensures { IfOk result (λ x. Exchanges hub.old session octets.now hub.new x.octets.items x.over) }
{
    let mut answer = Vec::new(alloc);
    let mut rest = octets;
    let mut left = u64::MAX;
    'rounds: loop {
        let count = hub.take(session, rest);
        // A peer asks nothing of first answers, so they aren't noted.
        let mut filled = Vec::new(alloc);
        let emission = emit(
            hub,
            session,
            u64::MAX,
            buffer,
            &mut answer,
            false,
            &mut filled,
        )?;
        let over = emission.over;
        if is_done(count, rest.len()) {
            return Ok(Exchanged {
                octets: answer,
                over,
            });
        }
        if left == 0 {
            return Ok(Exchanged {
                octets: answer,
                over: None,
            });
        }
        (_, rest) = rest.split_at(count);
        left -= 1;
    }
}

// Whether an exchange is over once so many of so many octets went in: none, or all.
fn is_done(count: usize, size: usize) -> bool
    ensures test { result ≡ (count == 0 || nat_le size count) }
    ensures within { result ≡ false → count ≤ size }
{
    count == 0 || count >= size
}

/// What a session has to say, until so many octets came, or it has nothing more to say or has ended. Where the first
/// answers of its questions end is noted behind each call, if at all: that costs a step for each of them.
pub(crate) fn emit(
    hub: &mut Hub,
    session: u64,
    most: u64,
    buffer: &mut [u8],
    octets: &mut Vec<u8>,
    notes: bool,
    filled: &mut Vec<(u16, u64)>,
) -> Result<Emission, NoMemory>
    requires { frame_octets ≤ length buffer.old }
    ensures { IfOk result (λ emission. Emits most hub.old session octets.old.items (noted_if notes filled.old.items) hub.new octets.new.items (noted_if notes filled.new.items) emission) }
{
    kept_hubs_stand();
    let mut reacted = false;
    let mut budget = most;
    let mut left = u64::MAX;
    'turns: loop {
        if is_used_up(budget, octets) {
            return Ok(Emission {
                reacted,
                over: None,
            });
        }
        let room = room_for(budget, buffer.len());
        let given = give(hub, session, &mut buffer[..room], octets, notes, filled)?;
        reacted = either(reacted, has_worked(given));
        budget = left_of(budget, given);
        if let Turn::Last(over) = turn_of(given) {
            return Ok(Emission { reacted, over });
        }
        if left == 0 {
            return Ok(Emission {
                reacted,
                over: None,
            });
        }
        left -= 1;
    }
}

// Whether no more octets may come.
fn is_used_up(budget: u64, octets: &Vec<u8>) -> bool
    ensures test { result ≡ (budget == 0) }
    ensures short { length octets.now.items < 2 ^ 63 }
{
    budget == 0
}

// Whether either is so.
fn either(first: bool, second: bool) -> bool
    ensures { result ≡ (first || second) }
{
    first || second
}

// As many octets as may still come, and as there is room for.
fn room_for(budget: u64, size: usize) -> usize
    ensures { result ≡ min budget size }
{
    if budget < size as u64 {
        budget as usize
    } else {
        size
    }
}

// How many octets may come behind those that were copied.
fn left_of(budget: u64, given: Given) -> u64
    requires { octets_of given ≤ budget }
    ensures { result ≡ budget - octets_of given }
{
    match given {
        Given::Bytes(count) => budget - count as u64,
        Given::Worked | Given::Nothing | Given::Ending | Given::End(_) => budget,
    }
}

// One call of `give`.
fn give(
    hub: &mut Hub,
    session: u64,
    buffer: &mut [u8],
    octets: &mut Vec<u8>,
    notes: bool,
    filled: &mut Vec<(u16, u64)>,
) -> Result<Given, NoMemory>
    ensures given { IfOk result (λ given. Gives (length buffer.old) hub.old session octets.old.items (noted_if notes filled.old.items) hub.new octets.new.items (noted_if notes filled.new.items) given) }
    ensures short { length octets.new.items < 2 ^ 63 }
    ensures bound { IfOk result (λ given. octets_of given ≤ length buffer.old) }
{
    let given = match hub.give_uncounted(session, buffer) {
        Ok(given) => given,
        Err(HubFault::NoMemory) => return Err(NoMemory),
    };
    octets.extend_from_slice(front_of(buffer, given))?;
    remember(hub, session, notes, filled)?;
    Ok(given)
}

// Where the first answers of a session's questions end is noted, before what was noted earlier, if they are.
fn remember(
    hub: &Hub,
    session: u64,
    notes: bool,
    filled: &mut Vec<(u16, u64)>,
) -> Result<(), NoMemory>
    ensures { (plain : PlainHub) → StandsFor hub.now plain → OnOk result (Remembers plain session (noted_if notes filled.old.items) (noted_if notes filled.new.items)) }
{
    if notes {
        return put_in_front(hub.all_filled(session), filled);
    }
    Ok(())
}

// The octets that were copied.
fn front_of(buffer: &[u8], given: Given) -> &[u8]
    requires { octets_of given ≤ length buffer.now }
    ensures { result.now ≡ written given buffer.now }
{
    match given {
        Given::Bytes(count) => &buffer[..count],
        Given::Worked | Given::Nothing | Given::Ending | Given::End(_) => &[],
    }
}

// What follows a call of `give`.
fn turn_of(given: Given) -> Turn
    ensures { result ≡ turn_of given }
{
    match given {
        Given::Bytes(_) | Given::Worked => Turn::More,
        Given::Nothing | Given::Ending => Turn::Last(None),
        Given::End(reason) => Turn::Last(Some(reason)),
    }
}

// Whether a call of `give` reacted to a message, or a stop, without octets.
fn has_worked(given: Given) -> bool
    ensures { result ≡ has_worked given }
{
    match given {
        Given::Worked => true,
        Given::Bytes(_) | Given::Nothing | Given::Ending | Given::End(_) => false,
    }
}
