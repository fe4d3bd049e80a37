//! The lines that the events of two hubs print.

ghost use Rattle.std.specs.Prelude.{◌≡◌, ◌≤◌, ◌<◌, Some, true, length, position, IfOk, OnOk, string_bytes};
ghost use Rattle.push_base.specs.Limits.{max_moment};
ghost use Rattle.replay.specs.KeptWorlds.{seated};
ghost use Rattle.replay.specs.KeptSeats.{has_word};
ghost use Rattle.replay.specs.KeptTwoWorlds.{Carries, CarriesShown, IsNamedIn, Relays, RunsBoth, RunsCarry, RunsFar, RunsMoment, RunsNear, is_at, is_show, is_showing, order_with};

use crate::event_lines::{event_line, joined_lines, moment_closes, update_code, word_of};
use crate::printed::{carried_text, carry_text, unfit_text};
use crate::show_lines::held_set;
use crate::two_worlds::{Worlds, woven};
use push_base::NoMemory;
use relay::{Relayed, fits_message, relay_update};
use rrset::record::Question;
use scripts::KnownClient;
use scripts::event::Event;
use scripts::line::{ClientEvent, HubEvent};
use std::alloc::Global;

/// What an event of the first hub prints, where the script has these clients of it.
pub(crate) fn near_line(
    alloc: Global,
    clients: &[KnownClient],
    worlds: &mut Worlds,
    event: &Event,
) -> Result<String, NoMemory>
    requires { IsNamedIn worlds.old.near clients.now event.now }
    ensures { IfOk result (λ text. RunsNear clients.now event.now worlds.old (string_bytes text) worlds.new) }
{
    note_joining(&mut worlds.order, event, false)?;
    event_line(alloc, clients, &mut worlds.near, event)
}

/// What an event of the second hub prints, where the script has these clients of it.
pub(crate) fn far_line(
    alloc: Global,
    clients: &[KnownClient],
    worlds: &mut Worlds,
    event: &Event,
) -> Result<String, NoMemory>
    requires { IsNamedIn worlds.old.far clients.now event.now }
    ensures { IfOk result (λ text. RunsFar clients.now event.now worlds.old (string_bytes text) worlds.new) }
{
    note_joining(&mut worlds.order, event, true)?;
    event_line(alloc, clients, &mut worlds.far, event)
}

// Notes of a client that joins which hub it is one of.
fn note_joining(order: &mut Vec<bool>, event: &Event, is_far: bool) -> Result<(), NoMemory>
    ensures { OnOk result (order.new.items ≡ order_with is_far order.old.items event.now) }
{
    match event {
        Event::Joining { .. } => {
            order.push(is_far)?;
            Ok(())
        }
        _ => Ok(()),
    }
}

/// What an event prints that both hubs have, which is a moment: first it is one for the first hub, and the clients of both
/// that close are told in the order of their lines.
pub(crate) fn both_lines(
    alloc: Global,
    worlds: &mut Worlds,
    event: &Event,
) -> Result<String, NoMemory>
    requires { is_at event.now ≡ true }
    ensures { IfOk result (λ text. RunsBoth event.now worlds.old (string_bytes text) worlds.new) }
{
    match event {
        Event::Hub(HubEvent::At(moment)) => moment_lines(alloc, worlds, moment.millis()),
        _ => unreachable!(),
    }
}

// A moment comes for both hubs.
fn moment_lines(alloc: Global, worlds: &mut Worlds, moment: u64) -> Result<String, NoMemory>
    requires { moment ≤ max_moment }
    ensures { IfOk result (λ text. RunsMoment moment worlds.old (string_bytes text) worlds.new) }
{
    let near = moment_closes(alloc, &mut worlds.near, moment)?;
    let far = moment_closes(alloc, &mut worlds.far, moment)?;
    let closes = woven(alloc, &worlds.order, near, far)?;
    joined_lines(alloc, &closes)
}

/// What a carry prints, which to the first hub is shown, where the script has these clients of it.
pub(crate) fn carry_line(
    alloc: Global,
    clients: &[KnownClient],
    worlds: &mut Worlds,
    event: &Event,
) -> Result<String, NoMemory>
    requires named { IsNamedIn worlds.old.near clients.now event.now }
    requires show { is_show event.now ≡ true }
    ensures { IfOk result (λ text. RunsCarry clients.now event.now worlds.old (string_bytes text) worlds.new) }
{
    match event {
        Event::Client { client, event } => {
            shown_line(alloc, worlds, *client, word_of(clients, *client), event)
        }
        _ => unreachable!(),
    }
}

// What a client carries that would be shown to the first hub.
fn shown_line(
    alloc: Global,
    worlds: &mut Worlds,
    client: usize,
    word: &str,
    event: &ClientEvent,
) -> Result<String, NoMemory>
    requires at { position (has_word word.now) (seated worlds.old.near.seats.items) ≡ Some client }
    requires within { client < length worlds.old.near.seats.items }
    requires show { is_showing event.now ≡ true }
    ensures { IfOk result (λ text. CarriesShown word.now event.now worlds.old (string_bytes text) worlds.new) }
{
    match event {
        ClientEvent::Show { question, written } => {
            carried_line(alloc, worlds, client, word, question, written.as_str())
        }
        _ => unreachable!(),
    }
}

// What a client of the first hub holds of a name is carried to the second hub.
fn carried_line(
    alloc: Global,
    worlds: &mut Worlds,
    client: usize,
    word: &str,
    question: &Question,
    written: &str,
) -> Result<String, NoMemory>
    requires at { position (has_word word.now) (seated worlds.old.near.seats.items) ≡ Some client }
    requires within { client < length worlds.old.near.seats.items }
    ensures { IfOk result (λ text. Carries word.now question.now written.now worlds.old (string_bytes text) worlds.new) }
{
    match relayed(alloc, worlds, client, question)? {
        None => carry_text(alloc, word, written, "off"),
        Some(Relayed::Apex) => carry_text(alloc, word, written, "apex"),
        Some(Relayed::Outside) => carry_text(alloc, word, written, "outside"),
        Some(Relayed::Unfit(kind)) => unfit_text(alloc, word, written, kind),
        Some(Relayed::Message(message)) => {
            let code = update_code(&mut worlds.far, message.as_slice())?;
            carried_text(alloc, word, written, code)
        }
    }
}

// What becomes of the set that a client of the first hub holds of all at a name, if it holds one. No client holds more than
// a message has room for; a larger set is given up as one for which there is no memory.
fn relayed(
    alloc: Global,
    worlds: &Worlds,
    client: usize,
    question: &Question,
) -> Result<Option<Relayed>, NoMemory>
    requires { client < length worlds.now.near.seats.items }
    ensures { IfOk result (λ found. Relays worlds.now client question.now found) }
{
    let Some(apex) = &worlds.apex else {
        return Ok(None);
    };
    let Some(set) = held_set(&worlds.near, client, question) else {
        return Ok(None);
    };
    if !fits_message(set) {
        return Err(NoMemory);
    }
    Ok(Some(relay_update(alloc, apex, &question.name, set, 0)?))
}
