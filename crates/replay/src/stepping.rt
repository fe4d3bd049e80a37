//! Octets to a client, which steps until it waits, and what it has to send.

ghost use Rattle.std.specs.Prelude.{◌≡◌, ◌==◌, ◌||◌, ◌≤◌, drop, length, IfOk, OnOk};
ghost use Rattle.push_base.specs.Cases.{is_empty};
ghost use Rattle.replay.specs.KeptSteps.{ends_steps, Delivers, Steps};
ghost use Rattle.pushclient.specs.HandedOut.{HandsOut};

use crate::world::make_room;
use coalesce::MAX_FRAME;
use push_base::NoMemory;
use pushclient::client::Step;
use pushclient::{Client, hand_out_over};
use std::alloc::Global;

/// Octets go into a client as far as there is room, and it steps until it waits or has closed; again, until none are
/// left or none were taken. Gives how many went in.
pub(crate) fn deliver(client: &mut Client, octets: &[u8]) -> Result<usize, NoMemory>
    ensures { IfOk result (λ went_in. Delivers client.old octets.now client.new went_in) }
{
    let mut rest = octets;
    let mut left = u64::MAX;
    'rounds: loop {
        let count = client.take(rest);
        step_on(client)?;
        rest = behind(rest, count);
        if is_last(count, rest) {
            return Ok(octets.len() - rest.len());
        }
        if left == 0 {
            return Ok(octets.len() - rest.len());
        }
        left -= 1;
    }
}

// Whether a delivery is over: none went in, or none are left.
fn is_last(count: usize, rest: &[u8]) -> bool
    ensures { result ≡ (count == 0 || is_empty rest.now) }
{
    count == 0 || rest.is_empty()
}

// The octets behind so many.
fn behind(octets: &[u8], count: usize) -> &[u8]
    ensures rest { result.now ≡ drop count octets.now }
    ensures shorter { length result.now ≤ length octets.now }
{
    if count >= octets.len() {
        &[]
    } else {
        &octets[count..]
    }
}

// The client reacts to one message after the other, until it waits or has closed.
fn step_on(client: &mut Client) -> Result<(), NoMemory>
    ensures { OnOk result (Steps client.old client.new) }
{
    let mut left = u64::MAX;
    'steps: loop {
        let step = client.step()?;
        if ends_steps(step) {
            return Ok(());
        }
        if left == 0 {
            return Ok(());
        }
        left -= 1;
    }
}

// Whether no step follows this one.
fn ends_steps(step: Step) -> bool
    ensures { result ≡ ends_steps step }
{
    match step {
        Step::Waiting | Step::Closed(_) => true,
        Step::Answered(_, _) | Step::Kept(_, _) => false,
        Step::Pushed(_) | Step::Typeless(_) => false,
    }
}

/// All that a client has to send is handed out, by a buffer.
pub(crate) fn hand_out(
    alloc: Global,
    client: &mut Client,
    buffer: &mut Vec<u8>,
) -> Result<Vec<u8>, NoMemory>
    ensures { IfOk result (λ octets. HandsOut client.old octets.items client.new) }
{
    make_room(buffer, MAX_FRAME)?;
    hand_out_over(alloc, client, buffer.as_mut_slice())
}
