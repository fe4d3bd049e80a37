//! The text of a script, and the world that it leaves.

ghost use Rattle.std.specs.Prelude.{◌≡◌, ◌<◌, [], ◌∷◌, List, Ok, IfOk, length, string_bytes};
ghost use Rattle.history.specs.Kept.{state_of};
ghost use Rattle.history.specs.Plans.{IsStart};
ghost use Rattle.scripts.specs.WholeLines.{WholeLine};
ghost use Rattle.scripts.specs.WholeScripts.{near_lines};
ghost use Rattle.replay.specs.World.{start_world};
ghost use Rattle.replay.specs.TextWords.{by_notices};
ghost use Rattle.replay.specs.TwoWorlds.{start_worlds, worlds_after};
ghost use Rattle.replay.specs.Askings.{lines_asks, start_askings};
ghost use Rattle.replay.specs.WholeTexts.{whole_text_by};
ghost use Rattle.replay.specs.KeptScripts.{askings_at_start, world_at_start};
ghost use Rattle.replay.specs.KeptWorlds.{IsWorld};
ghost use Rattle.replay.specs.KeptTwoWorlds.{AreWorlds, HasSameClients, TellsLines, TurnComes, TurnRuns};
ghost use Rattle.replay.specs.KeptTurns.{left_of};
ghost use Rattle.replay.specs.KeptPlays.{Plays};
ghost use Rattle.replay.specs.KeptStages.{AreStaged, HasPlayed};
ghost use Rattle.scripts.specs.declared.whole_script.WholeScript.{WholeScript};

use crate::turn_lines::{both_lines, carry_line, far_line, near_line};
use crate::two_worlds::Worlds;
use crate::world::World;
use dnsname::Name;
use push_base::NoMemory;
use scripts::event::Event;
use scripts::{KnownClient, Script, Turn, WholeScript};
use std::alloc::Global;

/// The text of a script, and the worlds behind its last line.
#[derive(Drop)]
pub struct Played {
    /// What its events print, one behind another.
    pub text: String,
    /// The hubs, the peers and the clients.
    pub worlds: Worlds,
}

// A world, and what is to happen in it.
#[derive(Drop)]
struct Stage {
    world: World,
    clients: Vec<KnownClient>,
    events: Vec<Event>,
}

// The clients of each hub, and what is still to happen at it.
#[derive(Drop)]
struct Left<'a> {
    near_clients: &'a [KnownClient],
    near: &'a [Event],
    far_clients: &'a [KnownClient],
    far: &'a [Event],
}

/// Runs a script.
pub fn script_text(alloc: Global, script: WholeScript) -> Result<Played, NoMemory>
    requires { (lines : List WholeLine) × TellsLines lines script }
    ensures text { (lines : List WholeLine) → TellsLines lines script → IfOk result (λ played. string_bytes played.text ≡ whole_text_by by_notices lines) }
    ensures worlds { (lines : List WholeLine) → TellsLines lines script → IfOk result (λ played. AreWorlds played.worlds (worlds_after by_notices lines (start_worlds lines))) }
    ensures asks { (lines : List WholeLine) → TellsLines lines script
        → IfOk result (λ played. played.worlds.near.hub.askings ≡ lines_asks (near_lines lines) (start_world (near_lines lines)) (start_askings (near_lines lines))) }
{
    let WholeScript {
        near,
        far,
        apex,
        turns,
    } = script;
    match both(staged(alloc, near), staged(alloc, far)) {
        Ok((near, far)) => run_staged(alloc, near, far, apex, &turns),
        Err(NoMemory) => Err(NoMemory),
    }
}

// Two values, where both are there.
fn both<A: Drop, B: Drop>(
    first: Result<A, NoMemory>,
    second: Result<B, NoMemory>,
) -> Result<(A, B), NoMemory>
    ensures { IfOk result (λ pair. (first ≡ Ok pair.0) × (second ≡ Ok pair.1)) }
{
    match first {
        Ok(first) => match second {
            Ok(second) => Ok((first, second)),
            Err(NoMemory) => Err(NoMemory),
        },
        Err(NoMemory) => Err(NoMemory),
    }
}

// Runs a script from these worlds on.
fn run_staged(
    alloc: Global,
    near: Stage,
    far: Stage,
    apex: Option<Name>,
    turns: &[Turn],
) -> Result<Played, NoMemory>
    requires { (script : WholeScript) × (lines : List WholeLine) × TellsLines lines script × AreStaged script near far apex turns.now }
    ensures { (script : WholeScript) (lines : List WholeLine) → TellsLines lines script → AreStaged script near far apex turns.now → IfOk result (λ played. HasPlayed lines played) }
{
    let Stage {
        world: near,
        clients: near_clients,
        events: near_events,
    } = near;
    let Stage {
        world: far,
        clients: far_clients,
        events: far_events,
    } = far;
    let mut worlds = Worlds {
        near,
        far,
        apex,
        order: Vec::new(alloc),
    };
    let mut left = Left {
        near_clients: &near_clients,
        near: &near_events,
        far_clients: &far_clients,
        far: &far_events,
    };
    let text = turns_text(alloc, &mut worlds, &mut left, turns);
    with_text(text, worlds)
}

// What was played, where there is a text.
fn with_text(text: Result<String, NoMemory>, worlds: Worlds) -> Result<Played, NoMemory>
    ensures { IfOk result (λ played. (text ≡ Ok played.text) × (played.worlds ≡ worlds)) }
{
    match text {
        Ok(text) => Ok(Played { text, worlds }),
        Err(NoMemory) => Err(NoMemory),
    }
}

// What turns print, one behind another.
fn turns_text(
    alloc: Global,
    worlds: &mut Worlds,
    left: &mut Left<'_>,
    turns: &[Turn],
) -> Result<String, NoMemory>
    requires { (script : WholeScript) × (lines : List WholeLine) × TellsLines lines script × Plays script worlds.old (left_of left.old) turns.now [] }
    ensures { (script : WholeScript) → Plays script worlds.old (left_of left.old) turns.now [] → IfOk result (λ text. Plays script worlds.new (left_of left.new) [] (string_bytes text)) }
{
    let mut text = String::new(alloc);
    'turns: for turn in turns {
        let lines = turn_lines(alloc, worlds, left, *turn)?;
        text.push_str(lines.as_str())?;
    }
    Ok(text)
}

// The world with which what a script is to a hub starts.
fn staged(alloc: Global, script: Script) -> Result<Stage, NoMemory>
    requires { IsStart (state_of script.homes) }
    ensures world { IfOk result (λ stage. IsWorld stage.world (world_at_start script)) }
    ensures asks { IfOk result (λ stage. stage.world.hub.askings ≡ askings_at_start script) }
    ensures clients { IfOk result (λ stage. stage.clients ≡ script.clients) }
    ensures events { IfOk result (λ stage. stage.events ≡ script.events) }
{
    let Script {
        lines: _,
        timers,
        homes,
        links,
        clients,
        events,
    } = script;
    let world = World::new(alloc, homes, links, timers)?;
    Ok(Stage {
        world,
        clients,
        events,
    })
}

// What a turn prints: the next event of the hub that it is for.
fn turn_lines(
    alloc: Global,
    worlds: &mut Worlds,
    left: &mut Left<'_>,
    turn: Turn,
) -> Result<String, NoMemory>
    requires { TurnComes turn worlds.old (left_of left.old) }
    ensures clients { IfOk result (λ text. HasSameClients (left_of left.old) (left_of left.new)) }
    ensures runs { IfOk result (λ text. TurnRuns turn worlds.old (left_of left.old) (string_bytes text) worlds.new (left_of left.new)) }
{
    match turn {
        Turn::Near => near_turn(alloc, worlds, left),
        Turn::Far => far_turn(alloc, worlds, left),
        Turn::Both => both_turn(alloc, worlds, left),
        Turn::Carry => carry_turn(alloc, worlds, left),
    }
}

// The first hub has a turn.
fn near_turn(alloc: Global, worlds: &mut Worlds, left: &mut Left<'_>) -> Result<String, NoMemory>
    requires { TurnComes Turn.Near worlds.old (left_of left.old) }
    ensures clients { IfOk result (λ text. HasSameClients (left_of left.old) (left_of left.new)) }
    ensures runs { IfOk result (λ text. TurnRuns Turn.Near worlds.old (left_of left.old) (string_bytes text) worlds.new (left_of left.new)) }
{
    let (event, rest) = first_of(left.near);
    left.near = rest;
    near_line(alloc, left.near_clients, worlds, event)
}

// The second hub has a turn.
fn far_turn(alloc: Global, worlds: &mut Worlds, left: &mut Left<'_>) -> Result<String, NoMemory>
    requires { TurnComes Turn.Far worlds.old (left_of left.old) }
    ensures clients { IfOk result (λ text. HasSameClients (left_of left.old) (left_of left.new)) }
    ensures runs { IfOk result (λ text. TurnRuns Turn.Far worlds.old (left_of left.old) (string_bytes text) worlds.new (left_of left.new)) }
{
    let (event, rest) = first_of(left.far);
    left.far = rest;
    far_line(alloc, left.far_clients, worlds, event)
}

// Both hubs have a turn.
fn both_turn(alloc: Global, worlds: &mut Worlds, left: &mut Left<'_>) -> Result<String, NoMemory>
    requires { TurnComes Turn.Both worlds.old (left_of left.old) }
    ensures clients { IfOk result (λ text. HasSameClients (left_of left.old) (left_of left.new)) }
    ensures runs { IfOk result (λ text. TurnRuns Turn.Both worlds.old (left_of left.old) (string_bytes text) worlds.new (left_of left.new)) }
{
    let (event, rest) = first_of(left.near);
    let (_, far_rest) = first_of(left.far);
    left.near = rest;
    left.far = far_rest;
    both_lines(alloc, worlds, event)
}

// A client of the first hub carries.
fn carry_turn(alloc: Global, worlds: &mut Worlds, left: &mut Left<'_>) -> Result<String, NoMemory>
    requires { TurnComes Turn.Carry worlds.old (left_of left.old) }
    ensures clients { IfOk result (λ text. HasSameClients (left_of left.old) (left_of left.new)) }
    ensures runs { IfOk result (λ text. TurnRuns Turn.Carry worlds.old (left_of left.old) (string_bytes text) worlds.new (left_of left.new)) }
{
    let (event, rest) = first_of(left.near);
    left.near = rest;
    carry_line(alloc, left.near_clients, worlds, event)
}

// The first event, and those behind it.
fn first_of<'a>(events: &'a [Event]) -> (&'a Event, &'a [Event])
    requires { 0 < length events.now }
    ensures { events.now ≡ result.0.now ∷ result.1.now }
{
    match events.split_first() {
        Some((event, rest)) => (event, rest),
        None => unreachable!(),
    }
}
