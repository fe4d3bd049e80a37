//! The words of the command line.

ghost use Rattle.std.specs.Prelude.{◌≡◌, [], ◌∷◌};
ghost use Rattle.std.specs.Option.{option_map};
ghost use Rattle.commands.specs.Words.{Serve, Subscribe, request_in, request_of, is_path as names_path, on_number as scripts_of, on_script as asked_of, on_configuration as configured};
ghost use Rattle.commands.specs.Command.{asked};

use crate::script_command::ScriptCommand;
use scripts::number_of_word;

/// The greatest number from which scripts are made.
pub const GREATEST_NUMBER: u32 = 1_000_000;

/// What the words of a command line ask for.
#[derive(Clone, Copy, Debug)]
pub enum Command<'a> {
    /// A task on the script that the input gives.
    OnInput(ScriptCommand),
    /// A task on the script at a path.
    AtPath(ScriptCommand, &'a str),
    /// The scripts of a number.
    Big(u32),
    /// A server by the configuration at a path.
    Serve(&'a str),
    /// A subscriber by the configuration at a path.
    Subscribe(&'a str),
}

/// The command that the words name, if they are `replay` or `check`, and then `-` or a PATH, which isn't empty and
/// doesn't begin with `-`, if they are `big` and a number, or if they are `serve` or `subscribe`, and such a PATH.
pub fn read_words(words: &[String]) -> Option<Command<'_>>
    ensures { option_map asked result ≡ request_in words.now }
{
    match words {
        [command, place] => read_pair(command.as_str(), place.as_str()),
        _ => None,
    }
}

// The command that two words name.
fn read_pair<'a>(command: &str, place: &'a str) -> Option<Command<'a>>
    ensures { option_map asked result ≡ request_of (command.now ∷ place.now ∷ []) }
{
    if command == "replay" {
        on_script(ScriptCommand::Replay, place)
    } else if command == "check" {
        on_script(ScriptCommand::Check, place)
    } else if command == "big" {
        on_number(place)
    } else if command == "serve" {
        on_server(place)
    } else if command == "subscribe" {
        on_subscriber(place)
    } else {
        None
    }
}

// The scripts of a number: from 1 to the greatest, without leading zeros.
fn on_number(text: &str) -> Option<Command<'_>>
    ensures { option_map asked result ≡ scripts_of text.now }
{
    let number = number_of_word(text.as_bytes())?;
    if number < 1 {
        return None;
    }
    if number > GREATEST_NUMBER {
        return None;
    }
    Some(Command::Big(number))
}

// Whether a place is a path: it isn't empty and doesn't begin with `-`.
fn is_path(place: &str) -> bool
    ensures { result ≡ names_path place.now }
{
    !matches!(place.as_bytes(), [] | [b'-', ..])
}

// A server by the configuration at a path.
fn on_server(place: &str) -> Option<Command<'_>>
    ensures { option_map asked result ≡ configured Serve place.now }
{
    if is_path(place) {
        Some(Command::Serve(place))
    } else {
        None
    }
}

// A subscriber by the configuration at a path.
fn on_subscriber(place: &str) -> Option<Command<'_>>
    ensures { option_map asked result ≡ configured Subscribe place.now }
{
    if is_path(place) {
        Some(Command::Subscribe(place))
    } else {
        None
    }
}

// The task on the script that a place names.
fn on_script(task: ScriptCommand, place: &str) -> Option<Command<'_>>
    ensures { option_map asked result ≡ asked_of task place.now }
{
    match place.as_bytes() {
        b"-" => Some(Command::OnInput(task)),
        [] | [b'-', ..] => None,
        _ => Some(Command::AtPath(task, place)),
    }
}
