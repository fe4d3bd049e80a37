//! The whole program but for `main`: it reads the command line, does one of `replay`, `serve`, `subscribe`, `check` and
//! `big`, and answers the exit status. The main theorem is the contract of `run`.
//!
//! **Model.** All that a run reaches is one value of a trait, `Outside` (of `push_outside`): files, sockets, clocks and
//! threads, each of which tells what was done with it. `request_of` (`specs/Words`) says what the words ask for.
//! `specs/Runs` says what is written for a script, `specs/Serving` what a server did, `specs/Subscribing` what a
//! subscriber did, `specs/Status` which number each end has.
//!
//! **Flow.** `run` (`program.rt`) reads the words (`command_line.rt`). A script goes to `script_command.rt`, which
//! opens its path and hands it to `replay` or `check`. `serve_command.rt` reads a configuration (`configured.rt`),
//! opens what it names, makes the hub and calls `serving`. `subscribe_command.rt` dials and calls `subscriber`.
//! `status.rt` turns an end into a number and the last text. `log_lines.rt` and `line_causes.rt` have what is logged.
//!
//! **Begin** with `program.rt`: its clauses are what is proved of the program. `scripts/believed commands run` lists
//! every definition that they rest on.
//!
//! **Change.** How a command is done may change below its clause. `USAGE`, the texts and the statuses are what users
//! test. What is logged is seen by no contract, and may say more. Whoever adds a command adds a case of `Command` and
//! of `Request` (`specs/Words`).
//!
//! **Stand on it**: `dnspush`, and `commands_vectors`, which runs it in memory.
#![tactic(auto)]

mod command_line;
mod configured;
mod line_causes;
mod log_lines;
mod program;
mod script_command;
mod serve_command;
mod status;
mod subscribe_command;

ghost use Rattle.std.specs.Prelude.{◌≡◌};
ghost use Rattle.commands.specs.Words.{greatest_number};

pub use program::run;
pub use status::Status;

/// The limit of a number in the words of a command.
pub fn limit_rows()
    ensures number { greatest_number ≡ 1000000 }
{}
