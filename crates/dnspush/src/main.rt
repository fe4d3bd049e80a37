//! The program `dnspush`: a DNS Push server, a subscriber, and a simulator of DNS Push sessions. This is the thin
//! `main`; all that it does is `commands::run`.
//!
//! **Model.** `main` has no contract: nobody calls it. It hands the words, the standard streams and the real outside to
//! `run`, whose clauses say what follows. So what stands here is believed after reading, and is kept short enough for
//! that.
//!
//! **Flow.** `main.rt` first takes the descriptors 0 to 2 where they are closed, so that no connection gets one of
//! them. Then it reads the words, makes the logger (`log_lines.rt`, by the level that the environment chooses) and a
//! `System` of `push_outside`, calls `run`, and exits with its answer. The register that `run` is given tells nothing
//! (`NoRegister`).
//!
//! **Begin** here, then `crates/commands/src/program.rt`.
//!
//! **Change.** Nothing stands above this crate, so all is free. Whatever can be said in a contract belongs in
//! `commands`: code in this crate is only read. Any handle beyond those that the file HANDLES allows is refused by the
//! gate.
//!
//! **Stand on it**: nobody. The gate builds it twice, by LLVM and by Rattle's own compiler, and
//! `scripts/check-program`, `scripts/real-tools` and `scripts/measure` run it.
#![tactic(auto)]

mod log_lines;

use crate::log_lines::{Lines, level_chosen};
use commands::Status;
use hublock::NoRegister;
use log::Logged;
use push_base::{NoMemory, Sink};
use push_outside::{Origin, Reading, System, Writing};
use scripts::{NO_MEMORY, Outcome, tell};
use std::env;
use std::fs::File;
use std::io::ErrorKind;
use std::process::ExitCode;

fn main(rt: HostRuntime) -> ExitCode {
    let alloc = rt.alloc();
    // Where one of the descriptors 0 to 2 is closed, a folder takes it: else a connection would, and what is printed would go
    // to its peer. A folder can be neither read nor written, so that is a fault, as it was.
    let taken = (
        File::open(&rt, "/"),
        File::open(&rt, "/"),
        File::open(&rt, "/"),
    );
    let mut out = Writing::new(rt.stdout());
    let Ok(words) = given_words(&rt) else {
        return ExitCode::from(tell_starved(&mut out));
    };
    let logged = Logged::new(rt, level_chosen(&rt), Lines(rt));
    let mut input = Reading::new(Origin::Input(rt.stdin()));
    let mut system = System::new(rt, logged, alloc);
    let register = &mut NoRegister;
    let status = commands::run(
        logged,
        alloc,
        &words,
        &mut input,
        &mut out,
        &mut system,
        register,
    );
    drop(taken);
    ExitCode::from(status)
}

// Tells that there was too little memory to read the words, and gives the status.
fn tell_starved<K: Sink>(out: &mut K) -> u8 {
    Status::Ended(tell(out, Outcome::NoMemory, NO_MEMORY)).code()
}

// The words after the program's name, or none where one isn't UTF-8.
fn given_words(rt: &HostRuntime) -> Result<Vec<String>, NoMemory> {
    let alloc = rt.alloc();
    match env::args(rt) {
        Ok(mut args) => {
            let _ = args.next();
            args.collect(alloc)
        }
        Err(error) if error.kind() == ErrorKind::OutOfMemory => Err(NoMemory),
        Err(_) => Ok(Vec::new(alloc)),
    }
}
