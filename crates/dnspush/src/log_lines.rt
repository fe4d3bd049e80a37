//! Where lines of the log go, and which.

use log::kv::Source;
use log::span::Spans;
use log::{LevelFilter, Line, Log, Metadata, Record, warn};
use std::env;
use std::env::Env;
use std::fmt::Display;

/// The environment variable that chooses what is logged.
const VARIABLE: &str = "DNSPUSH_LOG";

/// The target that lines name.
const TARGET: &str = "dnspush";

/// Lines on standard error, each with the program's name.
#[derive(Clone, Copy, Drop)]
pub(crate) struct Lines<R>(pub(crate) R);

impl<R: Eprint> Log for Lines<R> {
    fn enabled(&self, _metadata: &Metadata<'_>) -> bool {
        true
    }

    fn log<D: Display, K: Source, S: Spans>(&self, record: &Record<'_, D, K, S>) {
        let _ = self.0.eprintln(Line::new(record));
    }

    fn flush(&self) {}

    fn target(&self) -> &str {
        TARGET
    }
}

/// The most verbose level that is logged: `info`, unless the environment variable names another.
pub(crate) fn level_chosen<R: Env + Eprint + Alloc>(rt: &R) -> LevelFilter {
    let Ok(word) = env::var(rt, VARIABLE) else {
        return LevelFilter::Info;
    };
    match word.as_str().parse() {
        Ok(level) => level,
        Err(_) => {
            warn!(Lines(rt); "{VARIABLE} is no level");
            LevelFilter::Info
        }
    }
}
