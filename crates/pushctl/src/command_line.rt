//! The words of the command line.

use clap::{Arg, ArgAction, Command, value_parser};
use std::alloc::{AllocError, Global};

// A word that must be there.
fn word<'a>(alloc: Global, name: &'a str, help: &'a str) -> Arg<'a> {
    Arg::new(alloc, name).required(true).help(help)
}

// An option without a value.
fn flag<'a>(alloc: Global, name: &'a str, help: &'a str) -> Arg<'a> {
    Arg::new(alloc, name)
        .long(name)
        .action(ArgAction::SetTrue)
        .help(help)
}

// A number of seconds.
fn seconds<'a>(alloc: Global, name: &'a str, default: &'a str, help: &'a str) -> Arg<'a> {
    Arg::new(alloc, name)
        .long(name)
        .value_name("S")
        .value_parser(value_parser!(u32))
        .default_value(default)
        .help(help)
}

// When signs are coloured.
fn color<'a>(alloc: Global) -> Arg<'a> {
    Arg::new(alloc, "color")
        .long("color")
        .value_name("WHEN")
        .value_parser(["auto", "always", "never"].as_slice())
        .default_value("auto")
        .help("Colour the sign of each line")
}

// The command `browse`.
fn browse_command<'a>(alloc: Global) -> Result<Command<'a>, AllocError> {
    Command::new(alloc, "browse")
        .about("Shows the services of a domain, and each change of them")
        .arg(word(alloc, "SERVER", "The server's address and port"))?
        .arg(word(alloc, "SERVICE", "The service, as _ipp._tcp"))?
        .arg(Arg::new(alloc, "DOMAIN").help("The domain, where SERVICE doesn't name it"))?
        .arg(flag(alloc, "once", "Print the list once it is whole, and end"))?
        .arg(seconds(
            alloc,
            "quiet",
            "2",
            "With --once: how long nothing must change",
        ))?
        .arg(seconds(
            alloc,
            "within",
            "10",
            "With --once: how long it takes at most",
        ))?
        .arg(flag(alloc, "lines", "Print fields between tabs"))?
        .arg(flag(alloc, "json", "Print an object of JSON in each line").conflicts_with("lines")?)?
        .arg(flag(alloc, "wide", "Don't cut long texts"))?
        .arg(color(alloc))
}

/// All words that are understood.
pub(crate) fn command<'a>(alloc: Global) -> Result<Command<'a>, AllocError> {
    Command::new(alloc, "pushctl")
        .version("1.0.0")
        .about("Shows what a DNS Push server knows, live")
        .subcommand_required(true)
        .subcommand(browse_command(alloc)?)
}
