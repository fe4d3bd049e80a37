//! Shows what a DNS Push server knows, live.
//!
//! **Model.** This is the program `pushctl`: its words become a `Request`, and a `Status` becomes its exit status. Its
//! outside is `System`, the real one of `push_outside`, over a network whose attempts to connect end in time
//! (`prompt.rt`). A line gets a clothing (`Clothing` in `stamped.rt`): nothing, the time of day, or the moment
//! (RFC 3339).
//!
//! **Flow.** `main` makes the outside, and `run` reads the words as `command_line.rt` allows them. `request_of` brings
//! the names that were typed to NFC, and makes names of them (RFC 6763, 4.1.1). `browse_as` chooses the style, the
//! colours and the time zone, and calls `browse` of `pushctl_commands`. Its lines go through `Stamped`, a sink that
//! puts the time before each. Notes go to standard error where the list is written once, and else to standard output.
//!
//! **Begin** with `command_line.rt`, which has all words with their help, then `run` and `browse_as` below.
//!
//! **Change.** There are no specs here, so what can be proved belongs into `pushctl_commands` or `readable`. Words may
//! be added, but those that are there, and the statuses, must stay for scripts of users. Each write to `Stamped` must
//! be one line, as the time is put before each write. `main` must fill the descriptors 0 to 2 first: else a connection
//! may take one that is closed.
//!
//! **Stand on it**: nothing; it is a program.
#![tactic(auto)]

mod command_line;
mod prompt;
mod stamped;

use crate::command_line::command;
use crate::prompt::Prompt;
use crate::stamped::{Clothing, Stamped};
use clap::ArgMatches;
use dnsname::Name;
use jiff::tz::{SystemTimeZone, TimeZone, TimeZoneDatabase};
use log::sink::Discard;
use log::{LevelFilter, Logged};
use push_outside::{Outside, System};
use pushctl_commands::{Request, Status, Style, browse};
use readable::typed_name;
use std::alloc::Global;
use std::env;
use std::env::Env;
use std::fs::{File, Files};
use std::io::{ErrorKind, IsTerminal, Stderr, Stdout};
use std::net::Ipv6Addr;
use std::process::ExitCode;
use std::time::Clock;
use unicode_normalization::to_nfc;

/// What the program reaches beside its outside.
trait Reached: Env + Files + Eprint + Print + AllocGlobal + Clock + Copy + Drop {}

impl<R> Reached for R
where
    R: Env + Files + Eprint + Print + AllocGlobal + Clock + Copy + Drop,
{}

fn main(rt: HostRuntime) -> ExitCode {
    // Where one of the descriptors 0 to 2 is closed, a folder takes it: else a connection would.
    let taken = (
        File::open(&rt, "/"),
        File::open(&rt, "/"),
        File::open(&rt, "/"),
    );
    let logged = Logged::new(rt, LevelFilter::Off, Discard);
    let mut outside = System::new(Prompt::new(rt), logged, rt.alloc());
    let status = outcome(rt, rt.stdout(), rt.stderr(), &mut outside);
    drop(taken);
    ExitCode::from(status)
}

// Does what the words of the command line say.
fn outcome<R: Reached, O: Outside>(rt: R, out: Stdout, err: Stderr, outside: &mut O) -> u8 {
    match given_words(&rt) {
        Ok(words) => run(rt, out, err, &words, outside),
        Err(status) => status.code(),
    }
}

// The words of the command line, or the status with which the program ends where they can't be had.
fn given_words<R: Env + AllocGlobal>(rt: &R) -> Result<Vec<String>, Status> {
    match env::args(rt) {
        Ok(args) => args.collect(rt.alloc()).map_err(|_| Status::NoMemory),
        Err(error) if error.kind() == ErrorKind::OutOfMemory => Err(Status::NoMemory),
        Err(_) => Err(Status::Words),
    }
}

// Does what the words say.
fn run<R: Reached, O: Outside>(
    rt: R,
    out: Stdout,
    err: Stderr,
    words: &[String],
    outside: &mut O,
) -> u8 {
    let Ok(command) = command(rt.alloc()) else {
        return Status::NoMemory.code();
    };
    match command.try_get_matches_from(words) {
        Err(error) => {
            let _ = error.print(&rt);
            u8::from(error.use_stderr())
        }
        Ok(matches) => match matches.subcommand() {
            Some(("browse", matches)) => browse_with(rt, out, err, matches, outside),
            _ => Status::Words.code(),
        },
    }
}

// Whether a server's address has a port behind it: an IPv6 address alone has none (RFC 3986, 3.2).
fn has_port(server: &str) -> bool {
    if server.parse::<Ipv6Addr>().is_ok() {
        return false;
    }
    match server.rsplit_once(':') {
        Some((host, port)) => !host.is_empty() && port.parse::<u16>().is_ok(),
        None => false,
    }
}

// The words of `browse`.
fn browse_with<R: Reached, O: Outside>(
    rt: R,
    out: Stdout,
    err: Stderr,
    matches: &ArgMatches<'_>,
    outside: &mut O,
) -> u8 {
    if !has_port(word(matches, "SERVER")) {
        let _ = eprintln!(rt; "error: SERVER has no port, as 127.0.0.1:5300 has one");
        return Status::Words.code();
    }
    match request_of(rt.alloc(), matches) {
        Ok(Some((request, home))) => browse_as(rt, out, err, matches, request, home, outside),
        Ok(None) => {
            let _ = eprintln!(rt; "error: SERVICE and DOMAIN make no name");
            Status::Words.code()
        }
        Err(_) => Status::NoMemory.code(),
    }
}

// The word of a name, if it is there.
fn word<'a>(matches: &ArgMatches<'a>, name: &str) -> &'a str {
    matches.get_str(name).unwrap_or("")
}

// Seconds as milliseconds.
fn millis(matches: &ArgMatches<'_>, name: &str) -> u64 {
    u64::from(matches.get_one::<u32>(name).unwrap_or(0)) * 1_000
}

// A name that was typed, brought to NFC (RFC 6763, 4.1.1).
fn name_of(alloc: Global, typed: &str) -> anyhow::Result<Option<Name>> {
    let text = to_nfc(alloc, typed)?;
    Ok(typed_name(alloc, text.as_str())?)
}

// How lines are written.
fn style_of(matches: &ArgMatches<'_>, is_terminal: bool) -> Style {
    if matches.get_flag("json") {
        return Style::Json;
    }
    if matches.get_flag("lines") || (!is_terminal && !matches.get_flag("once")) {
        return Style::Fields;
    }
    Style::People(matches.get_flag("wide"))
}

// The domain in which services have this name: behind _tcp or _udp (RFC 6763, 4.1.2).
fn home_of(service: &str) -> &str {
    if let Some((_, home)) = service.split_once("._tcp.") {
        return home;
    }
    match service.split_once("._udp.") {
        Some((_, home)) => home,
        None => service,
    }
}

// The services' name as it was typed: DOMAIN stands behind SERVICE, where it is there.
fn typed_whole(alloc: Global, service: &str, domain: &str) -> anyhow::Result<String> {
    if domain.is_empty() {
        return Ok(String::from_str(alloc, service)?);
    }
    let service = service.strip_suffix('.').unwrap_or(service);
    Ok(format!(in alloc; "{service}.{domain}")?)
}

// The domain as it was typed.
fn typed_home<'a>(service: &'a str, domain: &'a str) -> &'a str {
    if domain.is_empty() {
        return home_of(service);
    }
    domain
}

// What is asked for, and the domain without which hosts are written; nothing where the words make no name.
fn request_of<'a>(
    alloc: Global,
    matches: &ArgMatches<'a>,
) -> anyhow::Result<Option<(Request<'a>, Name)>> {
    let service = word(matches, "SERVICE");
    let domain = word(matches, "DOMAIN");
    let whole = typed_whole(alloc, service, domain)?;
    let Some(name) = name_of(alloc, whole.as_str())? else {
        return Ok(None);
    };
    let Some(home) = name_of(alloc, typed_home(service, domain))? else {
        return Ok(None);
    };
    Ok(Some((
        Request {
            server: word(matches, "SERVER"),
            domain: name,
            style: Style::Fields,
            once: matches.get_flag("once"),
            quiet: millis(matches, "quiet"),
            within: millis(matches, "within"),
        },
        home,
    )))
}

// Whether a variable of the environment is there, and isn't empty.
fn has_word<R: Env + Alloc>(rt: &R, name: &str) -> bool {
    match env::var(rt, name) {
        Ok(text) => !text.is_empty(),
        Err(_) => false,
    }
}

// Whether signs are coloured (no-color.org).
fn has_color<R: Env + Alloc>(rt: &R, matches: &ArgMatches<'_>, is_terminal: bool) -> bool {
    match word(matches, "color") {
        "always" => true,
        "never" => false,
        _ => is_terminal && !has_word(rt, "NO_COLOR"),
    }
}

// What lines of a style get.
fn clothing_of(style: Style, once: bool, color: bool) -> Clothing {
    match style {
        Style::People(_) if once => Clothing::Bare,
        Style::People(_) => Clothing::People(color),
        Style::Fields => Clothing::Fields,
        Style::Json => Clothing::Json,
    }
}

// Browses in the time zone of the system, or in UTC.
fn browse_as<R: Reached, O: Outside>(
    rt: R,
    out: Stdout,
    err: Stderr,
    matches: &ArgMatches<'_>,
    request: Request<'_>,
    home: Name,
    outside: &mut O,
) -> u8 {
    let alloc = rt.alloc();
    let is_terminal = out.is_terminal();
    let style = style_of(matches, is_terminal);
    let request = Request { style, ..request };
    let database = TimeZoneDatabase::new(alloc);
    let system = SystemTimeZone::read(&rt);
    let zone = match &system {
        Ok(system) => system.time_zone(&database).unwrap_or(TimeZone::UTC),
        Err(_) => TimeZone::UTC,
    };
    let color = has_color(&rt, matches, is_terminal);
    let clothing = clothing_of(style, request.once, color);
    let mut sink = Stamped::new(rt, alloc, zone, clothing, out);
    let (status, is_starved) = if request.once {
        let mut notes = Stamped::new(rt, alloc, zone, clothing, err);
        let status = browse(alloc, &request, home, &mut sink, &mut notes, outside);
        (status, notes.is_starved())
    } else {
        let mut notes = Stamped::new(rt, alloc, zone, clothing, out);
        let status = browse(alloc, &request, home, &mut sink, &mut notes, outside);
        (status, notes.is_starved())
    };
    let is_starved = is_starved || sink.is_starved();
    status.where_starved(is_starved).code()
}
