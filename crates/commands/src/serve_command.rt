//! The command `serve`: a configuration is read, what it names is opened, and its sessions are served.

ghost use Rattle.std.specs.Prelude.{◌≡◌, ◌++◌, ◌∷◌, ◌⊎◌, ◌≤◌, ◌-◌, ◌^◌, ℕ, [], List, Option, Ok, codes, decimal, length, map, string_bytes, IfOk, OnErr, OnOk, IsErrOf, false, is_ok, true};
ghost use Rattle.push_base.specs.Causes.{Rose};
ghost use Rattle.push_outside.specs.Outside.{Adds, AddsSome, IsUnused};
ghost use Rattle.pushserver.specs.PlainHubs.{Hub as Plain};
ghost use Rattle.hublock.specs.Feeds.{each};
ghost use Rattle.hublock.specs.Inside.{counted};
ghost use Rattle.hublock.specs.Ledgers.{AreNamed};
ghost use Rattle.hublock.specs.Registers.{Ending, entered};
ghost use Rattle.pushserver.specs.KeptHubs.{StandsFor};
ghost use Rattle.scripts.specs.Lines.{Word};
ghost use Rattle.scripts.specs.Sources.{front_read};
ghost use Rattle.scripts.specs.Outcomes.{HasRead};
ghost use Rattle.configurations.specs.Configurations.{serving_of};
ghost use Rattle.configurations.specs.Kept.{CanServe, head_kept, serving_kept};
ghost use Rattle.serving.specs.Serving.{Accepts, has_fault, is_full_run, numbers_of};
ghost use Rattle.commands.specs.Runs.{GivesSourceBack, MayHaveGiven, UsesAtMost, UsesWhole};
ghost use Rattle.commands.specs.Serving.{AddsAll, BeginsBy, CountsAsTold, GivesBack, GivesLinks, GivesLinksBack, HasCause, HearsBy, Serves, ServesBy, Shares, StartsBy, TellsEnd, end_text, first_hub, tells_full_run};
ghost use Rattle.commands.specs.Status.{code_of};
ghost use Rattle.commands.specs.declared.status.Status.TheVariants as statuses;
ghost use Rattle.serving.specs.declared.serve_end.ServeEnd.TheVariants as ends;

use crate::configured::{read_path, tell_line};
use crate::line_causes::{SERVE, tell_cause};
use crate::log_lines::{tell_links, tell_listening, tell_server_end};
use crate::status::{OUTSIDE_FAULT, Status, tell_status};
use configurations::{FedLink, ReadServe, ServeConfiguration, read_serve};
use history::entry::Totals;
use hubasking::Hub;
use hublock::{Blanks, Books, Register};
use log::Log;
use push_base::{NoMemory, Sink};
use push_outside::{OpenFault, Outside};
use scripts::{NO_MEMORY, Outcome, READ_FAULT, ReadError, tell};
use serving::{Fed, ServeEnd, Served, Setup, serve};
use std::alloc::Global;
use std::marker::Brand;
use std::sync::Wait;
use std::thread::Threads;

/// Reads the configuration at a path, hands its source back, and serves what it says.
pub fn serve_at<R: Log + Threads + Wait + Copy + Send + 'static, O: Outside, W: Register>(
    rt: R,
    alloc: Global,
    path: &str,
    out: &mut O::Out,
    outside: &mut O,
    register: &mut W,
) -> Status
    ensures served { (octets : List ℕ) → MayHaveGiven (O.told outside.old).used (O.told outside.new).used octets →
        Serves
        (record { told = O.told outside.old; printed = O.Out.taken out.old; reads = O.reads outside.old; others = O.others outside.old })
        (record { told = O.told outside.new; printed = O.Out.taken out.new; reads = O.reads outside.new; others = O.others outside.new })
        (CountsAsTold (W.endings register.old) (W.endings register.new)) (serving_of (front_read octets)) (code_of result) }
    ensures shared { (octets : List ℕ) → MayHaveGiven (O.told outside.old).used (O.told outside.new).used octets →
        Shares (serving_of (front_read octets)) (code_of result) (W.hubs register.old) (W.hubs register.new) }
    ensures usage { result ≡ statuses.Usage → ⊥ }
    ensures read_fault { result ≡ statuses.Ended Outcome.ReadFault → Rose (O.reads outside.old) (O.reads outside.new) }
    ensures write_fault { result ≡ statuses.Ended Outcome.WriteFault → Rose (O.Out.faults out.old) (O.Out.faults out.new) }
    ensures outside_fault { result ≡ statuses.OutsideFault → Rose (O.others outside.old) (O.others outside.new) }
    ensures rest { HasRead (code_of result) ⊎ (code_of result ≡ 6) → UsesWhole (O.told outside.old).used (O.told outside.new).used }
    ensures used { UsesAtMost (O.told outside.old).used (O.told outside.new).used }
    ensures returned { GivesSourceBack path.now (O.told outside.old).opened (O.told outside.new).opened (O.told outside.old).used (O.told outside.new).used (O.reads outside.old) (O.reads outside.new) }
    ensures opened { Adds (O.told outside.old).opened (O.told outside.new).opened path.now
        ⊎ (((O.told outside.new).opened ≡ (O.told outside.old).opened) × ((code_of result ≡ 4) ⊎ (code_of result ≡ 5))) }
    ensures told { O.told outside.new ≡ record (O.told outside.old) {
      opened = (O.told outside.new).opened;
      used = (O.told outside.new).used;
      listened = (O.told outside.new).listened;
      heard = (O.told outside.new).heard;
      accepted = (O.told outside.new).accepted;
      links = (O.told outside.new).links;
      started = (O.told outside.new).started;
    } }
{
    match read_path(alloc, path, outside) {
        Ok(octets) => serve_text(rt, alloc, &octets, out, outside, register),
        Err(ReadError::Failed) => Status::Ended(tell(out, Outcome::ReadFault, READ_FAULT)),
        Err(ReadError::NoMemory) => Status::Ended(tell(out, Outcome::NoMemory, NO_MEMORY)),
    }
}

// Serves what a configuration says, or tells its first line outside.
fn serve_text<R: Log + Threads + Wait + Copy + Send + 'static, O: Outside, W: Register>(
    rt: R,
    alloc: Global,
    octets: &[u8],
    out: &mut O::Out,
    outside: &mut O,
    register: &mut W,
) -> Status
    ensures served { Serves
        (record { told = O.told outside.old; printed = O.Out.taken out.old; reads = O.reads outside.old; others = O.others outside.old })
        (record { told = O.told outside.new; printed = O.Out.taken out.new; reads = O.reads outside.new; others = O.others outside.new })
        (CountsAsTold (W.endings register.old) (W.endings register.new)) (serving_of octets.now) (code_of result) }
    ensures shared { Shares (serving_of octets.now) (code_of result) (W.hubs register.old) (W.hubs register.new) }
    ensures usage { result ≡ statuses.Usage → ⊥ }
    ensures read_fault { result ≡ statuses.Ended Outcome.ReadFault → ⊥ }
    ensures write_fault { result ≡ statuses.Ended Outcome.WriteFault → Rose (O.Out.faults out.old) (O.Out.faults out.new) }
    ensures outside_fault { result ≡ statuses.OutsideFault → Rose (O.others outside.old) (O.others outside.new) }
    ensures reads { O.reads outside.new ≡ O.reads outside.old }
    ensures told { O.told outside.new ≡ record (O.told outside.old) {
      listened = (O.told outside.new).listened;
      heard = (O.told outside.new).heard;
      accepted = (O.told outside.new).accepted;
      links = (O.told outside.new).links;
      started = (O.told outside.new).started;
    } }
{
    match read_serve(alloc, octets) {
        Ok(ReadServe::Whole(configuration)) => {
            tell_links(&rt, &configuration);
            let sessions = configuration.sessions;
            let end = serve_configured(rt, alloc, configuration, outside, register);
            tell_server_end(&rt, end);
            tell_end(alloc, sessions, end, out)
        }
        Ok(ReadServe::Outside(number)) => {
            tell_cause(&rt, SERVE, octets, number);
            Status::Ended(tell_line(alloc, number, out))
        }
        Err(NoMemory) => Status::Ended(tell(out, Outcome::NoMemory, NO_MEMORY)),
    }
}

// Tells how a server ended.
fn tell_end<K: Sink>(alloc: Global, sessions: u64, end: ServeEnd, out: &mut K) -> Status
    ensures told { TellsEnd (K.taken out.old) (K.taken out.new) sessions end (code_of result) }
    ensures full_run { tells_full_run (code_of result) ≡ true → is_full_run end ≡ true }
    ensures usage { result ≡ statuses.Usage → ⊥ }
    ensures read_fault { result ≡ statuses.Ended Outcome.ReadFault → ⊥ }
    ensures write_fault { result ≡ statuses.Ended Outcome.WriteFault → Rose (K.faults out.old) (K.faults out.new) }
    ensures outside_fault { result ≡ statuses.OutsideFault → end ≡ ends.OutsideFault }
{
    match end {
        ServeEnd::Served(totals) => tell_totals(alloc, sessions, totals, out),
        ServeEnd::OutsideFault => tell_status(out, Status::OutsideFault, OUTSIDE_FAULT),
        ServeEnd::NoMemory => Status::Ended(tell(out, Outcome::NoMemory, NO_MEMORY)),
    }
}

// Tells how many sessions were served, and how many entries were accepted meanwhile.
fn tell_totals<K: Sink>(alloc: Global, sessions: u64, totals: Totals, out: &mut K) -> Status
    ensures told { TellsEnd (K.taken out.old) (K.taken out.new) sessions (ends.Served totals) (code_of result) }
    ensures usage { result ≡ statuses.Usage → ⊥ }
    ensures read_fault { result ≡ statuses.Ended Outcome.ReadFault → ⊥ }
    ensures write_fault { result ≡ statuses.Ended Outcome.WriteFault → Rose (K.faults out.old) (K.faults out.new) }
    ensures inside { result ≡ statuses.OutsideFault → ⊥ }
{
    match served_text(alloc, sessions, totals) {
        Ok(text) => Status::Ended(tell(out, Outcome::Done, text.as_bytes())),
        Err(NoMemory) => Status::Ended(tell(out, Outcome::NoMemory, NO_MEMORY)),
    }
}

// The text that tells this.
fn served_text(alloc: Global, sessions: u64, totals: Totals) -> Result<String, NoMemory>
    ensures { IfOk result (λ text. string_bytes text ≡ end_text sessions (ends.Served totals)) }
{
    let Totals {
        changes,
        heard,
        moments,
    } = totals;
    line_of(alloc, sessions, changes, heard, moments)
}

// The line with these numbers.
fn line_of(
    alloc: Global,
    sessions: u64,
    changes: u64,
    heard: u64,
    moments: u64,
) -> Result<String, NoMemory>
    ensures { IfOk result (λ text. string_bytes text ≡
        codes "served " ++ (decimal sessions ++ (codes " changes " ++ (decimal changes ++ (codes " heard " ++ (decimal heard ++ (codes " moments " ++ (decimal moments ++ 10 ∷ [])))))))) }
{
    format!(in alloc; "served {sessions} changes {changes} heard {heard} moments {moments}\n")
}

// The end of a server that couldn't be begun.
fn end_of(fault: OpenFault) -> ServeEnd
    ensures failed { result ≡ ends.OutsideFault → fault ≡ OpenFault.Failed }
    ensures less { is_full_run result ≡ false }
    ensures counts { (before : Option (List Ending)) → CountsAsTold before before result }
{
    match fault {
        OpenFault::Failed => ServeEnd::OutsideFault,
        OpenFault::NoMemory => ServeEnd::NoMemory,
    }
}

// Opens what a configuration names, and serves. All is handed back that no job holds.
fn serve_configured<R: Log + Threads + Wait + Copy + Send + 'static, O: Outside, W: Register>(
    rt: R,
    alloc: Global,
    configuration: ServeConfiguration,
    outside: &mut O,
    register: &mut W,
) -> ServeEnd
    requires { CanServe (head_kept configuration) }
    ensures shared { BeginsBy (is_full_run result) (first_hub (head_kept configuration)) (W.hubs register.old) (W.hubs register.new) }
    ensures counts { CountsAsTold (W.endings register.old) (W.endings register.new) result }
    ensures served { ServesBy (is_full_run result) (O.told outside.old) (O.told outside.new) (serving_kept configuration) }
    ensures back { GivesBack (is_full_run result) (O.told outside.old) (O.told outside.new) (O.others outside.old) (O.others outside.new) (serving_kept configuration) }
    ensures cause { HasCause (O.others outside.old) (O.others outside.new) result }
    ensures reads { O.reads outside.new ≡ O.reads outside.old }
    ensures told { O.told outside.new ≡ record (O.told outside.old) {
      listened = (O.told outside.new).listened;
      heard = (O.told outside.new).heard;
      accepted = (O.told outside.new).accepted;
      links = (O.told outside.new).links;
      started = (O.told outside.new).started;
    } }
{
    let ServeConfiguration {
        timers,
        homes,
        listen,
        sessions,
        feeds,
        turns,
        ..
    } = configuration;
    let Ok(hub) = Hub::new(homes, timers) else {
        return ServeEnd::NoMemory;
    };
    match outside.doors(listen.as_str()) {
        Ok(mut doors) => {
            tell_listening(&rt, &listen);
            let feeds = feeds.as_slice();
            let end = serve_doors(
                rt, alloc, hub, feeds, sessions, turns, &mut doors, outside, register,
            );
            outside.back_doors(doors);
            end
        }
        Err(fault) => end_of(fault),
    }
}

// Opens the sockets of the links, and serves those whom the doors let in.
fn serve_doors<R: Log + Threads + Wait + Copy + Send + 'static, O: Outside, W: Register>(
    rt: R,
    alloc: Global,
    hub: Hub,
    feeds: &[FedLink],
    sessions: u64,
    turns: u64,
    doors: &mut O::Doors,
    outside: &mut O,
    register: &mut W,
) -> ServeEnd
    requires hub { (counted hub ≡ each 0) × (hub.hub.numbers_given ≡ 0) }
    requires stands { (plain : Plain) × StandsFor hub.hub plain }
    ensures few { sessions ≤ 2 ^ 64 - 1 }
    ensures shared { BeginsBy (is_full_run result) hub (W.hubs register.old) (W.hubs register.new) }
    ensures counts { CountsAsTold (W.endings register.old) (W.endings register.new) result }
    ensures heard { HearsBy (is_full_run result) (map (λ f. string_bytes f.address) feeds.now) (O.told outside.old).heard (O.told outside.new).heard }
    ensures accepted { Accepts (is_full_run result) sessions (O.Doors.accepted doors.old) (O.Doors.accepted doors.new) }
    ensures started { StartsBy (is_full_run result) turns (map (λ f. f.link) feeds.now) sessions (O.told outside.old).started (O.told outside.new).started }
    ensures cause { result ≡ ends.OutsideFault → Rose (O.Doors.faults doors.old) (O.Doors.faults doors.new) ⊎ Rose (O.others outside.old) (O.others outside.new) }
    ensures back { GivesLinksBack (is_full_run result) (map (λ f. string_bytes f.address) feeds.now) (O.told outside.old) (O.told outside.new) }
    ensures later { O.others outside.old ≤ O.others outside.new }
    ensures reads { O.reads outside.new ≡ O.reads outside.old }
    ensures told { O.told outside.new ≡ record (O.told outside.old) { heard = (O.told outside.new).heard; links = (O.told outside.new).links; started = (O.told outside.new).started } }
{
    match open_links(alloc, feeds, outside) {
        Ok(links) => {
            let clock = outside.clock();
            let setup = Setup {
                hub,
                links,
                clock,
                sessions,
                turns,
            };
            let blanks = Blanks::new();
            serve_setup::<R, O, Brand, W>(rt, alloc, setup, blanks, doors, outside, register)
        }
        Err(fault) => end_of(fault),
    }
}

// Serves with all that is needed for it.
fn serve_setup<
    R: Log + Threads + Wait + Copy + Send + 'static,
    O: Outside,
    B: Books + Send + Sync + 'static,
    W: Register,
>(
    rt: R,
    alloc: Global,
    setup: Setup<O::Links, O::Clock>,
    blanks: Blanks,
    doors: &mut O::Doors,
    outside: &mut O,
    register: &mut W,
) -> ServeEnd
    requires hub { (counted setup.hub ≡ each 0) × (setup.hub.hub.numbers_given ≡ 0) }
    requires stands { (plain : Plain) × StandsFor setup.hub.hub plain }
    requires names { AreNamed blanks B.names }
    ensures registered { W.hubs register.new ≡ entered (W.hubs register.old) setup.hub }
    ensures counts { CountsAsTold (W.endings register.old) (W.endings register.new) result }
    ensures accepted { Accepts (is_full_run result) setup.sessions (O.Doors.accepted doors.old) (O.Doors.accepted doors.new) }
    ensures started { StartsBy (is_full_run result) setup.turns (numbers_of setup.links.items) setup.sessions (O.told outside.old).started (O.told outside.new).started }
    ensures cause { result ≡ ends.OutsideFault → Rose (O.Doors.faults doors.old) (O.Doors.faults doors.new) ⊎ Rose (O.others outside.old) (O.others outside.new) }
    ensures back { GivesLinks (is_full_run result) (length setup.links.items) (O.told outside.old).links (O.told outside.new).links }
    ensures later { O.others outside.old ≤ O.others outside.new }
    ensures reads { O.reads outside.new ≡ O.reads outside.old }
    ensures told { O.told outside.new ≡ record (O.told outside.old) { links = (O.told outside.new).links; started = (O.told outside.new).started } }
{
    let mut starter = outside.starter();
    let Served { end, links, .. } = serve::<R, O, B, W>(
        rt,
        alloc,
        &mut starter,
        doors,
        setup,
        blanks,
        register,
    );
    outside.back_starter(starter);
    give_back(links, outside);
    end
}

// Opens the sockets of the links, in order. Where one can't be had, those before it are handed back.
fn open_links<O: Outside>(
    alloc: Global,
    feeds: &[FedLink],
    outside: &mut O,
) -> Result<Vec<Fed<O::Links>>, OpenFault>
    ensures numbers { IfOk result (λ links. numbers_of links.items ≡ map (λ f. f.link) feeds.now) }
    ensures heard { HearsBy (is_ok result) (map (λ f. string_bytes f.address) feeds.now) (O.told outside.old).heard (O.told outside.new).heard }
    ensures cause { IsErrOf result OpenFault.Failed → Rose (O.others outside.old) (O.others outside.new) }
    ensures later { O.others outside.old ≤ O.others outside.new }
    ensures reads { O.reads outside.new ≡ O.reads outside.old }
    ensures back { OnErr result (GivesLinksBack false (map (λ f. string_bytes f.address) feeds.now) (O.told outside.old) (O.told outside.new)) }
    ensures same { OnOk result ((O.told outside.new).links ≡ (O.told outside.old).links) }
    ensures told { O.told outside.new ≡ record (O.told outside.old) { heard = (O.told outside.new).heard; links = (O.told outside.new).links } }
{
    let mut links = Vec::new(alloc);
    'feeds: for feed in feeds {
        if let Err(fault) = open_link(feed, &mut links, outside) {
            give_back(links, outside);
            return Err(fault);
        }
    }
    Ok(links)
}

// Opens the socket of a link.
fn open_link<O: Outside>(
    feed: &FedLink,
    links: &mut Vec<Fed<O::Links>>,
    outside: &mut O,
) -> Result<(), OpenFault>
    ensures numbers { OnOk result (numbers_of links.new.items ≡ numbers_of links.old.items ++ feed.now.link ∷ []) }
    ensures heard { OnOk result (Adds (O.told outside.old).heard (O.told outside.new).heard (string_bytes feed.now.address)) }
    ensures kept { OnErr result (numbers_of links.new.items ≡ numbers_of links.old.items) }
    ensures refused { OnErr result (((O.told outside.new).heard ≡ (O.told outside.old).heard) ⊎ Adds (O.told outside.old).heard (O.told outside.new).heard (string_bytes feed.now.address)) }
    ensures cause { IsErrOf result OpenFault.Failed → Rose (O.others outside.old) (O.others outside.new) }
    ensures later { O.others outside.old ≤ O.others outside.new }
    ensures reads { O.reads outside.new ≡ O.reads outside.old }
    ensures told { O.told outside.new ≡ record (O.told outside.old) { heard = (O.told outside.new).heard } }
{
    if links.reserve(1).is_err() {
        return Err(OpenFault::NoMemory);
    }
    let datagrams = outside.datagrams(feed.address.as_str())?;
    links.push_reserved(Fed {
        link: feed.link,
        datagrams,
    });
    Ok(())
}

// Hands the datagrams of links back.
fn give_back<O: Outside>(links: Vec<Fed<O::Links>>, outside: &mut O)
    ensures raised { has_fault O.Links.faults links.items ≡ true → Rose (O.others outside.old) (O.others outside.new) }
    ensures later { O.others outside.old ≤ O.others outside.new }
    ensures reads { O.reads outside.new ≡ O.reads outside.old }
    ensures back { AddsSome (O.told outside.old).links (O.told outside.new).links (length links.items) }
    ensures told { O.told outside.new ≡ record (O.told outside.old) { links = (O.told outside.new).links } }
{
    'links: for fed in links {
        let Fed { link: _, datagrams } = fed;
        outside.back_links(datagrams);
    }
}
