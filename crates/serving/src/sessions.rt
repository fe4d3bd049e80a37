//! The server of a number of sessions.

ghost use Rattle.std.specs.Prelude.{◌≡◌, ◌⊎◌, true, length};
ghost use Rattle.push_base.specs.Causes.{Rose};
ghost use Rattle.pushserver.specs.PlainHubs.{Hub as Plain};
ghost use Rattle.pushserver.specs.KeptHubs.{StandsFor};
ghost use Rattle.hublock.specs.Feeds.{each, parts_each};
ghost use Rattle.hublock.specs.Inside.{counted};
ghost use Rattle.hublock.specs.Ledgers.{AreNamed};
ghost use Rattle.hublock.specs.Registers.{entered};
ghost use Rattle.serving.specs.Ends.{CountsAs, EndsFor, IsRegistered};
ghost use Rattle.serving.specs.Serving.{Accepts, CountsFault, Finishes, Returns, Starts, StartsAllUnless, has_fault, is_full_run, numbers_of};

use crate::closing::close;
use crate::server::Server;
use crate::{ServeEnd, Served, Setup};
use hublock::{Blanks, Books, Feed, HubLock, Register, Seats, Signal};
use log::Log;
use push_base::{Datagrams, Doors, Starter, Surroundings};
use std::alloc::Global;
use std::sync::Wait;
use std::thread::Threads;

/// Serves so many sessions: the jobs of the links and of the clock are started first, and then two for each session that is
/// accepted and gets a seat. When nothing is left to do, all are finished, and their feeds joined: so many entries were
/// accepted. Where the doors or the starter fail, or memory is wanted, all jobs stop. There is room for as many jobs as a
/// ledger has parts, but for one; more of them count as want of memory.
///
/// The end is the first whose cause is there: want of memory, a fault of the outside.
pub fn serve<
    R: Log + Threads + Wait + Copy + Send + 'static,
    O: Surroundings,
    B: Books + Send + Sync + 'static,
    W: Register,
>(
    rt: R,
    alloc: Global,
    starter: &mut O::Starter,
    doors: &mut O::Doors,
    setup: Setup<O::Links, O::Clock>,
    blanks: Blanks,
    register: &mut W,
) -> Served<O::Links, B>
    requires hub { (counted setup.hub ≡ each 0) × (setup.hub.hub.numbers_given ≡ 0) }
    requires stands { (plain : Plain) × StandsFor setup.hub.hub plain }
    requires names { AreNamed blanks B.names }

    // The hub of the setup went behind a lock, and no other.
    ensures registered { W.hubs register.new ≡ entered (W.hubs register.old) setup.hub }

    // Which jobs were handed to the starter, in this order.
    ensures started { Starts (is_full_run result.end) setup.turns (numbers_of setup.links.items) setup.sessions (O.Starter.started starter.old) (O.Starter.started starter.new) }

    // How many sessions were accepted.
    ensures accepted { Accepts (is_full_run result.end) setup.sessions (O.Doors.accepted doors.old) (O.Doors.accepted doors.new) }

    // However loops end, all jobs are started and all sessions accepted, unless want of memory is told, or the starter or the
    // doors fail. With `Served` `started` and `accepted` say this already.
    ensures goes_on { StartsAllUnless result.end (Rose (O.Starter.faults starter.old) (O.Starter.faults starter.new) ⊎ Rose (O.Doors.faults doors.old) (O.Doors.faults doors.new))
        (Starts true setup.turns (numbers_of setup.links.items) setup.sessions (O.Starter.started starter.old) (O.Starter.started starter.new) × Accepts true setup.sessions (O.Doors.accepted doors.old) (O.Doors.accepted doors.new)) }

    // A fault of the outside is told only where one was counted.
    ensures outside { result.end ≡ ServeEnd.OutsideFault → CountsFault (O.Starter.faults starter.old) (O.Starter.faults starter.new) (O.Doors.faults doors.old) (O.Doors.faults doors.new) (has_fault O.Links.faults result.links.items) }

    // The links whose datagrams are given back, in their order.
    ensures links { Returns (is_full_run result.end) (numbers_of setup.links.items) (numbers_of result.links.items) }

    // The counts are the sums of the feed of all jobs, into which every part of the ledgers was joined.
    ensures counts { CountsAs (each parts_each) result.end result.feed }

    // The register is told of a server that finished.
    ensures told { IsRegistered result.end result.ends.items (W.endings register.old) (W.endings register.new) }

    // How the server ended, by how its loops did, and by whether the starter or the doors failed.
    ensures ended { EndsFor result.end result.ends.items (Rose (O.Starter.faults starter.old) (O.Starter.faults starter.new) ⊎ Rose (O.Doors.faults doors.old) (O.Doors.faults doors.new)) }

    // As many loops ended as jobs were started.
    ensures finished { Finishes (is_full_run result.end) setup.turns (numbers_of setup.links.items) setup.sessions (O.Starter.started starter.old) (O.Starter.started starter.new) (length result.ends.items) }
{
    let Setup {
        hub,
        links,
        clock,
        sessions,
        turns,
    } = setup;
    let mut links = links;
    let (lock, feed, seats): (HubLock<B>, Feed<B>, Seats<B>) = match HubLock::new(
        alloc, hub, blanks, register,
    ) {
        Ok(made) => made,
        Err(_) => {
            return Served {
                end: ServeEnd::NoMemory,
                links,
                ends: Vec::new(alloc),
                feed: None,
            };
        }
    };
    lock.signal(&rt, Signal::Begun(sessions));
    let mut server: Server<R, O, B> = Server::new(rt, alloc, lock, feed, seats, turns);
    let opened = server.open(starter, doors, &mut links, clock, sessions);
    close(server, opened, links, register)
}
