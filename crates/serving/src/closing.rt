//! The jobs of a server, as they are finished.

ghost use Rattle.std.specs.Prelude.{◌≡◌, ◌⊎◌, ◌<◌, ◌≤◌, ◌+◌, ◌++◌, ◌∷◌, [], None, Some, true, false, List, map, length, vec_len, vec_capacity, OnOk, IsErrOf};
ghost use Rattle.std.specs.List.{insert, list_any};
ghost use Rattle.hublock.specs.Feeds.{added, each, parts_each};
ghost use Rattle.serving.specs.declared.serve_end.Cause.TheVariants as causes;
ghost use Rattle.serving.specs.Ends.{CountsAs, CountsEnds, EndsAs, EndsFor, IsRegistered, end_for, is_link_fault, tells_fault};
ghost use Rattle.serving.specs.Servers.{IsWhole};
ghost use Rattle.serving.specs.Serving.{has_fault, numbers_of};

use crate::link_job::LinkJob;
use crate::log_lines::tell_stop;
use crate::other_job::OtherJob;
use crate::running_jobs::Running;
use crate::serve_end::{Cause, Fault, cause_of};
use crate::server::{RunningLink, Server};
use crate::{Fed, ServeEnd, Served};
use hublock::{Books, Ended, Feed, HubLock, Register, Signal, finish};
use log::Log;
use push_base::{Datagrams, Pending, Surroundings};
use std::sync::Wait;
use std::thread::Threads;

/// How the loops of the jobs that are over ended, and whether memory ran out for this list.
#[derive(Drop)]
struct Noted {
    ends: Vec<Ended>,
    starved: bool,
}

/// Notes how one more loop ended.
fn note(noted: &mut Noted, end: Ended)
    ensures { noted.new.starved ≡ false → (noted.old.starved ≡ false) × (noted.new.ends.items ≡ noted.old.ends.items ++ end ∷ []) }
{
    if noted.ends.push(end).is_err() {
        noted.starved = true;
    }
}

/// Notes how the loops ended of the jobs that were over before.
fn note_over(noted: &mut Noted, ends: Vec<Ended>)
    ensures { noted.new.starved ≡ false → (noted.old.starved ≡ false) × (noted.new.ends.items ≡ noted.old.ends.items ++ ends.items) }
{
    'over: for end in ends {
        note(noted, end);
    }
}

/// Finishes the job of a link. Gives how its loop ended, the feed with the job's, and its datagrams.
fn finish_link<
    R: Log + Threads + Wait + Copy + Send + 'static,
    O: Surroundings,
    B: Books + Send + Sync + 'static,
>(
    rt: R,
    job: Pending<LinkJob<R, O::Line, O::Wire, O::Links, O::Clock, B>>,
    feed: Feed<B>,
) -> (Ended, Feed<B>, O::Links)
    ensures parts { result.1.parts ≡ added feed.parts (each 1) }
    ensures failed { tells_fault result.0 (O.Links.faults result.2) ≡ true }
{
    let over = job.finish(&rt);
    (over.end, feed.join(over.feed), over.datagrams)
}

/// Puts datagrams back at their place. There is room for them.
fn put_back<G: Drop>(links: &mut Vec<Fed<G>>, place: usize, fed: Fed<G>)
    requires place { place ≤ vec_len links.old }
    requires room { vec_len links.old < vec_capacity links.old }
    ensures items { links.new.items ≡ insert links.old.items place fed }
    ensures len { vec_len links.new ≡ vec_len links.old + 1 }
    ensures room { vec_capacity links.old ≤ vec_capacity links.new }
{
    match links.insert(place, fed) {
        Ok(()) => {}
        Err(_) => unreachable!(),
    }
}

/// Finishes the jobs of the links, in the order of their starts, and notes how their loops ended. Their datagrams are given
/// back before those that no job has.
fn finish_links<
    R: Log + Threads + Wait + Copy + Send + 'static,
    O: Surroundings,
    B: Books + Send + Sync + 'static,
>(
    rt: R,
    hearings: Vec<RunningLink<R, O, B>>,
    feed: Feed<B>,
    noted: &mut Noted,
    links: &mut Vec<Fed<O::Links>>,
) -> Feed<B>
    requires none { noted.old.ends.items ≡ [] }
    requires room { vec_len links.old + vec_len hearings ≤ vec_capacity links.old }
    ensures parts { result.parts ≡ added feed.parts (each (vec_len hearings)) }
    ensures count { noted.new.starved ≡ false → length noted.new.ends.items ≡ vec_len hearings }
    ensures failed { noted.new.starved ≡ false → list_any is_link_fault noted.new.ends.items ≡ true → has_fault O.Links.faults links.new.items ≡ true }
    ensures links { numbers_of links.new.items ≡ map (λ h. h.link) hearings.items ++ numbers_of links.old.items }
{
    let mut feed = feed;
    let mut place = 0;
    'hearings: for hearing in hearings {
        let RunningLink { link, job } = hearing;
        let (end, joined, datagrams) = finish_link::<R, O, B>(rt, job, feed);
        feed = joined;
        note(noted, end);
        put_back(links, place, Fed { link, datagrams });
        place += 1;
    }
    feed
}

/// Finishes a job that isn't a link's. Gives how its loop ended, and the feed with the job's.
fn finish_job<
    R: Log + Threads + Wait + Copy + Send + 'static,
    O: Surroundings,
    B: Books + Send + Sync + 'static,
>(
    rt: R,
    job: Pending<OtherJob<R, O::Line, O::Wire, O::Links, O::Clock, B>>,
    feed: Feed<B>,
) -> (Ended, Feed<B>)
    ensures parts { result.1.parts ≡ added feed.parts (each 1) }
    ensures linkless { is_link_fault result.0 ≡ false }
{
    let over = job.finish(&rt);
    (over.end, feed.join(over.feed))
}

/// Finishes all jobs that aren't links', in the order of their starts, and notes how their loops ended.
fn finish_jobs<
    R: Log + Threads + Wait + Copy + Send + 'static,
    O: Surroundings,
    B: Books + Send + Sync + 'static,
>(rt: R, jobs: Vec<Running<R, O, B>>, feed: Feed<B>, noted: &mut Noted) -> Feed<B>
    ensures parts { result.parts ≡ added feed.parts (each (vec_len jobs)) }
    ensures starved { noted.new.starved ≡ false → noted.old.starved ≡ false }
    ensures count { noted.new.starved ≡ false → length noted.new.ends.items ≡ length noted.old.ends.items + vec_len jobs }
    ensures failed { noted.new.starved ≡ false → list_any is_link_fault noted.new.ends.items ≡ list_any is_link_fault noted.old.ends.items }
{
    let mut feed = feed;
    'jobs: for job in jobs {
        let Running { job, over: _ } = job;
        let (end, joined) = finish_job::<R, O, B>(rt, job, feed);
        feed = joined;
        note(noted, end);
    }
    feed
}

/// How a server ends: with the journal's counts, which are the sums of the feed that has every part, unless there is a
/// cause to end otherwise.
fn end_of<R: Wait, B: Books, W: Register>(
    rt: &R,
    lock: &HubLock<B>,
    cause: Option<Cause>,
    feed: &mut Feed<B>,
    loops: &[Ended],
    register: &mut W,
) -> ServeEnd
    requires { cause ≡ None → feed.old.parts ≡ each parts_each }
    ensures end { result ≡ end_for cause feed.old.sums }
    ensures same { feed.new ≡ feed.old }
    ensures hubs { W.hubs register.new ≡ W.hubs register.old }
    ensures told { IsRegistered result loops.now (W.endings register.old) (W.endings register.new) }
{
    match cause {
        None => ServeEnd::Served(finish(rt, lock, feed, loops, register)),
        Some(Cause::Outside) => ServeEnd::OutsideFault,
        Some(Cause::NoMemory) => ServeEnd::NoMemory,
    }
}

/// Finishes all jobs that aren't finished yet, in the order of their starts. Where the server is given up, they are told to
/// stop.
pub(crate) fn close<
    R: Log + Threads + Wait + Copy + Send + 'static,
    O: Surroundings,
    B: Books + Send + Sync + 'static,
    W: Register,
>(
    server: Server<R, O, B>,
    opened: Result<(), Fault>,
    links: Vec<Fed<O::Links>>,
    register: &mut W,
) -> Served<O::Links, B>
    requires whole { OnOk opened (IsWhole server) }
    requires room { vec_len links + length server.links ≤ vec_capacity links }
    ensures end { EndsAs opened result.end }
    ensures counts { CountsAs (each parts_each) result.end result.feed }
    ensures ended { EndsFor result.end result.ends.items (IsErrOf opened Fault.Outside) }
    ensures finished { CountsEnds result.end (length result.ends.items) (length server.links + server.jobs) }
    ensures outside { result.end ≡ ServeEnd.OutsideFault → IsErrOf opened Fault.Outside ⊎ (has_fault O.Links.faults result.links.items ≡ true) }
    ensures links { numbers_of result.links.items ≡ server.links ++ numbers_of links.items }
    ensures hubs { W.hubs register.new ≡ W.hubs register.old }
    ensures told { IsRegistered result.end result.ends.items (W.endings register.old) (W.endings register.new) }
{
    if opened.is_err() {
        tell_stop(&server.rt);
        server.lock.signal(&server.rt, Signal::Quit);
    }
    let Server {
        rt,
        alloc,
        lock,
        feed,
        hearings,
        jobs,
        ends,
        ..
    } = server;
    let mut links = links;
    let mut noted = Noted {
        ends: Vec::new(alloc),
        starved: false,
    };
    let feed = finish_links::<R, O, B>(rt, hearings, feed, &mut noted, &mut links);
    note_over(&mut noted, ends);
    let mut feed = finish_jobs::<R, O, B>(rt, jobs, feed, &mut noted);
    let loops = noted.ends.as_slice();
    let cause = cause_of(opened, noted.starved, loops);
    let end = end_of(&rt, &lock, cause, &mut feed, loops, register);
    Served {
        end,
        links,
        ends: noted.ends,
        feed: Some(feed),
    }
}
