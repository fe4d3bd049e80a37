//! Whole servers, whose jobs run in threads.

ghost use Rattle.std.specs.Prelude.{◌≡◌};
ghost use Rattle.pushserver.specs.PlainHubs.{Hub as Plain};
ghost use Rattle.pushserver.specs.KeptHubs.{StandsFor};
ghost use Rattle.hublock.specs.Feeds.{each};
ghost use Rattle.hublock.specs.Inside.{counted};
ghost use Rattle.hublock.specs.Ledgers.{AreNamed};

use crate::hubs::{
    ASKED, HOST, OF_THE_HOST, OF_THE_HOST_TOLD, OTHER_HOST, SUBSCRIBE, SUBSCRIBED, example_hub,
};
use crate::rows::holds;
use crate::threads::{Apart, List, Listed, new_list};
use crate::watched::{Drip, Hearings, Porter, Still, Until, Watch, Watched};
use history::entry::Totals;
use hublock::{Blanks, Books, NoRegister};
use log::Log;
use push_base::{MemDatagrams, MemItem, Surroundings, hex_octets};
use serving::{Fed, ServeEnd, Served, Setup, serve};
use std::alloc::Global;
use std::marker::Brand;
use std::sync::{Arc, Wait};
use std::test::Fail;
use std::thread::Threads;

/// The turns of each loop, which none uses up.
const TURNS: u64 = u64::MAX;

/// The octets that a line gives at once.
const PIECE: usize = 3;

/// Sessions that are served.
struct Case {
    /// How many are to be served.
    sessions: u16,
    /// How many come. At the next the doors fail.
    come: u16,
    /// How many of these are answered. Those behind get nothing.
    answered: u16,
    /// Whether the ID of a request is the number of its session, counted from 1. Else it is 1.
    numbered: bool,
    /// What each line waits for.
    line: Until,
    /// Whether a line stays quiet behind its octets. Else it ends.
    stays: bool,
    /// What the wire of the first session waits for.
    first_wire: Until,
    /// What the doors wait for before the last session that is to be served.
    last_session: Until,
    /// What each sends, and what it is answered.
    request: &'static str,
    answer: &'static str,
    /// What the datagrams of the links wait for, and these, one of each.
    link: Until,
    hears: &'static [&'static str],
    /// What the links are asked.
    asks: &'static str,
    /// What the clock gives.
    moment: u64,
    /// How the server ends.
    end: ServeEnd,
}

/// No entries.
const NOTHING: Totals = Totals {
    changes: 0,
    heard: 0,
    moments: 0,
};

/// One session.
const ONE: Case = Case {
    sessions: 1,
    come: 1,
    answered: 1,
    numbered: false,
    line: Until::Now,
    stays: false,
    first_wire: Until::Now,
    last_session: Until::Now,
    request: SUBSCRIBE,
    answer: SUBSCRIBED,
    link: Until::Now,
    hears: &[],
    asks: "",
    moment: 0,
    end: ServeEnd::Served(NOTHING),
};

/// Two sessions. The wire of the first is held until that of the second took all of its 115 octets, so it is not written
/// under the lock, nor by the thread that serves the second.
const TWO: Case = Case {
    sessions: 2,
    come: 2,
    answered: 2,
    first_wire: Until::Written(115),
    ..ONE
};

/// One session more than there are seats. It comes once the wires of all others were dropped, so a seat is given again.
const ONE_MORE: Case = Case {
    sessions: 65,
    come: 65,
    answered: 65,
    numbered: true,
    last_session: Until::Dropped(64),
    ..ONE
};

/// The same, but no line begins before the wire of the last was dropped, which got no seat.
const ONE_TOO_MANY: Case = Case {
    answered: 64,
    line: Until::Dropped(1),
    last_session: Until::Now,
    ..ONE_MORE
};

/// Two sessions of three, which were answered and go on when the doors fail.
const GIVEN_UP: Case = Case {
    sessions: 3,
    come: 2,
    answered: 2,
    stays: true,
    last_session: Until::Written(230),
    end: ServeEnd::OutsideFault,
    ..ONE
};

const SESSIONS: &[&Case] = &[&ONE, &TWO, &ONE_MORE, &ONE_TOO_MANY, &GIVEN_UP];

/// One session, which is quiet while the link is heard and time passes.
const HEARING: Case = Case {
    line: Until::HeardAndAsked(1),
    hears: &[HOST],
    moment: 1,
    end: ServeEnd::Served(Totals {
        changes: 0,
        heard: 1,
        moments: 1,
    }),
    ..ONE
};

/// One session, which asks for the host of the first of two links when both have told theirs.
const HEARING_TWO: Case = Case {
    line: Until::HeardAndAsked(2),
    request: OF_THE_HOST,
    answer: OF_THE_HOST_TOLD,
    hears: &[HOST, OTHER_HOST],
    end: ServeEnd::Served(Totals {
        changes: 0,
        heard: 2,
        moments: 1,
    }),
    ..HEARING
};

/// Two sessions. The link is quiet until the first has ended, and the second comes once it was heard.
const HEARING_LATER: Case = Case {
    sessions: 2,
    come: 2,
    answered: 2,
    line: Until::Now,
    last_session: Until::HeardAndAsked(1),
    link: Until::Dropped(1),
    ..HEARING
};

/// One session, which asks for the host of a link when nothing of it was heard. The link is asked, and answers.
const ASKING: Case = Case {
    sessions: 2,
    stays: true,
    last_session: Until::Written(65),
    request: OF_THE_HOST,
    answer: OF_THE_HOST_TOLD,
    link: Until::Written(14),
    hears: &[HOST],
    asks: ASKED,
    end: ServeEnd::OutsideFault,
    ..ONE
};

const LINKS: &[&Case] = &[&HEARING, &HEARING_TWO, &HEARING_LATER, &ASKING];

impl Case {
    /// The ID of the request of a session.
    fn id(&self, place: u16) -> u16 {
        if self.numbered {
            place.saturating_add(1)
        } else {
            1
        }
    }

    /// What the wire of a session waits for.
    fn wire(&self, place: u16) -> Until {
        if place == 0 {
            self.first_wire
        } else {
            Until::Now
        }
    }
}

/// Puts an ID into a message behind its length.
fn set_id(octets: &mut [u8], id: u16) {
    if 4 <= octets.len() {
        octets[2..4].copy_from_slice(&id.to_be_bytes());
    }
}

/// The octets of a message behind its length, with another ID.
fn with_id(alloc: Global, text: &str, id: u16) -> Result<Vec<u8>, Fail> {
    let mut octets = Vec::new(alloc);
    octets.extend_from_slice(hex_octets(alloc, text)?.as_slice())?;
    set_id(octets.as_mut_slice(), id);
    Ok(octets)
}

/// A session is to come. The octets of its wire go to a list behind others.
fn add_session<R: Wait + Copy>(
    rt: R,
    alloc: Global,
    doors: &mut Porter<R>,
    case: &Case,
    place: u16,
    lists: &mut Vec<List>,
) -> Result<(), Fail> {
    let octets = with_id(alloc, case.request, case.id(place))?;
    let list = new_list(alloc)?;
    lists.push(Arc::try_clone(&list)?)?;
    doors.add_line(Drip::new(octets, PIECE), case.line, case.stays)?;
    doors.add_wire(Listed::new(rt, list), case.wire(place))?;
    Ok(())
}

/// All sessions are to come that do.
fn add_sessions<R: Wait + Copy>(
    rt: R,
    alloc: Global,
    doors: &mut Porter<R>,
    case: &Case,
    lists: &mut Vec<List>,
) -> Result<(), Fail> {
    'sessions: for place in 0..case.come {
        add_session(rt, alloc, doors, case, place, lists)?;
    }
    Ok(())
}

/// One datagram.
fn heard(alloc: Global, text: &str) -> Result<MemDatagrams, Fail> {
    let items = vec![in alloc; MemItem::Bytes(hex_octets(alloc, text)?)]?;
    Ok(MemDatagrams::new(alloc, items, Vec::new(alloc), 0)?)
}

/// The links are fed that are.
fn add_hearings<R: Wait + Copy>(
    alloc: Global,
    links: &mut Vec<Fed<Hearings<R>>>,
    watch: &Watch<R>,
    case: &Case,
) -> Result<(), Fail> {
    'links: for (link, text) in case.hears.iter().enumerate() {
        let datagrams = Hearings::new(watch, case.link, heard(alloc, text)?)?;
        links.push(Fed { link, datagrams })?;
    }
    Ok(())
}

/// Serves the sessions of doors. Gives how the server ends.
fn end_of<
    R: Log + Threads + Wait + Copy + Send + 'static,
    O: Surroundings<Starter = Apart>,
    B: Books + Send + Sync + 'static,
>(
    rt: R,
    alloc: Global,
    doors: &mut O::Doors,
    setup: Setup<O::Links, O::Clock>,
    blanks: Blanks,
) -> ServeEnd
    requires hub { (counted setup.hub ≡ each 0) × (setup.hub.hub.numbers_given ≡ 0) }
    requires stands { (plain : Plain) × StandsFor setup.hub.hub plain }
    requires names { AreNamed blanks B.names }
{
    let mut starter = Apart { faults: 0 };
    let register = &mut NoRegister;
    let Served { end, .. } = serve::<R, O, B, NoRegister>(
        rt,
        alloc,
        &mut starter,
        doors,
        setup,
        blanks,
        register,
    );
    end
}

/// The same over the hub of one zone and two links.
fn end_over_hub<R: Log + Threads + Wait + Copy + Send + 'static, O: Surroundings<Starter = Apart>>(
    rt: R,
    alloc: Global,
    doors: &mut O::Doors,
    links: Vec<Fed<O::Links>>,
    clock: O::Clock,
    sessions: u16,
) -> Result<ServeEnd, Fail> {
    let hub = example_hub(alloc)?;
    let setup = Setup {
        hub,
        links,
        clock,
        sessions: u64::from(sessions),
        turns: TURNS,
    };
    Ok(end_of::<R, O, Brand>(rt, alloc, doors, setup, Blanks::new()))
}

/// What a session is answered.
fn answer_of(alloc: Global, case: &Case, place: u16) -> Result<Vec<u8>, Fail> {
    if place < case.answered {
        with_id(alloc, case.answer, case.id(place))
    } else {
        Ok(Vec::new(alloc))
    }
}

/// Fails where a session got something else than its answer.
fn is_answered<R: Wait>(
    rt: &R,
    alloc: Global,
    case: &Case,
    place: u16,
    list: &List,
) -> Result<(), Fail> {
    let answer = answer_of(alloc, case, place)?;
    let is_so = list.lock(rt).as_slice() == answer.as_slice();
    holds(is_so, usize::from(place), "its answer")
}

/// Fails where any of the sessions did.
fn are_answered<R: Wait>(rt: &R, alloc: Global, case: &Case, lists: &[List]) -> Result<(), Fail> {
    'sessions: for (place, list) in (0..case.come).zip(lists) {
        is_answered(rt, alloc, case, place, list)?;
    }
    Ok(())
}

/// How a server over these doors ends.
fn end_over<R: Log + Threads + Wait + Copy + Send + 'static>(
    rt: R,
    alloc: Global,
    watch: &Watch<R>,
    case: &Case,
    doors: &mut Porter<R>,
) -> Result<ServeEnd, Fail> {
    let mut links = Vec::new(alloc);
    add_hearings(alloc, &mut links, watch, case)?;
    let clock = Still::new(watch, case.moment)?;
    end_over_hub::<R, Watched<R>>(rt, alloc, doors, links, clock, case.sessions)
}

/// Fails where sessions aren't served so by these doors, or their links are asked something else.
fn are_served_by<R: Log + Threads + Wait + Copy + Send + 'static>(
    rt: R,
    alloc: Global,
    watch: &Watch<R>,
    case: &Case,
    doors: &mut Porter<R>,
    lists: &mut Vec<List>,
) -> Result<(), Fail> {
    add_sessions(rt, alloc, doors, case, lists)?;
    let end = end_over(rt, alloc, watch, case, doors)?;
    holds(end == case.end, 0, "its end")?;
    holds(
        watch.has_sent(hex_octets(alloc, case.asks)?.as_slice()),
        0,
        "what is asked",
    )?;
    are_answered(&rt, alloc, case, lists.as_slice())
}

/// Fails where sessions aren't served so.
fn are_served<R: Log + Threads + Wait + Copy + Send + 'static>(
    rt: R,
    alloc: Global,
    case: &Case,
) -> Result<(), Fail> {
    let watch = Watch::new(rt, alloc)?;
    let last = u64::from(case.sessions);
    let mut doors = Porter::new(alloc, watch.again()?, case.last_session, last);
    are_served_by(rt, alloc, &watch, case, &mut doors, &mut Vec::new(alloc))
}

#[test]
fn sessions_are_served(rt: HostRuntime) -> Result<(), Fail> {
    'cases: for case in SESSIONS {
        are_served(rt, rt.alloc(), case)?;
    }
    Ok(())
}

#[test]
fn links_are_heard_and_asked(rt: HostRuntime) -> Result<(), Fail> {
    'cases: for case in LINKS {
        are_served(rt, rt.alloc(), case)?;
    }
    Ok(())
}
