//! The hub behind a lock.

ghost use Rattle.std.specs.Prelude.{◌≡◌, ◌≤◌, ◌+◌, IfOk, IsErrOf, OnErr};
ghost use Rattle.pushserver.specs.PlainHubs.{Hub as Plain};
ghost use Rattle.pushserver.specs.Hubs.{max_sessions};
ghost use Rattle.pushserver.specs.KeptHubs.{StandsFor};
ghost use Rattle.hublock.specs.Feeds.{all_parts, each, parts_each, whole_seats};
ghost use Rattle.hublock.specs.Inside.{counted};
ghost use Rattle.hublock.specs.Ledgers.{AreNamed};
ghost use Rattle.hublock.specs.Registers.{entered};

use crate::books::{Books, Changes, Hearings, Moments, Sessions};
use crate::marks::Marks;
use crate::wakeups::{LastSeen, Wakeups};
use crate::{Blanks, Feed, Locked, Register, Seats, Signal};
use history::entry::Totals;
use hubasking::Hub;
use hubloops::Ended;
use push_base::{NoMemory, Role};
use pushserver::ConnectFault;
use std::alloc::Global;
use std::sync::{Arc, Mutex, MutexGuard, Wait};

/// What the threads share.
#[derive(Drop)]
pub(crate) struct Held<B: Books> {
    pub(crate) locked: Mutex<Locked<B>>,
    pub(crate) wakeups: Wakeups,
}

impl<B: Books> Held<B> {
    /// Gives the lock back behind a call for a role, and wakes those who may wait for what it changed. Gives what the loop of
    /// the role knows then.
    pub(crate) fn leave(&self, role: Role, locked: MutexGuard<'_, Locked<B>>) -> LastSeen {
        let wakes = locked.wakes();
        let known = self.wakeups.known(role, locked.is_done(role), wakes);
        drop(locked);
        self.wakeups.wake(wakes);
        known
    }

    /// The same where something may have ended.
    pub(crate) fn leave_at_end(&self, locked: MutexGuard<'_, Locked<B>>) {
        self.wakeups.count_ending();
        let wakes = locked.wakes();
        drop(locked);
        self.wakeups.wake(wakes);
    }
}

/// What goes behind the lock, and the feed and the seats that have every part of its ledgers.
fn opened<B: Books>(hub: Hub, blanks: Blanks, over: Marks) -> (Locked<B>, Feed<B>, Seats<B>)
    requires hub { (counted hub ≡ each 0) × (hub.hub.numbers_given ≡ 0) }
    requires stands { (plain : Plain) × StandsFor hub.hub plain }
    requires names { AreNamed blanks B.names }
    ensures hub { result.0.hub ≡ hub }
    ensures feed { result.1 ≡ all_parts }
    ensures seats { result.2 ≡ whole_seats }
{
    let Blanks {
        changes,
        heard,
        moments,
        made,
    } = blanks;
    let (changes, changes_share) = changes.open::<Changes<B>>();
    let (heard, heard_share) = heard.open::<Hearings<B>>();
    let (moments, moments_share) = moments.open::<Moments<B>>();
    let (made, made_share) = made.open::<Sessions<B>>();
    let locked = Locked::new(hub, changes, heard, moments, made, over);
    let feed = Feed {
        changes: changes_share,
        heard: heard_share,
        moments: moments_share,
    };
    (locked, feed, Seats { share: made_share })
}

/// One hold of the hub behind its lock.
pub struct HubLock<B: Books> {
    pub(crate) held: Arc<Held<B>>,
}

// By hand, so that crates above needn't prove that each part of a hub can be dropped.
impl<B: Books> Drop for HubLock<B> {
    fn drop(self) {
        let HubLock { held: _ } = self;
    }
}

impl<B: Books> HubLock<B> {
    /// A hub that has made no entry and no session goes behind a lock, which the register is told first.
    pub fn new<W: Register>(
        alloc: Global,
        hub: Hub,
        blanks: Blanks,
        register: &mut W,
    ) -> Result<(HubLock<B>, Feed<B>, Seats<B>), NoMemory>
        requires hub { (counted hub ≡ each 0) × (hub.hub.numbers_given ≡ 0) }
        requires stands { (plain : Plain) × StandsFor hub.hub plain }
        requires names { AreNamed blanks B.names }
        ensures registered { W.hubs register.new ≡ entered (W.hubs register.old) hub }
        ensures endings { W.endings register.new ≡ W.endings register.old }
        ensures feed { IfOk result (λ made. made.1 ≡ all_parts) }
        ensures seats { IfOk result (λ made. made.2 ≡ whole_seats) }
    {
        register.enter(&hub);
        match Marks::new(alloc) {
            Ok(over) => {
                let (locked, feed, seats) = opened(hub, blanks, over);
                HubLock::behind(alloc, locked, feed, seats)
            }
            Err(fault) => Err(fault),
        }
    }

    /// This goes behind the lock. The tokens stay with whoever gets the first hold.
    fn behind(
        alloc: Global,
        locked: Locked<B>,
        feed: Feed<B>,
        seats: Seats<B>,
    ) -> Result<(HubLock<B>, Feed<B>, Seats<B>), NoMemory>
        requires feed { feed ≡ all_parts }
        requires seats { seats ≡ whole_seats }
        ensures feed { IfOk result (λ made. made.1 ≡ all_parts) }
        ensures seats { IfOk result (λ made. made.2 ≡ whole_seats) }
    {
        let lock = HubLock::first(alloc, locked)?;
        Ok((lock, feed, seats))
    }

    /// The first hold of what goes behind the lock.
    fn first(alloc: Global, locked: Locked<B>) -> Result<HubLock<B>, NoMemory> {
        let held = Held {
            locked: Mutex::new(locked),
            wakeups: Wakeups::new(),
        };
        Ok(HubLock {
            held: Arc::new(alloc, held)?,
        })
    }

    /// Another hold.
    pub(crate) fn again(&self) -> Result<HubLock<B>, NoMemory> {
        Ok(HubLock {
            held: Arc::try_clone(&self.held)?,
        })
    }

    /// A new session. Gives its number, which is the number of those made before it. `NoSeat`: there are as many sessions as
    /// there may be.
    pub fn connect<R: Wait>(&self, rt: &R, seats: &mut Seats<B>) -> Result<u64, ConnectFault>
        requires { seats.old.parts ≡ parts_each }
        ensures parts { seats.new.parts ≡ seats.old.parts }
        ensures ok { IfOk result (λ number. (number ≡ seats.old.made) × (seats.new.made ≡ seats.old.made + 1)) }
        ensures err { OnErr result (seats.new.made ≡ seats.old.made) }
        ensures no_seat { IsErrOf result ConnectFault.NoSeat → max_sessions ≤ seats.old.made }
    {
        self.held.locked.lock(rt).connect(seats)
    }

    /// Tells the loops of all. This is one call of `Locked::signal`, and then those are woken who may wait for it.
    pub fn signal<R: Wait>(&self, rt: &R, signal: Signal) {
        let mut locked = self.held.locked.lock(rt);
        locked.signal(signal);
        self.held.leave_at_end(locked);
    }
}

/// The journal's counts, which are the sums of a feed that has every part. The register is told them, and how all loops ended.
pub fn finish<B: Books, R: Wait, W: Register>(
    rt: &R,
    lock: &HubLock<B>,
    feed: &mut Feed<B>,
    loops: &[Ended],
    register: &mut W,
) -> Totals
    requires { feed.old.parts ≡ each parts_each }
    ensures sums { result ≡ feed.old.sums }
    ensures same { feed.new ≡ feed.old }
    ensures hubs { W.hubs register.new ≡ W.hubs register.old }
    ensures endings { W.endings register.new ≡ entered (W.endings register.old) (record { loops = loops.now; counts = result }) }
{
    let counts = lock.held.locked.lock(rt).totals(feed);
    register.finish(loops, counts);
    counts
}
