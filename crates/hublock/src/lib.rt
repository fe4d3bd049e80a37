//! The hub that threads share: one mutex around it, condition variables on which a session's threads sleep, and counted
//! shares from which each thread's number of accepted entries is known without the lock.
//!
//! **Model.** `Locked` is the value under the mutex: the hub, the totals of four ledgers, which lines are over, how
//! many sessions are left, and whether all is to stop (`LockedState`). No contract can say what it is between two
//! calls, except what always holds (`Holds`). A `Feed` is one thread's share of three ledgers; when all feeds are
//! joined they have exactly the journal's counts (`specs/Feeds`).
//!
//! **Flow.** `HubLock::new` (`lock.rt`) puts a hub behind the lock and tells a `Register`. `Shared` (`shared.rt`) is
//! the `Gate` of one thread. Each of its calls locks, makes one call of `Locked` (`locked.rt`), notes in the feed what
//! was entered, decides whom that wakes (`wakeups.rt`), unlocks, and only then notifies. `pause` sleeps unless
//! something came since. `signal.rt` has what loops tell each other, `marks.rt` the lines that are over, `log_lines.rt`
//! what is logged.
//!
//! **Begin** with `locked.rt`, then `shared.rt`, then `wakeups.rt`, which has the rule that no wake-up is lost.
//!
//! **Change.** Who is woken, and when, is seen by no contract: it is free, and nothing but tests will show an error
//! there. The ledgers and what a `Feed` rises by are cited by `serving` and `commands`. A call made while the lock is
//! held must not call the outside.
//!
//! **Stand on it**: `serving` (a hold for each job), `commands` and `dnspush` (registers).
#![tactic(auto)]

mod blanks;
mod books;
mod feed;
mod lock;
mod locked;
mod log_lines;
mod marks;
mod register;
mod seats;
mod shared;
mod signal;
mod wakeups;

ghost use Rattle.std.specs.Prelude.{◌≡◌};
ghost use Rattle.hublock.specs.Feeds.{parts_each};

pub use blanks::Blanks;
pub use books::{Books, PARTS};
pub use feed::Feed;
pub use hubloops::{
    Alone, Ended, Gate, Job, JobEnd, LoopEnd, MAX_READ, Overs, clock_loop, link_loop, read_loop,
    worked_rounds, write_loop,
};
pub use lock::{HubLock, finish};
pub use locked::Locked;
pub use register::{NoRegister, Register};
pub use seats::Seats;
pub use shared::{OnePart, Shared};
pub use signal::Signal;

/// The limit of a ledger: the parts into which it may be cut.
pub fn limit_rows()
    ensures parts { parts_each ≡ 4194304 }
{}
