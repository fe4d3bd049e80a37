//! Which list is shown, and when.

ghost use Rattle.std.specs.Prelude.{◌≡◌, IfOk, OnOk};
ghost use Rattle.browsing.specs.Showing.{are_found, begins_anew, is_found, is_overdue, is_ripe, shows, shows_nothing, since};

use push_base::NoMemory;
use services::{Changes, Service, Services, changes};
use std::alloc::Global;

/// So long no octet must have come, in milliseconds, for a list to count as whole.
pub const QUIET: u64 = 500;

/// So long a difference waits for what it still lacks, in milliseconds.
pub const PATIENCE: u64 = 1_000;

/// So long behind a new connection the list that was shown is kept, in milliseconds, where it isn't whole before.
pub const GRACE: u64 = 5_000;

/// How far a list has come.
#[derive(Clone, Copy)]
pub struct Progress {
    /// All that it asks for is answered.
    pub answered: bool,
    /// And nothing has come for a while.
    pub settled: bool,
}

/// What is shown.
#[derive(Drop)]
pub struct Showing {
    /// The list.
    pub list: Services,
    /// Since when what is known makes another list, if it does.
    pub differs: Option<u64>,
    /// Whether a list was whole on this connection.
    pub whole: bool,
    /// When the connection was made.
    pub begun: u64,
}

// Whether an address of a service is known.
fn is_found(service: &Service) -> bool
    ensures { result ≡ is_found service.now }
{
    !service.addresses.as_slice().is_empty()
}

// Whether an address of each service is known.
fn are_found(list: &[Service]) -> bool
    ensures { result ≡ are_found list.now }
{
    list.iter().all(|service| is_found(service))
}

impl Showing {
    /// Nothing.
    pub(crate) fn new(alloc: Global) -> Self
        ensures { result ≡ shows_nothing }
    {
        Showing {
            list: Services::new(alloc),
            differs: None,
            whole: false,
            begun: 0,
        }
    }

    /// A connection was made. The list stays.
    pub(crate) fn begin(&mut self, now: u64)
        ensures { self.new ≡ begins_anew now self.old }
    {
        self.differs = None;
        self.whole = false;
        self.begun = now;
    }

    // Since when what is known makes another list.
    fn since(&self, now: u64) -> u64
        ensures { result ≡ since self.now now }
    {
        match self.differs {
            None => now,
            Some(moment) => moment,
        }
    }

    /// Whether a list that differs has waited as long as it waits at most.
    pub(crate) fn is_overdue(&self, now: u64) -> bool
        ensures { result ≡ is_overdue now self.now }
    {
        let Some(moment) = self.differs else {
            return false;
        };
        if !self.whole {
            return self.begun.saturating_add(GRACE) <= now;
        }
        moment.saturating_add(PATIENCE) <= now
    }

    // Whether another list is shown now.
    fn is_ripe(&self, list: &Services, progress: Progress, now: u64) -> bool
        ensures { result ≡ is_ripe self.now list.now progress now }
    {
        if progress.settled {
            return true;
        }
        if self.whole {
            return (progress.answered && are_found(list.as_slice()))
                || self.since(now).saturating_add(PATIENCE) <= now;
        }
        self.begun.saturating_add(GRACE) <= now
    }

    /// Shows this list, where it is ripe, and gives what changed.
    pub(crate) fn show(
        &mut self,
        alloc: Global,
        list: Services,
        progress: Progress,
        now: u64,
    ) -> Result<Changes, NoMemory>
        ensures told { IfOk result (λ told. told ≡ (shows list progress now self.old).0) }
        ensures shown { OnOk result (self.new ≡ (shows list progress now self.old).1) }
    {
        let all = changes(alloc, &self.list, &list)?;
        let is_ripe = self.is_ripe(&list, progress, now);
        let since = self.since(now);
        self.whole = self.whole || progress.settled;
        if all.is_empty() {
            self.differs = None;
            return Ok(all);
        }
        if !is_ripe {
            self.differs = Some(since);
            return Ok(Changes::new(alloc));
        }
        self.differs = None;
        self.list = list;
        Ok(all)
    }
}
