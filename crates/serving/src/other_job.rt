//! The jobs that aren't links'.

ghost use Rattle.std.specs.Prelude.{◌≡◌, false};
ghost use Rattle.hublock.specs.Feeds.{each};
ghost use Rattle.hubloops.specs.Jobs.{role_in};
ghost use Rattle.serving.specs.Ends.{is_link_fault};
ghost use Rattle.serving.specs.Jobs.{is_link};

use crate::log_lines::tell_loop_end;
use hublock::{Books, Ended, Feed, Job, JobEnd, OnePart, Shared};
use log::Log;
use push_base::{Clock, Datagrams, Line, Role, Task, Wire};
use std::sync::atomic::{AtomicBool, Ordering};
use std::sync::{Arc, Wait};

/// What the job of a session or of the clock answers: how its loop ended, which is never as `LinkFault`, and its feed of one
/// part of each ledger.
#[derive(Drop)]
pub(crate) struct OtherEnd<B: Books> {
    pub(crate) end: Ended,
    pub(crate) feed: Feed<B>,
    pub(crate) ghost one: { feed.parts ≡ each 1 },
    pub(crate) ghost linkless: { is_link_fault end ≡ false },
}

/// A job of a session, or the clock's, which tells when it is over.
#[derive(Drop)]
pub(crate) struct OtherJob<
    R: Log + Wait + Copy,
    L: Line + Drop,
    K: Wire + Drop,
    G: Datagrams + Drop,
    T: Clock + Drop,
    B: Books,
> {
    rt: R,
    job: Job<Shared<R, B>, L, K, G, T>,
    over: Arc<AtomicBool>,
    ghost other: { is_link (role_in job.work) ≡ false },
}

impl<
    R: Log + Wait + Copy,
    L: Line + Drop,
    K: Wire + Drop,
    G: Datagrams + Drop,
    T: Clock + Drop,
    B: Books,
> OtherJob<R, L, K, G, T, B> {
    /// That job, and where it tells that it is over.
    pub(crate) fn new(rt: R, job: Job<Shared<R, B>, L, K, G, T>, over: Arc<AtomicBool>) -> Self
        requires { is_link (role_in job.work) ≡ false }
        ensures { result.job ≡ job }
    {
        OtherJob { rt, job, over }
    }
}

impl<
    R: Log + Wait + Copy,
    L: Line + Drop,
    K: Wire + Drop,
    G: Datagrams + Drop + Send + 'static,
    T: Clock + Drop,
    B: Books + 'static,
> Task for OtherJob<R, L, K, G, T, B> {
    type Out = OtherEnd<B>;

    ghost role_of = { λ j. role_in j.job.work };

    ghost turns_of = { λ j. j.job.turns };

    fn role(&self) -> Role {
        self.job.role()
    }

    fn turns(&self) -> u64 {
        self.job.turns()
    }

    fn run(self) -> OtherEnd<B> {
        let OtherJob { rt, job, over } = self;
        let role = job.role();
        let JobEnd { end, left, links } = job.run();
        tell_loop_end(&rt, role, end.end());
        over.store(true, Ordering::SeqCst);
        let OnePart { feed } = left;
        match links {
            None => OtherEnd { end, feed },
            Some(_) => unreachable!(),
        }
    }
}
