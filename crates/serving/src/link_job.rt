//! The job of a link, which gives its datagrams back.

ghost use Rattle.std.specs.Prelude.{◌≡◌, true};
ghost use Rattle.push_base.specs.declared.role.Role.TheVariants as roles;
ghost use Rattle.hublock.specs.Feeds.{each};
ghost use Rattle.hubloops.specs.Jobs.{role_in};
ghost use Rattle.serving.specs.Ends.{tells_fault};

use crate::log_lines::tell_loop_end;
use hublock::{Books, Ended, Feed, Job, JobEnd, OnePart, Shared};
use log::Log;
use push_base::{Clock, Datagrams, Line, Role, Task, Wire};
use std::alloc::Global;
use std::sync::Wait;

/// What a link's job answers: how its loop ended, its feed of one part of each ledger, and the datagrams, whose count of
/// faults is above 0 after `LinkFault`.
#[derive(Drop)]
pub(crate) struct LinkEnd<G: Datagrams + Drop, B: Books> {
    pub(crate) end: Ended,
    pub(crate) feed: Feed<B>,
    pub(crate) datagrams: G,
    pub(crate) ghost one: { feed.parts ≡ each 1 },
    pub(crate) ghost failed: { tells_fault end (G.faults datagrams) ≡ true },
}

/// A job that hears the datagrams of a link.
#[derive(Drop)]
pub(crate) struct LinkJob<
    R: Log + Wait + Copy,
    L: Line + Drop,
    K: Wire + Drop,
    G: Datagrams + Drop,
    T: Clock + Drop,
    B: Books,
> {
    rt: R,
    link: usize,
    job: Job<Shared<R, B>, L, K, G, T>,
    ghost hears: { role_in job.work ≡ roles.Link link },
}

impl<
    R: Log + Wait + Copy,
    L: Line + Drop,
    K: Wire + Drop,
    G: Datagrams + Drop,
    T: Clock + Drop,
    B: Books,
> LinkJob<R, L, K, G, T, B> {
    /// Hears the datagrams of a link.
    pub(crate) fn new(
        rt: R,
        alloc: Global,
        shared: Shared<R, B>,
        link: usize,
        datagrams: G,
        turns: u64,
    ) -> Self
        requires { shared.role ≡ roles.Link link }
        ensures { (role_in result.job.work ≡ roles.Link link) × (result.job.turns ≡ turns) }
    {
        LinkJob {
            rt,
            link,
            job: Job::link(alloc, shared, link, datagrams, turns),
        }
    }
}

impl<
    R: Log + Wait + Copy,
    L: Line + Drop,
    K: Wire + Drop,
    G: Datagrams + Drop + Send + 'static,
    T: Clock + Drop,
    B: Books + 'static,
> Task for LinkJob<R, L, K, G, T, B> {
    type Out = LinkEnd<G, B>;

    ghost role_of = { λ j. role_in j.job.work };

    ghost turns_of = { λ j. j.job.turns };

    fn role(&self) -> Role {
        self.job.role()
    }

    fn turns(&self) -> u64 {
        self.job.turns()
    }

    fn run(self) -> LinkEnd<G, B> {
        let LinkJob { rt, link, job } = self;
        let JobEnd { end, left, links } = job.run();
        tell_loop_end(&rt, Role::Link(link), end.end());
        let OnePart { feed } = left;
        match links {
            Some(datagrams) => LinkEnd {
                end,
                feed,
                datagrams,
            },
            None => unreachable!(),
        }
    }
}
