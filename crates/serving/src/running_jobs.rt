//! Jobs that were started and aren't links', and those of them that are over.

ghost use Rattle.std.specs.Prelude.{◌≡◌, ◌≤◌, ◌<◌, ◌+◌, false, vec_len, vec_capacity, OnOk};
ghost use Rattle.std.specs.List.{list_any};
ghost use Rattle.hublock.specs.Feeds.{each};
ghost use Rattle.serving.specs.Ends.{is_link_fault};
ghost use Rattle.serving.specs.Running.{IsMovedOn};

use crate::other_job::OtherJob;
use hublock::{Books, Ended, Feed};
use log::Log;
use push_base::{NoMemory, Pending, Surroundings};
use std::alloc::Global;
use std::sync::atomic::{AtomicBool, Ordering};
use std::sync::{Arc, Wait};
use std::thread::Threads;

/// A job that was started, and where it tells that it is over.
#[derive(Drop)]
pub(crate) struct Running<R: Log + Wait + Copy + 'static, O: Surroundings, B: Books + 'static> {
    pub(crate) job: Pending<OtherJob<R, O::Line, O::Wire, O::Links, O::Clock, B>>,
    pub(crate) over: Arc<AtomicBool>,
}

/// Two ends of a place where a job tells that it is over. There is room in a list of jobs for one more then.
pub(crate) fn flags<J: Drop>(
    alloc: Global,
    jobs: &mut Vec<J>,
) -> Result<(Arc<AtomicBool>, Arc<AtomicBool>), NoMemory>
    ensures len { vec_len jobs.new ≡ vec_len jobs.old }
    ensures room { OnOk result (vec_len jobs.new < vec_capacity jobs.new) }
{
    jobs.reserve(1)?;
    let ours = Arc::new(alloc, AtomicBool::new(false))?;
    let theirs = Arc::try_clone(&ours)?;
    Ok((ours, theirs))
}

/// Finishes the job at a place, if it is over and there is memory to keep how its loop ended.
fn finish_at<
    R: Log + Threads + Wait + Copy + Send + 'static,
    O: Surroundings,
    B: Books + Send + Sync + 'static,
>(rt: R, jobs: &mut Vec<Running<R, O, B>>, place: usize, feed: &mut Feed<B>, ends: &mut Vec<Ended>)
    requires place { place < vec_len jobs.old }
    requires even { feed.old.parts ≡ each feed.old.parts.changes }
    requires linkless { list_any is_link_fault ends.old.items ≡ false }
    ensures left { place ≤ vec_len jobs.new }
    ensures moved { IsMovedOn feed.old feed.new (vec_len jobs.old) (vec_len jobs.new) (vec_len ends.old) (vec_len ends.new) }
    ensures linkless { list_any is_link_fault ends.new.items ≡ false }
{
    if !jobs[place].over.load(Ordering::SeqCst) {
        return;
    }
    if ends.reserve(1).is_err() {
        return;
    }
    let Running { job, over: _ } = jobs.remove(place);
    let ended = job.finish(&rt);
    feed.take_in(ended.feed);
    ends.push_reserved(ended.end);
}

/// Finishes the jobs that are over, and keeps how their loops ended.
pub(crate) fn finish_over<
    R: Log + Threads + Wait + Copy + Send + 'static,
    O: Surroundings,
    B: Books + Send + Sync + 'static,
>(rt: R, jobs: &mut Vec<Running<R, O, B>>, feed: &mut Feed<B>, ends: &mut Vec<Ended>)
    requires even { feed.old.parts ≡ each feed.old.parts.changes }
    requires linkless { list_any is_link_fault ends.old.items ≡ false }
    ensures moved { IsMovedOn feed.old feed.new (vec_len jobs.old) (vec_len jobs.new) (vec_len ends.old) (vec_len ends.new) }
    ensures linkless { list_any is_link_fault ends.new.items ≡ false }
{
    let mut place = jobs.len();
    'places: while place > 0 {
        place -= 1;
        finish_at::<R, O, B>(rt, jobs, place, feed, ends);
    }
}
