//! A job is handed to the thread that was made for it, so that it is still there where no thread can be made.

ghost use Rattle.std.specs.Prelude.{◌≡◌, IfErr};

use crate::{NoMemory, Task};
use std::alloc::Global;
use std::sync::{Arc, Condvar, Mutex, Wait};
use std::thread;
use std::thread::{JoinHandle, Threads};

/// Where a job is handed over.
#[derive(Drop)]
pub(crate) struct Handover<J: Drop> {
    job: Mutex<Option<J>>,
    filled: Condvar,
}

impl<J: Drop> Handover<J> {
    /// The two ends of a place that is still empty.
    pub(crate) fn ends(alloc: Global) -> Result<(Arc<Handover<J>>, Arc<Handover<J>>), NoMemory> {
        let empty = Handover {
            job: Mutex::new(None),
            filled: Condvar::new(),
        };
        let ours = Arc::new(alloc, empty)?;
        let theirs = Arc::try_clone(&ours)?;
        Ok((ours, theirs))
    }

    /// Hands the job over.
    fn put<R: Wait>(&self, rt: &R, job: J) {
        *self.job.lock(rt) = Some(job);
        self.filled.notify_all();
    }

    /// Waits for the job.
    fn take<R: Wait>(&self, rt: &R) -> J {
        let empty = self.job.lock(rt);
        let mut filled = self.filled.wait_while(rt, empty, |job| job.is_none());
        filled.take().unwrap()
    }
}

/// Makes a thread, and then hands it the job, which is given back where no thread can be made.
pub(crate) fn start_thread<R: Threads + Wait + Copy + Send + 'static, J: Task + Send + 'static>(
    rt: R,
    ours: Arc<Handover<J>>,
    theirs: Arc<Handover<J>>,
    job: J,
) -> Result<JoinHandle<J::Out>, J>
    ensures { IfErr result (λ back. back ≡ job) }
{
    match thread::spawn(&rt, move || theirs.take(&rt).run()) {
        Ok(thread) => {
            ours.put(&rt, job);
            Ok(thread)
        }
        Err(_) => Err(job),
    }
}
