//! Jobs that were started.

use crate::Task;
use std::thread::{JoinHandle, Threads};

/// A job that was started.
#[derive(Drop)]
pub enum Pending<J: Task> {
    /// It runs in a thread of its own.
    Running(JoinHandle<J::Out>),
    /// It runs where it is finished.
    Kept(J),
}

impl<J: Task> Pending<J> {
    /// What the job answers: waits for its thread, or runs it. It takes no memory but what the job takes.
    pub fn finish<R: Threads>(self, rt: &R) -> J::Out {
        match self {
            Pending::Running(thread) => thread.join(rt),
            Pending::Kept(job) => job.run(),
        }
    }
}
