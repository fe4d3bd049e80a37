//! What decides how jobs are started, and the start itself.

ghost use Rattle.std.specs.Prelude.{◌≡◌, ◌≤◌, ℕ, Bool, true, false, List, Option, IfOk};
ghost use Rattle.push_base.specs.Causes.{Rose};
ghost use Rattle.push_base.specs.Pending.{IsStarted};
ghost use Rattle.push_base.specs.Starter.{Admits, CountsRefusal, Starts, CountsStartFault, HandsBack};
ghost use Rattle.push_base.specs.declared.role.Role.{Role};

use crate::handover::{Handover, start_thread};
use crate::{Pending, Role, Task};
use std::alloc::Global;
use std::sync::Wait;
use std::thread::Threads;
use thiserror::Error;

/// Why a job wasn't started. The job is handed back.
#[derive(Drop)]
pub enum StartFault<J> {
    /// The starter failed, and its count of faults rose.
    Failed(J),
    /// Memory ran out.
    NoMemory(J),
}

/// Why a starter takes no job.
#[derive(Clone, Copy, Debug, PartialEq, Eq, Error)]
pub enum Refusal {
    /// It failed, and its count of faults rose.
    #[error("no thread could be had")]
    Failed,
    /// Memory ran out.
    #[error("out of memory")]
    NoMemory,
}

/// Decides how jobs are started, and counts those that couldn't be. `start` starts them.
pub trait Starter {
    /// The role and the turns of each job that was handed to it, started or not, save those that were handed back for
    /// want of memory, where it tells them.
    ghost started: { Self → Option (List (Role × ℕ)) };

    /// Whether each job gets a thread of its own.
    ghost threads: { Self → Bool };

    /// How often it has failed.
    ghost faults: { Self → ℕ };

    /// Whether each job gets a thread of its own.
    fn uses_threads(&self) -> bool
        ensures { result ≡ threads self.now };

    /// A job of this role and these turns is handed to it.
    fn admit(&mut self, role: Role, turns: u64) -> Result<(), Refusal>
        ensures started { Admits (started self.old) (started self.new) role turns result }
        ensures faults { CountsRefusal (faults self.old) (faults self.new) result }
        ensures threads { threads self.new ≡ threads self.old };

    /// No thread could be made for a job that it took.
    fn fail(&mut self)
        ensures started { started self.new ≡ started self.old }
        ensures later { faults self.old ≤ faults self.new }
        ensures faults { Rose (faults self.old) (faults self.new) }
        ensures threads { threads self.new ≡ threads self.old };
}

/// Starts a job: in a thread of its own, or it is kept and runs where it is finished, as the starter has it.
///
/// It is no method of `Starter`, since a method with a type parameter of its own can't start threads.
pub fn start<R: Threads + Wait + Copy + Send + 'static, S: Starter, J: Task + Send + 'static>(
    rt: R,
    alloc: Global,
    starter: &mut S,
    job: J,
) -> Result<Pending<J>, StartFault<J>>
    ensures started { Starts (S.started starter.old) (S.started starter.new) (J.role_of job) (J.turns_of job) result }
    ensures faults { CountsStartFault (S.faults starter.old) (S.faults starter.new) result }
    ensures back { HandsBack job result }
    ensures kept { IfOk result (IsStarted (S.threads starter.old) job) }
    ensures threads { S.threads starter.new ≡ S.threads starter.old }
{
    if starter.uses_threads() {
        start_apart(rt, alloc, starter, job)
    } else {
        keep(starter, job)
    }
}

/// Keeps a job.
fn keep<S: Starter, J: Task>(starter: &mut S, job: J) -> Result<Pending<J>, StartFault<J>>
    ensures started { Starts (S.started starter.old) (S.started starter.new) (J.role_of job) (J.turns_of job) result }
    ensures faults { CountsStartFault (S.faults starter.old) (S.faults starter.new) result }
    ensures back { HandsBack job result }
    ensures kept { IfOk result (IsStarted false job) }
    ensures threads { S.threads starter.new ≡ S.threads starter.old }
{
    match starter.admit(job.role(), job.turns()) {
        Ok(()) => Ok(Pending::Kept(job)),
        Err(Refusal::Failed) => Err(StartFault::Failed(job)),
        Err(Refusal::NoMemory) => Err(StartFault::NoMemory(job)),
    }
}

/// Starts a job in a thread of its own.
fn start_apart<R: Threads + Wait + Copy + Send + 'static, S: Starter, J: Task + Send + 'static>(
    rt: R,
    alloc: Global,
    starter: &mut S,
    job: J,
) -> Result<Pending<J>, StartFault<J>>
    ensures started { Starts (S.started starter.old) (S.started starter.new) (J.role_of job) (J.turns_of job) result }
    ensures faults { CountsStartFault (S.faults starter.old) (S.faults starter.new) result }
    ensures back { HandsBack job result }
    ensures kept { IfOk result (IsStarted true job) }
    ensures threads { S.threads starter.new ≡ S.threads starter.old }
{
    let Ok((ours, theirs)) = Handover::ends(alloc) else {
        return Err(StartFault::NoMemory(job));
    };
    match starter.admit(job.role(), job.turns()) {
        Ok(()) => {}
        Err(Refusal::Failed) => return Err(StartFault::Failed(job)),
        Err(Refusal::NoMemory) => return Err(StartFault::NoMemory(job)),
    }
    match start_thread(rt, ours, theirs, job) {
        Ok(thread) => Ok(Pending::Running(thread)),
        Err(job) => {
            starter.fail();
            Err(StartFault::Failed(job))
        }
    }
}
