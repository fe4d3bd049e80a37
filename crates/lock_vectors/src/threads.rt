//! Jobs that get a thread each, and wires whose octets the test keeps.

ghost use Rattle.std.specs.Prelude.{None, true};

use push_base::{Failed, NoMemory, Refusal, Role, Sink, Starter, Wire};
use std::alloc::Global;
use std::sync::{Arc, Mutex, Wait};

/// Each job gets a thread of its own.
#[derive(Drop)]
pub(crate) struct Apart {
    pub(crate) faults: u64,
}

impl Starter for Apart {
    ghost started = { λ _. None };

    ghost threads = { λ _. true };

    ghost faults = { λ s. s.faults };

    fn uses_threads(&self) -> bool {
        true
    }

    fn admit(&mut self, _role: Role, _turns: u64) -> Result<(), Refusal> {
        Ok(())
    }

    fn fail(&mut self) {
        self.faults = self.faults.saturating_add(1);
    }
}

/// Octets that the test keeps.
pub(crate) type List = Arc<Mutex<Vec<u8>>>;

/// A list without octets.
pub(crate) fn new_list(alloc: Global) -> Result<List, NoMemory> {
    Ok(Arc::new(alloc, Mutex::new(Vec::new(alloc)))?)
}

/// A wire whose octets go to a list.
#[derive(Drop)]
pub(crate) struct Listed<R: Wait + Copy> {
    rt: R,
    list: List,
    pub(crate) faults: u64,
}

impl<R: Wait + Copy> Listed<R> {
    pub(crate) fn new(rt: R, list: List) -> Listed<R> {
        Listed {
            rt,
            list,
            faults: 0,
        }
    }
}

impl<R: Wait + Copy> Sink for Listed<R> {
    ghost taken = { λ _. None };

    ghost calls = { λ _. None };

    ghost faults = { λ s. s.faults };

    fn write(&mut self, piece: &[u8]) -> Result<usize, Failed> {
        if self.list.lock(&self.rt).extend_from_slice(piece).is_err() {
            self.faults = self.faults.saturating_add(1);
            return Err(Failed);
        }
        Ok(piece.len())
    }
}

impl<R: Wait + Copy> Wire for Listed<R> {
    fn flush(&mut self) {}
}
