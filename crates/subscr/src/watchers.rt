//! Who watches which name.

ghost use Rattle.std.specs.Prelude.{◌≡◌, ℕ, ◌+◌, [], length, nat_lt, OnOk, OnErr};
ghost use Rattle.dnsname.specs.Names.{Labels};
ghost use Rattle.subscr.specs.ByName.{Renoted};
ghost use Rattle.subscr.specs.Watching.{AreWatching, once_less, once_more, watching_of};

use crate::NoMemory;
use crate::sessions::Sessions;
use dnsname::Name;
use push_base::Steps;
use std::alloc::Global;
use std::collections::BTreeMap;
use std::marker::Model;
use std::sync::ledger::Ledger;

/// Nobody watches a name.
fn forget(names: &mut BTreeMap<Name, Sessions>, name: &Name)
    ensures { Renoted name.now [] names.old.entries names.new.entries }
{
    names.remove(name);
}

/// The sessions that watch each name, as often as their questions have it (names but for case).
#[derive(Debug, Drop)]
pub struct Watchers {
    alloc: Global,
    names: BTreeMap<Name, Sessions>,
}

impl Model for Watchers {
    ghost use Rattle.subscr.specs.Watching.{KeptWatching};

    ghost Value = { KeptWatching };

    ghost view = { λ w. w.names.entries };
}

impl Watchers {
    /// Nobody watches any name.
    pub fn new(alloc: Global) -> Self
        ensures { result ≡ [] }
    {
        Watchers {
            alloc,
            names: BTreeMap::new(alloc),
        }
    }

    /// A session watches a name once more. Where memory runs out nothing changes.
    pub fn add(&mut self, name: &Name, session: u64) -> Result<(), NoMemory>
        ensures ok { OnOk result ((other : Labels) (another : ℕ) → watching_of self.new other another ≡ once_more name.now session (watching_of self.old) other another) }
        ensures err { OnErr result (self.new ≡ self.old) }
    {
        match self.names.get_mut(name) {
            Some(sessions) => sessions.add(session),
            None => {
                let sessions = Sessions::of(self.alloc, session)?;
                let name = name.copy()?;
                self.names.insert(name, sessions)?;
                Ok(())
            }
        }
    }

    /// A session watches a name once less. Nothing changes where it doesn't watch it, and the answer says so. It takes no memory.
    pub fn remove(&mut self, name: &Name, session: u64) -> bool
        ensures watched { result ≡ nat_lt 0 (watching_of self.old name.now session) }
        ensures less { (other : Labels) (another : ℕ) → watching_of self.new other another ≡ once_less name.now session (watching_of self.old) other another }
    {
        let Some(sessions) = self.names.get_mut(name) else {
            return false;
        };
        let watched = sessions.remove(session);
        if sessions.is_empty() {
            forget(&mut self.names, name);
        }
        watched
    }

    /// The sessions that watch a name, each once, their numbers rising. It counts one step, and one for each session.
    pub fn at<L: Ledger>(&self, name: &Name, steps: &mut Steps<L>) -> &[u64]
        ensures watching { AreWatching (watching_of self.now) name.now result.now }
        ensures steps { steps.new ≡ steps.old + 1 + length result.now }
    {
        let numbers = self.numbers(name);
        steps.tick();
        steps.tick_by(numbers.len() as u64);
        numbers
    }

    /// The sessions that watch a name.
    fn numbers(&self, name: &Name) -> &[u64]
        ensures { AreWatching (watching_of self.now) name.now result.now }
    {
        match self.names.get(name) {
            Some(sessions) => sessions.numbers(),
            None => &[],
        }
    }
}
