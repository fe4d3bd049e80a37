//! Which hubs go behind locks, and how servers finish.

ghost use Rattle.std.specs.Prelude.{◌≡◌, None, Option, List};
ghost use Rattle.hubasking.specs.AskingHubs.{AskingHub};
ghost use Rattle.hublock.specs.Registers.{Ending, entered};

use history::entry::Totals;
use hubasking::Hub;
use hubloops::Ended;

/// Is told of each hub that goes behind a lock, and of each server that finishes, so that what runs a server can say which hub
/// its jobs share, and what its counts are.
pub trait Register {
    /// The hubs of which it was told, in order, where it tells them.
    ghost hubs: { Self → Option (List AskingHub) };

    /// How the servers ended of which it was told, in order, where it tells that.
    ghost endings: { Self → Option (List Ending) };

    /// This hub goes behind a lock.
    fn enter(&mut self, hub: &Hub)
        ensures hubs { hubs self.new ≡ entered (hubs self.old) hub.now }
        ensures endings { endings self.new ≡ endings self.old };

    /// All loops of a server ended so, and the journal of its hub has these counts.
    fn finish(&mut self, loops: &[Ended], counts: Totals)
        ensures hubs { hubs self.new ≡ hubs self.old }
        ensures endings { endings self.new ≡ entered (endings self.old) (record { loops = loops.now; counts = counts }) };
}

/// A register that tells nothing.
#[derive(Drop)]
pub struct NoRegister;

impl Register for NoRegister {
    ghost hubs = { λ _. None };

    ghost endings = { λ _. None };

    fn enter(&mut self, _hub: &Hub) {}

    fn finish(&mut self, _loops: &[Ended], _counts: Totals) {}
}
