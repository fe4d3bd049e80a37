//! A session comes to a hub and to the reasons beside it.

ghost use Rattle.std.specs.Prelude.{◌≡◌, ◌≤◌, ◌+◌, ◌&&◌, Some, None, length, nat_lt, IfOk, IsErrOf, OnErr, OnOk};
ghost use Rattle.push_base.specs.Limits.{max_number};
ghost use Rattle.linkreasons.specs.AllReasons.{askings_of};
ghost use Rattle.pushserver.specs.Hubs.{connect, max_sessions};
ghost use Rattle.pushserver.specs.KeptHubs.{StandsFor};
ghost use Rattle.pushserver.specs.PlainHubs.{Hub as Plain};
ghost use Rattle.hubasking.specs.KeptReasons.{AreKept};
ghost use Rattle.hubasking.specs.Seats.{HasPlace};

use linkreasons::LinkReasons;
use linkreasons::laws::reasons_are_followed;
use pushserver::{ConnectFault, MAX_SESSIONS};

/// Whether a seat is free.
fn has_seat(hub: &pushserver::Hub, reasons: &LinkReasons) -> bool
    requires { AreKept hub.now reasons.now }
    ensures { result ≡ (nat_lt (length hub.now.sessions) max_sessions && nat_lt hub.now.numbers_given max_number) }
{
    let few = reasons.len() < MAX_SESSIONS;
    let left = hub.made() < u64::MAX;
    few & left
}

/// A session that is to come has a place, without reasons, where a seat is free.
fn make_place(hub: &pushserver::Hub, reasons: &mut LinkReasons) -> Result<(), ConnectFault>
    requires { AreKept hub.now reasons.old }
    ensures place { OnOk result (HasPlace hub.now reasons.old reasons.new) }
    ensures err { OnErr result (reasons.new ≡ reasons.old) }
    ensures seat { OnErr result ((connect hub.now).0 ≡ Some hub.now.numbers_given) }
    ensures fault { OnErr result (IsErrOf result ConnectFault.NoMemory) }
{
    if has_seat(hub, reasons) {
        reasons.connect(hub.made())?;
    }
    Ok(())
}

/// A new session, without reasons. Gives its number.
pub(crate) fn seated(
    hub: &mut pushserver::Hub,
    reasons: &mut LinkReasons,
) -> Result<u64, ConnectFault>
    requires { AreKept hub.old reasons.old }
    ensures kept { AreKept hub.new reasons.new }
    ensures askings { askings_of reasons.new ≡ askings_of reasons.old }
    ensures ok { IfOk result (λ number. (plain : Plain) → StandsFor hub.old plain → ((connect plain).0 ≡ Some number) × StandsFor hub.new (connect plain).1) }
    ensures no_seat { IsErrOf result ConnectFault.NoSeat → (plain : Plain) → StandsFor hub.old plain → ((connect plain).0 ≡ None) × StandsFor hub.new (connect plain).1 }
    ensures made { IfOk result (λ number. ((connect hub.old).0 ≡ Some number) × (hub.new ≡ (connect hub.old).1)) }
    ensures same { OnErr result (hub.new ≡ hub.old) }
    ensures seat { IsErrOf result ConnectFault.NoMemory → (connect hub.old).0 ≡ Some hub.old.numbers_given }
    ensures seats { IsErrOf result ConnectFault.NoSeat → (connect hub.old).0 ≡ None }
    ensures counts { IfOk result (λ number. (number ≡ hub.old.numbers_given) × (hub.new.numbers_given ≡ hub.old.numbers_given + 1) × (hub.new.seen ≡ hub.old.seen)) }
    ensures many { IsErrOf result ConnectFault.NoSeat → max_sessions ≤ hub.old.numbers_given }
{
    reasons_are_followed();
    reasons.tell();
    make_place(hub, reasons)?;
    match hub.connect() {
        Ok(number) => Ok(number),
        Err(fault) => {
            reasons.end(hub.made());
            Err(fault)
        }
    }
}
