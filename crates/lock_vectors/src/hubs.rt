//! A hub of one zone and two links, and what is sent to it.

ghost use Rattle.std.specs.Prelude.{◌≡◌, ℕ, IfOk};
ghost use Rattle.history.specs.Kept.{state_of};
ghost use Rattle.history.specs.Plans.{IsStart};
ghost use Rattle.zoneupdate.specs.Zones.{new_zone};
ghost use Rattle.pushserver.specs.PlainHubs.{Hub as Plain};
ghost use Rattle.pushserver.specs.KeptHubs.{StandsFor};
ghost use Rattle.hublock.specs.Feeds.{each};
ghost use Rattle.hublock.specs.Inside.{counted};

use dnsname::Name;
use dsosession::session::Timers;
use history::{Homes, NO_CAP};
use hubasking::Hub;
use std::alloc::Global;
use std::test::Fail;
use zoneupdate::Zone;

/// A SUBSCRIBE with the ID 1, for the SOA of `example.com.` (RFC 8765, 6.2).
pub(crate) const SUBSCRIBE: &str =
    "002100013000000000000000000000400011076578616d706c6503636f6d0000060001";

/// Its answer, and the SOA.
pub(crate) const SUBSCRIBED: &str =
    "000c0001b0000000000000000000006300003000000000000000000000410053076578616d706c6503636f6d000006000100000e10003c026e73076578616d706c6503636f6d000a686f73746d6173746572076578616d706c6503636f6d000000000100000e1000000258000151800000003c";

/// A datagram of a link: `h.local.` has the address 192.0.2.1 for 120 s.
pub(crate) const HOST: &str =
    "0000840000000001000000000168056c6f63616c0000010001000000780004c0000201";

/// A datagram of another link: `h.local.` has the address 192.0.2.2 for 120 s.
pub(crate) const OTHER_HOST: &str =
    "0000840000000001000000000168056c6f63616c0000010001000000780004c0000202";

/// A query for addresses of `h.local.` (RFC 6762, 5.2; RFC 1035, 4.1).
pub(crate) const ASKED: &str = "0000000000010000000000000168056c6f63616c0000010001";

/// A SUBSCRIBE with the ID 2, for addresses of `h.lan.example.com.`.
pub(crate) const OF_THE_HOST: &str =
    "0027000230000000000000000000004000170168036c616e076578616d706c6503636f6d0000010001";

/// Its answer, and the address.
pub(crate) const OF_THE_HOST_TOLD: &str =
    "000c0002b00000000000000000000031000030000000000000000000004100210168036c616e076578616d706c6503636f6d0000010001000000780004c0000201";

/// What a Keepalive is granted: 15 s each (RFC 8490, 6.2).
const TIMERS: Timers = Timers {
    inactivity: 15_000,
    keepalive: 15_000,
};

/// One zone, and two links with these domains.
fn homes_of(zone: Zone, lan: Name, wlan: Name, alloc: Global) -> Result<Homes, Fail>
    requires { (serial : ℕ) × (zone.state ≡ new_zone zone.state.apex serial zone.state.writable) }
    ensures { IfOk result (λ homes. IsStart (state_of homes)) }
{
    let mut homes = Homes::new(alloc);
    homes.add_zone(zone)?;
    homes.add_link(lan, NO_CAP)?;
    homes.add_link(wlan, NO_CAP)?;
    Ok(homes)
}

/// The zone `example.com.`, which may be written, and the links `lan.example.com.` and `wlan.example.com.`.
fn example_homes(alloc: Global) -> Result<Homes, Fail>
    ensures { IfOk result (λ homes. IsStart (state_of homes)) }
{
    let apex = Name::from_text(alloc, "example.com.")?;
    let lan = Name::from_text(alloc, "lan.example.com.")?;
    let wlan = Name::from_text(alloc, "wlan.example.com.")?;
    let zone = Zone::new(alloc, apex, 1, true)?;
    homes_of(zone, lan, wlan, alloc)
}

/// A hub of these.
pub(crate) fn example_hub(alloc: Global) -> Result<Hub, Fail>
    ensures fresh { IfOk result (λ hub. (counted hub ≡ each 0) × (hub.hub.numbers_given ≡ 0)) }
    ensures stands { IfOk result (λ hub. (plain : Plain) × StandsFor hub.hub plain) }
{
    let homes = example_homes(alloc)?;
    let hub = Hub::new(homes, TIMERS)?;
    Ok(hub)
}
