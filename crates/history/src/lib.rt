//! The server's database and its journal: all zones and links, each accepted change as an entry, and the state after
//! any number of entries.
//!
//! **Model.** A history is a start and a list of entries (`Past`, `PointsKept`). An entry is an update, a datagram
//! heard on a link, a reconfirmed record, a link that went away, or a moment (`Entry`). `specs/States` says whether a
//! state accepts an entry, what state comes after it, and which records a state shows. A point is a number of entries;
//! what is true at a point is the fold of the entries up to it.
//!
//! **Flow.** `Points::plan` asks what an entry would change. `planning.rt` hands an update to its zone (`updating.rt`),
//! and any other entry to the links that it concerns (`steps.rt`, `link_lists.rt`). It answers with the changed keys,
//! and holds the plan. `Points::append` puts the entry into the journal (`past.rt`), then makes the changes of the plan
//! in the homes (`homes.rt`). The second step takes no memory. Old entries are forgotten there: the start moves on, by
//! a plan, or by a copy that was made ahead of time (`ahead.rt`).
//!
//! **Begin** with `specs/Entries` and `specs/States`, then `points.rt`. `specs/Homes` says which zones and links may
//! stand side by side.
//!
//! **Change.** What is kept of the past is private to `past.rt` and `ahead.rt`: callers see the entries that `append`
//! was told to keep. `specs/States` is what nearly every law of the server speaks of, so its words stay. A further kind
//! of entry has a list of its own in docs/ARCHITECTURE.md.
//!
//! **Stand on it**: `pushserver` (plans and appends each entry), `scripts` and `configurations` (make homes), and all
//! laws above.
#![tactic(auto)]

mod ahead;
pub mod entry;
mod gathering;
mod homes;
mod journal_replay;
pub mod laws;
mod link_lists;
mod matching;
mod naming;
mod past;
mod plan;
mod planning;
mod points;
mod steps;
mod totals;
mod updating;
mod zone_lists;

ghost use Rattle.std.specs.Prelude.{◌≡◌, [], ◌∷◌, true, false, codes, Some, None, Err, option_map};
ghost use Rattle.std.specs.Result.{result_ok};
ghost use Rattle.push_base.specs.Hexadecimal.{hex};
ghost use Rattle.push_base.specs.Limits.{max_home_octets, max_octets_at_name};
ghost use Rattle.dnsname.specs.Names.{octets};
ghost use Rattle.dnsname.specs.Text.{name};
ghost use Rattle.history.specs.Homes.{max_zones, fault_of_last};
ghost use Rattle.history.specs.States.{entry_octets, max_journal_entries, max_journal_octets, verdict, accepts, reconfirm_key};
ghost use Rattle.history.specs.Worked.{start, mapped, zone, link, reverse, heard_host, added_address, sizes_after};

use crate::entry::HomeFault;
pub use homes::Homes;
pub use linkcache::NO_CAP;
pub use plan::{ChangedKeys, Planned};
pub use points::Points;

/// Examples of states and of faults of homes.
pub fn worked_rows()
    ensures nested_zone { fault_of_last (zone (codes "com.") ∷ zone (codes "example.com.") ∷ []) ≡ None }
    ensures same_zone { fault_of_last (zone (codes "com.") ∷ zone (codes "example.com.") ∷ zone (codes "Example.com.") ∷ []) ≡ Some (HomeFault.Clash 1) }
    ensures link_under_link { fault_of_last (link (codes "a.com.") ∷ link (codes "b.a.com.") ∷ []) ≡ Some (HomeFault.Clash 0) }
    ensures local_link { fault_of_last (link (codes "x.local.") ∷ []) ≡ Some HomeFault.Local }
    ensures accepted { option_map (λ update. entry.Update update) (result_ok (verdict start (hex (codes "000128000001000000010000076578616d706c6503636f6d00000600010161c00c000100010000003c0004c0000201")))) ≡ Some added_address }
    ensures other_zone { verdict start (hex (codes "000128000001000000000000056f746865720000060001")) ≡ Err 9 }
    ensures no_update { verdict start (hex (codes "000100000001000000000000056f746865720000060001")) ≡ Err 1 }
    ensures shown_by_link { reconfirm_key start (record { owner = name (codes "h.lan.example.com."); class = 1; kind = 1; ttl = 0; rdata = hex (codes "c0000201") })
        ≡ Some (0, record { owner = name (codes "h.local."); class = 1; kind = 1; rdata = hex (codes "c0000201") }) }
    ensures shown_by_zone { reconfirm_key start (record { owner = name (codes "h.example.com."); class = 1; kind = 1; ttl = 0; rdata = hex (codes "c0000201") }) ≡ None }
    ensures shown_under_reverse { reconfirm_key mapped (record { owner = name (codes "1.2.0.192.in-addr.arpa."); class = 1; kind = 12; ttl = 0; rdata = octets (name (codes "h.lan.example.com.")) })
        ≡ Some (0, record { owner = name (codes "1.2.0.192.in-addr.arpa."); class = 1; kind = 12; rdata = octets (name (codes "h.local.")) }) }
    ensures shown_nowhere { reconfirm_key mapped (record { owner = name (codes "1.3.0.192.in-addr.arpa."); class = 1; kind = 12; ttl = 0; rdata = octets (name (codes "h.lan.example.com.")) }) ≡ None }
    ensures sizes { sizes_after (added_address ∷ heard_host 1 ∷ []) ≡ 2 ∷ 3 ∷ 4 ∷ [] }
    ensures heard { accepts start (heard_host 1) ≡ true }
    ensures not_later { accepts start (entry.Moment 0) ≡ false }
{}

/// Examples of faults of reverse domains: one lies under a zone, but nothing under it, and it lies under no link.
pub fn worked_reverses()
    ensures under_zone { fault_of_last (zone (codes "192.in-addr.arpa.") ∷ reverse (codes "2.0.192.in-addr.arpa.") ∷ []) ≡ None }
    ensures over_zone { fault_of_last (reverse (codes "192.in-addr.arpa.") ∷ zone (codes "2.0.192.in-addr.arpa.") ∷ []) ≡ Some (HomeFault.Clash 0) }
    ensures zone_below { fault_of_last (zone (codes "2.0.192.in-addr.arpa.") ∷ reverse (codes "192.in-addr.arpa.") ∷ []) ≡ Some (HomeFault.Clash 0) }
    ensures same_as_zone { fault_of_last (zone (codes "com.") ∷ zone (codes "ip6.arpa.") ∷ reverse (codes "IP6.arpa.") ∷ []) ≡ Some (HomeFault.Clash 1) }
    ensures under_link { fault_of_last (link (codes "lan.ip6.arpa.") ∷ reverse (codes "8.lan.ip6.arpa.") ∷ []) ≡ Some (HomeFault.Clash 0) }
    ensures over_link { fault_of_last (link (codes "8.lan.ip6.arpa.") ∷ reverse (codes "lan.ip6.arpa.") ∷ []) ≡ Some (HomeFault.Clash 0) }
    ensures under_reverse { fault_of_last (reverse (codes "192.in-addr.arpa.") ∷ reverse (codes "2.0.192.in-addr.arpa.") ∷ []) ≡ Some (HomeFault.Clash 0) }
    ensures other_form { fault_of_last (link (codes "lan.example.com.") ∷ reverse (codes "example.org.") ∷ []) ≡ Some HomeFault.Form }
{}

/// The limits of zones (and of links, and of reverse domains), of the journal and of homes; where no unit is named, in octets.
pub fn limit_rows()
    ensures zones { max_zones ≡ 16 }
    ensures entries { max_journal_entries ≡ 65536 }
    ensures journal { max_journal_octets ≡ 67108864 }
    ensures entry { entry_octets ≡ 32 }
    ensures home { max_home_octets ≡ 200 }
    ensures at_name { max_octets_at_name ≡ 60000 }
{}

ghost use Rattle.history.specs.declared.entry.Entry.TheVariants as entry;
