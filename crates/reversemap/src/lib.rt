//! Records of a link under its reverse domains (RFC 8766, 5.4).
//!
//! **Model.** Nothing is kept here: all calls are functions of names, lists of domains, and records. Under a reverse
//! domain an owner stays as the link said it. Only names inside rdata that end in `local.` get the link's domain
//! (`specs/Reverse`). `specs/BothKinds` joins this with `linkmap`: `is_used`, `shown_of` and `heard_of` speak of all
//! records of a link. The owner tells of which kind a record is.
//!
//! **Flow.** `reverse.rt` has all calls, and the names inside rdata are the work of `linkmap`. `reverse_usable` tests
//! class, kind and owner, and that all names fit under the domain. `reverse_show` writes a usable record with its names
//! translated, the TTL being at most the cap. `reverse_back` gives the record of the link for a shown one, where there
//! is one. `is_reverse_domain` says which names can be reverse domains (RFC 1035, 3.5; RFC 3596, 2.5).
//!
//! **Begin** with `specs/Reverse` beside RFC 8766, 5.4, then `specs/BothKinds`, then `reverse.rt`.
//!
//! **Change.** The private functions of `reverse.rt` may be written otherwise, as long as they keep their contracts.
//! `is_used`, `shown_of` and `heard_of` are the words in which `linkcache` speaks of rows, so they stay.
//! `OwnersStayApart` and `EachIsShownByItself` need domains that stand apart (`AreApart`), which a link's cache
//! promises.
//!
//! **Stand on it**: `linkcache` (rows under reverse domains, and what is shown of both kinds), `history` (which names
//! may be reverse domains), and the crates above these.
#![tactic(auto)]

pub mod laws;
mod reverse;

ghost use Rattle.std.specs.Prelude.{◌≡◌, ◌∷◌, [], true, false, codes, Some, None};
ghost use Rattle.push_base.specs.Hexadecimal.{hex};
ghost use Rattle.dnsname.specs.Names.{octets};
ghost use Rattle.dnsname.specs.Text.{name};
ghost use Rattle.reversemap.specs.Reverse.{is_reverse_domain, is_reverse_usable, reverse_shown_as, reverse_heard_as};
ghost use Rattle.reversemap.specs.BothKinds.{is_used, shown_of};
ghost use Rattle.reversemap.specs.Worked.{lan, reverses, no_cap, at_address, pointing_to};

pub use reverse::{is_reverse_domain, is_under, reverse_back, reverse_show, reverse_usable};

/// Examples of what is shown under a reverse domain, and heard back.
pub fn worked_rows()
    ensures form { is_reverse_domain (name (codes "2.0.192.IN-ADDR.arpa.")) ≡ true }
    ensures other_form { is_reverse_domain (name (codes "example.org.")) ≡ false }
    ensures usable { is_reverse_usable lan reverses (pointing_to (codes "h.local.")) ≡ true }
    ensures names_the_domain { is_used lan reverses (pointing_to (codes "h.lan.example.com.")) ≡ false }
    ensures elsewhere { is_used lan reverses (record (pointing_to (codes "h.local.")) { owner = name (codes "1.3.0.192.in-addr.arpa.") }) ≡ false }
    ensures shown { reverse_shown_as lan no_cap (pointing_to (codes "h.local.")) ≡ pointing_to (codes "h.lan.example.com.") }
    ensures capped { shown_of lan 10 (pointing_to (codes "h.local.")) ≡ Some (record (pointing_to (codes "h.lan.example.com.")) { ttl = 10 }) }
    ensures other_name { reverse_shown_as lan no_cap (pointing_to (codes "h.example.net.")) ≡ pointing_to (codes "h.example.net.") }
    ensures back { reverse_heard_as lan (record (pointing_to (codes "h.LAN.example.com.")) { ttl = 0 }) ≡ Some (record (pointing_to (codes "h.local.")) { ttl = 0 }) }
    ensures not_back { reverse_heard_as lan (pointing_to (codes "h.local.")) ≡ None }
    ensures address { shown_of lan no_cap (at_address 1 (hex (codes "a9fe0102"))) ≡ Some (at_address 1 (hex (codes "a9fe0102"))) }
{}
