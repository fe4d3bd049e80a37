//! Translation between a link and its domain (RFC 8766, 5.5).
//!
//! **Model.** Nothing is kept here: all calls are functions of names and records. `specs/Translation` says what they
//! give. `shown_as` puts the link's domain in place of `local.`, in the owner and in the names inside rdata. `heard_as`
//! goes the other way. `is_usable` says which records of a link are used. An address of its link alone is used, but
//! never shown (RFC 8766, 5.5.2).
//!
//! **Flow.** `translation.rt` has the calls. `usable` tests class, kind and owner, and that each name fits under the
//! domain. The names inside rdata are tested in `inside.rt`, octet by octet, by the rule in `names.rt`. None of these
//! tests takes memory. `show` writes a usable record anew with other names, its TTL being at most the cap. `back` gives
//! the record of the link for a record of the domain, where there is one. `fits_under`, `fits_back`, `rdata_under` and
//! `rdata_back` are for callers whose owners stay as they are.
//!
//! **Begin** with `specs/Translation`, then `specs/Laws`, then `translation.rt`. The examples below show addresses,
//! pointers and names that no longer fit.
//!
//! **Change.** How names inside rdata are tested is private: `specs/Names` is there for these proofs alone. A change of
//! `is_usable`, `shown_as` or `heard_as` must leave all laws true. `EachIsShownByItself` keeps two records of a link
//! from being shown with one key. `HeardIsShown` and `ShownIsHeard` let a caller go from a shown record to the heard
//! one.
//!
//! **Stand on it**: `reversemap` (the names inside rdata, under reverse domains), `linkcache` (what a link uses and
//! shows), `history` (which domains a link may have), `linkask` (its specs put questions into a link's words), and the
//! crates above these.
#![tactic(auto)]

mod inside;
pub mod laws;
mod names;
mod translation;

ghost use Rattle.std.specs.Prelude.{◌≡◌, ◌++◌, ◌∷◌, [], true, false, codes, Some, None, is_some, option_map, option_and_then};
ghost use Rattle.std.specs.List.{list_all, list_any, repeat};
ghost use Rattle.push_base.specs.Hexadecimal.{hex};
ghost use Rattle.dnsname.specs.Names.{octets};
ghost use Rattle.dnsname.specs.Text.{name};
ghost use Rattle.rrset.specs.Records.{key_of};
ghost use Rattle.rrset.specs.declared.record.Rr.{Rr};
ghost use Rattle.linkmap.specs.Translation.{is_usable, shown_as, lessened, heard_as, local, renamed};
ghost use Rattle.linkmap.specs.Worked.{lan, at_link, at_domain, long_name};

pub use translation::{
    back, ends_in_local, fits_back, fits_under, rdata_back, rdata_under, show, translated, usable,
};

/// Examples of what is shown under a domain.
pub fn worked_rows()
    ensures renamed_owner { renamed (name (codes "local.")) (name (codes "lan.example.com.")) (name (codes "h.LOCAL.")) ≡ name (codes "h.lan.example.com.") }
    ensures shown { shown_as (name (codes "lan.example.com.")) (record { owner = name (codes "h.local."); class = 1; kind = 12; ttl = 120; rdata = hex (codes "0161056c6f63616c00") })
        ≡ Some (record { owner = name (codes "h.lan.example.com."); class = 1; kind = 12; ttl = 120; rdata = hex (codes "0161036c616e076578616d706c6503636f6d00") }) }
    ensures not_shown { shown_as (name (codes "lan.example.com.")) (record { owner = name (codes "h.local."); class = 1; kind = 1; ttl = 120; rdata = hex (codes "a9fe0102") }) ≡ None }
    ensures back { heard_as (name (codes "lan.example.com.")) (record { owner = name (codes "h.Lan.example.com."); class = 1; kind = 1; ttl = 0; rdata = hex (codes "c0000201") })
        ≡ Some (record { owner = name (codes "h.local."); class = 1; kind = 1; ttl = 0; rdata = hex (codes "c0000201") }) }
    ensures heard_is_shown { let lan = name (codes "lan.example.com.") in let rr : Rr = record { owner = name (codes "h.Lan.example.com."); class = 1; kind = 12; ttl = 0; rdata = hex (codes "0161034c414e076578616d706c6503636f6d00") } in
        option_map key_of (option_and_then (shown_as lan) (heard_as lan rr)) ≡ Some (key_of rr) }
    ensures not_usable { is_usable (name (codes "lan.example.com.")) (record { owner = name (codes "h.local."); class = 1; kind = 12; ttl = 120; rdata = hex (codes "0161036c616e076578616d706c6503636f6d00") }) ≡ false }
{}

/// Examples of the TTL with which a record of TTL 120 is shown under a cap.
pub fn capped_rows()
    ensures lesser { option_map (λ rr. rr.ttl) (shown_as lan (lessened 10 (at_link 16 []))) ≡ Some 10 }
    ensures greater { option_map (λ rr. rr.ttl) (shown_as lan (lessened 4294967295 (at_link 16 []))) ≡ Some 120 }
{}

/// Examples of which records of a link are used.
pub fn used_rows()
    ensures pointer { is_usable lan (at_link 12 (hex (codes "0161056c6f63616c00"))) ≡ true }
    ensures hidden_address { is_usable lan (at_link 1 (hex (codes "a9fe0102"))) ≡ true }
    ensures other_class { is_usable lan (record (at_link 1 (hex (codes "c0000201"))) { class = 3 }) ≡ false }
    ensures kinds { list_all (λ kind. is_usable lan (at_link kind [])) (16 ∷ 46 ∷ 48 ∷ []) ≡ true }
    ensures other_kinds { list_any (λ kind. is_usable lan (at_link kind [])) (0 ∷ 41 ∷ 47 ∷ 249 ∷ 255 ∷ []) ≡ false }
    ensures other_owner { is_usable lan (record (at_link 16 []) { owner = name (codes "h.com.") }) ≡ false }
    ensures longest_owner { is_usable lan (record (at_link 16 []) { owner = long_name 45 local }) ≡ true }
    ensures longer_owner { is_usable lan (record (at_link 16 []) { owner = long_name 46 local }) ≡ false }
{}

/// Examples of addresses at the borders of those that aren't shown.
pub fn address_rows()
    ensures first { shown_as lan (at_link 28 (hex (codes "fe800000000000000000000000000001"))) ≡ None }
    ensures last { shown_as lan (at_link 28 (hex (codes "febf0000000000000000000000000001"))) ≡ None }
    ensures before { is_some (shown_as lan (at_link 28 (hex (codes "fe7f0000000000000000000000000001")))) ≡ true }
    ensures behind { is_some (shown_as lan (at_link 28 (hex (codes "fec00000000000000000000000000001")))) ≡ true }
    ensures behind_v4 { is_some (shown_as lan (at_link 1 (hex (codes "a9ff0102")))) ≡ true }
{}

/// Examples of records of a domain as which nothing is heard.
pub fn unheard_rows()
    ensures name_of_a_link { heard_as lan (at_domain 12 (octets (name (codes "x.local.")))) ≡ None }
    ensures second_name_of_a_link { heard_as lan (at_domain 6 (octets (name (codes "ns.com.")) ++ octets (name (codes "h.local.")) ++ repeat 20 (0 ∷ []))) ≡ None }
    ensures hidden_address { heard_as lan (at_domain 1 (hex (codes "a9fe0102"))) ≡ None }
    ensures longest_owner { is_some (heard_as (name (codes "a.")) (record (at_domain 16 []) { owner = long_name 55 (name (codes "a.")) })) ≡ true }
    ensures longer_owner { heard_as (name (codes "a.")) (record (at_domain 16 []) { owner = long_name 56 (name (codes "a.")) }) ≡ None }
{}

/// Examples of records that are shown and heard back, and of those that aren't: under a domain that ends in `local.`, and
/// with an owner of 256 octets, which is no name.
pub fn heard_back_rows()
    ensures pointer { let rr = at_link 12 (octets (name (codes "H.LOCAL."))) in option_map key_of (option_and_then (heard_as lan) (shown_as lan rr)) ≡ Some (key_of rr) }
    ensures domain_of_a_link { option_and_then (heard_as (name (codes "x.local."))) (shown_as (name (codes "x.local.")) (at_link 12 (octets (name (codes "h.local."))))) ≡ None }
    ensures usable_there { is_usable (name (codes "x.local.")) (at_link 12 (octets (name (codes "h.local.")))) ≡ true }
    ensures longest_owner { let rr = record (at_link 16 []) { owner = long_name 55 local } in option_map key_of (option_and_then (heard_as (name (codes "a."))) (shown_as (name (codes "a.")) rr)) ≡ Some (key_of rr) }
    ensures longer_owner { option_and_then (heard_as (name (codes "a."))) (shown_as (name (codes "a.")) (record (at_link 16 []) { owner = long_name 56 local })) ≡ None }
    ensures usable_with_it { is_usable (name (codes "a.")) (record (at_link 16 []) { owner = long_name 56 local }) ≡ true }
{}
