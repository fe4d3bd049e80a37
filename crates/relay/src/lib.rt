//! From a record set to a DNS UPDATE: the message that gives a zone exactly this set at a name, in place of what it had
//! there (RFC 2136, 2.5.3 and 2.5.1).
//!
//! **Model.** A set is a `Table`, the list of its records in key order. `relayed` in `specs/Relay` says what becomes of
//! it for a zone: a message, or the reason why there is none (the name is the apex, or isn't in the zone, or a record
//! can't be carried). `carrying` is the update that the message spells. `specs/Laws` promises that a zone accepts it,
//! unless that would be too many records, and then has the set at the name.
//!
//! **Flow.** One file, `relay.rt`. `relay_update` tests the name and the kinds of the records first, and then writes
//! header, zone section, one deletion of all records at the name, and one addition for each record. `fits_message` says
//! beforehand whether a set is small enough for one message.
//!
//! **Begin** with `specs/Relay`, then `relay.rt`; the worked rows below show messages.
//!
//! **Change.** The writing is private. The order of the two sections, and that the deletion comes first, are part of
//! `carrying`, which the laws of two hubs cite. Nothing here knows of clients, hubs or sockets; keep it so, since a
//! replicator needs just that.
//!
//! **Stand on it**: `replay`, whose line `carry` feeds a second hub by it, and the laws of `two_hubs`. `serve` doesn't
//! use it: the server feeds no other one.
#![tactic(auto)]

pub mod laws;
mod relay;

ghost use Rattle.std.specs.Prelude.{◌≡◌, ◌∷◌, ◌++◌, [], true, false, codes, Some, None, Ok, Err, length, map};
ghost use Rattle.push_base.specs.Hexadecimal.{hex};
ghost use Rattle.dnsname.specs.Names.{octets};
ghost use Rattle.dnsname.specs.Text.{name};
ghost use Rattle.rrset.specs.RecordSet.{set_of, without, union};
ghost use Rattle.rrset.specs.Rcodes.{refused};
ghost use Rattle.dnswire.specs.Reading.{update_of};
ghost use Rattle.dnswire.specs.Writing.{update_octets};
ghost use Rattle.zoneupdate.specs.Updates.{judged};
ghost use Rattle.relay.specs.declared.relay.Relayed.TheVariants.{Apex, Outside, Unfit, Message};
ghost use Rattle.relay.specs.Relay.{unfit_kind, carrying, relayed, carried};
ghost use Rattle.relay.specs.Laws.{but_soa};
ghost use Rattle.relay.specs.Worked.{zone_name, host, zone, record_of, addresses};

pub use relay::{Relayed, fits_message, relay_update};

/// Examples of what becomes of a set.
pub fn worked_rows()
    ensures one { relayed zone_name host (addresses (1 ∷ [])) 0 ≡ Message (hex (codes "000028000001000000020000076578616d706c6503636f6d00000600010161076578616d706c6503636f6d0000ff00ff0000000000000161076578616d706c6503636f6d00000100010000003c0004c0000201")) }
    ensures none { relayed zone_name host [] 0 ≡ Message (hex (codes "000028000001000000010000076578616d706c6503636f6d00000600010161076578616d706c6503636f6d0000ff00ff000000000000")) }
    ensures apex { relayed zone_name (name (codes "EXAMPLE.com.")) (addresses (1 ∷ [])) 0 ≡ Apex }
    ensures outside { relayed zone_name (name (codes "a.example.org.")) (addresses (1 ∷ [])) 0 ≡ Outside }
    ensures alias_alone { unfit_kind (set_of (record_of 5 (octets zone_name) ∷ [])) ≡ None }
    ensures alias_beside { unfit_kind (set_of (record_of 5 (octets zone_name) ∷ record_of 1 (192 ∷ 0 ∷ 2 ∷ 1 ∷ []) ∷ [])) ≡ Some 5 }
    ensures two_aliases { unfit_kind (set_of (record_of 5 (octets zone_name) ∷ record_of 5 (octets host) ∷ [])) ≡ Some 5 }
    ensures meta { unfit_kind (set_of (record_of 16 [] ∷ record_of 250 [] ∷ [])) ≡ Some 250 }
{}

/// Examples of what a zone has behind it.
pub fn carried_rows()
    ensures read { update_of (update_octets (carrying zone_name host (addresses (1 ∷ 2 ∷ [])) 7)) ≡ Ok (carrying zone_name host (addresses (1 ∷ 2 ∷ [])) 7) }
    ensures accepted { (elim (judged (zone_name ∷ []) zone (carrying zone_name host (addresses (1 ∷ [])) 0)) [ Err code ↦ [] | Ok rows ↦ but_soa zone_name rows ]) ≡ but_soa zone_name (carried zone.rows host (addresses (1 ∷ []))) }
    ensures replaced { (elim (judged (zone_name ∷ []) (record zone { rows = union zone.rows (addresses (1 ∷ 3 ∷ [])) }) (carrying zone_name host (addresses (2 ∷ 3 ∷ [])) 0)) [ Err code ↦ [] | Ok rows ↦ but_soa zone_name rows ]) ≡ but_soa zone_name (union zone.rows (addresses (2 ∷ 3 ∷ []))) }
    ensures alias { (elim (judged (zone_name ∷ []) (record zone { rows = union zone.rows (addresses (1 ∷ [])) }) (carrying zone_name host (set_of (record_of 5 (octets zone_name) ∷ [])) 0)) [ Err code ↦ [] | Ok rows ↦ but_soa zone_name rows ]) ≡ but_soa zone_name (union zone.rows (set_of (record_of 5 (octets zone_name) ∷ []))) }
{}
