//! An authoritative zone in memory, and DNS UPDATE on it (RFC 2136, 3): prerequisites, prescan, changes, the SOA's
//! serial, and the limits of a zone.
//!
//! **Model.** A `Zone` is its apex, whether it takes updates, and its records as one list in key order (`ZoneKept`).
//! Whatever the code does, `Zone::check` answers what `judged` in `specs/Updates` says: the RCODE that refuses an
//! update, or all rows after it. A plan is the list of keys that will be shown otherwise, each with what was there
//! before and what is there after.
//!
//! **Flow.** `zone.rt` has the calls. `check` goes through `update_check.rt`: `prerequisites.rt` and `agreeing.rt` test
//! the prerequisites (3.2), `prescan.rt` the changes (3.4.1). Then `planning.rt` copies the rows of the touched names
//! into a small table, `changing.rt` makes all changes there (3.4.2), `serial.rt` raises the serial, and `differing.rt`
//! compares before and after. An update of one name below the apex takes the shorter way of `single.rt`. `apply` puts
//! such a plan into the rows (`applying.rt`), for which `check` has made room: it takes no memory.
//!
//! **Begin** with `specs/Updates` beside RFC 2136, 3.2 to 3.4: `refused_first` has the tests in their order,
//! `changed_by` what one record changes. Then read `update_check.rt`.
//!
//! **Change.** How an update is planned is private: `specs/Touched`, `specs/Singles`, `specs/Changing` and
//! `specs/Differing` are there for these proofs alone. `judged`, the order of its tests, and the limits that it names
//! are cited by `history` and by the laws of `relay`. That `apply` needs no memory, once `check` has made room, is what
//! `history` rests on.
//!
//! **Stand on it**: `history` (zones among the homes), `relay` (updates that zones accept), `scripts` (lines that make
//! zones).
#![tactic(auto)]

mod agreeing;
mod applying;
mod changing;
mod differing;
mod initial_records;
mod plan;
mod planning;
mod prerequisites;
mod prescan;
mod refusing;
mod serial;
mod sets;
mod single;
mod sought;
mod update_check;
mod zone;

ghost use Rattle.std.specs.Prelude.{◌≡◌, [], ◌∷◌, ℕ, List, true, false, codes, map, Some, None, Ok, Err, option_map, option_and_then};
ghost use Rattle.push_base.specs.Hexadecimal.{hex};
ghost use Rattle.dnsname.specs.Text.{name};
ghost use Rattle.rrset.specs.RecordSet.{RecordSet};
ghost use Rattle.zoneupdate.specs.Zones.{new_zone, serial_of_zone, serial_is_greater, is_zone};
ghost use Rattle.zoneupdate.specs.Worked.{judged_rr, kinds_after, prerequisite_row, change_row, at_a, changes_row, is_zone_after, added_twice};
ghost use Rattle.zoneupdate.specs.Updates.{max_zone_records};

pub use applying::make_changes;
pub use plan::{Under, Verdict, ZoneFault, ZonePlan};
pub use zone::Zone;

/// Examples of zones and their updates.
pub fn worked_rows()
    ensures zone { is_zone (new_zone (name (codes "example.com.")) 1 true) ≡ true }
    ensures zone_with_address { is_zone_after 4294967295 (codes "a.example.com.") 60 1 1 (hex (codes "c0000201")) ≡ Ok true }
    ensures zone_without_sets { is_zone_after 1 (codes "Example.com.") 0 255 255 [] ≡ Ok true }
    ensures zone_with_newer_soa { is_zone_after 1 (codes "EXAMPLE.com.") 60 1 6 (hex (codes "00000000000200000e1000000258000151800000003c")) ≡ Ok true }
    ensures starts { serial_of_zone (new_zone (name (codes "example.com.")) 1 true) ≡ Some 1 }
    ensures greater { serial_is_greater 0 4294967295 ≡ true }
    ensures not_greater { serial_is_greater 2147483648 0 ≡ false }
    ensures no_domain { prerequisite_row (codes "a.example.com.") 0 255 255 [] ≡ Some 3 }
    ensures no_set { prerequisite_row (codes "example.com.") 0 255 1 [] ≡ Some 8 }
    ensures domain { prerequisite_row (codes "example.com.") 0 254 255 [] ≡ Some 6 }
    ensures set { prerequisite_row (codes "example.com.") 0 254 2 [] ≡ Some 7 }
    ensures other_value { prerequisite_row (codes "example.com.") 0 1 2 (hex (codes "026e73056f7468657200")) ≡ Some 8 }
    ensures same_value { prerequisite_row (codes "Example.com.") 0 1 2 (hex (codes "026e73076578414d706c6503636f6d00")) ≡ None }
    ensures not_zone { prerequisite_row (codes "other.") 0 255 255 [] ≡ Some 10 }
    ensures ttl { prerequisite_row (codes "example.com.") 1 255 255 [] ≡ Some 1 }
    ensures class { prerequisite_row (codes "example.com.") 0 3 1 [] ≡ Some 1 }
    ensures last_server { change_row 1 (codes "example.com.") 0 254 2 (hex (codes "026e73076578616d706c6503636f6d00")) ≡ Ok (1, 2 ∷ 6 ∷ []) }
    ensures alias_at_apex { change_row 1 (codes "example.com.") 60 1 5 (hex (codes "0161076578616d706c6503636f6d00")) ≡ Ok (1, 2 ∷ 6 ∷ []) }
    ensures address { change_row 1 (codes "a.example.com.") 60 1 1 (hex (codes "c0000201")) ≡ Ok (2, 1 ∷ 2 ∷ 6 ∷ []) }
    ensures wraps { change_row 4294967295 (codes "a.example.com.") 60 1 1 (hex (codes "c0000201")) ≡ Ok (0, 1 ∷ 2 ∷ 6 ∷ []) }
    ensures meta { change_row 1 (codes "a.example.com.") 60 1 255 [] ≡ Err 1 }
    ensures all_sets { change_row 1 (codes "example.com.") 0 255 255 [] ≡ Ok (1, 2 ∷ 6 ∷ []) }
    ensures other_alias { changes_row (at_a 60 1 5 (hex (codes "016200")) ∷ at_a 60 1 5 (hex (codes "016300")) ∷ []) ≡ Ok (2, 5 ∷ 2 ∷ 6 ∷ []) }
    ensures beside_alias { changes_row (at_a 60 1 5 (hex (codes "016200")) ∷ at_a 60 1 1 (hex (codes "c0000201")) ∷ []) ≡ Ok (2, 5 ∷ 2 ∷ 6 ∷ []) }
    ensures newer_soa { change_row 1 (codes "example.com.") 60 1 6 (hex (codes "00000000000500000e1000000258000151800000003c")) ≡ Ok (5, 2 ∷ 6 ∷ []) }
    ensures older_soa { change_row 6 (codes "example.com.") 60 1 6 (hex (codes "00000000000500000e1000000258000151800000003c")) ≡ Ok (6, 2 ∷ 6 ∷ []) }
    ensures all_of_name { changes_row (at_a 60 1 1 (hex (codes "c0000201")) ∷ at_a 60 1 16 (hex (codes "0161")) ∷ at_a 0 255 255 [] ∷ []) ≡ Ok (1, 2 ∷ 6 ∷ []) }
    ensures servers_of_apex { change_row 1 (codes "example.com.") 0 255 2 [] ≡ Ok (1, 2 ∷ 6 ∷ []) }
    ensures set_of_name { changes_row (at_a 60 1 1 (hex (codes "c0000201")) ∷ at_a 60 1 16 (hex (codes "0161")) ∷ at_a 0 255 1 [] ∷ []) ≡ Ok (2, 16 ∷ 2 ∷ 6 ∷ []) }
    ensures soa_by_record { change_row 1 (codes "example.com.") 0 254 6 (hex (codes "00000000000100000e1000000258000151800000003c")) ≡ Ok (1, 2 ∷ 6 ∷ []) }
    ensures one_of_set { changes_row (at_a 60 1 1 (hex (codes "c0000201")) ∷ at_a 60 1 1 (hex (codes "c0000202")) ∷ at_a 0 254 1 (hex (codes "c0000201")) ∷ []) ≡ Ok (2, 1 ∷ 2 ∷ 6 ∷ []) }
    ensures other_class { change_row 1 (codes "a.example.com.") 0 3 1 (hex (codes "c0000201")) ≡ Err 1 }
    ensures later_ttl { added_twice ≡ Ok (3, 120 ∷ []) }
{}

/// The limit of a zone: its records.
pub fn limit_rows()
    ensures zone_records { max_zone_records ≡ 65536 }
{}
