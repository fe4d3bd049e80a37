//! All records by names, and the names that their owners end in properly (RFC 2308, 2; RFC 8020, 2).
//!
//! **Model.** A `RecordIndex` is an `Index` of all records, and beside it the names that owners end in (`Suffixes`). At
//! each such name a number is kept: how many names with one label more are counted there. Those count that are owners,
//! once for each row, and those that have a number themselves (`Agrees` in `specs/Endings`). So a name above zero has
//! owners below it, though it may own no record.
//!
//! **Flow.** `RecordIndex::from_table` takes a table of rows, and counts their owners (`counting.rt`). `reserve_for`
//! makes room for a list of changes: in the index for their keys, in `suffixes.rt` for their owners. `make_changes`
//! (`changing.rt`) then shows or takes out each key, and counts its owner once more or once less. `walking.rt` goes
//! from a name towards the root, and stops where another owner ends already. `ending.rt` changes the number of one
//! name. `below` answers by two look-ups at most, however many names there are.
//!
//! **Begin** with `worked_counts` below, then `specs/Endings` and `specs/Owners`, then `record_index.rt`.
//!
//! **Change.** How endings are counted is private: outside this crate a single proof of `pushserver` cites these specs.
//! `below` must go on to say what its contract says, since `pushserver` answers queries by it. `make_changes` takes no
//! memory where `reserve_for` made room, and that must stay. Both calls count one step for each change.
//!
//! **Stand on it**: `pushserver`, the only one by name (makes the changes of each entry, and answers queries from it).
//! Through it sessions read the same `Index`.
#![tactic(auto)]

mod changing;
mod counting;
mod ending;
mod record_index;
mod suffixes;
mod walking;

ghost use Rattle.std.specs.Prelude.{◌≡◌, true, false, [], ◌∷◌, codes};
ghost use Rattle.std.specs.List.{list_any};
ghost use Rattle.dnsname.specs.Names.{ends_in, octets};
ghost use Rattle.dnsname.specs.Text.{name};
ghost use Rattle.recordindex.specs.Endings.{Agrees, ends_of, names_above};

pub use record_index::RecordIndex;
pub use rrset::NoMemory;

/// Examples of the names that a name ends in, and of whether owners end in one properly.
pub fn worked_owners()
    ensures ends { ends_of (name (codes "a.example.")) ≡ name (codes "a.example.") ∷ name (codes "example.") ∷ [] ∷ [] }
    ensures above { names_above (name (codes "a.example.") ∷ [] ∷ name (codes "com.") ∷ []) ≡ name (codes "example.") ∷ [] ∷ [] }
    ensures itself { list_any (λ owner. ends_in owner (name (codes "a.example."))) (names_above (name (codes "a.example.") ∷ name (codes "b.example.") ∷ [])) ≡ false }
    ensures part_of_a_label { list_any (λ owner. ends_in owner (name (codes "ample."))) (names_above (name (codes "a.example.") ∷ [])) ≡ false }
    ensures root { list_any (λ owner. ends_in owner []) (names_above (name (codes "com.") ∷ [])) ≡ true }
    ensures other_case { list_any (λ owner. ends_in owner (name (codes "A.Example."))) (names_above (name (codes "b.a.example.") ∷ [])) ≡ true }
    ensures longer { list_any (λ owner. ends_in owner (name (codes "b.a.example."))) (names_above (name (codes "a.example.") ∷ [])) ≡ false }
{}

/// An example of what is counted for three owners: at `example.` the owner below it, and `a.example.`, in which another
/// owner ends; at the root `com.`, and `example.`.
pub fn worked_counts(root: &Vec<u8>, example: &Vec<u8>, below: &Vec<u8>)
    requires root { root.now.items ≡ octets [] }
    requires example { example.now.items ≡ octets (name (codes "example.")) }
    requires below { below.now.items ≡ octets (name (codes "a.example.")) }
    ensures { Agrees (names_above (name (codes "a.example.") ∷ name (codes "b.a.example.") ∷ name (codes "com.") ∷ [])) ((root.now, 2) ∷ (example.now, 2) ∷ (below.now, 1) ∷ []) }
{}
