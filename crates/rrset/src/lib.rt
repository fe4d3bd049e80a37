//! Resource records (RFC 1035, 3.2), their keys, questions and sets.
//!
//! **Model.** A record that is kept has two halves: a `Key`, and what is shown of it (`Shown`). The key says which
//! record it is: owner, class, TYPE and rdata, with all names in lower case. `Shown` has the owner and the rdata as
//! they were last written, and the TTL. A `Table` is a finite map from keys to values, in key order
//! (`specs/KeyedRows`). A record set (`specs/RecordSet`) holds records of any names, so it is no RRset of RFC 2181.
//!
//! **Flow.** `rdata_reader.rt` reads rdata from a message by the shape of its kind (`shape.rt`). `Rr::key`
//! (`renaming.rt`) and `Rr::shown` (`shown.rt`) give the two halves of a record. `table.rt` keeps rows in the order of
//! `order.rt`. `matching.rt` tells which keys a question asks for, and how large a record is. `comparing.rt` tells two
//! tables apart, as a list of `Changed`. `header.rt`, `kinds.rt`, `classes.rt` and `rcodes.rt` have the numbers of the
//! protocol.
//!
//! **Begin** with `record.rt` and `specs/Records`, then `specs/RecordSet`. `specs/Rdata` has the shapes, beside RFC
//! 1035, 3.3.
//!
//! **Change.** How tables search and make room is private, and `specs/ReadParts` serves the proofs here alone.
//! `key_of`, `matches` and the words of `specs/RecordSet` stay, since laws all the way up speak of them. The key order
//! puts the owner first, so that all rows of a name stand together. That `put` takes no memory, once there is room, is
//! what plans above rest on. A further kind with a shape needs its number in `kinds.rt`, and its parts in `shape.rt`
//! and `specs/Rdata`.
//!
//! **Stand on it**: `nametable` (a `Table` for each name), `dnswire` (reads and writes records), `dsotlv` (questions,
//! records and headers), `linkmap` (changes names inside rdata), `subscr` (keys and questions), `mirror` (a `Table` of
//! what was told), and nearly all above.
#![tactic(auto)]

pub mod classes;
mod comparing;
mod copying;
pub mod header;
pub mod kinds;
mod lists;
mod matching;
mod order;
pub mod rcodes;
mod rdata_reader;
pub mod record;
mod renaming;
pub mod shape;
mod shown;
mod table;

ghost use Rattle.std.specs.Prelude.{◌≡◌, [], ◌∷◌, true, false, codes, Some, None, Ok, Err, length};
ghost use Rattle.push_base.specs.Hexadecimal.{hex};
ghost use Rattle.dnsname.specs.Text.{name};
ghost use Rattle.rrset.specs.Rdata.{shape_fits, lowered_rdata, rdata_at};
ghost use Rattle.rrset.specs.Records.{key_of, shown_of, rr_size, matches, same_key};
ghost use Rattle.rrset.specs.RecordSet.{RecordSet, put, shown_at, at_name, size_at, matching, set_of, changes};

pub use comparing::{changes, put_all, same_key, same_keys, same_rows, same_shown};
pub use copying::Copied;
pub use dnsname::compare_with_lower;
pub use matching::{FIXED_FIELDS, matches, rr_size, same_question};
pub use order::compare_keys;
pub use rdata_reader::{RdataFault, read_rdata};
pub use record::{
    Changed, HeardRr, HeardRrs, Hearing, Key, NoMemory, Question, Questions, Rr, Rrs, Shown,
};
pub use renaming::{NameChange, with_names};
pub use shape::shape_fits;
pub use shown::counted_ttl;
pub use table::Table;

/// Examples of rdata and keys.
pub fn worked_rows()
    ensures address { shape_fits 1 (hex (codes "c0000201")) ≡ true }
    ensures no_address { shape_fits 1 (hex (codes "c00002")) ≡ false }
    ensures no_text { shape_fits 16 [] ≡ true }
    ensures text { shape_fits 16 (hex (codes "0161026162")) ≡ true }
    ensures cut_text { shape_fits 16 (hex (codes "01610261")) ≡ false }
    ensures lowered { lowered_rdata 15 (hex (codes "000a014100")) ≡ hex (codes "000a016100") }
    ensures kept { lowered_rdata 15 (hex (codes "000a0141")) ≡ hex (codes "000a0141") }
    ensures expanded { rdata_at 12 (hex (codes "0361626300c000")) 5 7 ≡ Ok (hex (codes "0361626300")) }
    ensures too_long { rdata_at 1 (hex (codes "0102030405")) 0 5 ≡ Err 4 }
    ensures too_short { rdata_at 1 (hex (codes "010203")) 0 3 ≡ Err 3 }
    ensures one_key { let first = set_of ((record { owner = name (codes "A.com."); class = 1; kind = 1; ttl = 60; rdata = 1 ∷ 2 ∷ 3 ∷ 4 ∷ [] }) ∷ (record { owner = name (codes "a.com."); class = 1; kind = 1; ttl = 61; rdata = 1 ∷ 2 ∷ 3 ∷ 4 ∷ [] }) ∷ []) in length first ≡ 1 }
{}
