//! Messages of the DNS (RFC 1035, 4).
//!
//! **Model.** Octets are read from left to right, and the first fault that is met is given with its place
//! (`WireFault`). `specs/Reading` is a function from octets to what is read, or to that fault. `specs/Spelling` says
//! the same without an order of reading: which octets spell which message. `laws.rt` promises, of updates and hearings,
//! that both agree, and that none has two meanings. What is read is an `Update` (RFC 2136), a `Hearing` (RFC 6762), or
//! the four sections of a query.
//!
//! **Flow.** `read_update` (`update.rt`) and `read_hearing` (`mdns.rt`) both call `read_sections` (`section.rt`). It
//! reads the counted entries one by one (`record.rt`), and their numbers and names (`field.rt`). `Shaped` says whose
//! records they are, and so which rdata must have the shape of its kind. `header.rt` has the places in a header, and
//! `writing.rt` appends headers, questions and records, with no pointers in names. `write_query` writes the datagram
//! that asks a link, with known answers as far as they fit.
//!
//! **Begin** with `specs/Reading` beside RFC 1035, 4.1, then `section.rt`. `laws.rt` has what is promised of it.
//!
//! **Change.** How entries are read is private, as long as the first fault stays the same. `update_of` and `hearing_of`
//! are cited by `history`, `pushserver`, `relay` and crates above, so their words stay. A change of `specs/Reading`
//! asks for one of `specs/Spelling` too, or the laws fail. Additional records of an update are read and dropped. Of a
//! hearing, octets behind the counted entries are ignored.
//!
//! **Stand on it**: `pushserver` (reads updates and datagrams), `dnsquery` (reads queries and writes replies),
//! `linkask` (writes questions to a link), `relay` (writes an update), `history` and `zoneupdate` (take an `Update`),
//! and the laws of the hub.
#![tactic(auto)]

mod field;
mod header;
pub mod laws;
mod mdns;
pub mod message;
mod record;
pub mod section;
mod update;
pub mod writing;

ghost use Rattle.std.specs.Prelude.{◌≡◌, [], ◌∷◌, true, false, codes, Some, None, Ok, Err};
ghost use Rattle.push_base.specs.Hexadecimal.{hex};
ghost use Rattle.dnsname.specs.Text.{name};
ghost use Rattle.dnsname.specs.declared.name.NameFault.TheVariants as names;
ghost use Rattle.dnswire.specs.Reading.{update_of, hearing_of};
ghost use Rattle.rrset.specs.Header.{answer_octets};

pub use header::{header_field, write_answer};
pub use mdns::read_hearing;
pub use message::{HearFault, Update, WireFault};
pub use record::Shaped;
pub use section::read_sections;
pub use update::read_update;
pub use writing::write_query;

/// Examples of messages.
pub fn worked_rows()
    ensures add { update_of (hex (codes "000128000001000000010000076578616d706c6503636f6d00000600010161c00c000100010000003c0004c0000201")) ≡ Ok (record {
      id = 1;
      zones = (record { name = name (codes "example.com."); kind = 6; class = 1 }) ∷ [];
      prereqs = [];
      changes = (record { owner = name (codes "a.example.com."); class = 1; kind = 1; ttl = 60; rdata = 192 ∷ 0 ∷ 2 ∷ 1 ∷ [] }) ∷ [];
    }) }
    ensures cut_off { update_of (hex (codes "000128000001000000010000076578616d706c6503636f6d00000600010161c00c000100010000003c0004c00002")) ≡ Err (WireFault.Short 46) }
    ensures one_more { update_of (hex (codes "000128000001000000010000076578616d706c6503636f6d00000600010161c00c000100010000003c0004c000020100")) ≡ Err (WireFault.Trailing 47) }
    ensures pointer { hearing_of (hex (codes "000084000000000100000000c00c")) ≡ Err (HearFault.Wire (WireFault.Name (names.Pointer 12))) }
    ensures reserved { hearing_of (hex (codes "00008400000000010000000041")) ≡ Err (HearFault.Wire (WireFault.Name (names.LongLabel 12))) }
    ensures cut_ttl { hearing_of (hex (codes "00008400000000010000000000000100010000")) ≡ Err (HearFault.Wire (WireFault.Short 19)) }
    ensures short { hearing_of (hex (codes "00")) ≡ Err HearFault.Short }
    ensures query { hearing_of (hex (codes "000000000000000000000000")) ≡ Err HearFault.Query }
    ensures coded { hearing_of (hex (codes "000084030000000000000000")) ≡ Err HearFault.Coded }
    ensures answer { answer_octets 1 0xa800 ≡ hex (codes "0001a8000000000000000000") }
{}
