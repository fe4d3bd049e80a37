//! The wire format of DNS Stateful Operations (DSO) and DNS Push: frames on a TCP stream, messages with their TLVs, and
//! the data of SUBSCRIBE, PUSH, UNSUBSCRIBE and RECONFIRM (RFC 8490, 5.4; RFC 7766, 8; RFC 8765, 6).
//!
//! **Model.** Contracts see a message as a record of its ID, its RCODE and a list of TLVs, and the data of a PUSH as a
//! list of `Notice`. A `Framer` is the list of octets that it holds. `specs/Spelling` says which octets spell which
//! value. `specs/Messages` and `specs/Notices` say what is read of any octets, or what the first fault is. The laws
//! (`specs/Laws`) tie both together, and say that the pieces in which a stream comes don't matter.
//!
//! **Flow.** Octets that came go into a `Framer` (`framer.rt`), which hands out the first whole message. `header.rt`
//! reads the head of it, by which a session decides, and finds the data of its first TLV. `question.rt`, `reconfirm.rt`
//! and `push.rt` read such data. `write.rt` writes whole messages, `notice.rt` one record of a PUSH.
//!
//! **Begin** with `specs/Messages` beside RFC 8490, 5.4. Then read `header.rt`, and `specs/Notices` beside RFC 8765,
//! 6.3.
//!
//! **Change.** Other crates see the contracts and `specs/` alone, so bodies and private helpers are free. Not free are
//! `DsoHead`, `Notice` and the numbers in `kinds.rt`: the reactions of both ends go by their cases.
//!
//! **Stand on it**: `dsosession` (reactions to heads), `pushsession` and `pushclient` (a `Framer` each), `coalesce`
//! (writes notices), `mirror` (applies them), `scripts` (limits of frames).
#![tactic(auto)]

pub mod data_sizes;
pub mod delays;
pub mod flags;
mod framer;
mod header;
pub mod kinds;
pub mod laws;
pub mod message;
mod notice;
mod number;
mod push;
mod question;
mod read;
mod reconfirm;
pub mod ttls;
mod write;

ghost use Rattle.std.specs.Prelude.{◌≡◌, ◌++◌, [], ◌∷◌, ℕ, List, true, false, codes, Some, None, Ok, Err};
ghost use Rattle.push_base.specs.Hexadecimal.{hex};
ghost use Rattle.dnsname.specs.Text.{name};
ghost use Rattle.dsotlv.specs.Messages.{head_of, dso_of, frame, messages_in, dso_octets};
ghost use Rattle.dsotlv.specs.Notices.{notices_of, question_of, reconfirm_of, notice_octets, applied_all};
ghost use Rattle.rrset.specs.RecordSet.{set_of};
ghost use Rattle.dsotlv.specs.Messages.{max_frame};

pub use framer::{Framer, LENGTH, MAX_FRAME, copy_front};
pub use header::{head, primary_data};
pub use message::{
    DsoFault, DsoHead, DsoMessage, Notice, Notices, PushFault, Tlv, Tlvs, WriteDsoFault,
};
pub use notice::write_notice;
pub use push::read_push;
pub use push_base::NoMemory;
pub use question::read_question;
pub use read::read_dso;
pub use reconfirm::read_reconfirm;
pub use write::write_dso;

/// Examples of what is read and written.
pub fn worked_rows()
    ensures subscribe_head { head_of (hex (codes "0001300000000000000000000040001107")) ≡ Some (record { id = 1; flags = 0x3000; zero_counts = true; tlvs_good = false; primary = None }) }
    ensures keepalive { dso_of (hex (codes "0001b0000000000000000000000100080000000000003a98")) ≡ Ok (record { id = 1; response = true; rcode = 0; tlvs = (record { kind = 1; octets = hex (codes "0000000000003a98") }) ∷ [] }) }
    ensures z_bits { dso_of (hex (codes "000130f50000000000000000")) ≡ Ok (record { id = 1; response = false; rcode = 5; tlvs = [] }) }
    ensures short { dso_of (hex (codes "0001300000000000000000")) ≡ Err DsoFault.Short }
    ensures other_opcode { dso_of (hex (codes "000170000000000000000000")) ≡ Err DsoFault.Opcode }
    ensures count { dso_of (hex (codes "000130000000000000000001")) ≡ Err DsoFault.Counts }
    ensures cut_tlv { dso_of (hex (codes "0001b00000000000000000000001000800")) ≡ Err (DsoFault.Tlv 12) }
    ensures question { question_of (hex (codes "056f74686572000001ffff")) ≡ Some (record { name = name (codes "other."); kind = 1; class = 0xffff }) }
    ensures pointed_question { question_of (hex (codes "c00c00010001")) ≡ None }
    ensures longer_question { question_of (hex (codes "000001000100")) ≡ None }
    ensures removal { notices_of (hex (codes "0178001c0001fffffffe0000")) ≡ Err (PushFault.Data 12) }
    ensures set_removed { notices_of (hex (codes "017800001c0001fffffffe0000")) ≡ Ok (Notice.RemoveSet (name (codes "x.")) 1 28 ∷ []) }
    ensures empty_data { notices_of [] ≡ Err (PushFault.Data 0) }
    ensures any_kind { notices_of (hex (codes "0000ff0001000000000000")) ≡ Err (PushFault.Data 1) }
    ensures frames { messages_in (hex (codes "000201020001030002")) ≡ ((1 ∷ 2 ∷ []) ∷ (3 ∷ []) ∷ [], hex (codes "0002")) }
    ensures added { applied_all (Notice.Add (record { owner = name (codes "x."); class = 1; kind = 1; ttl = 5; rdata = 1 ∷ 2 ∷ 3 ∷ 4 ∷ [] }) ∷ Notice.RemoveSet (name (codes "X.")) 1 1 ∷ []) (record { name = name (codes "x."); kind = 255; class = 1 }) [] ≡ [] }
{}

/// The limit of a frame: its octets, with the two of its length (RFC 8490, 5.1).
pub fn limit_rows()
    ensures frame { max_frame ≡ 65537 }
{}
