//! Unicast queries and the replies to them (RFC 1034, 4.3.2; RFC 1035, 4.1).
//!
//! **Model.** A `Query` is an ID, flags and one question, its name as written. A reply depends on a message and on what
//! is `Known`: which names have a home, and all records. `reply_to` in `specs/Replies` says which octets the reply has.
//! `specs/Spelling` says which octets are a query, and `specs/Queries` how they are read, with the first fault.
//!
//! **Flow.** A caller brings its records by the trait `Lookup` (`lookup.rt`). `write_reply_to` (`replying.rt`) reads
//! the message with `read_query` (`query.rt`). What is no query is answered with FORMERR. A name without a home is
//! refused, and so is a class that is not served. A meta kind other than ANY is answered with NOTIMP. For all else
//! `walk.rt` appends the records asked for, going along CNAMEs to eight targets at most.
//!
//! **Begin** with `specs/Replies` beside RFC 1034, 4.3.2, then `replying.rt` and `walk.rt`. The examples below show
//! queries, replies and walks.
//!
//! **Change.** How a walk is made step by step is private: `specs/Steps` serves these proofs, and one of `replay`.
//! `reply_to` is cited by the laws of `pushserver` and of `script_laws`, so its words stay. No reply may be taken for
//! an answer without an error in a DSO session (`RepliesAreAnswers`). The bound on a reply's octets (`RepliesFit`)
//! rests on the limit of a name and on eight targets.
//!
//! **Stand on it**: `pushserver` (replies to queries, from the records at the newest point), `script_laws` (what a
//! script promises of each message), and the crates above these.
#![tactic(auto)]

pub mod laws;
pub mod lookup;
pub mod query;
pub mod replying;
mod walk;

ghost use Rattle.std.specs.Prelude.{◌≡◌, ◌++◌, [], ◌∷◌, codes, false, true, Ok, Err};
ghost use Rattle.push_base.specs.Hexadecimal.{hex};
ghost use Rattle.dnsname.specs.Text.{name};
ghost use Rattle.dnsname.specs.declared.name.NameFault.TheVariants as names;
ghost use Rattle.dnswire.specs.declared.message.WireFault.TheVariants as wires;
ghost use Rattle.dnsquery.specs.Queries.{query_of};
ghost use Rattle.dnsquery.specs.Replies.{reply_to};
ghost use Rattle.dnsquery.specs.Worked.{asks, reached, zone};

pub use lookup::Lookup;
pub use query::{Query, QueryFault, read_query};
pub use replying::{USUAL_REPLY, reply, write_reply, write_reply_to};

/// Examples of queries.
pub fn worked_queries()
    ensures plain { query_of (hex (codes "000a01000001000000000000" ++ codes "0161076578616d706c6503636f6d0000010001")) ≡ Ok (record { id = 10; flags = 256; question = record { name = name (codes "a.example.com."); kind = 1; class = 1 } }) }
    ensures with_opt { query_of (hex (codes "000c01200001000000000001" ++ codes "0161076578616d706c6503636f6d0000010001" ++ codes "0000291000000000000000")) ≡ Ok (record { id = 12; flags = 288; question = record { name = name (codes "a.example.com."); kind = 1; class = 1 } }) }
    ensures no_question { query_of (hex (codes "000c01000000000000000000")) ≡ Err QueryFault.Counts }
    ensures two_questions { query_of (hex (codes "000c01000002000000000000")) ≡ Err QueryFault.Counts }
    ensures an_answer { query_of (hex (codes "000c01000001000100000000")) ≡ Err QueryFault.Counts }
    ensures cut { query_of (hex (codes "000c01000001000000000000" ++ codes "00000100")) ≡ Err (QueryFault.Wire (wires.Short 16)) }
    ensures one_more { query_of (hex (codes "000c01000001000000000000" ++ codes "000001000100")) ≡ Err (QueryFault.Wire (wires.Trailing 17)) }
    ensures missing { query_of (hex (codes "000c01000001000000000001" ++ codes "0000010001")) ≡ Err (QueryFault.Wire (wires.Name (names.Short 17))) }
{}

/// Examples of replies.
pub fn worked_replies()
    ensures found { reply_to zone (asks 10 256 (codes "a.example.com.") 1 1) ≡ hex (codes "000a85000001000100000000" ++ codes "0161076578616d706c6503636f6d0000010001" ++ codes "0161076578616d706c6503636f6d00000100010000003c0004c0000201") }
    ensures none { reply_to zone (asks 11 256 (codes "b.example.com.") 1 1) ≡ hex (codes "000b85030001000000000000" ++ codes "0162076578616d706c6503636f6d0000010001") }
    ensures no_home { reply_to zone (asks 13 0 (codes "other.") 1 1) ≡ hex (codes "000d80050001000000000000" ++ codes "056f746865720000010001") }
    ensures other_class { reply_to zone (asks 13 0 (codes "a.example.com.") 1 3) ≡ hex (codes "000d80050001000000000000" ++ codes "0161076578616d706c6503636f6d0000010003") }
    ensures transfer { reply_to zone (asks 13 256 (codes "a.example.com.") 252 1) ≡ hex (codes "000d81040001000000000000" ++ codes "0161076578616d706c6503636f6d0000fc0001") }
    ensures malformed { reply_to zone (hex (codes "000c01000001000100000000")) ≡ hex (codes "000c81010000000000000000") }
    ensures other_kind { reply_to zone (asks 14 0 (codes "a.example.com.") 16 1) ≡ hex (codes "000e84000001000000000000" ++ codes "0161076578616d706c6503636f6d0000100001") }
    ensures between { reply_to zone (asks 14 0 (codes "y.example.com.") 1 1) ≡ hex (codes "000e84000001000000000000" ++ codes "0179076578616d706c6503636f6d0000010001") }
    ensures chain { reply_to zone (asks 15 0 (codes "c.example.com.") 1 1) ≡ hex (codes "000f84000001000200000000" ++ codes "0163076578616d706c6503636f6d0000010001" ++ codes "0163076578616d706c6503636f6d00000500010000003c000f" ++ codes "0141076578616d706c6503636f6d00" ++ codes "0161076578616d706c6503636f6d00000100010000003c0004c0000201") }
    ensures circle { reply_to zone (asks 15 0 (codes "l.example.com.") 1 1) ≡ hex (codes "000f84000001000200000000" ++ codes "016c076578616d706c6503636f6d0000010001" ++ codes "016c076578616d706c6503636f6d00000500010000003c000f" ++ codes "016d076578616d706c6503636f6d00" ++ codes "016d076578616d706c6503636f6d00000500010000003c000f" ++ codes "016c076578616d706c6503636f6d00") }
    ensures elsewhere { reply_to zone (asks 15 0 (codes "o.example.com.") 1 1) ≡ hex (codes "000f84000001000100000000" ++ codes "016f076578616d706c6503636f6d0000010001" ++ codes "016f076578616d706c6503636f6d00000500010000003c0007056f7468657200") }
    ensures to_none { reply_to zone (asks 15 0 (codes "n.example.com.") 1 1) ≡ hex (codes "000f84030001000100000000" ++ codes "016e076578616d706c6503636f6d0000010001" ++ codes "016e076578616d706c6503636f6d00000500010000003c0012046e6f6e65076578616d706c6503636f6d00") }
    ensures alias_itself { reply_to zone (asks 15 0 (codes "o.example.com.") 5 1) ≡ hex (codes "000f84000001000100000000" ++ codes "016f076578616d706c6503636f6d0000050001" ++ codes "016f076578616d706c6503636f6d00000500010000003c0007056f7468657200") }
    // What a usual tool sends: recursion desired, an OPT record behind.
    ensures usual { reply_to zone (hex (codes "000c01200001000000000001" ++ codes "0161076578616d706c6503636f6d0000010001" ++ codes "0000291000000000000000")) ≡ hex (codes "000c85000001000100000000" ++ codes "0161076578616d706c6503636f6d0000010001" ++ codes "0161076578616d706c6503636f6d00000100010000003c0004c0000201") }
    ensures apex { reply_to zone (asks 9 256 (codes "example.com.") 1 1) ≡ hex (codes "000985000001000000000000" ++ codes "076578616d706c6503636f6d0000010001") }
    ensures any_class { reply_to zone (asks 15 0 (codes "a.example.com.") 255 255) ≡ hex (codes "000f84000001000100000000" ++ codes "0161076578616d706c6503636f6d0000ff00ff" ++ codes "0161076578616d706c6503636f6d00000100010000003c0004c0000201") }
{}

/// Examples of walks along CNAMEs: at the eighth target its CNAME is still added, and the ninth is not gone to.
pub fn worked_walks()
    ensures eight { reached 8 ≡ (true, 9) }
    ensures nine { reached 9 ≡ (false, 9) }
{}
