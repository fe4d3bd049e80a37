//! What a DNS Push client holds: of each question that was accepted the record set that the server's PUSH messages have
//! built (RFC 8765, 6.3).
//!
//! **Model.** A `Mirror` is a list of questions, each with its record set, in the order in which they began (`Held`).
//! No question is there twice (`AreHeld`), and a set has only records for which its question asks (`AreAsked`). What
//! notices do to the sets is `applied_to` in `specs/Held`, which does `applied_all` of `dsotlv` to each.
//!
//! **Flow.** `begin` makes an empty set when NOERROR answers a SUBSCRIBE, and `end` drops it. `apply` takes all notices
//! of one PUSH. `notices.rt` first makes the keys and values that come in, with all the memory that this takes. Only
//! then it changes the sets, so that want of memory leaves each set as it was. A notice about another name isn't
//! compared with the set at all.
//!
//! **Begin** with `specs/Held`, then `holding.rt`. `specs/Changes` says how notices are made ready.
//!
//! **Change.** All but the five calls of `Mirror` and `specs/Held` is private. Sets may be kept otherwise, for instance
//! by name, and no other crate's proof changes. The two steps of `apply` must stay: `pushclient` promises that a
//! message which found no memory waits whole.
//!
//! **Stand on it**: `pushclient` alone, which shows a set as `Held::Answered`. `replay` cites its definitions.
#![tactic(auto)]

mod holding;
mod notices;

ghost use Rattle.std.specs.Prelude.{◌≡◌, [], ◌∷◌, codes, None, Some};
ghost use Rattle.dnsname.specs.Text.{name};
ghost use Rattle.dsotlv.specs.declared.message.Notice.{Notice};
ghost use Rattle.dsotlv.specs.declared.message.Notice.TheVariants.{Add, RemoveAll};
ghost use Rattle.mirror.specs.Held.{Held, applied_to, begun, ended, set_of};

pub use holding::Mirror;
pub use push_base::NoMemory;

/// Examples of what is held.
pub fn worked_rows()
    ensures behind { begun (record { name = name (codes "b."); kind = 1; class = 1 }) ((record { name = name (codes "a."); kind = 1; class = 1 }, []) ∷ [])
        ≡ (record { name = name (codes "a."); kind = 1; class = 1 }, []) ∷ (record { name = name (codes "b."); kind = 1; class = 1 }, []) ∷ [] }
    ensures in_its_place { begun (record { name = name (codes "A."); kind = 1; class = 1 }) ((record { name = name (codes "a."); kind = 1; class = 1 }, []) ∷ [])
        ≡ (record { name = name (codes "a."); kind = 1; class = 1 }, []) ∷ [] }
    ensures gone { ended (record { name = name (codes "A."); kind = 1; class = 1 }) ((record { name = name (codes "a."); kind = 1; class = 1 }, []) ∷ []) ≡ [] }
    ensures no_question { set_of (record { name = name (codes "a."); kind = 28; class = 1 }) ((record { name = name (codes "a."); kind = 1; class = 1 }, []) ∷ []) ≡ None }
    ensures taken_back { let address : Notice = Add (record { owner = name (codes "A."); class = 1; kind = 1; ttl = 5; rdata = 1 ∷ 2 ∷ 3 ∷ 4 ∷ [] }) in
        let held : Held = (record { name = name (codes "a."); kind = 1; class = 1 }, []) ∷ [] in applied_to (address ∷ RemoveAll (name (codes "a.")) ∷ []) held ≡ held }
{}
