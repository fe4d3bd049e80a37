//! Deadlines: the moments at which keys fall due.
//!
//! **Model.** Deadlines are a finite map from keys to moments in milliseconds, one moment for each key. They are listed
//! by moment, and keys of the same moment by the order of keys (`AreDeadlines` in `specs/Deadlines`). `with_deadline`
//! and `without` say what a change makes of them, and `due` which are due at a moment. The state also has a spare: for
//! so many further keys the room is there.
//!
//! **Flow.** `deadlines.rt` has all calls that others make. `add` and `take_at` know the moment, so they find the place
//! by halving, at the last and the first deadline first. `set` and `drop_key` don't know it, and look at each key. All
//! hand the place to a `Tier` (`tier.rt`): one queue, with blocks behind it. A change moves a part of the queue or of
//! one block (`block.rt`), and one entry of each block behind it (`blocks.rt`).
//!
//! **Begin** with `specs/Deadlines`, then `deadlines.rt`. `worked_rows` below has examples, and `laws.rt` what holds of
//! each change.
//!
//! **Change.** Tiers and blocks are private, and `specs/Tiers` and `specs/Places` serve these proofs alone. So the list
//! may be kept in another way, as long as `Deadlines` keeps its clauses. The clauses on room must stay: with them,
//! `add` takes no memory where room was made. The size of a block stands in `block.rt`, and as 1024 in invariants and
//! `specs/Tiers`.
//!
//! **Stand on it**: `linkcache` (keeps when the records end that were heard on a link), and all above that.
#![tactic(auto)]

mod block;
mod blocks;
mod deadlines;
pub mod laws;
mod tier;

ghost use Rattle.std.specs.Prelude.{◌≡◌, ℕ, [], ◌∷◌, Some};
ghost use Rattle.std.specs.Ordering.{nat_cmp};
ghost use Rattle.clockqueue.specs.Deadlines.{with_deadline, without, due, first_moment, moment_of};

pub use deadlines::Deadlines;
pub use std::alloc::AllocError as NoMemory;

/// Examples of deadlines of numbers.
pub fn worked_rows()
    ensures first { with_deadline nat_cmp 7 100 [] ≡ (100, 7) ∷ [] }
    ensures sooner { with_deadline nat_cmp 8 90 ((100, 7) ∷ []) ≡ (90, 8) ∷ (100, 7) ∷ [] }
    ensures tie { with_deadline nat_cmp 6 100 ((90, 8) ∷ (100, 7) ∷ []) ≡ (90, 8) ∷ (100, 6) ∷ (100, 7) ∷ [] }
    ensures again { with_deadline nat_cmp 8 101 ((90, 8) ∷ (100, 6) ∷ (100, 7) ∷ []) ≡ (100, 6) ∷ (100, 7) ∷ (101, 8) ∷ [] }
    ensures gone { without nat_cmp 6 ((100, 6) ∷ (100, 7) ∷ []) ≡ (100, 7) ∷ [] }
    ensures at_the_moment { due {K = ℕ} 100 ((90, 8) ∷ (100, 7) ∷ (101, 6) ∷ []) ≡ (90, 8) ∷ (100, 7) ∷ [] }
    ensures none_due { due {K = ℕ} 89 ((90, 8) ∷ []) ≡ [] }
    ensures least { first_moment {K = ℕ} ((90, 8) ∷ (100, 7) ∷ []) ≡ Some 90 }
    ensures moment { moment_of nat_cmp 7 ((90, 8) ∷ (100, 7) ∷ []) ≡ Some 100 }
{}
