//! Deadlines are a finite map, and what a change makes of it.

ghost use Rattle.std.specs.Prelude.{◌≡◌, ◌∷◌, Some, None, ℕ, if◌then◌else◌};
ghost use Rattle.std.specs.List.{AllByRecursion};
ghost use Rattle.std.specs.Ordering.{eq_by_cmp};
ghost use Rattle.std.specs.declared.cmp.Ordering.TheVariants.{Less};
ghost use Rattle.clockqueue.specs.Deadlines.{Deadlines, AreDeadlines, due_cmp, moment_of, without, with_deadline};

/// A key that was given a moment has it, a key that was taken out has none, and each other key keeps what it has.
pub fn changed_moments<K: Ord>()
    ensures given { (key query : K) (moment : ℕ) (ds : Deadlines K) → moment_of K.cmp query (with_deadline K.cmp key moment ds) ≡ (if eq_by_cmp K.cmp key query then Some moment else moment_of K.cmp query ds) }
    ensures taken { (key query : K) (ds : Deadlines K) → moment_of K.cmp query (without K.cmp key ds) ≡ (if eq_by_cmp K.cmp key query then None else moment_of K.cmp query ds) }
{}

/// The first deadline comes before each other one, and behind it stands what is left without its key.
pub fn first_deadline<K: Ord>()
    ensures least { (d : ℕ × K) (ds : Deadlines K) → AreDeadlines K.cmp (d ∷ ds) → AllByRecursion (λ e. due_cmp K.cmp d e ≡ Less) ds }
    ensures rest { (d : ℕ × K) (ds : Deadlines K) → AreDeadlines K.cmp (d ∷ ds) → without K.cmp d.1 (d ∷ ds) ≡ ds }
{}
