//! Examples.

ghost use Rattle.std.specs.Prelude.{◌≡◌, [], ◌∷◌, Some, None};
ghost use Rattle.hubloops.specs.LinkReader.{BreaksAt, LeavesAt};
ghost use Rattle.hubloops.specs.Rounds.{Over, ToAsk, ToSend, Waiting, datagrams_asked, datagrams_handed, made_before, stage_behind};
ghost use Rattle.hubloops.specs.Worked.{asks_none, asks_nothing, asks_one, hears_none, hears_one};

/// What the loop of a link may do, and what it may not.
pub fn worked_rounds()
    ensures round { stage_behind (Some Waiting) (hears_one ∷ asks_one ∷ asks_one ∷ asks_nothing ∷ hears_one ∷ asks_nothing ∷ []) ≡ Some Waiting }
    ensures quiet { stage_behind (Some Waiting) (asks_one ∷ asks_nothing ∷ asks_nothing ∷ hears_one ∷ []) ≡ Some ToAsk }
    ensures handed { datagrams_handed (hears_one ∷ asks_one ∷ asks_one ∷ asks_nothing ∷ hears_one ∷ []) ≡ (1 ∷ []) ∷ (1 ∷ []) ∷ [] }
    ensures asked { datagrams_asked (hears_one ∷ asks_one ∷ asks_one ∷ asks_nothing ∷ hears_one ∷ []) ≡ (2 ∷ []) ∷ (2 ∷ []) ∷ [] }
    ensures receipts_and_sends { made_before (Some Waiting) (hears_one ∷ asks_one ∷ asks_one ∷ asks_nothing ∷ asks_nothing ∷ []) ≡ 4 }
    ensures hears_without_asking { stage_behind (Some Waiting) (hears_one ∷ hears_one ∷ []) ≡ None }
    ensures asks_once_alone { stage_behind (Some Waiting) (hears_one ∷ asks_one ∷ hears_one ∷ []) ≡ None }
    ensures starved_at_hearing { stage_behind (Some Waiting) (asks_nothing ∷ hears_none ∷ []) ≡ Some Over }
    ensures starved_at_asking { stage_behind (Some Waiting) (hears_one ∷ asks_none ∷ []) ≡ Some Over }
    ensures goes_on_behind_want { stage_behind (Some Waiting) (hears_one ∷ asks_none ∷ asks_nothing ∷ []) ≡ None }
    ensures unsent { LeavesAt ToSend 0 [] ((2 ∷ []) ∷ []) }
    ensures sent { LeavesAt ToSend 1 [] [] }
    ensures dropped { LeavesAt ToSend 0 [] [] → ⊥ }
    ensures unsent_before_the_last { LeavesAt ToSend 0 [] ((2 ∷ []) ∷ (2 ∷ []) ∷ []) → ⊥ }
    ensures unsent_when_nothing_is_due { LeavesAt Waiting 1 [] ((2 ∷ []) ∷ []) → ⊥ }
    ensures breaks_at_a_send { BreaksAt ToSend [] ((2 ∷ []) ∷ []) }
    ensures breaks_behind_a_send { BreaksAt ToSend [] [] → ⊥ }
    ensures breaks_without_a_send { BreaksAt ToAsk [] [] → ⊥ }
{}
