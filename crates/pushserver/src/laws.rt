//! Laws that the hub's contracts stand on.

ghost use Rattle.pushserver.specs.Simulation.{UpdatesStand, HearsStand, GoingsStand, MomentsStand, ConnectsStand, TakesStand, StopsStand, EndsStand, GivesStand, HubsTell, CountsStand, ForgettingStands};
ghost use Rattle.pushserver.specs.Laws.{NothingWhereAllIsTold, NothingMeansAllIsShown, GiveChangesOneSession, OtherCallsKeepOutputs, SessionsStayWithin, SubscribeIsAnswered, QueryIsAnswered};

/// What each call does to the hub as it is kept is what it does to the plain hub that it stands for, and what is told of
/// records can be told; so it is where the oldest entries are forgotten.
pub fn kept_hubs_stand()
    ensures updates { UpdatesStand }
    ensures hears { HearsStand }
    ensures goings { GoingsStand }
    ensures moments { MomentsStand }
    ensures connects { ConnectsStand }
    ensures takes { TakesStand }
    ensures stops { StopsStand }
    ensures ends { EndsStand }
    ensures gives { GivesStand }
    ensures tells { HubsTell }
    ensures forgets { ForgettingStands }
{}

/// When `give` has nothing to say, what the calls leave as it was, what a SUBSCRIBE gets that none of the tests refuses, and
/// what a query gets (RFC 8765, 6.2 and 6.3; RFC 1034, 4.3.2).
pub fn calls_keep_promises()
    ensures nothing { NothingWhereAllIsTold }
    ensures shown { NothingMeansAllIsShown }
    ensures one { GiveChangesOneSession }
    ensures outputs { OtherCallsKeepOutputs }
    ensures answered { SubscribeIsAnswered }
    ensures replied { QueryIsAnswered }
{}

/// No more names wait for a session than it has questions, at most 1,024, and its octets are within their bounds.
pub fn sessions_stay_within()
    ensures { SessionsStayWithin }
{}

/// A hub as it is kept counts as the plain one does.
pub fn kept_hubs_count()
    ensures counts { CountsStand }
{}
