//! Laws of the schedule.

ghost use Rattle.linkask.specs.Laws.{AskedOnce, BeginningAnew, DueByMoment, DueWithinASecond, EndingKeepsBounds, GoingKeepsBounds, HearingKeepsBounds, NotDueAtOnce, ReasonsKeepBounds, ReconfirmingKeepsBounds, UnwantingDrops, WantingWants};

/// A question is due where its moment has come. What was asked isn't due at the same moment, whatever is heard or goes
/// meanwhile; so asking until none is due sends what is due, in its order, each once. Within a second only a record that grows
/// old makes it due.
pub fn schedule()
    ensures moment { DueByMoment }
    ensures asked { NotDueAtOnce }
    ensures second { DueWithinASecond }
    ensures once { AskedOnce }
{}

/// Bounds stay bounds where rows end or go, where one is reconfirmed, where reasons come or go, and, lowered, where a link is
/// heard.
pub fn bounds()
    ensures ending { EndingKeepsBounds }
    ensures reconfirming { ReconfirmingKeepsBounds }
    ensures hearing { HearingKeepsBounds }
    ensures going { GoingKeepsBounds }
    ensures reasons { ReasonsKeepBounds }
{}

/// What is wanted where a reason comes, where one goes, and where a question begins anew.
pub fn reasons()
    ensures wanting { WantingWants }
    ensures unwanting { UnwantingDrops }
    ensures anew { BeginningAnew }
{}
