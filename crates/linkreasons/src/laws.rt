//! Laws of reasons that come and go.

ghost use Rattle.linkreasons.specs.Laws.{AnewCommutes, AnewWantsTheSame, FewerThenFewer, FollowsReasons, NoneGoes, PlainAreOne, ReasonsArePlain, ReasonsAreWanted};

/// What is wanted follows the reasons for it, whatever the steps are.
pub fn reasons_are_followed()
    ensures follows { FollowsReasons }
    ensures fewer { FewerThenFewer }
    ensures none { NoneGoes }
    ensures wanted { ReasonsAreWanted }
    ensures anew { AnewCommutes }
    ensures same { AnewWantsTheSame }
{}

/// What there is reason to ask has one spelling for each question: its name in lower case, class IN.
pub fn reasons_are_plain()
    ensures one { PlainAreOne }
    ensures plain { ReasonsArePlain }
{}
