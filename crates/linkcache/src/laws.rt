//! What a part of a link's rows tells of all of them, so that a step need look only at the rows which it changes.

ghost use Rattle.linkcache.specs.Ends.{EndsAreKept, NothingEndsBefore, NextEndIsFirst, DueRowsGo};
ghost use Rattle.linkcache.specs.Laws.{HearingsKeepToTheirOwners, PartsShowForThemselves, MovesReachTheLaterRows, RowsStaySound, RowsStayWithin, ShownFits, ShownIsUnderItsNames};

/// A hearing changes the rows of its owners alone, as if they were all of the link's but for a count of the others.
pub fn hearings_keep_to_their_owners()
    ensures { HearingsKeepToTheirOwners }
{}

/// Rows that differ in a part alone are shown otherwise exactly as their parts are.
pub fn parts_show_for_themselves()
    ensures { PartsShowForThemselves }
{}

/// The changes from one part to another make the later rows of the earlier ones.
pub fn moves_reach_the_later_rows()
    ensures { MovesReachTheLaterRows }
{}

/// Each row stays one of a usable record, with its key, whatever is heard, ends or is reconfirmed.
pub fn rows_stay_sound()
    ensures { RowsStaySound }
{}

/// Few enough rows, and few enough octets of each owner, stay so, whatever is heard, ends or is reconfirmed.
pub fn rows_stay_within()
    ensures { RowsStayWithin }
{}

/// What is shown of a name has no more octets than an owner may have.
pub fn shown_fits()
    ensures { ShownFits }
{}

/// What is shown lies under the link's domain or one of its reverse domains.
pub fn shown_is_under_its_names()
    ensures { ShownIsUnderItsNames }
{}

/// Moments that are the ends of the rows stay so where both are changed.
pub fn ends_are_kept()
    ensures { EndsAreKept }
{}

/// Before the least of the moments no row ends.
pub fn nothing_ends_before()
    ensures { NothingEndsBefore }
{}

/// The least of the moments is the least end of a row.
pub fn next_end_is_first()
    ensures { NextEndIsFirst }
{}

/// A key is due exactly where its row has ended, and a moment takes these rows out and no other.
pub fn due_rows_go()
    ensures { DueRowsGo }
{}
