//! What entries make of homes and of all records.

ghost use Rattle.history.specs.Laws.{EntriesKeepHomes, HearingsFit, KeysHaveOnePlace, LinksChangeForThemselves, LinksChangeTogether, NamesStandApart, RecordsAreTheHomes, StartsAreAtHome, UpdatesFit};

/// Homes that were added one by one stand apart, whichever kind is put first.
pub fn names_stand_apart()
    ensures { NamesStandApart }
{}

/// A start of homes that stand apart has each record at home.
pub fn starts_are_at_home()
    ensures { StartsAreAtHome }
{}

/// Each entry leaves each record at home, and each name its home.
pub fn entries_keep_homes()
    ensures { EntriesKeepHomes }
{}

/// No key comes from two homes.
pub fn keys_have_one_place()
    ensures { KeysHaveOnePlace }
{}

/// All records are a set, in which those of a name are those of its home.
pub fn records_are_the_homes()
    ensures { RecordsAreTheHomes }
{}

/// Where a link alone changes, exactly that is shown otherwise which the link shows otherwise.
pub fn links_change_for_themselves()
    ensures { LinksChangeForThemselves }
{}

/// Where links alone change, exactly that is shown otherwise which each of them shows otherwise, in key order.
pub fn links_change_together()
    ensures { LinksChangeTogether }
{}

/// What is made of one message fits an empty journal.
pub fn messages_fit()
    ensures updates { UpdatesFit }
    ensures hearings { HearingsFit }
{}
