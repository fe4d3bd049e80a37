//! What the two translations promise of each other.

ghost use Rattle.linkmap.specs.Laws.{HeardIsShown, ShownIsHeard, EachIsShownByItself, OneKeyIsOfOneSize, OneKeyIsShownAsOne, ShownIsUnderTheDomain};

/// What is heard as a record is shown with the record's key.
pub fn heard_is_shown()
    ensures { HeardIsShown }
{}

/// What is shown of a record is heard, with any record of its key, as one with the record's key.
pub fn shown_is_heard()
    ensures { ShownIsHeard }
{}

/// Two records of a link that aren't one are never shown with one key.
pub fn each_is_shown_by_itself()
    ensures { EachIsShownByItself }
{}

/// What is shown lies under the domain.
pub fn shown_is_under_the_domain()
    ensures { ShownIsUnderTheDomain }
{}

/// Records with one key are usable, and shown, as one.
pub fn one_key_is_shown_as_one()
    ensures { OneKeyIsShownAsOne }
{}

/// Records with one key are of one size under the domain.
pub fn one_key_is_of_one_size()
    ensures { OneKeyIsOfOneSize }
{}
