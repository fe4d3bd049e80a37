//! Laws of what is shown, and of names that are typed.

ghost use Rattle.readable.specs.Laws.{ReadsBack, ShownIsHarmless};

/// What is shown has no control, nothing that hides, and nothing that turns the direction of a text, whatever octets it
/// is made of.
pub fn shown_is_harmless()
    ensures { ShownIsHarmless }
{}

/// A name that is shown and typed again is that name, to the letter.
pub fn reads_back()
    ensures { ReadsBack }
{}
