//! Laws of what a server asks its links.

ghost use Rattle.hubasking.specs.Laws.{OneAsking};

/// Behind each call the server that is kept asks what the plain one asks that it stands for.
pub fn one_asking()
    ensures { OneAsking }
{}
