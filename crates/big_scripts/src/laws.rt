//! The scripts of a number are scripts.

ghost use Rattle.big_scripts.specs.Scripts.{EachIsAScript};

/// Each line of a script of a number is within the grammar and may stand where it does, so each has a text.
pub fn each_is_a_script()
    ensures { EachIsAScript }
{}
