//! Laws of scripts, each the contract of a function with an empty body.

ghost use Rattle.ix_script.specs.Laws.{ScriptsHaveOneFirstFault, FaultyScriptsHaveNoEvents};

/// A script has at most one first fault: one code, and one place.
pub fn scripts_have_one_first_fault()
    ensures { ScriptsHaveOneFirstFault }
{}

/// A script that has a first fault has no events.
pub fn faulty_scripts_have_no_events()
    ensures { FaultyScriptsHaveNoEvents }
{}
