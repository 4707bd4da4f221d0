//! What the menu claims, each the contract of a function with an empty body.

ghost use Rattle.ix_next.specs.Laws.{TheMenuIsComplete, TheMenuIsSound, CandidatesStandOrFall};

/// Each action that may come next is what some candidate of the menu stands for, if its values are
/// given for the parameters in whose places they stand, or fixed in the expression, or new.
pub fn the_menu_is_complete()
    ensures { TheMenuIsComplete }
{}

/// Each candidate of the menu stands for some action, and each action that it stands for may come
/// next.
pub fn the_menu_is_sound()
    ensures { TheMenuIsSound }
{}

/// Of the actions that a candidate stands for, all may come next or none.
pub fn candidates_stand_or_fall()
    ensures { CandidatesStandOrFall }
{}
