//! What the findings claim of words, each the contract of a function with an empty body.

ghost use Rattle.ix_lint.specs.Laws.{NeverIsNeverComplete, WhatIsApartNeverComes};
ghost use Rattle.ix_lint.specs.Laws.{OwnersAreTwo, TwoOwnersAreTold};
ghost use Rattle.ix_lint.specs.Laws.{OwnersStay, ValuesStay};

/// No word is complete in a node that is `Never`, under any environment.
pub fn never_is_never_complete()
    ensures { NeverIsNeverComplete }
{}

/// No word that is partial in a `&` that is `Apart` has an action of that name and number of
/// values, under any environment.
pub fn what_is_apart_never_comes()
    ensures { WhatIsApartNeverComes }
{}

/// Where `Owners` are told at an `all`, there are an action, an environment and two different
/// values of its parameter, under each of which the action is in the alphabet of the body.
pub fn owners_are_two()
    ensures { OwnersAreTwo }
{}

/// Where there are such an action, such an environment and such values, `Owners` are told, if each
/// atom of the body names the parameter, as in every well-formed expression.
pub fn two_owners_are_told()
    ensures { TwoOwnersAreTold }
{}

/// Where `Keeps` is told of an `all` that fits its environment, each value that owns an action of a
/// word has an entry in the map of those owners, whatever owners give each value a partial part.
pub fn owners_stay()
    ensures { OwnersStay }
{}

/// Where `Keeps` is told of a `sync` that fits its environment, each value that has an action of a
/// partial word in its alphabet has an entry in the tree.
pub fn values_stay()
    ensures { ValuesStay }
{}
