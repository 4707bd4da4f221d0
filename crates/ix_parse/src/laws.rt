//! Laws of reading, each the contract of a function with an empty body.

ghost use Rattle.ix_parse.specs.Canonical.{CanonicalTextReadsBack};
ghost use Rattle.ix_parse.specs.Laws.{TextsStandForOneExpression, FaultyTextsStandForNone};
ghost use Rattle.ix_parse.specs.Laws.{TextsHaveOneFirstFault, ExpressionsHaveOneFormFault};
ghost use Rattle.ix_parse.specs.Laws.{FaultyExpressionsAreNotWellFormed};
ghost use Rattle.ix_parse.specs.Laws.{CanonicalTextsOpenFewLevels, WhatWasReadReadsBack};

/// A text stands for at most one expression.
pub fn texts_stand_for_one_expression()
    ensures { TextsStandForOneExpression }
{}

/// A text that has a first fault stands for no expression.
pub fn faulty_texts_stand_for_none()
    ensures { FaultyTextsStandForNone }
{}

/// A text has at most one first fault: one code, and one place.
pub fn texts_have_one_first_fault()
    ensures { TextsHaveOneFirstFault }
{}

/// An expression has at most one first form fault: one code, and one node.
pub fn expressions_have_one_form_fault()
    ensures { ExpressionsHaveOneFormFault }
{}

/// An expression that has a first form fault isn't well formed.
pub fn faulty_expressions_are_not_well_formed()
    ensures { FaultyExpressionsAreNotWellFormed }
{}

/// The canonical text of each well-formed expression stands for it, where the text is of at most
/// 16,384 bytes and opens at most 64 levels.
pub fn canonical_text_reads_back()
    ensures { CanonicalTextReadsBack }
{}

/// The canonical text of an expression that was read opens at most 64 levels.
pub fn canonical_texts_open_few_levels()
    ensures { CanonicalTextsOpenFewLevels }
{}

/// The canonical text of an expression that was read stands for it, where the text is of at most
/// 16,384 bytes.
pub fn what_was_read_reads_back()
    ensures { WhatWasReadReadsBack }
{}
