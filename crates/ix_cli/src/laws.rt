//! The laws of words, each the contract of a function with an empty body.

ghost use Rattle.ix_cli.specs.Laws.{WordsNameOneJob, RefusedWordsNameNone};

/// Words name at most one job.
pub fn words_name_one_job()
    ensures { WordsNameOneJob }
{}

/// Words that each command refuses name no job.
pub fn refused_words_name_none()
    ensures { RefusedWordsNameNone }
{}
