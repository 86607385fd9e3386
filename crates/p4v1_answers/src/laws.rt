//! Laws of answers, each the contract of a function that does nothing: what a server writes is read back.
ghost use Rattle.p4v1_answers.specs.Laws.{AnswersAreReadBack, FailuresAreReadBack};

/// The answer to each method is read back.
pub fn answers_are_read_back()
    ensures { AnswersAreReadBack }
{}

/// The status of a Write that failed, and its errors, are read back.
pub fn failures_are_read_back()
    ensures { FailuresAreReadBack }
{}
