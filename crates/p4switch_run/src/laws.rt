//! What holds of every answer. Each function's contract is the law; its body does nothing.
ghost use Rattle.p4switch_run.specs.Laws.{AnswersAreAvailable};

/// No call's defined answer is UNAVAILABLE: a reply has that code for want of memory alone.
pub fn answers_are_available()
    ensures { AnswersAreAvailable }
{}
