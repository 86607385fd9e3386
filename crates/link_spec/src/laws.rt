//! Laws about programs that are linked. Each function's contract is the law; its body does nothing.
ghost use Rattle.link_spec.specs.Laws.{ProgramsAreValid};

/// A program whose raw records break none of the rules is linked to a valid one.
pub fn linked_programs_are_valid()
    ensures law { ProgramsAreValid }
{}
