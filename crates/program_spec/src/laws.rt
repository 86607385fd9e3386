//! Laws about programs. Each function's contract is the law; its body does nothing.
ghost use Rattle.program_spec.specs.Laws.{ParseEnds, ParseIsOne};

/// A parser of a valid program ends with each packet, and in one way alone.
pub fn parses_end_in_one_way()
    ensures ends { ParseEnds }
    ensures one { ParseIsOne }
{}
