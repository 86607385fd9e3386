//! Laws about raw records. Each function's contract is the law; its body does nothing.
ghost use Rattle.bm_json.specs.Laws.{ReadProgramsAreSound};

/// Each width and each literal that is served has at most 128 bits, and a width has at least one.
pub fn read_programs_are_sound()
    ensures { ReadProgramsAreSound }
{}
