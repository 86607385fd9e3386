//! A valid program.
ghost use Rattle.std.specs.Prelude.{◌≡◌};
ghost use Rattle.bm_pipeline.specs.Validity.{IsValid};

use crate::program::Program;
use std::marker::Model;

/// A pipeline: a program within the limits, in which each place is in range, expressions are settled, and neither the
/// parser nor the graph of tables and conditionals has a loop. A contract sees it as the program.
pub struct Pipeline {
    program: Program,
}

impl Model for Pipeline {
    ghost use Rattle.bm_pipeline.specs.declared.program.Program.{Program};
    ghost use Rattle.bm_pipeline.specs.Validity as validity;
    ghost use Rattle.bm_expr.specs.TreeCode.{number_code, truth_code};
    ghost use Rattle.std.specs.Coded.{codes};

    ghost coded = { Prim.hlevel (codes, number_code, truth_code) };

    ghost Value = { Program };

    ghost view = { λ pipeline. pipeline.program };

    ghost invariant = { λ pipeline. validity.IsValid pipeline.program };
}

// Written out, so that those who let one go need not look into it.
impl Drop for Pipeline {
    fn drop(self) {
        let Self { program: _program } = self;
    }
}

impl Pipeline {
    /// A pipeline of a valid program.
    pub fn new(program: Program) -> Pipeline
        requires { IsValid program }
        ensures { result ≡ program }
    {
        Pipeline { program }
    }

    /// The program, which is valid as long as it stands in a pipeline.
    pub fn program(&self) -> &Program
        ensures view { result.now ≡ self.now }
        ensures valid { IsValid result.now }
    {
        &self.program
    }
}
