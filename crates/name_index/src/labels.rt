//! What is looked up by its name.
ghost use Rattle.std.specs.Prelude.{◌≡◌, ℕ};
ghost use Rattle.std.specs.Prelude as spec;

use crate::names::Name;
use p4_types::info;

/// An object that is looked up by its name.
pub trait Labelled {
    ghost label: { Self → spec.List ℕ };

    fn name(&self) -> &str
        ensures { result.now ≡ label self.now };
}

impl<'a> Labelled for Name<'a> {
    ghost label = { λ name. name };

    fn name(&self) -> &str {
        self.as_str()
    }
}

impl Labelled for info::Counter {
    ghost label = { λ x. x.preamble.name };

    fn name(&self) -> &str {
        self.preamble.name.as_str()
    }
}

impl Labelled for info::Digest {
    ghost label = { λ x. x.preamble.name };

    fn name(&self) -> &str {
        self.preamble.name.as_str()
    }
}

impl Labelled for info::Table {
    ghost label = { λ x. x.preamble.name };

    fn name(&self) -> &str {
        self.preamble.name.as_str()
    }
}
