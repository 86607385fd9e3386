//! A program, with its header types found by their names, and what stands in it.
ghost use Rattle.std.specs.Prelude.{◌≡◌, Bool};
ghost use Rattle.std.specs.List.{list_all};
ghost use Rattle.bm_records.specs.declared.raw.RawProgram.{RawProgram};

use bm_records::raw::{HeaderType, RawProgram};
use name_index::Index;

/// A program, with its header types found by their names.
#[derive(Drop)]
pub(crate) struct Scope<'p, 'a> {
    pub raw: &'p RawProgram<'a>,
    pub types: Index<'p, HeaderType<'a>>,
    ghost of_types: { types ≡ raw.now.header_types },
}

/// What has names and ids that may stand for something in a program.
pub(crate) trait Standing {
    ghost meaning: { RawProgram → Self → Bool };

    /// Whether each of them stands for what there is.
    fn stands(&self, scope: &Scope) -> bool
        ensures { result ≡ meaning scope.now.raw.now self.now };
}

/// The same of all items.
pub(crate) fn all_stand<T: Standing>(scope: &Scope, items: &[T]) -> bool
    ensures { result ≡ list_all (T.meaning scope.now.raw.now) items.now }
{
    items.iter().all(|item| item.stands(scope))
}
