//! A program, with its header types and its headers found by their names.
ghost use Rattle.std.specs.Prelude.{◌≡◌};

use bm_records::raw::{Header, HeaderType, RawProgram};
use name_index::Index;

/// A program, with its header types and its headers found by their names.
#[derive(Drop)]
pub(crate) struct Scope<'p, 'a> {
    pub raw: &'p RawProgram<'a>,
    pub types: Index<'p, HeaderType<'a>>,
    pub headers: Index<'p, Header<'a>>,
    ghost of_types: { types ≡ raw.now.header_types },
    ghost of_headers: { headers ≡ raw.now.headers },
}
