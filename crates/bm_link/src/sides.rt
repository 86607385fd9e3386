//! A pipeline behind another.
ghost use Rattle.std.specs.Prelude.{◌≡◌, ◌+◌, ◌<◌, ◌^◌, length, IfOk};

use bm_records::raw::{Conditional, Pipeline, Table};
use list_types::NoMemory;
use name_index::Index;
use std::alloc::Global;

/// A pipeline, with its nodes found by their names.
#[derive(Drop)]
pub(crate) struct Side<'p, 'a> {
    pub pipeline: &'p Pipeline<'a>,
    pub tables: Index<'p, Table<'a>>,
    pub conditionals: Index<'p, Conditional<'a>>,
    /// How many tables stand before its own.
    pub tables_before: usize,
    /// How many conditionals stand before its own.
    pub conditionals_before: usize,
    ghost of_tables: { tables ≡ pipeline.now.tables },
    ghost of_conditionals: { conditionals ≡ pipeline.now.conditionals },
    ghost tables_fit: { tables_before + length pipeline.now.tables < 2 ^ 64 },
    ghost conditionals_fit: { conditionals_before + length pipeline.now.conditionals < 2 ^ 64 },
}

impl<'p, 'a> Side<'p, 'a> {
    /// A pipeline behind the tables and conditionals of another.
    pub(crate) fn of(
        alloc: Global,
        pipeline: &'p Pipeline<'a>,
        tables: &[Table],
        conditionals: &[Conditional],
    ) -> Result<Side<'p, 'a>, NoMemory>
        ensures pipeline { IfOk result (λ side. side.pipeline.now ≡ pipeline.now) }
        ensures tables { IfOk result (λ side. side.tables_before ≡ length tables.now) }
        ensures conditionals { IfOk result (λ side. side.conditionals_before ≡ length conditionals.now) }
    {
        Ok(Side {
            pipeline,
            tables: Index::of(alloc, pipeline.tables.as_slice())?,
            conditionals: Index::of(alloc, pipeline.conditionals.as_slice())?,
            tables_before: tables.len(),
            conditionals_before: conditionals.len(),
        })
    }
}
