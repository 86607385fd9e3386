//! Laws of an index, each the contract of a function that does nothing.
ghost use Rattle.row_index.specs.Laws.{BestIsFlat, NamedIsFlat, NamesAlone};

/// The best of an index is the best of a flat list of its rows.
pub fn best_is_flat()
    ensures { BestIsFlat }
{}

/// What an index finds by a name is what a flat list of its rows has of that name.
pub fn named_is_flat()
    ensures { NamedIsFlat }
{}

/// An index stays one of its rows while those that are linked keep their names.
pub fn names_alone()
    ensures { NamesAlone }
{}
