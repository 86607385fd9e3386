//! Actions and their primitives.
use crate::headers::FieldRef;
use bm_expr::{FieldPlace, HeaderPlace, Number};
use list_types::List;

/// A primitive of an action.
#[derive(Drop)]
pub enum Primitive {
    /// `assign`: the value is cut to the field's width.
    Assign {
        target: FieldPlace,
        value: Number,
    },
    AddHeader(HeaderPlace),
    /// `remove_header` of the header with this place among the headers.
    RemoveHeader(usize),
    /// `assign_header` of two headers of one type.
    AssignHeader {
        target: HeaderPlace,
        source: HeaderPlace,
    },
    /// `mark_to_drop` and `drop`.
    MarkToDrop,
    /// `count`: the counter's place among the indirect counters of the P4Info; an array that it does not name, or a direct
    /// one, counts nothing.
    Count {
        counter: Option<usize>,
        index: Number,
    },
    /// `generate_digest` of the list with this place among the learn lists.
    GenerateDigest(usize),
    NoOp,
}

#[derive(Drop)]
pub struct Action {
    /// The widths of its data in bits, each 1 to 128.
    pub runtime_data: List<u32>,
    pub primitives: List<Primitive>,
}

/// The data of a digest.
#[derive(Drop)]
pub struct LearnList {
    /// The id of the digest of its name in the P4Info, if it has one.
    pub digest: Option<u32>,
    pub elements: List<FieldRef>,
}
