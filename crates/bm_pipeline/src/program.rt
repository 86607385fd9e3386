//! The program of a pipeline.
use crate::actions::{Action, LearnList};
use crate::checksums::{Calculation, Checksum};
use crate::headers::{Header, StandardMetadata};
use crate::parser::{ErrorNumbers, Parser};
use crate::tables::{Conditional, Node, Table};
use list_types::List;

/// A pipeline's plain data, by the names of BMv2's JSON form; the [`crate::Pipeline`] is one that is valid.
#[derive(Drop)]
pub struct Program {
    pub headers: List<Header>,
    /// How many fields all its headers have.
    pub fields: usize,
    pub standard_metadata: StandardMetadata,
    pub errors: ErrorNumbers,
    pub parser: Parser,
    /// The places of the headers in the order in which they are written.
    pub deparser: List<usize>,
    pub calculations: List<Calculation>,
    pub checksums: List<Checksum>,
    pub learn_lists: List<LearnList>,
    pub actions: List<Action>,
    /// The tables of ingress and egress.
    pub tables: List<Table>,
    /// The conditionals of ingress and egress.
    pub conditionals: List<Conditional>,
    /// The first node of ingress; none where it is empty.
    pub ingress: Option<Node>,
    /// The first node of egress; none where it is empty.
    pub egress: Option<Node>,
}
