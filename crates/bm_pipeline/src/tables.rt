//! Tables and conditionals, the nodes of ingress and egress.
use crate::headers::FieldRef;
use bm_expr::Truth;
use list_types::List;
use p4_types::keys::Arguments;

/// A node, by its place among the tables or the conditionals.
#[derive(Clone, Copy)]
pub enum Node {
    Table(usize),
    Conditional(usize),
}

/// What a table's `next_tables` says of an outcome.
#[derive(Clone, Copy)]
pub enum Next {
    /// It does not name it.
    NotNamed,
    /// The pipeline ends.
    End,
    Node(Node),
}

/// An action of a table.
#[derive(Clone, Copy)]
pub struct TableAction {
    /// Its place among the actions.
    pub action: usize,
    /// The id in the P4Info of the table's action reference of this name, if there is one.
    pub reference: Option<u32>,
    /// What follows it, by its name.
    pub next: Next,
}

/// The action that a table runs on a miss.
#[derive(Drop)]
pub struct DefaultEntry {
    pub action: TableAction,
    pub action_data: Arguments,
}

#[derive(Drop)]
pub struct Table {
    /// The id of the table of its name in the P4Info. Without one it has no entries.
    pub id: Option<u32>,
    /// The fields of its key, in order.
    pub key: List<FieldRef>,
    pub actions: List<TableAction>,
    /// `__HIT__`
    pub hit: Next,
    /// `__MISS__`
    pub miss: Next,
    /// What follows where nothing else is named; none ends the pipeline.
    pub base_default_next: Option<Node>,
    pub default_entry: Option<DefaultEntry>,
    /// The fields by which a member of a group or a set is chosen: those of its action profile's selector.
    pub selector: List<FieldRef>,
}

#[derive(Drop)]
pub struct Conditional {
    pub expression: Truth,
    pub true_next: Option<Node>,
    pub false_next: Option<Node>,
}
