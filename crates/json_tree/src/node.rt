//! The nodes of a tree.

/// A value, or the name of a member, which stands before the member's value. What an array or an object holds stands behind it.
#[derive(Clone, Copy, Drop)]
pub enum Node {
    Null,
    Bool(bool),
    /// The digits of a number, as bytes of the tree's text.
    Number { start: u32, end: u32 },
    /// A string or a name without its escapes, as bytes of the tree's text.
    Text { start: u32, end: u32 },
    /// How many items it has, and how many nodes they take.
    Array { count: u32, inside: u32 },
    /// How many names and values it has, both counted, and how many nodes they take.
    Object { count: u32, inside: u32 },
}
