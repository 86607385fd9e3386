//! Nodes as they are stored.
ghost use Rattle.std.specs.Prelude.{◌≡◌, ◌<◌, ◌≤◌, ◌^◌, IfOk, IfErr};
ghost use Rattle.list_types.specs.declared.memory.Refusal.TheVariants as refusals;
ghost use Rattle.json_tree.specs.Packed.{of_kind, number_in};

use crate::node::Node;
use crate::reading::NotJson;
use list_types::Refusal;
use std::marker::Model;
use std::mem::size_of;

/// A node in 8 bytes, of which a contract sees the node. The lowest 3 bits of `first` are its kind, those above them its
/// truth, its start or its count; `second` is its end, or how many nodes stand in it.
#[derive(Drop)]
pub(crate) struct PackedNode {
    first: u32,
    second: u32,
}

const _: () = prove!(size_of::<PackedNode>() == 8);

impl Model for PackedNode {
    ghost use Rattle.json_tree.specs.declared.node.Node.{Node as NodeValue};

    ghost Value = { NodeValue };

    ghost use Rattle.json_tree.specs.Packed.{node_of};

    ghost view = { λ p. node_of p.first p.second };
}

impl PackedNode {
    fn of_kind(kind: u32, number: u32, second: u32) -> Result<PackedNode, Refusal<NotJson>>
        requires { kind < 8 }
        ensures ok { IfOk result (λ packed. packed ≡ of_kind kind number second) }
        ensures err { IfErr result (λ e. (e ≡ refusals.NoMemory) × (2 ^ 29 ≤ number)) }
    {
        if number >= 1 << 29 {
            return Err(Refusal::NoMemory);
        }
        Ok(PackedNode {
            first: number * 8 + kind,
            second,
        })
    }

    /// A start or a count of 2^29 or more has no room beside the kind: it is refused as for want of memory.
    pub(crate) fn of(node: Node) -> Result<PackedNode, Refusal<NotJson>>
        ensures ok { IfOk result (λ packed. packed ≡ node) }
        ensures err { IfErr result (λ e. (e ≡ refusals.NoMemory) × (2 ^ 29 ≤ number_in node)) }
    {
        match node {
            Node::Null => PackedNode::of_kind(0, 0, 0),
            Node::Bool(truth) => PackedNode::of_kind(1, truth as u32, 0),
            Node::Number { start, end } => PackedNode::of_kind(2, start, end),
            Node::Text { start, end } => PackedNode::of_kind(3, start, end),
            Node::Array { count, inside } => PackedNode::of_kind(4, count, inside),
            Node::Object { count, inside } => PackedNode::of_kind(5, count, inside),
        }
    }

    pub(crate) fn node(&self) -> Node
        ensures { result ≡ self.now }
    {
        let (number, second) = (self.first / 8, self.second);
        match self.first % 8 {
            0 => Node::Null,
            1 => Node::Bool(number == 1),
            2 => Node::Number {
                start: number,
                end: second,
            },
            3 => Node::Text {
                start: number,
                end: second,
            },
            4 => Node::Array {
                count: number,
                inside: second,
            },
            _ => Node::Object {
                count: number,
                inside: second,
            },
        }
    }
}
