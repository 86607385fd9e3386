//! A tree of nodes.
ghost use Rattle.std.specs.Prelude.{◌≡◌, ◌<◌, length};
ghost use Rattle.json_tree.specs.Nodes.{IsElement};
ghost use Rattle.json_tree.specs.View.{view};

use crate::element::Element;
use crate::packed::PackedNode;
use std::marker::Model;

/// A JSON text that was read. A contract sees its nodes beside the text that they speak of; `view` of specs/View.antt is the
/// data that it stands for.
#[derive(Drop)]
pub struct Tree {
    text: String,
    nodes: Vec<PackedNode>,
}

impl Model for Tree {
    ghost use Rattle.std.specs.Prelude.{ℕ, List, string_bytes};
    ghost use Rattle.json_tree.specs.declared.node.Node.{Node as NodeValue};

    ghost Value = { List ℕ × List NodeValue };

    ghost use Rattle.json_tree.specs.Nodes.{IsElement};

    ghost view = { λ t. (string_bytes t.text, t.nodes.items) };

    ghost invariant = { λ t. IsElement (string_bytes t.text) t.nodes.items };
}

impl Tree {
    ghost use Rattle.std.specs.Prelude.{string_bytes};

    pub(crate) fn of(text: String, nodes: Vec<PackedNode>) -> Tree
        requires { IsElement (string_bytes text) nodes.items }
        ensures { result ≡ (string_bytes text, nodes.items) }
    {
        Tree { text, nodes }
    }

    /// The value that the text is.
    pub fn root(&self) -> Element<'_>
        ensures { result ≡ self.now }
    {
        Element::first(self.text.as_str(), self.nodes.as_slice())
    }
}
