//! A value of a tree, what stands in it, and what is looked up there.
ghost use Rattle.std.specs.Prelude.{◌≡◌, ◌+◌, ◌<◌, ◌≤◌, List, [], ◌∷◌, length, take, drop, option_map, option_and_then, is_some, Some, None, IfSome, MatchOption};
ghost use Rattle.serde_json.specs.Data.{Data, no_members};
ghost use Rattle.serde_json.specs.Find.{get, at, as_null, as_bool, as_str, as_number, as_u64, as_array, as_object};
ghost use Rattle.serde_json.specs.View.{items_of};
ghost use Rattle.json_tree.specs.Nodes.{name_of, values, puts, with_node, IsSound, AreSound, IsElement, inside_of, is_null_node, truth_in, text_in, digits_in, items_of_node, members_of_node};
ghost use Rattle.json_tree.specs.View.{view, items_in, HasNoMember};
ghost use Rattle.json_tree.specs.Behind.{last_nodes, AreBehind};

use crate::node::Node;
use crate::number;
use crate::packed::PackedNode;
use std::marker::Model;

/// A value of a tree. A contract sees its nodes and those behind it, beside the text that they speak of; `view` of
/// specs/View.antt is the data that it stands for.
#[derive(Drop)]
pub struct Element<'a> {
    text: &'a str,
    nodes: &'a [PackedNode],
}

impl<'a> Model for Element<'a> {
    ghost use Rattle.std.specs.Prelude.{ℕ, List};
    ghost use Rattle.json_tree.specs.declared.node.Node.{Node as NodeValue};

    ghost Value = { List ℕ × List NodeValue };

    ghost use Rattle.json_tree.specs.Nodes.{IsElement};

    ghost view = { λ e. (e.text.now, e.nodes.now) };

    ghost invariant = { λ e. IsElement e.text.now e.nodes.now };
}

/// Values one after another.
#[derive(Drop)]
pub struct Items<'a> {
    text: &'a str,
    nodes: &'a [PackedNode],
    count: usize,
}

impl<'a> Model for Items<'a> {
    ghost use Rattle.std.specs.Prelude.{ℕ, List};
    ghost use Rattle.json_tree.specs.declared.node.Node.{Node as NodeValue};

    ghost Value = { ℕ × (List ℕ × List NodeValue) };

    ghost use Rattle.json_tree.specs.Nodes.{HasValues};

    ghost view = { λ e. (e.count, (e.text.now, e.nodes.now)) };

    ghost invariant = { λ e. HasValues e.text.now e.nodes.now e.count };
}

fn inside_of(node: Node) -> u32
    ensures { result ≡ inside_of node }
{
    match node {
        Node::Array { inside, .. } => inside,
        Node::Object { inside, .. } => inside,
        _ => 0,
    }
}

fn is_null_node(node: Node) -> bool
    ensures { result ≡ is_null_node node }
{
    match node {
        Node::Null => true,
        _ => false,
    }
}

fn truth_in(node: Node) -> Option<bool>
    ensures { result ≡ truth_in node }
{
    match node {
        Node::Bool(truth) => Some(truth),
        _ => None,
    }
}

fn text_in(node: Node) -> Option<(u32, u32)>
    ensures { result ≡ text_in node }
{
    match node {
        Node::Text { start, end } => Some((start, end)),
        _ => None,
    }
}

fn digits_in(node: Node) -> Option<(u32, u32)>
    ensures { result ≡ digits_in node }
{
    match node {
        Node::Number { start, end } => Some((start, end)),
        _ => None,
    }
}

fn items_of_node(node: Node) -> Option<u32>
    ensures { result ≡ items_of_node node }
{
    match node {
        Node::Array { count, .. } => Some(count),
        _ => None,
    }
}

fn members_of_node(node: Node) -> Option<u32>
    ensures { result ≡ members_of_node node }
{
    match node {
        Node::Object { count, .. } => Some(count),
        _ => None,
    }
}

/// The nodes behind a value.
fn behind<'a>(_text: &str, nodes: &'a [PackedNode]) -> &'a [PackedNode]
    requires { IsElement _text.now nodes.now }
    ensures sound { AreSound _text.now result.now }
    ensures values { values _text.now result.now ≡ drop 1 (values _text.now nodes.now) }
    ensures place { AreBehind (_text.now, nodes.now) (_text.now, result.now) }
{
    let inside = inside_of(nodes[0].node()) as usize;
    &nodes[inside + 1..]
}

impl<'a> Items<'a> {
    /// How many are left.
    pub fn len(&self) -> usize
        ensures { result ≡ length (items_in self.now) }
    {
        self.count
    }

    /// The next element of the array, if there is one more (RFC 8259, section 5).
    pub fn next(&mut self) -> Option<Element<'a>>
        ensures value { MatchOption result (items_in self.old ≡ []) (λ e. items_in self.old ≡ view e ∷ items_in self.new) }
        ensures place { IfSome result (λ e. (e ≡ self.old.1) × AreBehind e self.new.1) }
    {
        if self.count == 0 {
            return None;
        }
        let element = Element {
            text: self.text,
            nodes: self.nodes,
        };
        self.nodes = behind(self.text, self.nodes);
        self.count -= 1;
        Some(element)
    }

    /// The next name and its value, where names and values stand by turns.
    pub fn next_member(&mut self) -> Option<(&'a str, Element<'a>)>
        ensures value { MatchOption result (HasNoMember (items_in self.old))
            (λ m. (name : Data) × (items_in self.old ≡ name ∷ view m.1 ∷ items_in self.new) × (m.0.now ≡ name_of name)) }
        ensures place { IfSome result (λ m. AreBehind self.old.1 m.1 × AreBehind m.1 self.new.1) }
    {
        let name = self.next()?;
        let member = self.next()?;
        Some((name.text(), member))
    }

    /// The same items once more.
    pub fn again(&self) -> Items<'a>
        ensures { result ≡ self.now }
    {
        Items {
            text: self.text,
            nodes: self.nodes,
            count: self.count,
        }
    }

    /// What begins with so many nodes left, as `Element::left` told it of an element of these items.
    pub fn element_at(&self, left: usize) -> Element<'a>
        requires { (0 < left) × (left ≤ length self.now.1.1) }
        ensures { result ≡ last_nodes left self.now.1 }
    {
        let passed = self.nodes.len() - left;
        Element {
            text: self.text,
            nodes: &self.nodes[passed..],
        }
    }
}

impl<'a> Element<'a> {
    pub(crate) fn first(text: &'a str, nodes: &'a [PackedNode]) -> Element<'a>
        requires { IsElement text.now nodes.now }
        ensures { result ≡ (text.now, nodes.now) }
    {
        Element { text, nodes }
    }

    fn node(&self) -> Node
        ensures value { values self.now.0 self.now.1 ≡ with_node self.now.0 result (values self.now.0 (drop 1 self.now.1)) }
        ensures sound { IsSound self.now.0 result (drop 1 self.now.1) }
        ensures behind { AreSound self.now.0 (drop 1 self.now.1) }
    {
        self.nodes[0].node()
    }

    /// Whether the element is `null`.
    pub fn is_null(&self) -> bool
        ensures { result ≡ is_some (as_null (view self.now)) }
    {
        is_null_node(self.node())
    }

    /// The truth value, where the element is `true` or `false`.
    pub fn as_bool(&self) -> Option<bool>
        ensures { result ≡ as_bool (view self.now) }
    {
        truth_in(self.node())
    }

    /// The text of a string, with its escapes resolved (RFC 8259, section 7), where the element is one.
    pub fn as_str(&self) -> Option<&'a str>
        ensures { option_map (λ s. s.now) result ≡ as_str (view self.now) }
    {
        let text = self.text;
        match text_in(self.node()) {
            Some((start, end)) => Some(&text[start as usize..end as usize]),
            None => None,
        }
    }

    /// The text of a string, or an empty one.
    fn text(&self) -> &'a str
        ensures { result.now ≡ name_of (view self.now) }
    {
        match self.as_str() {
            Some(text) => text,
            None => "",
        }
    }

    /// A number of 64 bits that is not negative.
    pub fn as_u64(&self) -> Option<u64>
        ensures { result ≡ option_and_then as_u64 (as_number (view self.now)) }
    {
        let text = self.text;
        match digits_in(self.node()) {
            Some((start, end)) => number::as_u64(&text[start as usize..end as usize]),
            None => None,
        }
    }

    /// Whether the element is an array.
    pub fn is_array(&self) -> bool
        ensures { result ≡ is_some (as_array (view self.now)) }
    {
        self.as_array().is_some()
    }

    /// The items of an array.
    pub fn as_array(&self) -> Option<Items<'a>>
        ensures { option_map (λ items. items_of (items_in items)) result ≡ as_array (view self.now) }
    {
        let node = self.node();
        let (text, nodes) = (self.text, self.nodes);
        match items_of_node(node) {
            Some(count) => Some(Items {
                text,
                nodes: &nodes[1..],
                count: count as usize,
            }),
            None => None,
        }
    }

    /// The names and values of an object by turns.
    pub fn as_object(&self) -> Option<Items<'a>>
        ensures { option_map (λ items. puts (items_in items) no_members) result ≡ as_object (view self.now) }
    {
        let node = self.node();
        let (text, nodes) = (self.text, self.nodes);
        match members_of_node(node) {
            Some(count) => Some(Items {
                text,
                nodes: &nodes[1..],
                count: count as usize,
            }),
            None => None,
        }
    }

    /// The last member of a name, where this is an object. It walks all members.
    pub fn get(&self, name: &str) -> Option<Element<'a>>
        ensures { option_map (λ e. view e) result ≡ get name.now (view self.now) }
    {
        let mut members = self.as_object()?;
        let mut found = None;
        'members: while let Some((key, member)) = members.next_member() {
            if key == name {
                found = Some(member);
            }
        }
        found
    }

    /// An item by its place, where this is an array. It walks the items before it.
    pub fn at(&self, place: usize) -> Option<Element<'a>>
        ensures { option_map (λ e. view e) result ≡ at place (view self.now) }
    {
        let mut items = self.as_array()?;
        let mut left = place;
        'items: while left > 0 {
            let _passed = items.next()?;
            left -= 1;
        }
        items.next()
    }

    /// How many nodes there are from its first one on. Of two elements of a tree the later one has fewer.
    pub fn left(&self) -> usize
        ensures { result ≡ length self.now.1 }
    {
        self.nodes.len()
    }
}
