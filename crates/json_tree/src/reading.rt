//! From a text to a tree: its tokens are counted first, so that no room is taken in vain.
ghost use Rattle.std.specs.Prelude.{◌≡◌, ◌+◌, ◌-◌, ◌<◌, ◌++◌, [], ◌∷◌, length, slice_set, Some, None, IfOk, IfErr, OnOk, string_bytes};
ghost use Rattle.json.specs.Reads.{token_of};
ghost use Rattle.json.specs.Json.{value};
ghost use Rattle.serde_json.specs.Data.{null, boolean, number, string};
ghost use Rattle.serde_json.specs.Read.{of_json, converted, number_of, read as read_text};
ghost use Rattle.list_types.specs.declared.memory.Refusal.TheVariants as refusals;
ghost use Rattle.json_tree.specs.Nodes.{number_or, IsElement};
ghost use Rattle.json_tree.specs.View.{view};
ghost use Rattle.json_tree.specs.Building.{GrownBy, Takes, leaf_of, AddsLeaf, items_read, members_read, ReadsValue, ReadsArray, ReadsItems, ReadsObject, ReadsMembers};

use crate::node::Node;
use crate::number;
use crate::packed::PackedNode;
use crate::tree::Tree;
use json::{Reader, Scratch, Token};
use list_types::Refusal;
use std::alloc::Global;

/// How deep arrays and objects may nest.
const MAX_DEPTH: usize = 127;

/// The text is no JSON, or it nests too deep, or a number in it is too large.
#[derive(Clone, Copy, Debug, Drop)]
pub struct NotJson;

/// How much room a tree takes.
#[derive(Clone, Copy, Drop)]
struct Room {
    bytes: usize,
    nodes: usize,
}

impl Room {
    fn with(self, token: Token<'_>) -> Room {
        let (bytes, nodes) = match token {
            Token::EndObject | Token::EndArray | Token::Bad => (0, 0),
            Token::Key(text) | Token::String(text) | Token::Number(text) => (text.len(), 1),
            Token::BeginObject | Token::BeginArray | Token::Bool(_) | Token::Null => (0, 1),
        };
        Room {
            bytes: self.bytes.saturating_add(bytes),
            nodes: self.nodes.saturating_add(nodes),
        }
    }
}

fn room_of(text: &str, scratch: &mut Scratch) -> Result<Room, Refusal<NotJson>>
    ensures err { IfErr result (λ e. e ≡ refusals.NoMemory) }
{
    let mut reader = Reader::new(text, scratch)?;
    let mut room = Room { bytes: 0, nodes: 0 };
    'tokens: while let Some(token) = reader.next() {
        room = room.with(token);
    }
    Ok(room)
}

/// What there is of a tree.
#[derive(Drop)]
pub struct Building {
    text: String,
    nodes: Vec<PackedNode>,
}

fn place(len: usize) -> Result<u32, Refusal<NotJson>>
    ensures ok { IfOk result (λ place. place ≡ len) }
    ensures err { IfErr result (λ e. e ≡ refusals.NoMemory) }
{
    match u32::try_from(len) {
        Ok(place) => Ok(place),
        Err(_) => Err(Refusal::NoMemory),
    }
}

fn one_more(count: u32) -> Result<u32, Refusal<NotJson>>
    ensures ok { IfOk result (λ more. more ≡ count + 1) }
    ensures err { IfErr result (λ e. e ≡ refusals.NoMemory) }
{
    match count.checked_add(1) {
        Some(more) => Ok(more),
        None => Err(Refusal::NoMemory),
    }
}

impl Building {
    fn with_room(alloc: Global, room: Room) -> Result<Building, Refusal<NotJson>>
        ensures ok { IfOk result (λ building. (string_bytes building.text ≡ []) × (building.nodes.items ≡ [])) }
        ensures err { IfErr result (λ e. e ≡ refusals.NoMemory) }
    {
        let text = String::with_capacity(alloc, room.bytes)?;
        let nodes = Vec::with_capacity(alloc, room.nodes)?;
        Ok(Building { text, nodes })
    }

    fn push(&mut self, node: Node) -> Result<(), Refusal<NotJson>>
        ensures ok { OnOk result (self.new.nodes.items ≡ self.old.nodes.items ++ node ∷ []) }
        ensures text { string_bytes self.new.text ≡ string_bytes self.old.text }
        ensures err { IfErr result (λ e. e ≡ refusals.NoMemory) }
    {
        self.nodes.push(PackedNode::of(node)?)?;
        Ok(())
    }

    fn say(&mut self, text: &str) -> Result<(u32, u32), Refusal<NotJson>>
        ensures text { OnOk result (string_bytes self.new.text ≡ string_bytes self.old.text ++ text.now) }
        ensures start { IfOk result (λ places. places.0 ≡ length (string_bytes self.old.text)) }
        ensures end { IfOk result (λ places. places.1 ≡ length (string_bytes self.old.text) + length text.now) }
        ensures nodes { self.new.nodes.items ≡ self.old.nodes.items }
        ensures err { IfErr result (λ e. e ≡ refusals.NoMemory) }
    {
        let start = place(self.text.len())?;
        self.text.push_str(text)?;
        let end = place(self.text.len())?;
        Ok((start, end))
    }

    #[tactic(auto, using(crate::proofs::Growing::grown_null))]
    fn add_null(&mut self) -> Result<(), Refusal<NotJson>>
        ensures ok { OnOk result (GrownBy self.old self.new (null ∷ [])) }
        ensures err { IfErr result (λ e. e ≡ refusals.NoMemory) }
    {
        self.push(Node::Null)
    }

    #[tactic(auto, using(crate::proofs::Growing::grown_truth))]
    fn add_truth(&mut self, truth: bool) -> Result<(), Refusal<NotJson>>
        ensures ok { OnOk result (GrownBy self.old self.new (boolean truth ∷ [])) }
        ensures err { IfErr result (λ e. e ≡ refusals.NoMemory) }
    {
        self.push(Node::Bool(truth))
    }

    #[tactic(auto, using(crate::proofs::Growing::grown_text))]
    fn add_text(&mut self, text: &str) -> Result<(), Refusal<NotJson>>
        ensures ok { OnOk result (GrownBy self.old self.new (string text.now ∷ [])) }
        ensures err { IfErr result (λ e. e ≡ refusals.NoMemory) }
    {
        let (start, end) = self.say(text)?;
        self.push(Node::Text { start, end })
    }

    #[tactic(auto, using(crate::proofs::Growing::grown_number))]
    fn add_number(&mut self, text: &str) -> Result<(), Refusal<NotJson>>
        ensures ok { OnOk result (GrownBy self.old self.new (number (number_or (number_of text.now)) ∷ [])) }
        ensures err { IfErr result (λ e. e ≡ refusals.NoMemory) }
    {
        let (start, end) = self.say(text)?;
        self.push(Node::Number { start, end })
    }
}

impl Building {
    ghost use Rattle.json_tree.specs.declared.node.Node.TheVariants as nodes;

    fn inside(&self, at: usize) -> Result<u32, Refusal<NotJson>>
        requires { at < length self.now.nodes.items }
        ensures ok { IfOk result (λ inside. inside ≡ length self.now.nodes.items - at - 1) }
        ensures err { IfErr result (λ e. e ≡ refusals.NoMemory) }
    {
        place(self.nodes.len() - at - 1)
    }

    /// Writes the node of an array at its place.
    fn close_array(&mut self, at: usize, count: u32) -> Result<(), Refusal<NotJson>>
        requires { at < length self.old.nodes.items }
        ensures ok { OnOk result (self.new.nodes.items ≡ slice_set self.old.nodes.items at (nodes.Array count (length self.old.nodes.items - at - 1))) }
        ensures text { string_bytes self.new.text ≡ string_bytes self.old.text }
        ensures err { IfErr result (λ e. e ≡ refusals.NoMemory) }
    {
        let inside = self.inside(at)?;
        let node = PackedNode::of(Node::Array { count, inside })?;
        self.nodes[at] = node;
        Ok(())
    }

    /// Writes the node of an object at its place.
    fn close_object(&mut self, at: usize, count: u32) -> Result<(), Refusal<NotJson>>
        requires { at < length self.old.nodes.items }
        ensures ok { OnOk result (self.new.nodes.items ≡ slice_set self.old.nodes.items at (nodes.Object count (length self.old.nodes.items - at - 1))) }
        ensures text { string_bytes self.new.text ≡ string_bytes self.old.text }
        ensures err { IfErr result (λ e. e ≡ refusals.NoMemory) }
    {
        let inside = self.inside(at)?;
        let node = PackedNode::of(Node::Object { count, inside })?;
        self.nodes[at] = node;
        Ok(())
    }
}

/// Adds the value of a token by itself.
#[tactic(auto, using(crate::proofs::Values::adds_leaf, crate::proofs::Values::number_is_leaf, crate::proofs::Values::number_is_none))]
fn read_leaf(building: &mut Building, token: Token<'_>) -> Result<(), Refusal<NotJson>>
    ensures { Takes result (λ _. AddsLeaf (token_of token.entry) building.old building.new) (leaf_of (token_of token.entry) ≡ None) }
{
    match token {
        Token::String(text) => building.add_text(text),
        Token::Number(text) => {
            if !number::is_number(text) {
                return Err(Refusal::For(NotJson));
            }
            building.add_number(text)
        }
        Token::Bool(truth) => building.add_truth(truth),
        Token::Null => building.add_null(),
        _ => Err(Refusal::For(NotJson)),
    }
}

#[cycle(read)]
#[tactic(auto, using(crate::proofs::Values::no_token))]
fn read(
    building: &mut Building,
    reader: &mut Reader<'_>,
    depth: usize,
) -> Result<(), Refusal<NotJson>>
    ensures { Takes result (λ _. ReadsValue depth building.old building.new reader.old reader.new)
        (converted of_json (value depth reader.old) ≡ None) }
{
    let Some(token) = reader.next() else {
        return Err(Refusal::For(NotJson));
    };
    match token {
        Token::BeginArray => {
            if depth == 0 {
                return Err(Refusal::For(NotJson));
            }
            read_array(building, reader, depth - 1)
        }
        Token::BeginObject => {
            if depth == 0 {
                return Err(Refusal::For(NotJson));
            }
            read_object(building, reader, depth - 1)
        }
        _ => read_leaf(building, token),
    }
}

#[cycle(read)]
fn read_array(
    building: &mut Building,
    reader: &mut Reader<'_>,
    depth: usize,
) -> Result<(), Refusal<NotJson>>
    ensures { Takes result (λ _. ReadsArray depth building.old building.new reader.old reader.new)
        (items_read depth reader.old ≡ None) }
{
    let at = building.nodes.len();
    building.push(Node::Null)?;
    let count = read_items(building, reader, depth)?;
    building.close_array(at, count)
}

#[cycle(read)]
fn read_items(
    building: &mut Building,
    reader: &mut Reader<'_>,
    depth: usize,
) -> Result<u32, Refusal<NotJson>>
    ensures { Takes result (λ count. ReadsItems depth building.old building.new reader.old reader.new count)
        (items_read depth reader.old ≡ None) }
{
    let mut count = 0;
    'items: while !reader.take_end_array() {
        read(building, reader, depth)?;
        count = one_more(count)?;
    }
    Ok(count)
}

#[cycle(read)]
fn read_object(
    building: &mut Building,
    reader: &mut Reader<'_>,
    depth: usize,
) -> Result<(), Refusal<NotJson>>
    ensures { Takes result (λ _. ReadsObject depth building.old building.new reader.old reader.new)
        (members_read depth reader.old ≡ None) }
{
    let at = building.nodes.len();
    building.push(Node::Null)?;
    let count = read_members(building, reader, depth)?;
    building.close_object(at, count)
}

#[cycle(read)]
fn read_members(
    building: &mut Building,
    reader: &mut Reader<'_>,
    depth: usize,
) -> Result<u32, Refusal<NotJson>>
    ensures { Takes result (λ count. ReadsMembers depth building.old building.new reader.old reader.new count)
        (members_read depth reader.old ≡ None) }
{
    let mut count = 0;
    'members: loop {
        let Ok(key) = reader.next_key() else {
            return Err(Refusal::For(NotJson));
        };
        let Some(name) = key else {
            return Ok(count);
        };
        building.add_text(name)?;
        read(building, reader, depth)?;
        count = one_more(one_more(count)?)?;
    }
}

fn read_all(
    building: &mut Building,
    text: &str,
    scratch: &mut Scratch,
) -> Result<(), Refusal<NotJson>>
    requires { (string_bytes building.old.text ≡ []) × (building.old.nodes.items ≡ []) }
    ensures { Takes result (λ _. IsElement (string_bytes building.new.text) building.new.nodes.items
        × (read_text text.now ≡ Some (view (string_bytes building.new.text, building.new.nodes.items)))) (read_text text.now ≡ None) }
{
    let mut reader = Reader::new(text, scratch)?;
    read(building, &mut reader, MAX_DEPTH)?;
    if reader.next().is_some() {
        return Err(Refusal::For(NotJson));
    }
    Ok(())
}

impl Tree {
    /// The tree of a JSON text. A text of 512 MiB or more may be refused as for want of memory, as where so much of it is strings
    /// and numbers, or where an array has 2^29 items.
    pub fn read(alloc: Global, text: &str) -> Result<Tree, Refusal<NotJson>>
        ensures { Takes result (λ tree. read_text text.now ≡ Some (view tree)) (read_text text.now ≡ None) }
    {
        let mut scratch = Scratch::new(alloc);
        let room = room_of(text, &mut scratch)?;
        let mut building = Building::with_room(alloc, room)?;
        read_all(&mut building, text, &mut scratch)?;
        Ok(Tree::of(building.text, building.nodes))
    }
}
