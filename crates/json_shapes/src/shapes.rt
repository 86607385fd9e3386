//! What the readers of JSON values share.
ghost use Rattle.std.specs.Prelude.{◌≡◌, ◌++◌, Some, is_some};
ghost use Rattle.std.specs.Prelude as spec;
ghost use Rattle.serde_json.specs.Data.{Data};
ghost use Rattle.serde_json.specs.Find.{get, as_null, as_str, as_bool};
ghost use Rattle.serde_json.specs.View.{items_of};
ghost use Rattle.json_tree.specs.View.{view, items_in};
ghost use Rattle.json_shapes.specs.Shapes.{ReadsExactly, Reads, each_item, list_of, natural_of, required, nullable, optional, list_or_empty, unless_absent, list_unless_absent, nothing_in, has_items, filled};

use crate::errors::OtherShape;
use json_tree::{Element, Items};
use list_types::{List, Refusal};
use name_index::Name;
use std::alloc::Global;

/// What is read of a JSON value of a shape.
pub trait FromJson<'a>: Drop {
    ghost shape: { Data → spec.Option Self };

    fn from_json(alloc: Global, value: &Element<'a>) -> Result<Self, Refusal<OtherShape>>
        ensures { Reads result (shape (view value.now)) };

    /// Whether room is taken for a value before it is read. No answer is wrong; one that no value meets which takes few bytes of
    /// JSON keeps lists of values that are refused from taking much memory.
    fn may_be(value: &Element<'a>) -> bool;
}

impl<'a> FromJson<'a> for () {
    ghost shape = { as_null };

    fn from_json(_alloc: Global, value: &Element<'a>) -> Result<(), Refusal<OtherShape>> {
        if value.is_null() {
            Ok(())
        } else {
            Err(Refusal::For(OtherShape))
        }
    }

    fn may_be(value: &Element<'a>) -> bool {
        value.is_null()
    }
}

impl<'a> FromJson<'a> for bool {
    ghost shape = { as_bool };

    fn from_json(_alloc: Global, value: &Element<'a>) -> Result<bool, Refusal<OtherShape>> {
        match value.as_bool() {
            Some(truth) => Ok(truth),
            None => Err(Refusal::For(OtherShape)),
        }
    }

    fn may_be(value: &Element<'a>) -> bool {
        value.as_bool().is_some()
    }
}

impl<'a> FromJson<'a> for u64 {
    ghost shape = { natural_of };

    fn from_json(_alloc: Global, value: &Element<'a>) -> Result<u64, Refusal<OtherShape>> {
        match value.as_u64() {
            Some(number) => Ok(number),
            None => Err(Refusal::For(OtherShape)),
        }
    }

    fn may_be(value: &Element<'a>) -> bool {
        value.as_u64().is_some()
    }
}

impl<'a> FromJson<'a> for Name<'a> {
    ghost shape = { as_str };

    fn from_json(_alloc: Global, value: &Element<'a>) -> Result<Name<'a>, Refusal<OtherShape>> {
        match value.as_str() {
            Some(text) => Ok(Name::of(text)),
            None => Err(Refusal::For(OtherShape)),
        }
    }

    fn may_be(value: &Element<'a>) -> bool {
        value.as_str().is_some()
    }
}

fn room_for<'a, T: FromJson<'a>>(value: &Element<'a>) -> usize {
    let Some(mut items) = value.as_array() else {
        return 0;
    };
    let mut room = 0usize;
    'items: while let Some(item) = items.next() {
        if !T::may_be(&item) {
            return room;
        }
        room = room.saturating_add(1);
    }
    room
}

fn each_item<'a, T: FromJson<'a>>(
    alloc: Global,
    mut items: Items<'a>,
    room: usize,
) -> Result<List<T>, Refusal<OtherShape>>
    ensures { Reads result (each_item T.shape (items_of (items_in items.entry))) }
{
    let mut list = List::from_vec(Vec::with_capacity(alloc, room)?);
    'items: while let Some(item) = items.next() {
        let read = T::from_json(alloc, &item)?;
        list.push(read)?;
    }
    Ok(list)
}

/// A list takes the room of its items and no more, where each item may be one.
impl<'a, T: FromJson<'a>> FromJson<'a> for List<T> {
    ghost shape = { list_of T.shape };

    fn from_json(alloc: Global, value: &Element<'a>) -> Result<List<T>, Refusal<OtherShape>> {
        match value.as_array() {
            Some(items) => each_item(alloc, items, room_for::<T>(value)),
            None => Err(Refusal::For(OtherShape)),
        }
    }

    fn may_be(value: &Element<'a>) -> bool {
        value.is_array()
    }
}

/// Whether a member of a name is there.
pub fn has(value: &Element<'_>, name: &str) -> bool
    ensures { result ≡ is_some (get name.now (view value.now)) }
{
    value.get(name).is_some()
}

/// Whether an array begins with a text.
pub fn begins_with_text(value: &Element<'_>) -> bool {
    match value.at(0) {
        Some(item) => item.as_str().is_some(),
        None => false,
    }
}

/// A member that is there.
#[tactic(auto, unfolding(crate::specs::Shapes::required))]
pub fn required<'a, T: FromJson<'a>>(
    alloc: Global,
    value: &Element<'a>,
    name: &str,
) -> Result<T, Refusal<OtherShape>>
    ensures { Reads result (required T.shape name.now (view value.now)) }
{
    match value.get(name) {
        Some(inside) => T::from_json(alloc, &inside),
        None => Err(Refusal::For(OtherShape)),
    }
}

/// A member that may be absent or null.
#[tactic(auto, unfolding(crate::specs::Shapes::optional))]
pub fn optional<'a, T: FromJson<'a>>(
    alloc: Global,
    value: &Element<'a>,
    name: &str,
) -> Result<Option<T>, Refusal<OtherShape>>
    ensures { Reads result (optional T.shape name.now (view value.now)) }
{
    let Some(inside) = value.get(name) else {
        return Ok(None);
    };
    if inside.is_null() {
        return Ok(None);
    }
    let item = T::from_json(alloc, &inside)?;
    Ok(Some(item))
}

/// An array that counts as empty where it is absent or null.
#[tactic(auto, unfolding(crate::specs::Shapes::list_or_empty))]
pub fn list_or_empty<'a, T: FromJson<'a>>(
    alloc: Global,
    value: &Element<'a>,
    name: &str,
) -> Result<List<T>, Refusal<OtherShape>>
    ensures { Reads result (list_or_empty T.shape name.now (view value.now)) }
{
    match optional(alloc, value, name)? {
        Some(list) => Ok(list),
        None => Ok(List::new(alloc)),
    }
}

/// A member that is null.
#[tactic(auto, unfolding(crate::specs::Shapes::required))]
pub fn null(value: &Element<'_>, name: &str) -> Result<(), OtherShape>
    ensures { ReadsExactly result (required as_null name.now (view value.now)) }
{
    match value.get(name) {
        Some(inside) => {
            if inside.is_null() {
                Ok(())
            } else {
                Err(OtherShape)
            }
        }
        None => Err(OtherShape),
    }
}

impl<'a, T: FromJson<'a>> FromJson<'a> for Option<T> {
    ghost shape = { nullable T.shape };

    fn from_json(alloc: Global, value: &Element<'a>) -> Result<Option<T>, Refusal<OtherShape>> {
        if value.is_null() {
            return Ok(None);
        }
        let item = T::from_json(alloc, value)?;
        Ok(Some(item))
    }

    fn may_be(value: &Element<'a>) -> bool {
        value.is_null() || T::may_be(value)
    }
}

/// A member that may be absent, but not null.
#[tactic(auto, unfolding(crate::specs::Shapes::unless_absent))]
pub fn unless_absent<'a, T: FromJson<'a>>(
    alloc: Global,
    value: &Element<'a>,
    name: &str,
) -> Result<Option<T>, Refusal<OtherShape>>
    ensures { Reads result (unless_absent T.shape name.now (view value.now)) }
{
    let Some(inside) = value.get(name) else {
        return Ok(None);
    };
    let item = T::from_json(alloc, &inside)?;
    Ok(Some(item))
}

/// An array that counts as empty where it is absent, but not null.
#[tactic(auto, unfolding(crate::specs::Shapes::list_unless_absent))]
pub fn list_unless_absent<'a, T: FromJson<'a>>(
    alloc: Global,
    value: &Element<'a>,
    name: &str,
) -> Result<List<T>, Refusal<OtherShape>>
    ensures { Reads result (list_unless_absent T.shape name.now (view value.now)) }
{
    match unless_absent(alloc, value, name)? {
        Some(list) => Ok(list),
        None => Ok(List::new(alloc)),
    }
}

/// A list that is absent or empty.
#[tactic(auto, unfolding(crate::specs::Shapes::nothing_in))]
pub fn nothing_in(value: &Element<'_>, name: &str) -> Result<(), OtherShape>
    ensures { ReadsExactly result (nothing_in name.now (view value.now)) }
{
    if has_items(value, name) {
        return Err(OtherShape);
    }
    match value.get(name) {
        None => Ok(()),
        Some(inside) => {
            if inside.is_array() {
                Ok(())
            } else {
                Err(OtherShape)
            }
        }
    }
}

/// Whether there is a list with an item.
#[tactic(auto, unfolding(crate::specs::Shapes::has_items), using(crate::proofs::Counts::are_there_items))]
pub fn has_items(value: &Element<'_>, name: &str) -> bool
    ensures { result ≡ has_items name.now (view value.now) }
{
    match value.get(name) {
        None => false,
        Some(inside) => match inside.as_array() {
            None => false,
            Some(items) => items.len() != 0,
        },
    }
}

/// Whether there is a list with an item, where a list stands there at all.
#[tactic(auto, unfolding(crate::specs::Shapes::filled))]
pub fn filled(value: &Element<'_>, name: &str) -> Result<bool, OtherShape>
    ensures { ReadsExactly result (filled name.now (view value.now)) }
{
    let has = has_items(value, name);
    match value.get(name) {
        None => Ok(has),
        Some(inside) => {
            if inside.is_array() {
                Ok(has)
            } else {
                Err(OtherShape)
            }
        }
    }
}
