//! Arrays of a known number of items.
ghost use Rattle.std.specs.Prelude.{◌≡◌, Some};
ghost use Rattle.json_tree.specs.View.{view};
ghost use Rattle.json_shapes.specs.Shapes.{ReadsExactly, Reads};
ghost use Rattle.json_shapes.specs.Arrays.{item_count, item_at, of_count, only_of};

use crate::errors::OtherShape;
use crate::shapes::FromJson;
use json_tree::Element;
use list_types::Refusal;
use std::alloc::Global;

/// How many items an array has.
#[tactic(auto, unfolding(crate::specs::Arrays::item_count), using(crate::proofs::Counts::count_of_items))]
pub fn item_count(value: &Element<'_>) -> Result<usize, OtherShape>
    ensures { ReadsExactly result (item_count (view value.now)) }
{
    match value.as_array() {
        Some(items) => Ok(items.len()),
        None => Err(OtherShape),
    }
}

/// An item of an array.
#[tactic(auto, unfolding(crate::specs::Arrays::item_at))]
pub fn item_at<'a, T: FromJson<'a>>(
    alloc: Global,
    value: &Element<'a>,
    place: usize,
) -> Result<T, Refusal<OtherShape>>
    ensures { Reads result (item_at T.shape place (view value.now)) }
{
    match value.at(place) {
        Some(item) => T::from_json(alloc, &item),
        None => Err(Refusal::For(OtherShape)),
    }
}

/// Refuses another number of items than is wanted.
pub fn of_count(wanted: usize, count: usize) -> Result<(), OtherShape>
    ensures { ReadsExactly result (of_count wanted count (Some tt)) }
{
    if count == wanted {
        Ok(())
    } else {
        Err(OtherShape)
    }
}

/// The one item of an array.
#[derive(Drop)]
pub struct Only<T> {
    pub only: T,
}

impl<'a, T: FromJson<'a>> FromJson<'a> for Only<T> {
    ghost shape = { only_of T.shape };

    #[tactic(auto, unfolding(crate::specs::Arrays::only_of))]
    fn from_json(alloc: Global, value: &Element<'a>) -> Result<Only<T>, Refusal<OtherShape>> {
        let count = item_count(value)?;
        of_count(1, count)?;
        let only = item_at(alloc, value, 0)?;
        Ok(Only { only })
    }

    fn may_be(value: &Element<'a>) -> bool {
        value.is_array()
    }
}
