//! Places in buckets.
ghost use Rattle.std.specs.Prelude.{◌≡◌, ℕ, suc, ◌+◌, ◌<◌, ◌≤◌, None, Some, true, is_some, replicate, length, IfOk, IfSome, IsSome, slice_set, vec_len};
ghost use Rattle.row_index.specs.Places.{Buckets, place_at, in_bucket};
ghost use Rattle.row_index.specs.Reach.{reach};
ghost use Rattle.row_index.specs.Aims.{aim_head, aim_link, bound, IsAbove};

use crate::placed::Placed;
use list_types::NoMemory;
use std::alloc::Global;
use std::marker::Model;

/// A fixed number of places, at each of which something is linked in one of a fixed number of buckets, or nothing. The places
/// of a bucket are walked from the greatest to the least. Only `open` takes memory.
#[derive(Drop)]
pub(crate) struct Chains {
    // For each bucket, one more than its greatest place, or 0.
    heads: Vec<u32>,
    // For each place at which something is linked, one more than the next place below in its bucket, or 0.
    links: Vec<u32>,
    places: Vec<Option<Placed>>,
}

impl Model for Chains {
    ghost use Rattle.std.specs.Prelude.{length};
    ghost use Rattle.row_index.specs.Places.{Buckets};
    ghost use Rattle.row_index.specs.Threads.{Threaded};

    ghost Value = { Buckets };

    ghost view = { λ chains. record { count = length chains.heads.items; places = chains.places.items } };

    ghost invariant = { λ chains. Threaded chains.heads.items chains.links.items chains.places.items };
}

fn zeros(alloc: Global, count: u32) -> Result<Vec<u32>, NoMemory>
    ensures { IfOk result (λ v. v.items ≡ replicate count 0) }
{
    let mut zeros = Vec::with_capacity(alloc, count as usize)?;
    for _ in 0..count {
        zeros.push(0)?;
    }
    Ok(zeros)
}

fn empty_places(alloc: Global, count: u32) -> Result<Vec<Option<Placed>>, NoMemory>
    ensures { IfOk result (λ v. v.items ≡ replicate count None) }
{
    let mut places = Vec::with_capacity(alloc, count as usize)?;
    for _ in 0..count {
        places.push(None)?;
    }
    Ok(places)
}

// What leads to a place of the bucket leads elsewhere from now on: the link of the place above it, or else the bucket's head.
fn aim(heads: &mut Vec<u32>, links: &mut Vec<u32>, bucket: u32, above: Option<u32>, to: u32)
    requires bucket { bucket < vec_len heads.old }
    requires above { IfSome above (λ place. place < vec_len links.old) }
    ensures heads { heads.new.items ≡ aim_head above bucket to heads.old.items }
    ensures links { links.new.items ≡ aim_link above to links.old.items }
{
    match above {
        Some(place) => links[place as usize] = to,
        None => heads[bucket as usize] = to,
    }
}

impl Chains {
    /// So many buckets and places. Nothing is linked.
    pub(crate) fn open(alloc: Global, buckets: u32, places: u32) -> Result<Chains, NoMemory>
        ensures { IfOk result (λ chains. chains ≡ record { count = buckets; places = replicate places None }) }
    {
        let heads = zeros(alloc, buckets)?;
        let links = zeros(alloc, places)?;
        let empty = empty_places(alloc, places)?;
        Ok(Chains {
            heads,
            links,
            places: empty,
        })
    }

    /// How many buckets there are.
    pub(crate) fn buckets(&self) -> u32
        ensures { result ≡ self.now.count }
    {
        self.heads.len() as u32
    }

    /// How many places there are.
    pub(crate) fn places(&self) -> u32
        ensures { result ≡ length self.now.places }
    {
        self.places.len() as u32
    }

    /// Whether something is linked at a place.
    pub(crate) fn is_used(&self, place: u32) -> bool
        ensures { result ≡ is_some (place_at self.now.places place) }
    {
        matches!(self.places.get(place as usize), Some(Some(_)))
    }

    /// What is linked at a place.
    pub(crate) fn at(&self, place: u32) -> Placed
        requires { IsSome (place_at self.now.places place) }
        ensures { place_at self.now.places place ≡ Some result }
    {
        match self.places[place as usize] {
            Some(placed) => placed,
            None => unreachable!(),
        }
    }

    /// One more than the greatest place of a bucket, or 0.
    pub(crate) fn end(&self, bucket: u32) -> u32
        requires { bucket < self.now.count }
        ensures { result ≡ reach (in_bucket self.now.places bucket) (length self.now.places) }
    {
        self.heads[bucket as usize]
    }

    /// One more than the greatest place of a bucket below one of its places, or 0.
    pub(crate) fn before(&self, bucket: u32, place: u32) -> u32
        requires { in_bucket self.now.places bucket place ≡ true }
        ensures { result ≡ reach (in_bucket self.now.places bucket) place }
    {
        let _ = bucket;
        self.links[place as usize]
    }

    // The least place of a bucket above a place.
    fn above(&self, bucket: u32, place: u32) -> Option<u32>
        requires bucket { bucket < self.now.count }
        requires place { place < length self.now.places }
        ensures { IsAbove (in_bucket self.now.places bucket) (length self.now.places) place result }
    {
        let mut above = None;
        let mut end = self.end(bucket);
        while end > 0 && end - 1 > place {
            above = Some(end - 1);
            end = self.before(bucket, end - 1);
        }
        above
    }

    // One more than the greatest place of the bucket below one of its places, or below all.
    fn below(&self, bucket: u32, above: Option<u32>) -> u32
        requires bucket { bucket < self.now.count }
        requires above { IfSome above (λ place. in_bucket self.now.places bucket place ≡ true) }
        ensures { result ≡ reach (in_bucket self.now.places bucket) (bound above (length self.now.places)) }
    {
        match above {
            Some(place) => self.before(bucket, place),
            None => self.end(bucket),
        }
    }

    /// Links something at a place where nothing is linked.
    pub(crate) fn link(&mut self, place: u32, placed: Placed)
        requires place { place < length self.old.places }
        requires free { place_at self.old.places place ≡ None }
        requires bucket { placed.bucket < self.old.count }
        ensures places { self.new.places ≡ slice_set self.old.places place (Some placed) }
        ensures count { self.new.count ≡ self.old.count }
    {
        let above = self.above(placed.bucket, place);
        let below = self.below(placed.bucket, above);
        self.links[place as usize] = below;
        aim(
            &mut self.heads,
            &mut self.links,
            placed.bucket,
            above,
            place + 1,
        );
        self.places[place as usize] = Some(placed);
    }

    /// Unlinks what is linked at a place.
    pub(crate) fn unlink(&mut self, place: u32) -> Placed
        requires { IsSome (place_at self.old.places place) }
        ensures placed { place_at self.old.places place ≡ Some result }
        ensures places { self.new.places ≡ slice_set self.old.places place None }
        ensures count { self.new.count ≡ self.old.count }
    {
        let placed = self.at(place);
        let above = self.above(placed.bucket, place);
        let below = self.before(placed.bucket, place);
        aim(
            &mut self.heads,
            &mut self.links,
            placed.bucket,
            above,
            below,
        );
        self.places[place as usize] = None;
        placed
    }
}
