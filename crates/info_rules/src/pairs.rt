//! Pairs of ids that two kinds of objects give: one kind a pair an object, the other one for each object that it names. A
//! message can name the same objects over and over in a byte each, so the pairs of that kind are never all held.
ghost use Rattle.std.specs.Prelude.{◌≡◌, ℕ, not, Some, IfSome, OnOk, map};
ghost use Rattle.std.specs.Prelude as spec;
ghost use Rattle.std.specs.List.{flat_map, list_any};
ghost use Rattle.std.specs.Set.{is_member};
ghost use Rattle.wire_messages.specs.Answers.{ReadsInMemory};
ghost use Rattle.p4v1_read.specs.Nested.{all_at};
ghost use Rattle.info_rules.specs.Objects.{id_of};
ghost use Rattle.info_rules.specs.Rules.{lacks_some, differ, same_pair};
ghost use Rattle.info_rules.specs.Pairs.{joined, named_pairs};

use crate::asking::{Question, any};
use crate::kinds::Kind;
use crate::opened::opened;
use list_types::{NoMemory, Refusal};
use std::alloc::Global;
use std::collections::BTreeSet;
use wire_messages::{Message, Unreadable};

/// An object that names others by their ids.
pub(crate) trait Naming: Kind {
    ghost named_ids: { Self → spec.List ℕ };

    ghost paired: { ℕ → ℕ → ℕ × ℕ };

    /// The ids of those that it names.
    fn named(alloc: Global, message: &Message<'_>) -> Result<Vec<u32>, Refusal<Unreadable>>
        ensures { IfSome (Self.meaning message.now) (λ object. ReadsInMemory (λ list. list.items) result (Some (named_ids object))) };

    /// The object's own id and one that it names, in the order of the pairs.
    fn pair(own: u32, named: u32) -> (u32, u32)
        ensures { result ≡ paired own named };
}

#[tactic(auto, using(crate::proofs::Joined::by_order))]
fn has(pairs: &BTreeSet<(u32, u32)>, pair: (u32, u32)) -> bool
    ensures { result ≡ is_member same_pair pairs.now.keys pair }
{
    pairs.contains(&pair)
}

fn lacks(pairs: &BTreeSet<(u32, u32)>, parts: &[(u32, u32)]) -> bool
    ensures { result ≡ lacks_some same_pair pairs.now.keys parts.now }
{
    parts.iter().any(|part| !has(pairs, *part))
}

fn lacks_named<N: Naming>(pairs: &BTreeSet<(u32, u32)>, own: u32, named: &[u32]) -> bool
    ensures { result ≡ list_any (λ x. not (is_member same_pair pairs.now.keys (N.paired own x))) named.now }
{
    named.iter().any(|id| !has(pairs, N::pair(own, *id)))
}

fn put(pairs: &mut BTreeSet<(u32, u32)>, given: &[(u32, u32)]) -> Result<(), NoMemory>
    ensures { OnOk result (pairs.new.keys ≡ joined pairs.old.keys given.now) }
{
    for pair in given {
        pairs.insert(*pair)?;
    }
    Ok(())
}

#[tactic(auto, using(crate::proofs::Joined::joined_map))]
fn put_named<N: Naming>(
    pairs: &mut BTreeSet<(u32, u32)>,
    own: u32,
    named: &[u32],
) -> Result<(), NoMemory>
    ensures { OnOk result (pairs.new.keys ≡ joined pairs.old.keys (map (N.paired own) named.now)) }
{
    for id in named {
        pairs.insert(N::pair(own, *id))?;
    }
    Ok(())
}

/// Whether an object names one with which it is no pair of a set.
#[derive(Clone, Copy)]
struct NamesOther<'a> {
    known: &'a BTreeSet<(u32, u32)>,
}

impl<N: Naming> Question<N> for NamesOther<'_> {
    ghost meaning = { N.meaning };

    ghost answer = { λ other object. lacks_some same_pair other.known.now.keys (named_pairs N.paired (id_of (N.given object)) (N.named_ids object)) };

    fn ask(&self, alloc: Global, message: &Message<'_>) -> Result<bool, Refusal<Unreadable>> {
        let own = N::id(message)?;
        let named = N::named(alloc, message)?;
        Ok(lacks_named::<N>(self.known, own, named.as_slice()))
    }
}

fn put_pairs<N: Naming>(
    alloc: Global,
    pairs: &mut BTreeSet<(u32, u32)>,
    message: &Message<'_>,
) -> Result<(), Refusal<Unreadable>>
    ensures { IfSome (N.meaning message.now) (λ object. ReadsInMemory (λ _. pairs.new.keys) result
        (Some (joined pairs.old.keys (named_pairs N.paired (id_of (N.given object)) (N.named_ids object))))) }
{
    let own = N::id(message)?;
    let named = N::named(alloc, message)?;
    put_named::<N>(pairs, own, named.as_slice())?;
    Ok(())
}

#[tactic(auto, unfolding(p4v1_read::specs::Nested::all_at, wire_messages::specs::Message::messages_at))]
fn put_all<N: Naming>(
    alloc: Global,
    pairs: &mut BTreeSet<(u32, u32)>,
    message: &Message<'_>,
    number: u32,
) -> Result<(), Refusal<Unreadable>>
    ensures { IfSome (all_at N.meaning number message.now) (λ all. ReadsInMemory (λ _. pairs.new.keys) result
        (Some (joined pairs.old.keys (flat_map (λ object. named_pairs N.paired (id_of (N.given object)) (N.named_ids object)) all)))) }
{
    let mut left = message.messages(number);
    'messages: while let Some(bytes) = left.next()? {
        put_pairs::<N>(alloc, pairs, &opened(bytes)?)?;
    }
    Ok(())
}

// Whether an object in a field names one with which it is no pair of these.
fn names_other<N: Naming>(
    alloc: Global,
    given: &[(u32, u32)],
    message: &Message<'_>,
    number: u32,
) -> Result<bool, Refusal<Unreadable>>
    ensures { IfSome (all_at N.meaning number message.now) (λ all. ReadsInMemory (λ x. x) result
        (Some (lacks_some same_pair given.now (flat_map (λ object. named_pairs N.paired (id_of (N.given object)) (N.named_ids object)) all)))) }
{
    let mut known = BTreeSet::new(alloc);
    put(&mut known, given)?;
    any::<N, NamesOther>(&NamesOther { known: &known }, alloc, message, number)
}

// Whether one of these pairs is none of an object in a field and one that it names. Each pair of those is held once.
fn names_none_of<N: Naming>(
    alloc: Global,
    given: &[(u32, u32)],
    message: &Message<'_>,
    number: u32,
) -> Result<bool, Refusal<Unreadable>>
    ensures { IfSome (all_at N.meaning number message.now) (λ all. ReadsInMemory (λ x. x) result
        (Some (lacks_some same_pair (flat_map (λ object. named_pairs N.paired (id_of (N.given object)) (N.named_ids object)) all) given.now))) }
{
    let mut named = BTreeSet::new(alloc);
    put_all::<N>(alloc, &mut named, message, number)?;
    Ok(lacks(&named, given))
}

/// Whether these pairs are not those of the objects in a field and those that they name. What that takes grows with these
/// pairs and with the ids that one object names.
pub(crate) fn pairs_differ<N: Naming>(
    alloc: Global,
    given: &[(u32, u32)],
    message: &Message<'_>,
    number: u32,
) -> Result<bool, Refusal<Unreadable>>
    ensures { IfSome (all_at N.meaning number message.now) (λ all. ReadsInMemory (λ x. x) result
        (Some (differ same_pair given.now (flat_map (λ object. named_pairs N.paired (id_of (N.given object)) (N.named_ids object)) all)))) }
{
    Ok(
        // No more pairs are held by the second than are given, once the first has found none that is not given.
        names_other::<N>(alloc, given, message, number)?
            || names_none_of::<N>(alloc, given, message, number)?,
    )
}
