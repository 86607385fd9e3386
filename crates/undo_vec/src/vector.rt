//! The vector.
ghost use Rattle.std.specs.Prelude.{◌≡◌, ◌≤◌, ◌<◌, ◌++◌, [], ◌∷◌, length, set, vec_len, vec_capacity, OnOk, OnErr};
ghost use Rattle.std.specs.List.{insert, remove};
ghost use Rattle.undo_vec.specs.Undo.{back, backs, Fits, CanUndo};

use crate::edit::Edit;
use list_types::NoMemory;
use std::alloc::Global;
use std::marker::Model;
use std::mem;

/// A vector whose edits can be undone. Contracts see what it holds, and what it held before the edits that can
/// be undone: those since it was opened, settled or undone. A refused edit leaves it as it was.
#[derive(Drop)]
pub struct UndoVec<T> {
    items: Vec<T>,
    log: Vec<Edit<T>>,
}

impl<T> Model for UndoVec<T> {
    ghost use Rattle.std.specs.Prelude.{vec_capacity};
    ghost use Rattle.undo_vec.specs.Undo.{Versions, backs, CanUndo};

    ghost Value = { Versions T };

    ghost view = { λ v. record { items = v.items.items; before = backs v.log.items v.items.items } };

    ghost invariant = { λ v. CanUndo v.log.items v.items.items (vec_capacity v.items) };
}

// Makes room for one edit more.
fn reserve<T>(log: &mut Vec<Edit<T>>) -> Result<(), NoMemory>
    ensures items { log.new.items ≡ log.old.items }
    ensures ok { OnOk result (vec_len log.new < vec_capacity log.new) }
{
    log.reserve(1)?;
    Ok(())
}

// Adds an edit, for which there is room.
fn push<T: Drop>(log: &mut Vec<Edit<T>>, edit: Edit<T>)
    requires { vec_len log.old < vec_capacity log.old }
    ensures { log.new.items ≡ log.old.items ++ edit ∷ [] }
{
    let _ = log.push(edit);
}

fn undo_one<T: Drop>(items: &mut Vec<T>, edit: Edit<T>)
    requires { Fits edit items.old.items (vec_capacity items.old) }
    ensures items { items.new.items ≡ back edit items.old.items }
    ensures capacity { vec_capacity items.old ≤ vec_capacity items.new }
{
    match edit {
        Edit::Inserted(place) => {
            items.remove(place);
        }
        Edit::Replaced(place, item) => items[place] = item,
        Edit::Removed(place, item) => {
            let _ = items.insert(place, item);
        }
    }
}

impl<T: Drop> UndoVec<T> {
    /// A vector of no items, which takes no memory.
    pub fn new(alloc: Global) -> UndoVec<T>
        ensures { result ≡ record { items = []; before = [] } }
    {
        UndoVec {
            items: Vec::new(alloc),
            log: Vec::new(alloc),
        }
    }

    /// The items as they are now, in order.
    pub fn as_slice(&self) -> &[T]
        ensures { result.now ≡ self.now.items }
    {
        self.items.as_slice()
    }

    /// How many items there are now.
    pub fn len(&self) -> usize
        ensures { result ≡ length self.now.items }
    {
        self.items.len()
    }

    /// Adds an item at the end.
    pub fn push(&mut self, item: T) -> Result<(), NoMemory>
        ensures ok { OnOk result (self.new.items ≡ self.old.items ++ item ∷ []) }
        ensures err { OnErr result (self.new.items ≡ self.old.items) }
        ensures before { self.new.before ≡ self.old.before }
    {
        let place = self.items.len();
        reserve(&mut self.log)?;
        self.items.push(item)?;
        push(&mut self.log, Edit::Inserted(place));
        Ok(())
    }

    /// Adds an item before the one at a place, or at the end.
    pub fn insert(&mut self, place: usize, item: T) -> Result<(), NoMemory>
        requires { place ≤ length self.old.items }
        ensures ok { OnOk result (self.new.items ≡ insert self.old.items place item) }
        ensures err { OnErr result (self.new.items ≡ self.old.items) }
        ensures before { self.new.before ≡ self.old.before }
    {
        reserve(&mut self.log)?;
        self.items.insert(place, item)?;
        push(&mut self.log, Edit::Inserted(place));
        Ok(())
    }

    /// Puts an item in the place of another.
    pub fn replace(&mut self, place: usize, item: T) -> Result<(), NoMemory>
        requires { place < length self.old.items }
        ensures ok { OnOk result (self.new.items ≡ set self.old.items place item) }
        ensures err { OnErr result (self.new.items ≡ self.old.items) }
        ensures before { self.new.before ≡ self.old.before }
    {
        reserve(&mut self.log)?;
        let former = mem::replace(&mut self.items[place], item);
        push(&mut self.log, Edit::Replaced(place, former));
        Ok(())
    }

    /// Removes the item at a place.
    pub fn remove(&mut self, place: usize) -> Result<(), NoMemory>
        requires { place < length self.old.items }
        ensures ok { OnOk result (self.new.items ≡ remove self.old.items place) }
        ensures err { OnErr result (self.new.items ≡ self.old.items) }
        ensures before { self.new.before ≡ self.old.before }
    {
        reserve(&mut self.log)?;
        let former = self.items.remove(place);
        push(&mut self.log, Edit::Removed(place, former));
        Ok(())
    }

    /// Keeps all edits: they can no longer be undone. It takes no memory, and writes nothing where there is none, so that a thread
    /// which reads what stands beside it need not fetch that anew.
    pub fn settle(&mut self)
        ensures items { self.new.items ≡ self.old.items }
        ensures before { self.new.before ≡ self.old.items }
    {
        if !self.log.is_empty() {
            self.log.clear();
        }
    }

    /// Undoes all edits. It takes no memory.
    pub fn undo(&mut self)
        ensures items { self.new.items ≡ self.old.before }
        ensures before { self.new.before ≡ self.old.before }
    {
        while let Some(edit) = self.log.pop() {
            undo_one(&mut self.items, edit);
        }
    }
}
