//! The updates of a Write.
ghost use Rattle.std.specs.Prelude.{◌≡◌, IfOk, OnOk, fold};
ghost use Rattle.plane_spec.specs.Planes.{scope_of, outcome, state_after, outcomes};
ghost use Rattle.plane_image.specs.Image.{resolved};

use crate::image::Image;
use crate::scope::Scope;
use list_types::{List, NoMemory, Refusal};
use p4_types::code::{Cause, Code, Rule};
use p4_types::messages::Update;
use p4_types::table::Change;
use std::alloc::Global;
use write_rules::resolve;

impl Image {
    // What an update of a role's primary changes, where it breaks no rule that asks for the program alone.
    fn resolved(
        &self,
        alloc: Global,
        scope: &Scope,
        update: &Update,
    ) -> Result<Result<Change, Cause>, NoMemory>
        requires { scope.now.ids ≡ scope_of self.now.now scope.now.role }
        ensures { IfOk result (λ r. r ≡ resolved self.now.now scope.now.role update.now) }
    {
        match self.target() {
            Some(plane) => resolve(alloc, plane.config().info(), scope.as_slice(), update),
            None => Ok(Err(Cause {
                rule: Rule::U3,
                code: Code::NotFound,
            })),
        }
    }

    // Makes what an update of a role's primary changes, where no rule refuses it. What the primary may write stays.
    fn update(
        &mut self,
        alloc: Global,
        scope: &Scope,
        update: &Update,
    ) -> Result<Result<Change, Cause>, NoMemory>
        requires { scope.now.ids ≡ scope_of self.old.now scope.now.role }
        ensures outcome { IfOk result (λ o. o ≡ outcome self.old.now scope.now.role update.now) }
        ensures after { IfOk result (λ o. self.new.now ≡ state_after self.old.now o) }
        ensures scope { OnOk result (scope.now.ids ≡ scope_of self.new.now scope.now.role) }
        ensures before { self.new.before ≡ self.old.before }
        ensures steps { self.new.steps ≡ self.old.steps }
    {
        let change = match self.resolved(alloc, scope, update)? {
            Ok(change) => change,
            Err(cause) => return Ok(Err(cause)),
        };
        match self.change(alloc, &change) {
            Ok(()) => Ok(Ok(change)),
            Err(Refusal::For(cause)) => Ok(Err(cause)),
            Err(Refusal::NoMemory) => Err(NoMemory),
        }
    }

    /// Makes what each update of a list changes, in the state that the earlier ones left, where the primary of the role may
    /// write what the scope says. Without memory it may have made some of them, which are still to be undone.
    pub fn updates(
        &mut self,
        alloc: Global,
        scope: &Scope,
        updates: &[Update],
    ) -> Result<List<Result<Change, Cause>>, NoMemory>
        requires { scope.now.ids ≡ scope_of self.old.now scope.now.role }
        ensures outcomes { IfOk result (λ list. list ≡ outcomes self.old.now scope.now.role updates.now) }
        ensures after { IfOk result (λ list. self.new.now ≡ fold state_after self.old.now list) }
        ensures before { self.new.before ≡ self.old.before }
        ensures steps { self.new.steps ≡ self.old.steps }
    {
        let mut list = List::new(alloc);
        for update in updates {
            list.push(self.update(alloc, scope, update)?)?;
        }
        Ok(list)
    }
}
