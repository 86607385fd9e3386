//! A P4Info that breaks no rule.
ghost use Rattle.std.specs.Prelude.{◌≡◌, IfOk, IfSome, None, option_copied};

use crate::index::Index;
use crate::{places, resolve};
use list_types::NoMemory;
use p4_types::info::{
    Action, ActionProfile, ControllerHeader, Counter, Digest, DirectCounter, Info, Table,
};
use p4_types::p4info;
use std::alloc::Global;
use std::marker::Model;

/// A valid P4Info, whose objects are looked up by their ids. A contract sees its objects.
pub struct P4Info {
    info: Info,
    index: Index,
}

impl Model for P4Info {
    ghost use Rattle.p4_types.specs.declared.info.Info.{Info};

    ghost Value = { Info };

    ghost use Rattle.p4info_model.specs.Valid.{IsKept};

    ghost view = { λ p. p.info };

    ghost invariant = { λ p. IsKept p.info p.index };
}

// Written out, so that those who let one go need not look into it.
impl Drop for P4Info {
    fn drop(self) {
        let Self {
            info: _info,
            index: _index,
        } = self;
    }
}

impl P4Info {
    ghost use Rattle.info_rules.specs.Flaw.{flaw};
    ghost use Rattle.p4info_model.specs.Lookups.{table_at, action_at, profile_at, counter_at, direct_counter_at, digest_at, header_named};
    ghost use Rattle.p4info_model.specs.Resolved.{info_of};
    ghost use Rattle.p4info_model.specs.Valid.{IsMade, IsValid, AreSizesSmall, IsValidTable, IsValidAction, IsValidProfile, IsValidDirectCounter, IsValidHeader};

    /// The P4Info of a message that breaks none of the rules I2 to I9. An object without a preamble has id 0, which breaks I2.
    pub(crate) fn of(alloc: Global, message: p4info::P4Info) -> Result<P4Info, NoMemory>
        requires { flaw message ≡ None }
        ensures { IfOk result (λ info. info ≡ info_of message) }
    {
        let info = resolve::info_of(alloc, message)?;
        let index = Index::of(alloc, &info)?;
        Ok(P4Info { info, index })
    }

    /// All objects.
    pub fn info(&self) -> &Info
        ensures objects { result.now ≡ self.now }
        ensures made { IsMade self.now }
        ensures valid { IsValid self.now }
        ensures sizes { AreSizesSmall self.now }
    {
        &self.info
    }

    /// The table with an id.
    pub fn table(&self, id: u32) -> Option<&Table>
        ensures found { option_copied result ≡ table_at self.now id }
        ensures valid { IfSome result (λ table. IsValidTable self.now table.now) }
    {
        places::found(&self.index.tables, self.info.tables.as_slice(), id)
    }

    /// The action with an id.
    pub fn action(&self, id: u32) -> Option<&Action>
        ensures found { option_copied result ≡ action_at self.now id }
        ensures valid { IfSome result (λ action. IsValidAction action.now) }
    {
        places::found(&self.index.actions, self.info.actions.as_slice(), id)
    }

    /// The action profile with an id.
    pub fn action_profile(&self, id: u32) -> Option<&ActionProfile>
        ensures found { option_copied result ≡ profile_at self.now id }
        ensures valid { IfSome result (λ profile. IsValidProfile self.now profile.now) }
    {
        let profiles = self.info.action_profiles.as_slice();
        places::found(&self.index.action_profiles, profiles, id)
    }

    /// The indirect counter with an id.
    pub fn counter(&self, id: u32) -> Option<&Counter>
        ensures found { option_copied result ≡ counter_at self.now id }
    {
        places::found(&self.index.counters, self.info.counters.as_slice(), id)
    }

    /// The digest with an id.
    pub fn digest(&self, id: u32) -> Option<&Digest>
        ensures found { option_copied result ≡ digest_at self.now id }
    {
        places::found(&self.index.digests, self.info.digests.as_slice(), id)
    }

    /// The controller header with a name, as `packet_in`, among the 128 that there may be.
    pub fn controller_header(&self, name: &str) -> Option<&ControllerHeader>
        ensures found { option_copied result ≡ header_named self.now name.now }
        ensures valid { IfSome result (λ header. IsValidHeader header.now) }
    {
        let headers = self.info.controller_packet_metadata.as_slice();
        headers
            .iter()
            .find(|header| header.preamble.name.as_str() == name)
    }
}
