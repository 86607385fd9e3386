//! The messages of a failure: a Status, and the Errors in it.
ghost use Rattle.std.specs.Prelude.{◌≡◌};
ghost use Rattle.p4v1_wire.specs.StatusRows.{AnyInRange, ErrorInRange, StatusInRange, any_rows, error_rows, status_rows};

use crate::writing;
use crate::writing::Writable;
use list_types::NoMemory;
use p4_types::messages::{Any, Error, Status};
use std::alloc::Global;
use wire_fields::Writer;
use wire_messages::write;

impl Writable for Any {
    ghost rows = { any_rows };

    ghost in_range = { AnyInRange };

    #[tactic(auto, unfolding(crate::specs::StatusRows::any_rows, crate::specs::StatusRows::AnyInRange))]
    fn write(&self, alloc: Global, writer: &mut Writer) -> Result<(), NoMemory> {
        write::text(writer, 1, self.type_url.as_str())?;
        write::bytes(writer, 2, self.value.as_slice())?;
        Ok(())
    }
}

impl Writable for Status {
    ghost rows = { status_rows };

    ghost in_range = { StatusInRange };

    #[tactic(auto, unfolding(crate::specs::StatusRows::status_rows, crate::specs::StatusRows::StatusInRange))]
    fn write(&self, alloc: Global, writer: &mut Writer) -> Result<(), NoMemory> {
        write::int32(writer, 1, self.code)?;
        write::text(writer, 2, self.message.as_str())?;
        writing::messages(alloc, writer, 3, self.details.as_slice())?;
        Ok(())
    }
}

impl Writable for Error {
    ghost rows = { error_rows };

    ghost in_range = { ErrorInRange };

    #[tactic(auto, unfolding(crate::specs::StatusRows::error_rows, crate::specs::StatusRows::ErrorInRange))]
    fn write(&self, alloc: Global, writer: &mut Writer) -> Result<(), NoMemory> {
        write::int32(writer, 1, self.canonical_code)?;
        write::text(writer, 2, self.message.as_str())?;
        write::text(writer, 3, self.space.as_str())?;
        write::int32(writer, 4, self.code)?;
        writing::messages(alloc, writer, 5, self.details.as_slice())?;
        Ok(())
    }
}
