//! The messages of a failure: a Status, and the Errors in it.
ghost use Rattle.std.specs.Prelude.{◌≡◌, ◌++◌, Some};
ghost use Rattle.p4v1_read.specs.Nested.{read};
ghost use Rattle.p4v1_read.specs.Stream.{any_of, status_of};
ghost use Rattle.p4v1_wire.specs.ServerMessages.{error_of};
ghost use Rattle.p4v1_answers.specs.Failures.{error_in, errors_in};
ghost use Rattle.wire_messages.specs.Answers.{ReadsInMemory};
ghost use Rattle.wire_messages.specs.Message.{each};

use crate::reading;
use crate::reading::Readable;
use list_types::{List, Refusal};
use p4_types::messages::{Any, Error, Status};
use std::alloc::Global;
use wire_messages::Unreadable;

// The type of the details of a Write (P4Runtime 1.3.0, "Error Reporting").
const ERROR_URL: &str = "type.googleapis.com/p4.v1.Error";

impl Readable for Any {
    ghost meaning = { any_of };

    #[tactic(auto, unfolding(p4v1_read::specs::Stream::any_of))]
    fn read(alloc: Global, bytes: &[u8]) -> Result<Any, Refusal<Unreadable>> {
        let message = reading::fields(bytes)?;
        let type_url = reading::text(alloc, &message, 1)?;
        let value = reading::bytes(alloc, &message, 2)?;
        Ok(Any { type_url, value })
    }
}

impl Readable for Status {
    ghost meaning = { status_of };

    #[tactic(auto, unfolding(p4v1_read::specs::Stream::status_of))]
    fn read(alloc: Global, bytes: &[u8]) -> Result<Status, Refusal<Unreadable>> {
        let message = reading::fields(bytes)?;
        let code = message.int32(1)?;
        let text = reading::text(alloc, &message, 2)?;
        let details = reading::all(alloc, &message, 3)?;
        Ok(Status {
            code,
            message: text,
            details,
        })
    }
}

impl Readable for Error {
    ghost meaning = { error_of };

    #[tactic(auto, unfolding(p4v1_wire::specs::ServerMessages::error_of))]
    fn read(alloc: Global, bytes: &[u8]) -> Result<Error, Refusal<Unreadable>> {
        let message = reading::fields(bytes)?;
        let canonical_code = message.int32(1)?;
        let code = message.int32(4)?;
        let text = reading::text(alloc, &message, 2)?;
        let space = reading::text(alloc, &message, 3)?;
        let details = reading::all(alloc, &message, 5)?;
        Ok(Error {
            canonical_code,
            message: text,
            space,
            code,
            details,
        })
    }
}

/// The `google.rpc.Status` of a call that failed: the bytes that `grpc-status-details-bin` bears. It copies what it keeps.
pub fn read_status(alloc: Global, bytes: &[u8]) -> Result<Status, Refusal<Unreadable>>
    ensures { ReadsInMemory (λ status. status) result (read status_of bytes.now) }
{
    Status::read(alloc, bytes)
}

fn error(alloc: Global, detail: &Any) -> Result<Error, Refusal<Unreadable>>
    ensures { ReadsInMemory (λ error. error) result (error_in detail.now) }
{
    if detail.type_url.as_str() != ERROR_URL {
        return Err(Refusal::For(Unreadable));
    }
    Error::read(alloc, detail.value.as_slice())
}

/// The `p4.v1.Error` of each update of a Write that failed, in the order of its updates: one that is `OK` has
/// `canonical_code` 0 (P4Runtime 1.3.0, "Error Reporting"). A status with a detail of another type is unreadable.
pub fn errors_of(alloc: Global, status: &Status) -> Result<List<Error>, Refusal<Unreadable>>
    ensures { ReadsInMemory (λ errors. errors) result (errors_in status.now) }
{
    let mut errors = List::new(alloc);
    for detail in status.details.as_slice() {
        errors.push(error(alloc, detail)?)?;
    }
    Ok(errors)
}
