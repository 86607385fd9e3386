//! The messages of replies.
ghost use Rattle.std.specs.Prelude.{◌≡◌, [], ◌∷◌, map, codes, IfOk};
ghost use Rattle.switch_spec.specs.Answer.{own_error, batch_errors};
ghost use Rattle.call_outcomes.specs.Messages.{batch_error};
ghost use Rattle.switch_spec.specs.Pipelines.{rule_name, rule_status_bytes};
ghost use Rattle.switch_spec.specs.Status.{status_of, status_bytes, no_error, error_of, aborted_error, detail_of, write_status, capabilities_bytes};

use crate::lists::only;
use list_types::{ByteList, List, NoMemory, Text};
use p4_types::code::{Cause, Code, ConfigRule};
use p4_types::messages::{Any, CapabilitiesResponse, Error, Status};
use p4_types::table::Change;
use p4v1_wire::write_message;
use std::alloc::Global;

const ERROR_URL: &str = "type.googleapis.com/p4.v1.Error";

const SPACE: &str = "p4switch";

const VERSION: &str = "1.3.0";

/// The empty text, which takes no memory.
pub fn empty_text(alloc: Global) -> Text
    ensures { result ≡ [] }
{
    Text::from_string(String::new(alloc))
}

fn text(alloc: Global, words: &str) -> Result<Text, NoMemory>
    ensures { IfOk result (λ text. text ≡ words.now) }
{
    let mut text = String::new(alloc);
    text.push_str(words)?;
    Ok(Text::from_string(text))
}

/// The name of this switch in what it tells of errors.
pub fn space(alloc: Global) -> Result<Text, NoMemory>
    ensures { IfOk result (λ text. text ≡ codes "p4switch") }
{
    text(alloc, SPACE)
}

// A Status of a code with these details.
fn status(alloc: Global, code: Code, details: List<Any>) -> Status
    ensures { result ≡ status_of code details }
{
    Status {
        code: i32::from(code.number()),
        message: empty_text(alloc),
        details,
    }
}

fn no_error(alloc: Global) -> Error
    ensures { result ≡ no_error }
{
    Error {
        canonical_code: 0,
        message: empty_text(alloc),
        space: empty_text(alloc),
        code: 0,
        details: List::new(alloc),
    }
}

fn error_of(alloc: Global, cause: Cause) -> Result<Error, NoMemory>
    ensures { IfOk result (λ error. error ≡ error_of cause) }
{
    Ok(Error {
        canonical_code: i32::from(cause.code.number()),
        message: empty_text(alloc),
        space: space(alloc)?,
        code: i32::from(cause.rule.number()),
        details: List::new(alloc),
    })
}

fn aborted(alloc: Global) -> Error
    ensures { result ≡ aborted_error }
{
    let mut error = no_error(alloc);
    error.canonical_code = i32::from(Code::Aborted.number());
    error
}

#[tactic(auto, unfolding(switch_spec::specs::Status::detail_of))]
fn detail(alloc: Global, error: &Error) -> Result<Any, NoMemory>
    ensures { IfOk result (λ detail. detail ≡ detail_of error.now) }
{
    let value = write_message(alloc, error)?;
    Ok(Any {
        type_url: text(alloc, ERROR_URL)?,
        value,
    })
}

// The Error of an update by itself.
fn own_error(alloc: Global, outcome: &Result<Change, Cause>) -> Result<Error, NoMemory>
    ensures { IfOk result (λ error. error ≡ own_error outcome.now) }
{
    match outcome {
        Ok(_) => Ok(no_error(alloc)),
        Err(cause) => error_of(alloc, *cause),
    }
}

// The first failing update of a batch has its cause, every other is aborted.
fn batch_error(
    alloc: Global,
    outcome: &Result<Change, Cause>,
    failed: bool,
) -> Result<Error, NoMemory>
    ensures { IfOk result (λ error. error ≡ batch_error outcome.now failed) }
{
    match outcome {
        Err(cause) if !failed => error_of(alloc, *cause),
        _ => Ok(aborted(alloc)),
    }
}

fn own_details(alloc: Global, outcomes: &[Result<Change, Cause>]) -> Result<List<Any>, NoMemory>
    ensures { IfOk result (λ details. details ≡ map detail_of (map own_error outcomes.now)) }
{
    let mut details = List::new(alloc);
    for outcome in outcomes {
        let error = own_error(alloc, outcome)?;
        details.push(detail(alloc, &error)?)?;
    }
    Ok(details)
}

fn batch_details(alloc: Global, outcomes: &[Result<Change, Cause>]) -> Result<List<Any>, NoMemory>
    ensures { IfOk result (λ details. details ≡ map detail_of (batch_errors outcomes.now)) }
{
    let mut details = List::new(alloc);
    let mut failed = false;
    for outcome in outcomes {
        let error = batch_error(alloc, outcome, failed)?;
        details.push(detail(alloc, &error)?)?;
        failed = failed || outcome.is_err();
    }
    Ok(details)
}

/// The Status of a Write of which an update failed, where each is judged by itself.
#[tactic(auto, unfolding(switch_spec::specs::Status::write_status))]
pub fn of_continued(alloc: Global, outcomes: &[Result<Change, Cause>]) -> Result<ByteList, NoMemory>
    ensures { IfOk result (λ bytes. bytes ≡ write_status (map own_error outcomes.now)) }
{
    let details = own_details(alloc, outcomes)?;
    write_message(alloc, &status(alloc, Code::Unknown, details))
}

/// The Status of a batch of which an update failed.
#[tactic(auto, unfolding(switch_spec::specs::Status::write_status))]
pub fn of_batch(alloc: Global, outcomes: &[Result<Change, Cause>]) -> Result<ByteList, NoMemory>
    ensures { IfOk result (λ bytes. bytes ≡ write_status (batch_errors outcomes.now)) }
{
    let details = batch_details(alloc, outcomes)?;
    write_message(alloc, &status(alloc, Code::Unknown, details))
}

#[tactic(auto, unfolding(switch_spec::specs::Status::status_bytes))]
fn status_bytes(alloc: Global, code: Code) -> Result<ByteList, NoMemory>
    ensures { IfOk result (λ bytes. bytes ≡ status_bytes code) }
{
    write_message(alloc, &status(alloc, code, List::new(alloc)))
}

/// The Status of a code alone.
pub fn of_code(alloc: Global, code: Code) -> Result<List<ByteList>, NoMemory>
    ensures { IfOk result (λ messages. messages ≡ status_bytes code ∷ []) }
{
    only(alloc, status_bytes(alloc, code)?)
}

fn rule_name(alloc: Global, rule: ConfigRule) -> Result<Text, NoMemory>
    ensures { IfOk result (λ name. name ≡ rule_name rule) }
{
    let name = match rule {
        ConfigRule::Info(number) => format!(in alloc; "I{number}")?,
        ConfigRule::Program(number) => format!(in alloc; "L{number}")?,
    };
    Ok(Text::from_string(name))
}

/// The Status of a configuration that breaks a rule, with the rule's name.
#[tactic(auto, unfolding(switch_spec::specs::Pipelines::rule_status_bytes))]
pub fn of_rule(alloc: Global, rule: ConfigRule) -> Result<List<ByteList>, NoMemory>
    ensures { IfOk result (λ messages. messages ≡ rule_status_bytes rule ∷ []) }
{
    let mut status = status(alloc, Code::InvalidArgument, List::new(alloc));
    status.message = rule_name(alloc, rule)?;
    only(alloc, write_message(alloc, &status)?)
}

#[tactic(auto, unfolding(switch_spec::specs::Status::capabilities_bytes))]
fn version(alloc: Global) -> Result<ByteList, NoMemory>
    ensures { IfOk result (λ bytes. bytes ≡ capabilities_bytes) }
{
    let response = CapabilitiesResponse {
        p4runtime_api_version: text(alloc, VERSION)?,
    };
    write_message(alloc, &response)
}

/// The version of the interface.
pub fn of_capabilities(alloc: Global) -> Result<List<ByteList>, NoMemory>
    ensures { IfOk result (λ messages. messages ≡ capabilities_bytes ∷ []) }
{
    only(alloc, version(alloc)?)
}
