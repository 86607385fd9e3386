//! Pipelines are set and got.
ghost use Rattle.std.specs.Prelude.{◌≡◌, ◌∷◌, [], false, IfOk};
ghost use Rattle.std.specs.Option.{option_map};
ghost use Rattle.plane_spec.specs.Planes.{target, primary as primary_session};
ghost use Rattle.switch_spec.specs.Answer.{set_reply, get_reply};
ghost use Rattle.switch_spec.specs.Pipelines.{pipeline_action_of, unserved_action, action_refusal, refusal_by, set_refusal, makes_plane, lacks_slots, config_events, events_by, set_made, set_unless, set_result, response_type_of, shown_config, get_response_bytes, get_by, get_result};
ghost use Rattle.link_spec.specs.Configured.{config_meant};
ghost use Rattle.call_outcomes.specs.Prepared.{IsPrepared};
ghost use Rattle.ctl_core.specs.Prepared.{Leads, Sets};

use call_outcomes::{Prepared, copied, get_reply, may_set, only, set_reply};
use config_rules::configuration;
use list_types::{ByteList, List, NoMemory, Refusal};
use p4_types::calls::{PipelineAction, ResponseType};
use p4_types::code::Code;
use p4_types::events::{Committed, Event, Origin};
use p4_types::messages::{
    Cookie, ForwardingPipelineConfig, GetForwardingPipelineConfigRequest,
    GetForwardingPipelineConfigResponse, SetForwardingPipelineConfigRequest,
};
use p4_types::shared::Shared;
use p4v1_wire::write_message;
use plane_image::Image;
use plane_state::{Config, Plane};
use std::alloc::Global;
use switch_spec::refusals::SetRefusal;

// The action of a number, if it is served.
fn pipeline_action_of(number: i32) -> Option<PipelineAction>
    ensures { result ≡ pipeline_action_of number }
{
    match number {
        1 => Some(PipelineAction::Verify),
        2 => Some(PipelineAction::VerifyAndSave),
        3 => Some(PipelineAction::VerifyAndCommit),
        4 => Some(PipelineAction::Commit),
        _ => None,
    }
}

// The code for a number of no action that is served.
fn unserved_action(number: i32) -> Code
    ensures { result ≡ unserved_action number }
{
    match number {
        5 => Code::Unimplemented,
        _ => Code::InvalidArgument,
    }
}

// COMMIT comes without a configuration and asks for a staged plane, every other action comes with one.
fn action_refusal(
    image: &Image,
    action: PipelineAction,
    config: &Option<ForwardingPipelineConfig>,
) -> Option<Code>
    ensures { result ≡ action_refusal image.now.now action config.now }
{
    match (action, config) {
        (PipelineAction::Commit, Some(_)) => Some(Code::InvalidArgument),
        (PipelineAction::Commit, None) => {
            if image.is_staged() {
                None
            } else {
                Some(Code::FailedPrecondition)
            }
        }
        (_, Some(_)) => None,
        (_, None) => Some(Code::InvalidArgument),
    }
}

// Why a pipeline is not set, before its configuration is looked at.
fn set_refusal(image: &Image, request: &SetForwardingPipelineConfigRequest) -> Option<Code>
    ensures { result ≡ set_refusal image.now.now request.now }
{
    if request.device_id != image.device() {
        return Some(Code::NotFound);
    }
    let primary = image.roles().primary_session(request.role_id);
    if !may_set(primary, request.election_id) {
        return Some(Code::PermissionDenied);
    }
    match pipeline_action_of(request.action) {
        None => Some(unserved_action(request.action)),
        Some(action) => action_refusal(image, action, &request.config),
    }
}

fn makes_plane(action: PipelineAction) -> bool
    ensures { result ≡ makes_plane action }
{
    matches!(
        action,
        PipelineAction::VerifyAndSave | PipelineAction::VerifyAndCommit
    )
}

// A configuration is saved.
fn saved(
    alloc: Global,
    image: &mut Image,
    by: Origin,
    config: Config,
) -> Result<List<Event<Config>>, NoMemory>
    requires settled { image.old.before ≡ image.old.now }
    requires slots { lacks_slots image.old.now PipelineAction.VerifyAndSave config ≡ false }
    ensures events { IfOk result (λ list. list ≡ config_events by PipelineAction.VerifyAndSave config) }
    ensures leads { IfOk result (λ list. Leads image.old image.new list) }
    ensures before { image.new.before ≡ image.old.before }
    ensures steps { image.new.steps ≡ image.old.steps }
{
    let config = Shared::new(alloc, config)?;
    image.save(alloc, &config)?;
    only(alloc, Event::Save { by, config })
}

// A configuration is committed at once.
fn committed(
    alloc: Global,
    image: &mut Image,
    by: Origin,
    config: Config,
) -> Result<List<Event<Config>>, NoMemory>
    requires settled { image.old.before ≡ image.old.now }
    requires slots { lacks_slots image.old.now PipelineAction.VerifyAndCommit config ≡ false }
    ensures events { IfOk result (λ list. list ≡ config_events by PipelineAction.VerifyAndCommit config) }
    ensures leads { IfOk result (λ list. Leads image.old image.new list) }
    ensures before { image.new.before ≡ image.old.before }
    ensures steps { image.new.steps ≡ image.old.steps }
{
    let config = Shared::new(alloc, config)?;
    image.install(alloc, &config)?;
    only(
        alloc,
        Event::Commit {
            by,
            content: Committed::Fresh(config),
        },
    )
}

// What an action does with a configuration for whose cells there are slots.
fn configured(
    alloc: Global,
    image: &mut Image,
    by: Origin,
    action: PipelineAction,
    config: Config,
) -> Result<List<Event<Config>>, NoMemory>
    requires settled { image.old.before ≡ image.old.now }
    requires slots { lacks_slots image.old.now action config ≡ false }
    ensures events { IfOk result (λ list. list ≡ config_events by action config) }
    ensures leads { IfOk result (λ list. Leads image.old image.new list) }
    ensures before { image.new.before ≡ image.old.before }
    ensures steps { image.new.steps ≡ image.old.steps }
{
    match action {
        PipelineAction::VerifyAndSave => saved(alloc, image, by, config),
        PipelineAction::VerifyAndCommit => committed(alloc, image, by, config),
        PipelineAction::Verify | PipelineAction::Commit => Ok(List::new(alloc)),
    }
}

// What an action does with the bytes of a configuration, or why it is refused.
fn with_config(
    alloc: Global,
    image: &mut Image,
    by: Origin,
    action: PipelineAction,
    config: &ForwardingPipelineConfig,
) -> Result<Result<List<Event<Config>>, SetRefusal>, NoMemory>
    requires settled { image.old.before ≡ image.old.now }
    ensures events { IfOk result (λ answer. answer ≡ events_by image.old.now by action (config_meant config.now)) }
    ensures leads { IfOk result (λ answer. Sets image.old image.new answer) }
    ensures before { image.new.before ≡ image.old.before }
    ensures steps { image.new.steps ≡ image.old.steps }
{
    let config = match configuration(alloc, config) {
        Ok(config) => config,
        Err(Refusal::For(rule)) => return Ok(Err(SetRefusal::Breaks(rule))),
        Err(Refusal::NoMemory) => return Err(NoMemory),
    };
    if makes_plane(action) && image.lacks_slots(&config) {
        return Ok(Err(SetRefusal::Fails(Code::ResourceExhausted)));
    }
    Ok(Ok(configured(alloc, image, by, action, config)?))
}

// The staged plane is committed.
fn promoted(alloc: Global, image: &mut Image, by: Origin) -> Result<List<Event<Config>>, NoMemory>
    requires settled { image.old.before ≡ image.old.now }
    ensures events { IfOk result (λ list. list ≡ Event.Commit by Committed.Staged ∷ []) }
    ensures leads { IfOk result (λ list. Leads image.old image.new list) }
    ensures before { image.new.before ≡ image.old.before }
    ensures steps { image.new.steps ≡ image.old.steps }
{
    image.promote();
    only(
        alloc,
        Event::Commit {
            by,
            content: Committed::Staged,
        },
    )
}

// What is done where no rule refuses the call before its configuration is looked at.
fn made(
    alloc: Global,
    image: &mut Image,
    by: Origin,
    request: &SetForwardingPipelineConfigRequest,
) -> Result<Result<List<Event<Config>>, SetRefusal>, NoMemory>
    requires settled { image.old.before ≡ image.old.now }
    ensures events { IfOk result (λ answer. answer ≡ set_made image.old.now by (pipeline_action_of request.now.action) request.now.config) }
    ensures leads { IfOk result (λ answer. Sets image.old image.new answer) }
    ensures before { image.new.before ≡ image.old.before }
    ensures steps { image.new.steps ≡ image.old.steps }
{
    match (pipeline_action_of(request.action), &request.config) {
        (Some(PipelineAction::Commit), _) => Ok(Ok(promoted(alloc, image, by)?)),
        (Some(action), Some(config)) => with_config(alloc, image, by, action, config),
        _ => Ok(Err(SetRefusal::Fails(Code::InvalidArgument))),
    }
}

// The events of a call that sets a pipeline, or why it is refused.
fn set_result(
    alloc: Global,
    image: &mut Image,
    lane: u16,
    call: u64,
    request: &SetForwardingPipelineConfigRequest,
) -> Result<Result<List<Event<Config>>, SetRefusal>, NoMemory>
    requires settled { image.old.before ≡ image.old.now }
    ensures events { IfOk result (λ answer. answer ≡ set_result image.old.now lane call request.now) }
    ensures leads { IfOk result (λ answer. Sets image.old image.new answer) }
    ensures before { image.new.before ≡ image.old.before }
    ensures steps { image.new.steps ≡ image.old.steps }
{
    if let Some(code) = set_refusal(image, request) {
        return Ok(Err(SetRefusal::Fails(code)));
    }
    let by = Origin {
        caller: lane,
        call,
        role: request.role_id,
        election_id: request.election_id,
    };
    made(alloc, image, by, request)
}

/// A pipeline is set, which is made in the image; without memory the image may be changed, which is still to be undone.
pub(crate) fn set(
    alloc: Global,
    image: &mut Image,
    lane: u16,
    call: u64,
    request: &SetForwardingPipelineConfigRequest,
) -> Result<Prepared, NoMemory>
    requires settled { image.old.before ≡ image.old.now }
    ensures prepared { IfOk result (λ p. IsPrepared (set_reply (set_result image.old.now lane call request.now)) p) }
    ensures leads { IfOk result (λ p. Leads image.old image.new p.events) }
    ensures before { image.new.before ≡ image.old.before }
    ensures steps { image.new.steps ≡ image.old.steps }
{
    let answer = set_result(alloc, image, lane, call, request)?;
    let prepared = set_reply(alloc, answer)?;
    Ok(prepared)
}

// The response type of a number, if there is one.
fn response_type_of(number: i32) -> Option<ResponseType>
    ensures { result ≡ response_type_of number }
{
    match number {
        0 => Some(ResponseType::All),
        1 => Some(ResponseType::CookieOnly),
        2 => Some(ResponseType::P4InfoAndCookie),
        3 => Some(ResponseType::DeviceConfigAndCookie),
        _ => None,
    }
}

// The parts of a configuration that a type names, as they were given.
fn shown_config(
    alloc: Global,
    kind: ResponseType,
    config: &Config,
) -> Result<ForwardingPipelineConfig, NoMemory>
    ensures { IfOk result (λ shown. shown ≡ shown_config kind config.now) }
{
    let p4info = match kind {
        ResponseType::All | ResponseType::P4InfoAndCookie => Some(copied(alloc, config.p4info())?),
        ResponseType::CookieOnly | ResponseType::DeviceConfigAndCookie => None,
    };
    let p4_device_config = match kind {
        ResponseType::All | ResponseType::DeviceConfigAndCookie => {
            copied(alloc, config.device_config())?
        }
        ResponseType::CookieOnly | ResponseType::P4InfoAndCookie => List::new(alloc),
    };
    Ok(ForwardingPipelineConfig {
        p4info,
        p4_device_config,
        cookie: Some(Cookie {
            cookie: config.cookie(),
        }),
    })
}

// The response of a type about a plane, or without a plane.
#[tactic(auto, unfolding(switch_spec::specs::Pipelines::get_response_bytes))]
fn response(alloc: Global, kind: ResponseType, plane: Option<&Plane>) -> Result<ByteList, NoMemory>
    ensures { IfOk result (λ bytes. bytes ≡ get_response_bytes kind (option_map (λ p. p.now.now) plane.entry)) }
{
    let config = match plane {
        None => None,
        Some(plane) => Some(shown_config(alloc, kind, plane.config())?),
    };
    write_message(alloc, &GetForwardingPipelineConfigResponse { config })
}

// The configuration of the target plane, or the code with which the call is refused.
fn get_result(
    alloc: Global,
    image: &Image,
    request: &GetForwardingPipelineConfigRequest,
) -> Result<Result<ByteList, Code>, NoMemory>
    ensures { IfOk result (λ answer. answer ≡ get_result image.now.now request.now) }
{
    if request.device_id != image.device() {
        return Ok(Err(Code::NotFound));
    }
    match response_type_of(request.response_type) {
        None => Ok(Err(Code::InvalidArgument)),
        Some(kind) => Ok(Ok(response(alloc, kind, image.target())?)),
    }
}

/// The pipeline of the target plane.
pub(crate) fn get(
    alloc: Global,
    image: &Image,
    request: &GetForwardingPipelineConfigRequest,
) -> Result<Prepared, NoMemory>
    ensures answer { IfOk result (λ p. IsPrepared (get_reply (get_result image.now.now request.now)) p) }
    ensures nothing { IfOk result (λ p. p.events ≡ []) }
{
    get_reply(alloc, get_result(alloc, image, request)?)
}
