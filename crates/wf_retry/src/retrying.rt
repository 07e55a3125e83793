//! What is done about a lost attempt: it is tried again, forgiven, or ends its flow.

ghost use Rattle.std.specs.Prelude.{◌≡◌, ◌+◌, ◌<◌, [], ◌∷◌, option_map, IfOk, IfSome, Some};
ghost use Rattle.std.specs.Option.{option_copied};
ghost use Rattle.wf_machine.specs.Documents as documents;
ghost use Rattle.wf_machine.specs.Sight.{seen};
ghost use Rattle.wf_rules.specs.Rules as spec;
ghost use Rattle.wf_rules.specs.Scheduling.{adding_one, within};
ghost use Rattle.wf_retry.specs.Reading.{acts_unretried, optional_at, reason_given, reference_at, timing_again, timing_left};
ghost use Rattle.wf_setting.specs.Setting.{sight_in};

use crate::losing::first_lost;
use std::alloc::Global;
use wf_doc::{Doc, Fields, Text};
use wf_flow::{Attempt, Flow, is_simple_at, node_at};
use wf_machine::{FlowDef, Timing};
use wf_names::{FlowStatus, TaskStatus};
use wf_rules::{Act, Begin, Child, NewAttempt};
use wf_setting::{Children, NoMemory, Setting, fails, is_too_large, one, unless_large};
use wf_time::retry_delay;
use wf_wire::Limits;

/// What the first lost attempt wants done.
#[tactic(auto, unfolding(wf_rules::specs::Sight::sight))]
pub fn lost<C: Children>(
    alloc: Global,
    at: &Setting<C>,
    flow: &Flow,
) -> Result<Option<Vec<Act>>, NoMemory>
    ensures { IfOk result (λ acts. option_map (λ a. a.items) acts ≡ spec.r4 at.now.limits (sight_in at.now flow.now.flow)) }
{
    match first_lost(flow.attempts()) {
        Some((place, attempt)) => {
            let acts = acts_lost(alloc, at, flow, place, attempt)?;
            Ok(Some(acts))
        }
        None => Ok(None),
    }
}

/// What the lost attempt at that place wants done.
fn acts_lost<C: Children>(
    alloc: Global,
    at: &Setting<C>,
    flow: &Flow,
    place: u64,
    attempt: &Attempt,
) -> Result<Vec<Act>, NoMemory>
    ensures { IfOk result (λ acts. acts.items ≡ spec.lost at.now.limits (sight_in at.now flow.now.flow) place (seen attempt.now)) }
{
    match timing_again(flow.def(), attempt) {
        Some(timing) => {
            let again = retry_of(alloc, place, attempt, timing)?;
            add_one(alloc, at, flow, again)
        }
        None => acts_unretried(alloc, flow.def(), place, attempt),
    }
}

/// The timing of an attempt that is tried once more.
fn timing_again<'a>(def: &FlowDef, attempt: &'a Attempt) -> Option<&'a Timing>
    ensures timing { option_copied result ≡ timing_again def.now (seen attempt.now) }
    ensures left { IfSome result (λ timing. attempt.now.retry < timing.now.retry_count) }
{
    if is_simple_at(def, attempt.node()) && may_retry(attempt.status()) {
        timing_left(attempt)
    } else {
        None
    }
}

/// The timing, where it has retries left.
fn timing_left(attempt: &Attempt) -> Option<&Timing>
    ensures timing { option_copied result ≡ timing_left attempt.now.retry attempt.now.timing }
    ensures left { IfSome result (λ timing. attempt.now.retry < timing.now.retry_count) }
{
    match attempt.timing() {
        Some(timing) => {
            if attempt.retry() < timing.retry_count {
                Some(timing)
            } else {
                None
            }
        }
        None => None,
    }
}

/// Failures for good aren't retried.
fn may_retry(status: TaskStatus) -> bool
    ensures { result ≡ spec.may_retry status }
{
    match status {
        TaskStatus::Failed => true,
        TaskStatus::TimedOut => true,
        TaskStatus::Scheduled => false,
        TaskStatus::InProgress => false,
        TaskStatus::Completed => false,
        TaskStatus::CompletedWithErrors => false,
        TaskStatus::Skipped => false,
        TaskStatus::FailedWithTerminalError => false,
        TaskStatus::Canceled => false,
    }
}

/// The same work once more, after the delay.
fn retry_of(
    alloc: Global,
    place: u64,
    attempt: &Attempt,
    timing: &Timing,
) -> Result<NewAttempt, NoMemory>
    requires { attempt.now.retry < timing.now.retry_count }
    ensures { IfOk result (λ made. made ≡ spec.retry_of place (seen attempt.now) timing.now) }
{
    let delay = retry_delay(timing, attempt.retry());
    let retry = next_retry(attempt.retry(), timing.retry_count);
    Ok(NewAttempt {
        node: attempt.node(),
        iteration: attempt.iteration(),
        begin: Begin::Queued(*timing, delay as u32),
        input: wf_doc::copy(alloc, attempt.input())?,
        output: Doc::Table(Fields::new(alloc)),
        reason: Text::new(alloc, "")?,
        retry,
        retried: Some(place),
        turn: 0,
        child: Child::Nothing,
    })
}

fn next_retry(retry: u32, retries: u32) -> u32
    requires { retry < retries }
    ensures { result ≡ retry + 1 }
{
    retry + 1
}

/// The attempt is added, where the flow has room for one more and its documents aren't too large.
#[tactic(auto, using(crate::proofs::LostLemmas::no_room, crate::proofs::LostLemmas::with_room), unfolding(wf_rules::specs::Sight::sight))]
fn add_one<C: Children>(
    alloc: Global,
    at: &Setting<C>,
    flow: &Flow,
    attempt: NewAttempt,
) -> Result<Vec<Act>, NoMemory>
    ensures { IfOk result (λ acts. acts.items ≡ adding_one at.now.limits (sight_in at.now flow.now.flow) attempt) }
{
    if at.limits.attempts as u64 <= flow.len() {
        drop(attempt);
        fails(alloc, "attempt limit", None)
    } else {
        add_within(alloc, at.limits, attempt)
    }
}

/// The attempt is added, where its documents aren't too large.
fn add_within(alloc: Global, limits: &Limits, attempt: NewAttempt) -> Result<Vec<Act>, NoMemory>
    ensures { IfOk result (λ acts. acts.items ≡ within limits.now (attempt.input ∷ attempt.output ∷ []) (Act.Add attempt ∷ [])) }
{
    let is_large = is_too_large(limits, &attempt.input) || is_too_large(limits, &attempt.output);
    let acts = one(alloc, Act::Add(attempt))?;
    unless_large(alloc, is_large, acts)
}

/// What is done about an attempt that isn't tried again.
fn acts_unretried(
    alloc: Global,
    def: &FlowDef,
    place: u64,
    attempt: &Attempt,
) -> Result<Vec<Act>, NoMemory>
    ensures { IfOk result (λ acts. acts.items ≡ acts_unretried def.now place (seen attempt.now)) }
{
    if is_optional(def, attempt.node()) {
        return one(alloc, Act::Forgive(place));
    }
    let reason = reason_given(alloc, def, attempt)?;
    one(
        alloc,
        Act::End(end_for(attempt.status()), Some(reason), None),
    )
}

/// A failure of the node doesn't end the flow.
fn is_optional(def: &FlowDef, node: u32) -> bool
    ensures { result ≡ optional_at def.now node }
{
    match node_at(def.nodes.as_slice(), node) {
        Some(found) => found.optional,
        None => false,
    }
}

fn end_for(status: TaskStatus) -> FlowStatus
    ensures { result ≡ spec.end_for status }
{
    match status {
        TaskStatus::TimedOut => FlowStatus::TimedOut,
        TaskStatus::Failed => FlowStatus::Failed,
        TaskStatus::Scheduled => FlowStatus::Failed,
        TaskStatus::InProgress => FlowStatus::Failed,
        TaskStatus::Completed => FlowStatus::Failed,
        TaskStatus::CompletedWithErrors => FlowStatus::Failed,
        TaskStatus::Skipped => FlowStatus::Failed,
        TaskStatus::FailedWithTerminalError => FlowStatus::Failed,
        TaskStatus::Canceled => FlowStatus::Failed,
    }
}

/// Why it was lost: by its own reason, or else by its reference and status.
#[tactic(auto, using(crate::proofs::LostLemmas::reason_told))]
fn reason_given(alloc: Global, def: &FlowDef, attempt: &Attempt) -> Result<Text, NoMemory>
    ensures { IfOk result (λ reason. reason ≡ reason_given def.now (seen attempt.now) attempt.now.reason) }
{
    if attempt.reason().is_empty() {
        named_reason(alloc, def, attempt)
    } else {
        Ok(Text::new(alloc, attempt.reason())?)
    }
}

/// Its reference and status in words.
fn named_reason(alloc: Global, def: &FlowDef, attempt: &Attempt) -> Result<Text, NoMemory>
    ensures { IfOk result (λ reason. reason ≡ reason_given def.now (seen attempt.now) []) }
{
    let mut text = String::new(alloc);
    text.push_str("task ")?;
    text.push_str(reference_at(alloc, def, attempt)?.as_str())?;
    text.push_str(" ")?;
    text.push_str(attempt.status().text())?;
    Ok(Text::from_string(text))
}

/// The reference of its node, in a loop with the iteration.
fn reference_at(alloc: Global, def: &FlowDef, attempt: &Attempt) -> Result<Text, NoMemory>
    ensures { IfOk result (λ text. text ≡ reference_at def.now (seen attempt.now)) }
{
    match node_at(def.nodes.as_slice(), attempt.node()) {
        Some(found) => reference_text(alloc, found.reference.as_str(), attempt.iteration()),
        None => Ok(Text::new(alloc, "")?),
    }
}

fn reference_text(alloc: Global, reference: &str, iteration: u32) -> Result<Text, NoMemory>
    ensures { IfOk result (λ text. text ≡ documents.reference_text reference.now iteration) }
{
    if iteration == 0 {
        return Ok(Text::new(alloc, reference)?);
    }
    let mut text = String::new(alloc);
    text.push_str(reference)?;
    text.push_str("__")?;
    text.push_str(iteration.to_string(alloc)?.as_str())?;
    Ok(Text::from_string(text))
}
