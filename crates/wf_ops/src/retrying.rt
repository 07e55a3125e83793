//! Flows that have failed, and go on.

ghost use Rattle.std.specs.Prelude.{◌≡◌, ◌||◌, false, not, IfErr, None, OnOk, Some};
ghost use Rattle.wf_names.specs.FlowStatus.{flow_is_open};
ghost use Rattle.wf_names.specs.TaskStatus.{task_is_successful};
ghost use Rattle.wf_machine.specs.Operators.{first_refusal, is_redone, is_terminate, retried, retry_refusals, superseded_where};
ghost use Rattle.wf_machine.specs.Records.{IsMoment, is_kind_at};
ghost use Rattle.wf_ops.specs.Places.{passes_at};

use crate::kinds::is_terminate_at;
use crate::lasting::is_last;
use wf_flow::{Attempt, Flow};
use wf_machine::FlowDef;
use wf_names::{FlowStatus, Refusal};

/// Lets a flow that has failed go on, with new attempts where it wasn't successful.
#[tactic(auto, using(wf_machine::proofs::OperatorLemmas::retry_over))]
pub fn retry(flow: &mut Flow, now: u64) -> Result<(), Refusal>
    requires { IsMoment now }
    ensures allowed { OnOk result (first_refusal (retry_refusals flow.old.flow) ≡ None) }
    ensures done { OnOk result (flow.new.flow ≡ retried now flow.old.flow) }
    ensures refused { IfErr result (λ refusal. first_refusal (retry_refusals flow.old.flow) ≡ Some refusal) }
    ensures kept { IfErr result (λ refusal. flow.new.flow ≡ flow.old.flow) }
    ensures room { flow.new.spare ≡ flow.old.spare }
{
    if let Some(refusal) = against_retry(flow) {
        return Err(refusal);
    }
    supersede_redone(flow);
    flow.reopen(now);
    Ok(())
}

fn against_retry(flow: &Flow) -> Option<Refusal>
    ensures { result ≡ first_refusal (retry_refusals flow.now.flow) }
{
    if flow.parent().is_some() {
        return Some(Refusal::IsChild);
    }
    if flow.status().is_open() {
        return Some(Refusal::NotTerminal);
    }
    if flow.status() == FlowStatus::Completed {
        return Some(Refusal::WasCompleted);
    }
    None
}

/// Takes the attempts out of the count that a retry does anew. In rising order those behind are still as they were.
fn supersede_redone(flow: &mut Flow)
    requires { flow_is_open flow.old.flow.status ≡ false }
    ensures flow { flow.new.flow ≡ record flow.old.flow { attempts = superseded_where (is_redone flow.old.flow.def) flow.old.flow.attempts } }
    ensures room { flow.new.spare ≡ flow.old.spare }
{
    for place in 0..flow.len() {
        if is_redone_at(flow, place) {
            flow.is_record();
            flow.supersede_at(place);
        }
    }
}

/// Whether the attempt at that place, where there is one, is done anew.
#[tactic(auto, using(crate::proofs::PlaceLemmas::passes_there, crate::proofs::PlaceLemmas::passes_nowhere))]
fn is_redone_at(flow: &Flow, place: u64) -> bool
    ensures { result ≡ passes_at (is_redone flow.now.flow.def) flow.now.flow.attempts place }
{
    match flow.at(place) {
        Some(attempt) => is_redone(flow.def(), attempt, &flow.attempts()[place as usize + 1..]),
        None => false,
    }
}

fn is_redone(def: &FlowDef, attempt: &Attempt, rest: &[Attempt]) -> bool
    ensures { result ≡ is_redone def.now attempt.now rest.now }
{
    is_last(attempt, rest) && ends_badly(def, attempt)
}

/// It wasn't successful, or it ended the flow.
fn ends_badly(def: &FlowDef, attempt: &Attempt) -> bool
    ensures { result ≡ (not (task_is_successful attempt.now.status) || is_kind_at is_terminate def.now attempt.now.node) }
{
    !attempt.status().is_successful() || is_terminate_at(def, attempt.node())
}
