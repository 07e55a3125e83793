//! Flows that are held for a while.

ghost use Rattle.std.specs.Prelude.{◌≡◌, IfErr, None, OnOk, Some};
ghost use Rattle.wf_machine.specs.Operators.{first_refusal, pause_refusals, paused, resume_refusals, resumed};

use wf_flow::Flow;
use wf_names::{FlowStatus, Refusal};

/// Holds a running flow, until it is resumed.
#[tactic(auto, using(wf_machine::proofs::OperatorLemmas::pause_open))]
pub fn pause(flow: &mut Flow) -> Result<(), Refusal>
    ensures allowed { OnOk result (first_refusal (pause_refusals flow.old.flow) ≡ None) }
    ensures done { OnOk result (flow.new.flow ≡ paused flow.old.flow) }
    ensures refused { IfErr result (λ refusal. first_refusal (pause_refusals flow.old.flow) ≡ Some refusal) }
    ensures kept { IfErr result (λ refusal. flow.new.flow ≡ flow.old.flow) }
    ensures room { flow.new.spare ≡ flow.old.spare }
{
    if let Some(refusal) = against_pause(flow) {
        return Err(refusal);
    }
    flow.set_status(FlowStatus::Paused);
    Ok(())
}

fn against_pause(flow: &Flow) -> Option<Refusal>
    ensures { result ≡ first_refusal (pause_refusals flow.now.flow) }
{
    if flow.status() != FlowStatus::Running {
        return Some(Refusal::NotRunning);
    }
    None
}

/// Lets a paused flow go on.
#[tactic(auto, using(wf_machine::proofs::OperatorLemmas::resume_open))]
pub fn resume(flow: &mut Flow) -> Result<(), Refusal>
    ensures allowed { OnOk result (first_refusal (resume_refusals flow.old.flow) ≡ None) }
    ensures done { OnOk result (flow.new.flow ≡ resumed flow.old.flow) }
    ensures refused { IfErr result (λ refusal. first_refusal (resume_refusals flow.old.flow) ≡ Some refusal) }
    ensures kept { IfErr result (λ refusal. flow.new.flow ≡ flow.old.flow) }
    ensures room { flow.new.spare ≡ flow.old.spare }
{
    if let Some(refusal) = against_resume(flow) {
        return Err(refusal);
    }
    flow.set_status(FlowStatus::Running);
    Ok(())
}

fn against_resume(flow: &Flow) -> Option<Refusal>
    ensures { result ≡ first_refusal (resume_refusals flow.now.flow) }
{
    if flow.status() != FlowStatus::Paused {
        return Some(Refusal::NotPaused);
    }
    None
}
