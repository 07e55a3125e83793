//! Flows that are ended, and those that may go.

ghost use Rattle.std.specs.Prelude.{◌≡◌, IfErr, None, OnOk, Some};
ghost use Rattle.wf_machine.specs.Operators.{first_refusal, remove_refusals, terminate_refusals, terminated};
ghost use Rattle.wf_machine.specs.Records.{IsMoment};

use wf_doc::Text;
use wf_flow::Flow;
use wf_names::{FlowStatus, Refusal};

/// What the record of a flow can't tell.
#[derive(Clone, Copy)]
pub struct Kin {
    /// Its parent flow is kept.
    pub parent_kept: bool,
}

/// Ends an open flow for that reason.
pub fn terminate(flow: &mut Flow, reason: Text, now: u64) -> Result<(), Refusal>
    requires { IsMoment now }
    ensures allowed { OnOk result (first_refusal (terminate_refusals flow.old.flow) ≡ None) }
    ensures done { OnOk result (flow.new.flow ≡ terminated now reason flow.old.flow) }
    ensures refused { IfErr result (λ refusal. first_refusal (terminate_refusals flow.old.flow) ≡ Some refusal) }
    ensures kept { IfErr result (λ refusal. flow.new.flow ≡ flow.old.flow) }
    ensures room { flow.new.spare ≡ flow.old.spare }
{
    if let Some(refusal) = against_end(flow) {
        return Err(refusal);
    }
    flow.set_reason(reason);
    flow.end(FlowStatus::Terminated, now);
    Ok(())
}

fn against_end(flow: &Flow) -> Option<Refusal>
    ensures { result ≡ first_refusal (terminate_refusals flow.now.flow) }
{
    if flow.status().is_terminal() {
        return Some(Refusal::NotRunning);
    }
    None
}

/// Whether a flow may be forgotten.
pub fn may_remove(flow: &Flow, kin: &Kin) -> Result<(), Refusal>
    ensures allowed { OnOk result (first_refusal (remove_refusals kin.now.parent_kept flow.now.flow) ≡ None) }
    ensures refused { IfErr result (λ refusal. first_refusal (remove_refusals kin.now.parent_kept flow.now.flow) ≡ Some refusal) }
{
    if kin.parent_kept {
        return Err(Refusal::IsChild);
    }
    if flow.status().is_open() {
        return Err(Refusal::NotTerminal);
    }
    Ok(())
}
