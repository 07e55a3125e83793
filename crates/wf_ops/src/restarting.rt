//! Flows that begin anew.

ghost use Rattle.std.specs.Prelude.{◌≡◌, ◌≤◌, IfErr, None, OnOk, Some};
ghost use Rattle.wf_machine.specs.Operators.{first_refusal, restart_refusals, restarted};
ghost use Rattle.wf_machine.specs.Records.{IsMoment};

use wf_flow::Flow;
use wf_names::{FlowStatus, Refusal};

/// Lets a flow that has ended begin anew, without attempts and variables.
#[tactic(auto, using(wf_machine::proofs::OperatorLemmas::restart_over))]
pub fn restart(flow: &mut Flow, now: u64) -> Result<(), Refusal>
    requires { IsMoment now }
    ensures allowed { OnOk result (first_refusal (restart_refusals flow.old.flow) ≡ None) }
    ensures done { OnOk result (flow.new.flow ≡ restarted now flow.old.flow) }
    ensures refused { IfErr result (λ refusal. first_refusal (restart_refusals flow.old.flow) ≡ Some refusal) }
    ensures kept { IfErr result (λ refusal. flow.new.flow ≡ flow.old.flow) }
    ensures room { flow.old.spare ≤ flow.new.spare }
{
    if let Some(refusal) = against_restart(flow) {
        return Err(refusal);
    }
    flow.reopen(now);
    flow.clear();
    Ok(())
}

fn against_restart(flow: &Flow) -> Option<Refusal>
    ensures { result ≡ first_refusal (restart_refusals flow.now.flow) }
{
    if flow.parent().is_some() {
        return Some(Refusal::IsChild);
    }
    if flow.status().is_open() {
        return Some(Refusal::NotTerminal);
    }
    if flow.status() == FlowStatus::Completed && !flow.def().restartable {
        return Some(Refusal::NotRestartable);
    }
    None
}
