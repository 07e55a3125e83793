//! An attempt whose child flow has ended.

ghost use Rattle.std.specs.Prelude.{◌≡◌, IfOk};
ghost use Rattle.wf_rules.specs.Outputs.{child_output as output_of_child};
ghost use Rattle.wf_rules.specs.Rules as spec;

use crate::tables::with_key;
use std::alloc::Global;
use wf_doc::{Doc, Text};
use wf_names::FlowStatus;
use wf_rules::{Act, Outcome};
use wf_setting::{
    Children, EndedChild, NoMemory, Setting, flow_id, is_too_large, one, unless_large,
};

/// The attempt at that place ends as its child did.
pub fn child_ended<C: Children>(
    alloc: Global,
    at: &Setting<C>,
    place: u64,
    child: &EndedChild,
) -> Result<Vec<Act>, NoMemory>
    ensures { IfOk result (λ acts. acts.items ≡ spec.child_ended at.now.limits at.now.scene place child.now) }
{
    let output = child_output(alloc, at.mark, child)?;
    let large = is_too_large(at.limits, &output);
    let reason = Text::new(alloc, child.reason())?;
    let outcome = child_outcome(child.status());
    let acts = one(
        alloc,
        Act::Close(place, outcome, Some(reason), Some(output)),
    )?;
    unless_large(alloc, large, acts)
}

/// The output of the child, with its id.
fn child_output(alloc: Global, mark: u32, child: &EndedChild) -> Result<Doc, NoMemory>
    ensures { IfOk result (λ made. made ≡ output_of_child mark child.now) }
{
    let id = flow_id(alloc, mark, child.number())?;
    let output = wf_doc::copy(alloc, child.output())?;
    with_key(alloc, "subWorkflowId", Doc::Text(id), output)
}

fn child_outcome(status: FlowStatus) -> Outcome
    ensures { result ≡ spec.child_outcome status }
{
    match status {
        FlowStatus::Completed => Outcome::Completed,
        FlowStatus::TimedOut => Outcome::TimedOut,
        FlowStatus::Running => Outcome::Failed,
        FlowStatus::Failed => Outcome::Failed,
        FlowStatus::Terminated => Outcome::Failed,
        FlowStatus::Paused => Outcome::Failed,
    }
}
