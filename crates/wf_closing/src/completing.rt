//! A flow whose nodes are done.

ghost use Rattle.std.specs.Prelude.{◌≡◌, map, IfOk};
ghost use Rattle.std.specs.Option.{option_copied, option_map};
ghost use Rattle.wf_machine.specs.Sight.{seen};
ghost use Rattle.wf_rules.specs.Outputs.{filled_in, output_of as output_of_seen};
ghost use Rattle.wf_rules.specs.Rules as spec;
ghost use Rattle.wf_setting.specs.Setting.{sight_in};
ghost use Rattle.wf_closing.specs.Closing.{last_output_of};

use std::alloc::Global;
use wf_doc::{Doc, Fields};
use wf_flow::{Attempt, Flow};
use wf_names::FlowStatus;
use wf_rules::Act;
use wf_setting::{
    Children, NoMemory, Setting, fails_too_large, fill_in, has_keys, is_too_large, one,
    unless_large,
};
use wf_wire::Limits;

/// The flow completes with the output that its definition says, or else with that of its last node.
#[tactic(auto, unfolding(wf_rules::specs::Sight::sight))]
pub fn complete<C: Children>(
    alloc: Global,
    at: &Setting<C>,
    flow: &Flow,
) -> Result<Vec<Act>, NoMemory>
    ensures { IfOk result (λ acts. acts.items ≡ spec.complete at.now.limits (spec.flow_output at.now.scene (sight_in at.now flow.now.flow))) }
{
    if has_keys(&flow.def().output) {
        complete_filled(alloc, at, flow, &flow.def().output)
    } else {
        let output = last_output(alloc, flow)?;
        complete_with(alloc, at.limits, output)
    }
}

/// The flow completes with that output filled, where there is room for it.
#[tactic(auto, using(wf_setting::proofs::FitLemmas::was_large, wf_setting::proofs::FitLemmas::was_within, wf_setting::proofs::FitLemmas::is_filled))]
fn complete_filled<C: Children>(
    alloc: Global,
    at: &Setting<C>,
    flow: &Flow,
    output: &Doc,
) -> Result<Vec<Act>, NoMemory>
    ensures { IfOk result (λ acts. acts.items
        ≡ spec.complete at.now.limits (filled_in at.now.scene (sight_in at.now flow.now.flow) output.now)) }
{
    match fill_in(alloc, at, flow, output)? {
        Some(output) => one(alloc, Act::End(FlowStatus::Completed, None, Some(output))),
        None => fails_too_large(alloc),
    }
}

/// The flow completes with that output as it stands, where there is room for it.
fn complete_with(alloc: Global, limits: &Limits, output: Doc) -> Result<Vec<Act>, NoMemory>
    ensures { IfOk result (λ acts. acts.items ≡ spec.complete limits.now output) }
{
    let large = is_too_large(limits, &output);
    let acts = one(alloc, Act::End(FlowStatus::Completed, None, Some(output)))?;
    unless_large(alloc, large, acts)
}

/// The output of the last attempt at the last node of the flow's own list; an empty table where there is none.
fn last_output(alloc: Global, flow: &Flow) -> Result<Doc, NoMemory>
    ensures { IfOk result (λ made. made ≡ last_output_of (map seen flow.now.flow.attempts) flow.now.flow.def.nodes) }
{
    match flow.def().nodes.as_slice().last() {
        Some(node) => output_of(alloc, flow.last_attempt(node.index, 0)),
        None => Ok(Doc::Table(Fields::new(alloc))),
    }
}

/// The output of an attempt; an empty table where there is none.
pub fn output_of(alloc: Global, last: Option<&Attempt>) -> Result<Doc, NoMemory>
    ensures { IfOk result (λ made. made ≡ output_of_seen (option_map seen (option_copied last.entry))) }
{
    match last {
        Some(attempt) => Ok(wf_doc::copy(alloc, attempt.output())?),
        None => Ok(Doc::Table(Fields::new(alloc))),
    }
}
