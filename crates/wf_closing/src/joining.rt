//! A JOIN whose branches are done.

ghost use Rattle.std.specs.Prelude.{◌≡◌, [], map, option_map, IfOk};
ghost use Rattle.std.specs.Option.{option_copied};
ghost use Rattle.wf_machine.specs.declared.walking.Next.{Next};
ghost use Rattle.wf_machine.specs.Sight.{seen};
ghost use Rattle.wf_rules.specs.Outputs.{branch_ends};
ghost use Rattle.wf_rules.specs.Rules as spec;
ghost use Rattle.wf_setting.specs.Setting.{sight_in};
ghost use Rattle.wf_closing.specs.Closing.{branch_end, end_put, ends_put, joined_fields};

use crate::completing::output_of;
use crate::forks::fork_before;
use crate::places::last_place;
use crate::tables::with_entry;
use std::alloc::Global;
use wf_doc::{Doc, Fields};
use wf_flow::Flow;
use wf_machine::{Branch, Node, NodeKind};
use wf_rules::{Act, Outcome};
use wf_setting::{Children, NoMemory, Setting, is_too_large, one, unless_large};
use wf_wire::Limits;

/// The JOIN of that index is completed in the iteration with what the branches before it ended with. None where it has
/// no attempt there.
#[tactic(auto, using(crate::proofs::EndLemmas::join_output_is), unfolding(wf_rules::specs::Sight::sight))]
pub fn join<C: Children>(
    alloc: Global,
    at: &Setting<C>,
    flow: &Flow,
    index: u32,
    iteration: u32,
) -> Result<Option<Vec<Act>>, NoMemory>
    ensures { IfOk result (λ acts. option_map (λ a. a.items) acts
        ≡ spec.take_step at.now.limits at.now.scene (sight_in at.now flow.now.flow) (Next.Join index iteration)) }
{
    match last_place(flow, index, iteration) {
        Some(place) => {
            let outputs = joined_outputs(alloc, flow, index, iteration)?;
            Ok(Some(joined(alloc, at.limits, Doc::Table(outputs), place)?))
        }
        None => Ok(None),
    }
}

/// The attempt at that place is completed with that output.
pub fn joined(alloc: Global, limits: &Limits, output: Doc, place: u64) -> Result<Vec<Act>, NoMemory>
    ensures { IfOk result (λ acts. acts.items ≡ spec.joined limits.now output place) }
{
    let large = is_too_large(limits, &output);
    let acts = one(
        alloc,
        Act::Close(place, Outcome::Completed, None, Some(output)),
    )?;
    unless_large(alloc, large, acts)
}

/// The references of the nodes that the branches end with, each with the output of its last attempt.
#[tactic(auto, using(crate::proofs::EndLemmas::ends_found, crate::proofs::EndLemmas::ends_missing))]
fn joined_outputs(
    alloc: Global,
    flow: &Flow,
    index: u32,
    iteration: u32,
) -> Result<Fields<Doc>, NoMemory>
    ensures { IfOk result (λ made. made
        ≡ joined_fields (map seen flow.now.flow.attempts) flow.now.flow.def.nodes index iteration) }
{
    match fork_before(flow.def().nodes.as_slice(), None, index) {
        Some(fork) => outputs_of_ends(alloc, flow, iteration, &fork.kind),
        None => Ok(Fields::new(alloc)),
    }
}

#[tactic(auto, using(crate::proofs::EndLemmas::fork_ends))]
fn outputs_of_ends(
    alloc: Global,
    flow: &Flow,
    iteration: u32,
    kind: &NodeKind,
) -> Result<Fields<Doc>, NoMemory>
    ensures { IfOk result (λ made. made ≡ ends_put (map seen flow.now.flow.attempts) iteration (branch_ends kind.now) []) }
{
    match kind {
        NodeKind::Fork(branches) => with_ends(alloc, flow, iteration, branches.as_slice()),
        NodeKind::Simple => Ok(Fields::new(alloc)),
        NodeKind::Switch(_) => Ok(Fields::new(alloc)),
        NodeKind::Join(_) => Ok(Fields::new(alloc)),
        NodeKind::Loop(_, _) => Ok(Fields::new(alloc)),
        NodeKind::SubFlow(_, _) => Ok(Fields::new(alloc)),
        NodeKind::SetVariable => Ok(Fields::new(alloc)),
        NodeKind::Wait => Ok(Fields::new(alloc)),
        NodeKind::Human => Ok(Fields::new(alloc)),
        NodeKind::Terminate => Ok(Fields::new(alloc)),
    }
}

#[tactic(auto, using(crate::proofs::EndLemmas::ends_more, crate::proofs::EndLemmas::ends_whole))]
fn with_ends(
    alloc: Global,
    flow: &Flow,
    iteration: u32,
    branches: &[Branch],
) -> Result<Fields<Doc>, NoMemory>
    ensures { IfOk result (λ made. made ≡ ends_put (map seen flow.now.flow.attempts) iteration (map branch_end branches.now) []) }
{
    let mut made = Fields::new(alloc);
    for branch in branches {
        made = with_end(alloc, flow, iteration, branch.nodes.as_slice().last(), made)?;
    }
    Ok(made)
}

fn with_end(
    alloc: Global,
    flow: &Flow,
    iteration: u32,
    end: Option<&Node>,
    outputs: Fields<Doc>,
) -> Result<Fields<Doc>, NoMemory>
    ensures { IfOk result (λ made. made
        ≡ end_put (map seen flow.now.flow.attempts) iteration (option_copied end.entry) outputs) }
{
    match end {
        Some(node) => {
            let output = output_of(alloc, flow.last_attempt(node.index, iteration))?;
            with_entry(alloc, node.reference.as_str(), output, outputs)
        }
        None => Ok(outputs),
    }
}
