//! The outputs of the nodes inside a DO_WHILE in one of its turns.

ghost use Rattle.std.specs.Prelude.{◌≡◌, ◌++◌, map, IfOk};
ghost use Rattle.std.specs.Option.{option_copied, option_map};
ghost use Rattle.wf_machine.specs.declared.definition.Cases.{out-Cases};
ghost use Rattle.wf_machine.specs.Marks.{all_nodes, all_of_branches, all_of_cases, inside_kind, last_of};
ghost use Rattle.wf_machine.specs.Sight.{seen};
ghost use Rattle.wf_closing.specs.Closing as spec;

use crate::tables::with_entry;
use std::alloc::Global;
use wf_doc::{Doc, Fields};
use wf_flow::{Attempt, Flow};
use wf_machine::{Branch, Case, Cases, Node, NodeKind};
use wf_setting::NoMemory;

/// The entries with the reference of each node that has an attempt in the turn, and with the output of its last one.
#[cycle(outputs)]
#[tactic(auto, using(crate::proofs::OutputLemmas::node_more, crate::proofs::OutputLemmas::nodes_all))]
pub fn with_outputs(
    alloc: Global,
    flow: &Flow,
    turn: u32,
    nodes: &[Node],
    outputs: Fields<Doc>,
) -> Result<Fields<Doc>, NoMemory>
    ensures { IfOk result (λ made. made
        ≡ spec.outputs_put (map seen flow.now.flow.attempts) turn (all_nodes nodes.now) outputs) }
{
    let mut made = outputs;
    for node in nodes {
        made = with_node(alloc, flow, turn, node, made)?;
    }
    Ok(made)
}

/// The entries with the output of the node, and with those of the nodes inside it.
#[cycle(outputs)]
fn with_node(
    alloc: Global,
    flow: &Flow,
    turn: u32,
    node: &Node,
    outputs: Fields<Doc>,
) -> Result<Fields<Doc>, NoMemory>
    ensures { IfOk result (λ made. made ≡ spec.outputs_put (map seen flow.now.flow.attempts) turn (inside_kind node.now.kind)
        (spec.last_put node.now.reference (last_of (map seen flow.now.flow.attempts) node.now.index turn) outputs)) }
{
    let last = flow.last_attempt(node.index, turn);
    let made = with_last(alloc, node.reference.as_str(), last, outputs)?;
    with_inside(alloc, flow, turn, &node.kind, made)
}

fn with_last(
    alloc: Global,
    reference: &str,
    last: Option<&Attempt>,
    outputs: Fields<Doc>,
) -> Result<Fields<Doc>, NoMemory>
    ensures { IfOk result (λ made. made
        ≡ spec.last_put reference.now (option_map seen (option_copied last.entry)) outputs) }
{
    match last {
        Some(attempt) => {
            let output = wf_doc::copy(alloc, attempt.output())?;
            with_entry(alloc, reference, output, outputs)
        }
        None => Ok(outputs),
    }
}

#[cycle(outputs)]
#[tactic(auto, using(wf_flow::proofs::RowLemmas::inside_switch, wf_flow::proofs::RowLemmas::inside_fork, wf_flow::proofs::RowLemmas::inside_loop))]
fn with_inside(
    alloc: Global,
    flow: &Flow,
    turn: u32,
    kind: &NodeKind,
    outputs: Fields<Doc>,
) -> Result<Fields<Doc>, NoMemory>
    ensures { IfOk result (λ made. made
        ≡ spec.outputs_put (map seen flow.now.flow.attempts) turn (inside_kind kind.now) outputs) }
{
    match kind {
        NodeKind::Switch(choice) => with_choice(alloc, flow, turn, choice, outputs),
        NodeKind::Fork(branches) => with_branches(alloc, flow, turn, branches.as_slice(), outputs),
        NodeKind::Loop(_, body) => with_outputs(alloc, flow, turn, body.as_slice(), outputs),
        NodeKind::Simple => Ok(outputs),
        NodeKind::Join(_) => Ok(outputs),
        NodeKind::SubFlow(_, _) => Ok(outputs),
        NodeKind::SetVariable => Ok(outputs),
        NodeKind::Wait => Ok(outputs),
        NodeKind::Human => Ok(outputs),
        NodeKind::Terminate => Ok(outputs),
    }
}

#[cycle(outputs)]
#[tactic(auto, using(crate::proofs::OutputLemmas::choice_more))]
fn with_choice(
    alloc: Global,
    flow: &Flow,
    turn: u32,
    choice: &Cases,
    outputs: Fields<Doc>,
) -> Result<Fields<Doc>, NoMemory>
    ensures { IfOk result (λ made. made ≡ spec.outputs_put (map seen flow.now.flow.attempts) turn
        (all_of_cases (out-Cases choice.now).cases ++ all_nodes (out-Cases choice.now).otherwise) outputs) }
{
    let made = with_cases(alloc, flow, turn, choice.cases.as_slice(), outputs)?;
    with_outputs(alloc, flow, turn, choice.otherwise.as_slice(), made)
}

#[cycle(outputs)]
#[tactic(auto, using(crate::proofs::OutputLemmas::branch_more, crate::proofs::OutputLemmas::branches_all))]
fn with_branches(
    alloc: Global,
    flow: &Flow,
    turn: u32,
    branches: &[Branch],
    outputs: Fields<Doc>,
) -> Result<Fields<Doc>, NoMemory>
    ensures { IfOk result (λ made. made
        ≡ spec.outputs_put (map seen flow.now.flow.attempts) turn (all_of_branches branches.now) outputs) }
{
    let mut made = outputs;
    for branch in branches {
        made = with_outputs(alloc, flow, turn, branch.nodes.as_slice(), made)?;
    }
    Ok(made)
}

#[cycle(outputs)]
#[tactic(auto, using(crate::proofs::OutputLemmas::case_more, crate::proofs::OutputLemmas::cases_all))]
fn with_cases(
    alloc: Global,
    flow: &Flow,
    turn: u32,
    cases: &[Case],
    outputs: Fields<Doc>,
) -> Result<Fields<Doc>, NoMemory>
    ensures { IfOk result (λ made. made
        ≡ spec.outputs_put (map seen flow.now.flow.attempts) turn (all_of_cases cases.now) outputs) }
{
    let mut made = outputs;
    for case in cases {
        made = with_outputs(alloc, flow, turn, case.nodes.as_slice(), made)?;
    }
    Ok(made)
}
