//! Flows that have ended, and go on from a node.

ghost use Rattle.std.specs.Prelude.{◌≡◌, false, if◌then◌else◌, IfErr, None, OnOk, Some};
ghost use Rattle.wf_names.specs.FlowStatus.{flow_is_open};
ghost use Rattle.wf_machine.specs.Naming.{stands_in};
ghost use Rattle.wf_machine.specs.Operators.{begins_rerun, first_refusal, is_from, node_to_rerun, rerun, rerun_refusals, superseded_where};
ghost use Rattle.wf_machine.specs.Records.{IsMoment, is_fork, is_skipped};
ghost use Rattle.wf_ops.specs.Places.{passes_at};

use crate::kinds::{is_fork, is_join_at};
use crate::lasting::is_last;
use wf_doc::Doc;
use wf_flow::{Attempt, Flow, NodeTest, find_in, has_inside, is_looped};
use wf_machine::{FlowDef, Node};
use wf_names::{Refusal, TaskNo, TaskStatus};

/// Lets a flow that has ended go on from the node of that attempt, with a new input where one is given.
#[tactic(auto, using(wf_machine::proofs::OperatorLemmas::rerun_over))]
pub fn rerun(flow: &mut Flow, task: TaskNo, input: Option<Doc>, now: u64) -> Result<(), Refusal>
    requires { IsMoment now }
    ensures allowed { OnOk result (first_refusal (rerun_refusals task flow.old.flow) ≡ None) }
    ensures done { OnOk result (flow.new.flow ≡ rerun now task input flow.old.flow) }
    ensures refused { IfErr result (λ refusal. first_refusal (rerun_refusals task flow.old.flow) ≡ Some refusal) }
    ensures kept { IfErr result (λ refusal. flow.new.flow ≡ flow.old.flow) }
    ensures room { flow.new.spare ≡ flow.old.spare }
{
    if let Some(refusal) = against_rerun(flow, task) {
        return Err(refusal);
    }
    if let Some(node) = node_to_rerun(flow.def(), task, flow.attempts()) {
        supersede_from(flow, node);
        flow.reopen(now);
        if let Some(input) = input {
            flow.set_input(input);
        }
    }
    Ok(())
}

fn against_rerun(flow: &Flow, task: TaskNo) -> Option<Refusal>
    ensures { result ≡ first_refusal (rerun_refusals task flow.now.flow) }
{
    if flow.parent().is_some() {
        return Some(Refusal::IsChild);
    }
    if flow.status().is_open() {
        return Some(Refusal::NotTerminal);
    }
    if node_to_rerun(flow.def(), task, flow.attempts()).is_none() {
        return Some(Refusal::NotRerunnable);
    }
    None
}

/// Takes the attempts out of the count whose nodes are that one or come after it.
fn supersede_from(flow: &mut Flow, node: u32)
    requires { flow_is_open flow.old.flow.status ≡ false }
    ensures flow { flow.new.flow ≡ record flow.old.flow { attempts = superseded_where (is_from node) flow.old.flow.attempts } }
    ensures room { flow.new.spare ≡ flow.old.spare }
{
    for place in 0..flow.len() {
        if is_from_at(flow, place, node) {
            flow.is_record();
            flow.supersede_at(place);
        }
    }
}

/// Whether the node of the attempt at that place, where there is one, is that one or comes after it.
#[tactic(auto, using(crate::proofs::PlaceLemmas::passes_there, crate::proofs::PlaceLemmas::passes_nowhere))]
fn is_from_at(flow: &Flow, place: u64, node: u32) -> bool
    ensures { result ≡ passes_at (is_from node) flow.now.flow.attempts place }
{
    match flow.at(place) {
        Some(attempt) => node <= attempt.node(),
        None => false,
    }
}

/// The node of the attempt of that number, where a rerun may begin at it.
fn node_to_rerun(def: &FlowDef, task: TaskNo, attempts: &[Attempt]) -> Option<u32>
    ensures { result ≡ node_to_rerun def.now task attempts.now }
{
    for place in 0..attempts.len() {
        if attempts[place].number().0 == task.0 {
            return node_if_first(def, &attempts[place], &attempts[place + 1..]);
        }
    }
    None
}

/// The node of the attempt, where a rerun may begin at it and the rest come after it.
fn node_if_first(def: &FlowDef, attempt: &Attempt, rest: &[Attempt]) -> Option<u32>
    ensures { result ≡ (if begins_rerun def.now attempt.now rest.now then Some attempt.now.node else None) }
{
    if begins_rerun(def, attempt, rest) {
        Some(attempt.node())
    } else {
        None
    }
}

fn begins_rerun(def: &FlowDef, attempt: &Attempt, rest: &[Attempt]) -> bool
    ensures { result ≡ begins_rerun def.now attempt.now rest.now }
{
    is_last(attempt, rest)
        && !is_skipped(attempt.status())
        && !is_join_at(def, attempt.node())
        && !is_forked(def.nodes.as_slice(), attempt.node())
        && !is_looped(def.nodes.as_slice(), attempt.node())
}

fn is_skipped(status: TaskStatus) -> bool
    ensures { result ≡ is_skipped status }
{
    status == TaskStatus::Skipped
}

/// A FORK_JOIN that has the node of that index inside.
#[derive(Drop)]
struct ForkAround {
    index: u32,
}

impl NodeTest for ForkAround {
    ghost use Rattle.wf_machine.specs.Records.{is_fork};
    ghost use Rattle.wf_machine.specs.Naming.{is_around};

    ghost passes = { λ test node. is_around is_fork test.index node };

    fn passes(&self, node: &Node) -> bool {
        is_fork(&node.kind) && has_inside(&node.kind, self.index)
    }
}

/// Whether the node of that index stands inside a FORK_JOIN, at any depth.
#[tactic(auto, using(wf_flow::proofs::FindLemmas::any_found, wf_flow::proofs::FindLemmas::none_found))]
fn is_forked(nodes: &[Node], index: u32) -> bool
    ensures { result ≡ stands_in is_fork nodes.now index }
{
    match find_in(nodes, &ForkAround { index }) {
        Some(_) => true,
        None => false,
    }
}
