//! Nodes that are passed over.

ghost use Rattle.std.specs.Prelude.{◌≡◌, ◌≢◌, ◌+◌, ◌<◌, ◌≤◌, ◌^◌, IfErr, None, OnOk, Some};
ghost use Rattle.std.specs.Option.{option_copied};
ghost use Rattle.wf_machine.specs.Operators.{can_skip, first_refusal, has_last, node_to_skip, skip_refusals, skipped, skipped_at};
ghost use Rattle.wf_machine.specs.Records.{IsMoment};
ghost use Rattle.wf_machine.specs.State.{RisingTo};

use crate::kinds::{is_simple, takes_skip};
use std::alloc::Global;
use wf_doc::Doc;
use wf_flow::{Attempt, Flow, NodeTest, find_in, is_looped};
use wf_machine::Node;
use wf_names::{FlowStatus, Refusal, TaskNo, TaskStatus};
use wf_wire::Limits;

/// The number at which none is left for a new attempt.
const SPENT: u64 = 1 << 56;

/// Passes over the node of that reference, as if it had had this input and output. The attempt that stands for it takes
/// the number, which is above those of the flow's attempts. NoMemory means that memory was wanting.
#[tactic(auto, using(wf_machine::proofs::OperatorLemmas::skip_added, wf_machine::proofs::OperatorLemmas::skip_numbered))]
pub fn skip(
    alloc: Global,
    flow: &mut Flow,
    reference: &str,
    input: Doc,
    output: Doc,
    number: TaskNo,
    limits: &Limits,
    now: u64,
) -> Result<(), Refusal>
    requires above { RisingTo 1 number.0 flow.old.flow.attempts }
    requires moment { IsMoment now }
    ensures allowed { OnOk result (first_refusal (skip_refusals limits.now reference.now number.0 flow.old.flow) ≡ None) }
    ensures done { OnOk result (flow.new.flow ≡ skipped now reference.now input output number flow.old.flow) }
    ensures refused { IfErr result (λ refusal. refusal ≢ Refusal.NoMemory → first_refusal (skip_refusals limits.now reference.now number.0 flow.old.flow) ≡ Some refusal) }
    ensures kept { IfErr result (λ refusal. flow.new.flow ≡ flow.old.flow) }
    ensures room { flow.old.spare ≤ flow.new.spare + 1 }
{
    if let Some(refusal) = against_skip(flow, reference, number, limits) {
        return Err(refusal);
    }
    if flow.reserve(1).is_err() {
        return Err(Refusal::NoMemory);
    }
    flow.is_record();
    if let Some(node) = node_to_skip(flow.def().nodes.as_slice(), reference) {
        let attempt = skipped_at(alloc, node, number, input, output, now);
        flow.add(attempt);
    }
    Ok(())
}

fn against_skip(flow: &Flow, reference: &str, number: TaskNo, limits: &Limits) -> Option<Refusal>
    ensures { result ≡ first_refusal (skip_refusals limits.now reference.now number.0 flow.now.flow) }
{
    if flow.status() != FlowStatus::Running {
        return Some(Refusal::NotRunning);
    }
    let Some(node) = node_to_skip(flow.def().nodes.as_slice(), reference) else {
        return Some(Refusal::NotFound);
    };
    if has_last(flow, node) {
        return Some(Refusal::AlreadyScheduled);
    }
    if flow.len() >= limits.attempts as u64 || number.0 >= SPENT {
        return Some(Refusal::AttemptLimit);
    }
    None
}

/// Whether there is a last attempt at the node, which stands outside loops.
fn has_last(flow: &Flow, node: &Node) -> bool
    ensures { result ≡ has_last flow.now.flow.attempts node.now }
{
    flow.last_attempt(node.index, 0).is_some()
}

/// The attempt that stands for one at the node.
fn skipped_at(
    alloc: Global,
    node: &Node,
    number: TaskNo,
    input: Doc,
    output: Doc,
    now: u64,
) -> Attempt
    requires number { number.0 < 2 ^ 56 }
    requires moment { IsMoment now }
    ensures { result ≡ skipped_at now number input output node.now }
{
    let mut attempt = Attempt::new(
        alloc,
        number,
        node.index,
        0,
        TaskStatus::Skipped,
        input,
        now,
    );
    attempt.set_output(output);
    if !is_simple(&node.kind) {
        attempt.set_first_poll(Some(now));
    }
    attempt
}

/// A node that the reference names and that can be skipped, among the nodes of a definition.
#[derive(Drop)]
struct CanSkip<'n> {
    nodes: &'n [Node],
    reference: &'n str,
}

impl<'n> NodeTest for CanSkip<'n> {
    ghost use Rattle.wf_machine.specs.Operators.{can_skip};

    ghost passes = { λ test node. can_skip test.nodes.now test.reference.now node };

    fn passes(&self, node: &Node) -> bool {
        can_skip(self.nodes, self.reference, node)
    }
}

fn can_skip(nodes: &[Node], reference: &str, node: &Node) -> bool
    ensures { result ≡ can_skip nodes.now reference.now node.now }
{
    node.reference.as_str() == reference && takes_skip(&node.kind) && !is_looped(nodes, node.index)
}

/// The node outside loops that has the reference and can be skipped.
fn node_to_skip<'n>(nodes: &'n [Node], reference: &str) -> Option<&'n Node>
    ensures { option_copied result ≡ node_to_skip nodes.now reference.now }
{
    find_in(nodes, &CanSkip { nodes, reference })
}
