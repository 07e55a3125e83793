//! The FORK_JOIN that stands directly before a node.
//!
//! Lists are walked from their ends, so that the index of the node that comes next is at hand.

ghost use Rattle.std.specs.Prelude.{◌≡◌, ◌++◌};
ghost use Rattle.std.specs.Option.{option_copied};
ghost use Rattle.wf_machine.specs.declared.definition.Cases.{out-Cases};
ghost use Rattle.wf_machine.specs.Marks.{all_nodes, all_of_branches, all_of_cases, inside_kind};
ghost use Rattle.wf_machine.specs.Records.{is_fork};
ghost use Rattle.wf_closing.specs.Closing as spec;

use wf_machine::{Branch, Case, Cases, Node, NodeKind};

/// The first FORK_JOIN of these nodes, at any depth, that is followed by the node of that index. `next` is the index of
/// the node behind the list.
#[cycle(forks)]
#[tactic(auto, using(crate::proofs::ForkLemmas::node_step, crate::proofs::ForkLemmas::node_head))]
pub fn fork_before<'n>(nodes: &'n [Node], next: Option<u32>, index: u32) -> Option<&'n Node>
    ensures { option_copied result ≡ spec.fork_before index next (all_nodes nodes.now) }
{
    let mut found = None;
    let mut after = next;
    let mut left = nodes.len();
    'nodes: while left > 0 {
        left -= 1;
        let node = &nodes[left];
        found = fork_at(node, after, index).or(found);
        after = Some(node.index);
    }
    found
}

/// The node itself, or the first inside it, where `after` is the index of the node that follows.
#[cycle(forks)]
fn fork_at<'n>(node: &'n Node, after: Option<u32>, index: u32) -> Option<&'n Node>
    ensures { option_copied result ≡ spec.fork_here index after node.now }
{
    if is_joined(node, after, index) {
        return Some(node);
    }
    fork_inside(&node.kind, after, index)
}

#[cycle(forks)]
#[tactic(auto, using(wf_flow::proofs::RowLemmas::inside_switch, wf_flow::proofs::RowLemmas::inside_fork, wf_flow::proofs::RowLemmas::inside_loop))]
fn fork_inside<'n>(kind: &'n NodeKind, after: Option<u32>, index: u32) -> Option<&'n Node>
    ensures { option_copied result ≡ spec.fork_before index after (inside_kind kind.now) }
{
    match kind {
        NodeKind::Switch(choice) => fork_in_choice(choice, after, index),
        NodeKind::Fork(branches) => fork_in_branches(branches.as_slice(), after, index),
        NodeKind::Loop(_, body) => fork_before(body.as_slice(), after, index),
        NodeKind::Simple => None,
        NodeKind::Join(_) => None,
        NodeKind::SubFlow(_, _) => None,
        NodeKind::SetVariable => None,
        NodeKind::Wait => None,
        NodeKind::Human => None,
        NodeKind::Terminate => None,
    }
}

#[cycle(forks)]
#[tactic(auto, using(crate::proofs::ForkLemmas::choice_parts))]
fn fork_in_choice<'n>(choice: &'n Cases, after: Option<u32>, index: u32) -> Option<&'n Node>
    ensures { option_copied result
        ≡ spec.fork_before index after (all_of_cases (out-Cases choice.now).cases ++ all_nodes (out-Cases choice.now).otherwise) }
{
    let otherwise = choice.otherwise.as_slice();
    let behind = first_index(otherwise, after);
    fork_in_cases(choice.cases.as_slice(), behind, index).or(fork_before(otherwise, after, index))
}

#[cycle(forks)]
#[tactic(auto, using(crate::proofs::ForkLemmas::branch_step, crate::proofs::ForkLemmas::branch_head))]
fn fork_in_branches<'n>(branches: &'n [Branch], next: Option<u32>, index: u32) -> Option<&'n Node>
    ensures { option_copied result ≡ spec.fork_before index next (all_of_branches branches.now) }
{
    let mut found = None;
    let mut after = next;
    let mut left = branches.len();
    'branches: while left > 0 {
        left -= 1;
        let nodes = branches[left].nodes.as_slice();
        found = fork_before(nodes, after, index).or(found);
        after = first_index(nodes, after);
    }
    found
}

#[cycle(forks)]
#[tactic(auto, using(crate::proofs::ForkLemmas::case_step, crate::proofs::ForkLemmas::case_head))]
fn fork_in_cases<'n>(cases: &'n [Case], next: Option<u32>, index: u32) -> Option<&'n Node>
    ensures { option_copied result ≡ spec.fork_before index next (all_of_cases cases.now) }
{
    let mut found = None;
    let mut after = next;
    let mut left = cases.len();
    'cases: while left > 0 {
        left -= 1;
        let nodes = cases[left].nodes.as_slice();
        found = fork_before(nodes, after, index).or(found);
        after = first_index(nodes, after);
    }
    found
}

/// The index of the first node, or of the one behind the list.
fn first_index(nodes: &[Node], next: Option<u32>) -> Option<u32>
    ensures { result ≡ spec.head_index next nodes.now }
{
    match nodes {
        [first, ..] => Some(first.index),
        [] => next,
    }
}

fn is_joined(node: &Node, after: Option<u32>, index: u32) -> bool
    ensures { result ≡ spec.is_joined index after node.now }
{
    is_fork(&node.kind) && stands_at(index, after)
}

fn stands_at(index: u32, after: Option<u32>) -> bool
    ensures { result ≡ spec.stands_at index after }
{
    match after {
        Some(found) => found == index,
        None => false,
    }
}

fn is_fork(kind: &NodeKind) -> bool
    ensures { result ≡ is_fork kind.now }
{
    match kind {
        NodeKind::Fork(_) => true,
        NodeKind::Simple => false,
        NodeKind::Switch(_) => false,
        NodeKind::Join(_) => false,
        NodeKind::Loop(_, _) => false,
        NodeKind::SubFlow(_, _) => false,
        NodeKind::SetVariable => false,
        NodeKind::Wait => false,
        NodeKind::Human => false,
        NodeKind::Terminate => false,
    }
}
