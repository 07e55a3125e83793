//! The next step of a flow.

ghost use Rattle.std.specs.Prelude.{◌≡◌, map};
ghost use Rattle.std.specs.Option.{option_copied};
ghost use Rattle.wf_machine.specs.Marks.{last_of, mark_of, next_inside, next_of_cases, next_of_each, next_of_node, next_of_nodes, next_step, plain_next};
ghost use Rattle.wf_machine.specs.Sight.{seen};
ghost use Rattle.wf_tree.specs.Tree.{next_of_chosen, next_of_loop, next_of_switch};

use crate::step::{beside, choice_by, first_of, is_key, joined, mark_by, plain, turn_by};
use wf_doc::Text;
use wf_flow::Flow;
use wf_machine::{Branch, Case, Cases, Mark, Next, Node, NodeKind};

/// What a flow asks for next: from the first node that isn't done, in the iteration that its loop is in.
/// `Done` where each node is done.
pub fn next_node(flow: &Flow) -> Next
    ensures { result ≡ next_step (map seen flow.now.flow.attempts) flow.now.flow.def.nodes }
{
    next_in(flow, 0, flow.def().nodes.as_slice())
}

/// What a list of nodes asks for.
#[cycle(next)]
pub fn next_in(flow: &Flow, iteration: u32, nodes: &[Node]) -> Next
    ensures { result ≡ next_of_nodes (map seen flow.now.flow.attempts) iteration Next.Done nodes.now }
{
    let mut behind = Next::Done;
    for node in nodes {
        let step = next_at(flow, iteration, behind, node);
        match step {
            Next::Done => behind = next_behind(flow, iteration, &node.kind),
            _ => return step,
        }
    }
    Next::Done
}

/// What a node asks for, where the branches of the node before it ask for `behind`.
#[cycle(next)]
#[tactic(auto, using(wf_machine::proofs::TreeLemmas::next_switch, wf_machine::proofs::TreeLemmas::next_loop))]
fn next_at(flow: &Flow, iteration: u32, behind: Next, node: &Node) -> Next
    ensures { result ≡ next_of_node (map seen flow.now.flow.attempts) iteration behind node.now.index node.now.kind }
{
    match &node.kind {
        NodeKind::Switch(choice) => next_of_switch(flow, iteration, node.index, choice),
        NodeKind::Loop(_, body) => next_of_loop(flow, iteration, node.index, body.as_slice()),
        NodeKind::Join(_) => joined(
            node.index,
            iteration,
            last_mark(flow, node.index, iteration),
            behind,
        ),
        NodeKind::Simple => next_of_plain(flow, iteration, node.index),
        NodeKind::Fork(_) => next_of_plain(flow, iteration, node.index),
        NodeKind::SubFlow(_, _) => next_of_plain(flow, iteration, node.index),
        NodeKind::SetVariable => next_of_plain(flow, iteration, node.index),
        NodeKind::Wait => next_of_plain(flow, iteration, node.index),
        NodeKind::Human => next_of_plain(flow, iteration, node.index),
        NodeKind::Terminate => next_of_plain(flow, iteration, node.index),
    }
}

/// The mark that its last attempt gives a node.
pub fn last_mark(flow: &Flow, node: u32, iteration: u32) -> Mark
    ensures { result ≡ mark_of (last_of (map seen flow.now.flow.attempts) node iteration) }
{
    mark_by(flow.last_attempt(node, iteration))
}

fn next_of_plain(flow: &Flow, iteration: u32, index: u32) -> Next
    ensures { result ≡ plain_next index iteration (mark_of (last_of (map seen flow.now.flow.attempts) index iteration)) }
{
    plain(index, iteration, last_mark(flow, index, iteration))
}

#[cycle(next)]
fn next_of_loop(flow: &Flow, iteration: u32, index: u32, body: &[Node]) -> Next
    ensures { result ≡ next_of_loop (map seen flow.now.flow.attempts) iteration index body.now }
{
    let last = flow.last_attempt(index, iteration);
    let mark = mark_by(last);
    match mark {
        Mark::Open => first_of(
            next_in(flow, turn_by(last), body),
            Next::Turn(index, iteration),
        ),
        _ => plain(index, iteration, mark),
    }
}

#[cycle(next)]
fn next_of_switch(flow: &Flow, iteration: u32, index: u32, choice: &Cases) -> Next
    ensures { result ≡ next_of_switch (map seen flow.now.flow.attempts) iteration index choice.now }
{
    let mark = last_mark(flow, index, iteration);
    match mark {
        Mark::Done => next_chosen(flow, iteration, index, choice),
        Mark::Open => first_of(next_chosen(flow, iteration, index, choice), Next::Waits),
        _ => plain(index, iteration, mark),
    }
}

/// What the list that a SWITCH chose asks for.
#[cycle(next)]
pub fn next_chosen(flow: &Flow, iteration: u32, index: u32, choice: &Cases) -> Next
    ensures { result ≡ next_of_chosen (map seen flow.now.flow.attempts) iteration index choice.now }
{
    let otherwise = next_in(flow, iteration, choice.otherwise.as_slice());
    let text = choice_by(flow.last_attempt(index, iteration));
    next_of_key(flow, iteration, text, choice.cases.as_slice(), otherwise)
}

#[cycle(next)]
fn next_of_key(
    flow: &Flow,
    iteration: u32,
    text: Option<&Text>,
    cases: &[Case],
    otherwise: Next,
) -> Next
    ensures { result
        ≡ next_of_cases (map seen flow.now.flow.attempts) iteration (option_copied text.entry) otherwise cases.now }
{
    for case in cases {
        if is_key(text, &case.key) {
            return next_in(flow, iteration, case.nodes.as_slice());
        }
    }
    otherwise
}

/// What the branches of a node ask for.
#[cycle(next)]
#[tactic(auto, using(wf_machine::proofs::TreeLemmas::inside_fork))]
fn next_behind(flow: &Flow, iteration: u32, kind: &NodeKind) -> Next
    ensures { result ≡ next_inside (map seen flow.now.flow.attempts) iteration kind.now }
{
    match kind {
        NodeKind::Fork(branches) => next_of_all(flow, iteration, branches.as_slice()),
        _ => Next::Done,
    }
}

#[cycle(next)]
fn next_of_all(flow: &Flow, iteration: u32, branches: &[Branch]) -> Next
    ensures { result ≡ next_of_each (map seen flow.now.flow.attempts) iteration branches.now }
{
    let mut steps = Next::Done;
    for branch in branches {
        steps = beside(steps, next_in(flow, iteration, branch.nodes.as_slice()));
    }
    steps
}
