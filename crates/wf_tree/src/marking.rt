//! The mark of a node.

ghost use Rattle.std.specs.Prelude.{◌≡◌, map};
ghost use Rattle.wf_machine.specs.Marks.{mark_at, node_mark};
ghost use Rattle.wf_machine.specs.Sight.{seen};
ghost use Rattle.wf_tree.specs.Tree.{mark_of_switch};

use crate::next::{last_mark, next_chosen};
use wf_flow::{Flow, node_at};
use wf_machine::{Cases, Mark, Next, Node, NodeKind};

/// How far a flow has come at the node of that index in an iteration, 0 outside loops. A SWITCH that is
/// completed is `Done` where the list that it chose is, and `Open` before. `Fresh` where the definition has no
/// such node.
pub fn mark(flow: &Flow, node: u32, iteration: u32) -> Mark
    ensures { result ≡ mark_at (map seen flow.now.flow.attempts) flow.now.flow.def.nodes node iteration }
{
    match node_at(flow.def().nodes.as_slice(), node) {
        None => Mark::Fresh,
        Some(found) => mark_of(flow, iteration, found),
    }
}

#[tactic(auto, using(wf_machine::proofs::TreeLemmas::mark_switch))]
fn mark_of(flow: &Flow, iteration: u32, node: &Node) -> Mark
    ensures { result ≡ node_mark (map seen flow.now.flow.attempts) iteration node.now.index node.now.kind }
{
    match &node.kind {
        NodeKind::Switch(choice) => mark_of_switch(flow, iteration, node.index, choice),
        _ => last_mark(flow, node.index, iteration),
    }
}

fn mark_of_switch(flow: &Flow, iteration: u32, index: u32, choice: &Cases) -> Mark
    ensures { result ≡ mark_of_switch (map seen flow.now.flow.attempts) iteration index choice.now }
{
    let mark = last_mark(flow, index, iteration);
    match mark {
        Mark::Done => match next_chosen(flow, iteration, index, choice) {
            Next::Done => Mark::Done,
            _ => Mark::Open,
        },
        _ => mark,
    }
}
