//! The node of an index, at any depth of a definition, and what its kind is.

ghost use Rattle.std.specs.Prelude.{◌≡◌};
ghost use Rattle.std.specs.List.{list_any};
ghost use Rattle.std.specs.Option.{option_copied};
ghost use Rattle.wf_machine.specs.Records.{is_kind_at, is_loop, is_simple};
ghost use Rattle.wf_machine.specs.Tasks.{takes_update};
ghost use Rattle.wf_machine.specs.Marks.{inside_kind, node_at};
ghost use Rattle.wf_machine.specs.Naming.{has_index, stands_in};

use crate::finding::{NodeTest, find_in, find_inside};
use wf_machine::{FlowDef, Node, NodeKind};

#[derive(Drop)]
struct HasIndex {
    index: u32,
}

impl NodeTest for HasIndex {
    ghost use Rattle.wf_machine.specs.Naming.{has_index};

    ghost passes = { λ test node. has_index test.index node };

    fn passes(&self, node: &Node) -> bool {
        node.index == self.index
    }
}

/// A DO_WHILE that has the node of that index inside.
#[derive(Drop)]
struct LoopAround {
    index: u32,
}

impl NodeTest for LoopAround {
    ghost use Rattle.wf_machine.specs.Records.{is_loop};
    ghost use Rattle.wf_machine.specs.Naming.{is_around};

    ghost passes = { λ test node. is_around is_loop test.index node };

    fn passes(&self, node: &Node) -> bool {
        is_loop(&node.kind) && has_inside(&node.kind, self.index)
    }
}

/// The node of that index, in the lists inside other nodes too.
#[tactic(auto, unfolding(wf_machine::specs::Marks::node_at))]
pub fn node_at(nodes: &[Node], index: u32) -> Option<&Node>
    ensures { option_copied result ≡ node_at nodes.now index }
{
    find_in(nodes, &HasIndex { index })
}

/// Whether the node of that index stands inside a DO_WHILE, at any depth.
#[tactic(auto, using(crate::proofs::FindLemmas::any_found, crate::proofs::FindLemmas::none_found))]
pub fn is_looped(nodes: &[Node], index: u32) -> bool
    ensures { result ≡ stands_in is_loop nodes.now index }
{
    match find_in(nodes, &LoopAround { index }) {
        Some(_) => true,
        None => false,
    }
}

/// Whether a node of that kind has the node of that index inside, at any depth.
#[tactic(auto, using(crate::proofs::FindLemmas::any_found, crate::proofs::FindLemmas::none_found))]
pub fn has_inside(kind: &NodeKind, index: u32) -> bool
    ensures { result ≡ list_any (has_index index) (inside_kind kind.now) }
{
    match find_inside(kind, &HasIndex { index }) {
        Some(_) => true,
        None => false,
    }
}

fn is_loop(kind: &NodeKind) -> bool
    ensures { result ≡ is_loop kind.now }
{
    match kind {
        NodeKind::Loop(_, _) => true,
        NodeKind::Simple => false,
        NodeKind::Switch(_) => false,
        NodeKind::Fork(_) => false,
        NodeKind::Join(_) => false,
        NodeKind::SubFlow(_, _) => false,
        NodeKind::SetVariable => false,
        NodeKind::Wait => false,
        NodeKind::Human => false,
        NodeKind::Terminate => false,
    }
}

/// Whether the node of that index is there, and a SIMPLE one.
pub fn is_simple_at(def: &FlowDef, node: u32) -> bool
    ensures { result ≡ is_kind_at is_simple def.now node }
{
    match node_at(def.nodes.as_slice(), node) {
        Some(found) => is_simple(&found.kind),
        None => false,
    }
}

/// Whether the node of that index is there, and workers may update attempts at it.
pub fn takes_update_at(def: &FlowDef, node: u32) -> bool
    ensures { result ≡ is_kind_at takes_update def.now node }
{
    match node_at(def.nodes.as_slice(), node) {
        Some(found) => takes_update(&found.kind),
        None => false,
    }
}

fn is_simple(kind: &NodeKind) -> bool
    ensures { result ≡ is_simple kind.now }
{
    match kind {
        NodeKind::Simple => true,
        NodeKind::Switch(_) => false,
        NodeKind::Fork(_) => false,
        NodeKind::Join(_) => false,
        NodeKind::Loop(_, _) => false,
        NodeKind::SubFlow(_, _) => false,
        NodeKind::SetVariable => false,
        NodeKind::Wait => false,
        NodeKind::Human => false,
        NodeKind::Terminate => false,
    }
}

/// The server alone ends attempts at nodes of the other kinds.
fn takes_update(kind: &NodeKind) -> bool
    ensures { result ≡ takes_update kind.now }
{
    match kind {
        NodeKind::Join(_) => false,
        NodeKind::Loop(_, _) => false,
        NodeKind::SubFlow(_, _) => false,
        NodeKind::Simple => true,
        NodeKind::Switch(_) => true,
        NodeKind::Fork(_) => true,
        NodeKind::SetVariable => true,
        NodeKind::Wait => true,
        NodeKind::Human => true,
        NodeKind::Terminate => true,
    }
}
