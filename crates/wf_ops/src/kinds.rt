//! The kinds of nodes that calls ask for.

ghost use Rattle.std.specs.Prelude.{◌≡◌};
ghost use Rattle.wf_machine.specs.Operators.{is_join, is_terminate, takes_skip};
ghost use Rattle.wf_machine.specs.Records.{is_fork, is_kind_at, is_simple};

use wf_flow::node_at;
use wf_machine::{FlowDef, NodeKind};

/// Whether the node of that index is there, and a TERMINATE.
pub fn is_terminate_at(def: &FlowDef, node: u32) -> bool
    ensures { result ≡ is_kind_at is_terminate def.now node }
{
    match node_at(def.nodes.as_slice(), node) {
        Some(found) => is_terminate(&found.kind),
        None => false,
    }
}

/// Whether the node of that index is there, and a JOIN.
pub fn is_join_at(def: &FlowDef, node: u32) -> bool
    ensures { result ≡ is_kind_at is_join def.now node }
{
    match node_at(def.nodes.as_slice(), node) {
        Some(found) => is_join(&found.kind),
        None => false,
    }
}

pub fn is_simple(kind: &NodeKind) -> bool
    ensures { result ≡ is_simple kind.now }
{
    match kind {
        NodeKind::Simple => true,
        NodeKind::Switch(_) => false,
        NodeKind::Fork(_) => false,
        NodeKind::Join(_) => false,
        NodeKind::Loop(_, _) => false,
        NodeKind::SubFlow(_, _) => false,
        NodeKind::SetVariable => false,
        NodeKind::Wait => false,
        NodeKind::Human => false,
        NodeKind::Terminate => false,
    }
}

pub fn is_fork(kind: &NodeKind) -> bool
    ensures { result ≡ is_fork kind.now }
{
    match kind {
        NodeKind::Fork(_) => true,
        NodeKind::Simple => false,
        NodeKind::Switch(_) => false,
        NodeKind::Join(_) => false,
        NodeKind::Loop(_, _) => false,
        NodeKind::SubFlow(_, _) => false,
        NodeKind::SetVariable => false,
        NodeKind::Wait => false,
        NodeKind::Human => false,
        NodeKind::Terminate => false,
    }
}

/// Nodes of the other kinds lead to others, and can't be passed over.
pub fn takes_skip(kind: &NodeKind) -> bool
    ensures { result ≡ takes_skip kind.now }
{
    match kind {
        NodeKind::Switch(_) => false,
        NodeKind::Fork(_) => false,
        NodeKind::Join(_) => false,
        NodeKind::Loop(_, _) => false,
        NodeKind::Simple => true,
        NodeKind::SubFlow(_, _) => true,
        NodeKind::SetVariable => true,
        NodeKind::Wait => true,
        NodeKind::Human => true,
        NodeKind::Terminate => true,
    }
}

fn is_terminate(kind: &NodeKind) -> bool
    ensures { result ≡ is_terminate kind.now }
{
    match kind {
        NodeKind::Terminate => true,
        NodeKind::Simple => false,
        NodeKind::Switch(_) => false,
        NodeKind::Fork(_) => false,
        NodeKind::Join(_) => false,
        NodeKind::Loop(_, _) => false,
        NodeKind::SubFlow(_, _) => false,
        NodeKind::SetVariable => false,
        NodeKind::Wait => false,
        NodeKind::Human => false,
    }
}

fn is_join(kind: &NodeKind) -> bool
    ensures { result ≡ is_join kind.now }
{
    match kind {
        NodeKind::Join(_) => true,
        NodeKind::Simple => false,
        NodeKind::Switch(_) => false,
        NodeKind::Fork(_) => false,
        NodeKind::Loop(_, _) => false,
        NodeKind::SubFlow(_, _) => false,
        NodeKind::SetVariable => false,
        NodeKind::Wait => false,
        NodeKind::Human => false,
        NodeKind::Terminate => false,
    }
}
