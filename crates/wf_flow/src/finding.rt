//! The first node that passes a test, at any depth of a definition.

ghost use Rattle.std.specs.Prelude.{◌≡◌, ◌++◌};
ghost use Rattle.std.specs.List.{find};
ghost use Rattle.std.specs.Option.{option_copied};
ghost use Rattle.wf_machine.specs.declared.definition.Cases.{out-Cases};
ghost use Rattle.wf_machine.specs.Marks.{all_nodes, all_of_branches, all_of_cases, inside_kind};

use wf_machine::{Branch, Case, Cases, Node, NodeKind};

/// A test of nodes, as a function `passes` to contracts.
pub trait NodeTest {
    ghost use Rattle.std.specs.Prelude.{◌≡◌, Bool};
    ghost use Rattle.wf_machine.specs.declared.definition.Node.{Node};

    ghost passes: { Self → Node → Bool };

    fn passes(&self, node: &Node) -> bool
        ensures { result ≡ passes self.now node.now };
}

/// The first node that passes, each node before those inside it.
#[cycle(finding)]
#[tactic(auto, using(crate::proofs::FindLemmas::inside_node, crate::proofs::FindLemmas::after_node, crate::proofs::FindLemmas::at_node))]
pub fn find_in<'n, T: NodeTest>(nodes: &'n [Node], test: &T) -> Option<&'n Node>
    ensures { option_copied result ≡ find (T.passes test.now) (all_nodes nodes.now) }
{
    for node in nodes {
        if test.passes(node) {
            return Some(node);
        }
        if let Some(found) = find_inside(&node.kind, test) {
            return Some(found);
        }
    }
    None
}

#[cycle(finding)]
#[tactic(auto, using(crate::proofs::RowLemmas::inside_switch, crate::proofs::RowLemmas::inside_fork, crate::proofs::RowLemmas::inside_loop))]
pub fn find_inside<'n, T: NodeTest>(kind: &'n NodeKind, test: &T) -> Option<&'n Node>
    ensures { option_copied result ≡ find (T.passes test.now) (inside_kind kind.now) }
{
    match kind {
        NodeKind::Switch(choice) => find_in_choice(choice, test),
        NodeKind::Fork(branches) => find_in_branches(branches.as_slice(), test),
        NodeKind::Loop(_, body) => find_in(body.as_slice(), test),
        NodeKind::Simple => None,
        NodeKind::Join(_) => None,
        NodeKind::SubFlow(_, _) => None,
        NodeKind::SetVariable => None,
        NodeKind::Wait => None,
        NodeKind::Human => None,
        NodeKind::Terminate => None,
    }
}

#[cycle(finding)]
#[tactic(auto, using(crate::proofs::FindLemmas::in_cases, crate::proofs::FindLemmas::in_otherwise))]
fn find_in_choice<'n, T: NodeTest>(choice: &'n Cases, test: &T) -> Option<&'n Node>
    ensures { option_copied result
        ≡ find (T.passes test.now) (all_of_cases (out-Cases choice.now).cases ++ all_nodes (out-Cases choice.now).otherwise) }
{
    if let Some(found) = find_in_cases(choice.cases.as_slice(), test) {
        return Some(found);
    }
    find_in(choice.otherwise.as_slice(), test)
}

#[cycle(finding)]
#[tactic(auto, using(crate::proofs::FindLemmas::inside_branch, crate::proofs::FindLemmas::after_branch))]
fn find_in_branches<'n, T: NodeTest>(branches: &'n [Branch], test: &T) -> Option<&'n Node>
    ensures { option_copied result ≡ find (T.passes test.now) (all_of_branches branches.now) }
{
    for branch in branches {
        if let Some(found) = find_in(branch.nodes.as_slice(), test) {
            return Some(found);
        }
    }
    None
}

#[cycle(finding)]
#[tactic(auto, using(crate::proofs::FindLemmas::inside_case, crate::proofs::FindLemmas::after_case))]
fn find_in_cases<'n, T: NodeTest>(cases: &'n [Case], test: &T) -> Option<&'n Node>
    ensures { option_copied result ≡ find (T.passes test.now) (all_of_cases cases.now) }
{
    for case in cases {
        if let Some(found) = find_in(case.nodes.as_slice(), test) {
            return Some(found);
        }
    }
    None
}
