//! What expressions name by a reference: a node, and an attempt at it.

ghost use Rattle.std.specs.Prelude.{◌≡◌, ◌&&◌, true};
ghost use Rattle.std.specs.List.{find};
ghost use Rattle.std.specs.Option.{option_copied, option_map};
ghost use Rattle.wf_machine.specs.Marks.{all_nodes};
ghost use Rattle.wf_machine.specs.Naming.{attempt_of, is_looped, named_attempt, names_node, names_turn};
ghost use Rattle.wf_machine.specs.Sight.{seen, told};

use crate::attempt::Attempt;
use crate::finding::{NodeTest, find_in};
use crate::flow::Flow;
use crate::nodes::is_looped;
use crate::turns::{names_turn, turn_digits};
use wf_machine::Node;

/// A node that the text names an attempt of, among the nodes of a definition.
#[derive(Drop)]
struct NamedBy<'n> {
    nodes: &'n [Node],
    text: &'n str,
}

impl<'n> NodeTest for NamedBy<'n> {
    ghost use Rattle.wf_machine.specs.Naming.{names_node};

    ghost passes = { λ test node. names_node test.nodes.now test.text.now node };

    fn passes(&self, node: &Node) -> bool {
        names_node(self.nodes, self.text, node)
    }
}

/// Whether the text names an attempt of the node: by its reference or, in a loop, also by that of one turn.
fn names_node(nodes: &[Node], text: &str, node: &Node) -> bool
    ensures { result ≡ names_node nodes.now text.now node.now }
{
    text == node.reference.as_str() || names_turn_of(nodes, text, node)
}

/// Whether the node stands in a loop, and the text names one of its turns. Only then is the loop looked for.
#[tactic(auto, using(crate::proofs::TurnLemmas::no_turn, crate::proofs::TurnLemmas::only_looped))]
fn names_turn_of(nodes: &[Node], text: &str, node: &Node) -> bool
    ensures { result ≡ (is_looped nodes.now node.now && names_turn node.now.reference text.now) }
{
    if !names_turn(node.reference.as_str(), text) {
        return false;
    }
    is_looped(nodes, node.index)
}

/// The node that the text names an attempt of.
pub fn node_named<'n>(nodes: &'n [Node], text: &str) -> Option<&'n Node>
    ensures { option_copied result ≡ find (names_node nodes.now text.now) (all_nodes nodes.now) }
{
    find_in(nodes, &NamedBy { nodes, text })
}

impl Flow {
    /// The attempt that the text names.
    #[tactic(auto, using(crate::proofs::FindLemmas::found_passes))]
    pub fn named_attempt(&self, text: &str) -> Option<&Attempt>
        ensures { option_map seen (option_copied result) ≡ named_attempt (told self.now.flow) text.now }
    {
        match node_named(self.def().nodes.as_slice(), text) {
            Some(node) => self.attempt_of(node, text),
            None => None,
        }
    }

    /// The attempt of the node that the text names.
    fn attempt_of(&self, node: &Node, text: &str) -> Option<&Attempt>
        requires { names_node self.now.flow.def.nodes text.now node.now ≡ true }
        ensures { option_map seen (option_copied result) ≡ attempt_of (told self.now.flow) text.now node.now }
    {
        if text != node.reference.as_str() {
            return match turn_digits(node.reference.as_str(), text) {
                Some(digits) => self.attempt_in_turn(node.index, digits),
                None => None,
            };
        }
        if is_looped(self.def().nodes.as_slice(), node.index) {
            self.latest_attempt(node.index)
        } else {
            self.last_attempt(node.index, 0)
        }
    }
}
