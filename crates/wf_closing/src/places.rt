//! Where in the list of attempts the last one at a node stands.

ghost use Rattle.std.specs.Prelude.{◌≡◌, map};
ghost use Rattle.wf_machine.specs.Marks.{is_of};
ghost use Rattle.wf_machine.specs.Sight.{seen};
ghost use Rattle.wf_rules.specs.Rules as spec;

use wf_flow::{Attempt, Flow};

/// The place of the last attempt at a node in an iteration that isn't superseded.
#[tactic(auto, using(crate::proofs::PlaceLemmas::last_here, crate::proofs::PlaceLemmas::not_here))]
pub fn last_place(flow: &Flow, node: u32, iteration: u32) -> Option<u64>
    ensures { result ≡ spec.last_place (map seen flow.now.flow.attempts) node iteration }
{
    let attempts = flow.attempts();
    let mut left = attempts.len();
    'attempts: while left > 0 {
        left -= 1;
        if is_of(&attempts[left], node, iteration) {
            return Some(left as u64);
        }
    }
    None
}

fn is_of(attempt: &Attempt, node: u32, iteration: u32) -> bool
    ensures { result ≡ is_of node iteration (seen attempt.now) }
{
    attempt.node() == node && attempt.iteration() == iteration && !attempt.superseded()
}
