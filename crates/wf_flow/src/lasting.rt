//! The last attempt at a node, in one turn or in the latest.

ghost use Rattle.std.specs.Prelude.{◌≡◌, ℕ, ◌-◌, ◌^◌, map, min, true, if◌then◌else◌, Some};
ghost use Rattle.std.specs.Char.{is_ascii_digit};
ghost use Rattle.std.specs.List.{list_all};
ghost use Rattle.std.specs.Option.{option_copied, option_map};
ghost use Rattle.std.specs.Str.Parse.{digits_value};
ghost use Rattle.wf_machine.specs.Marks.{is_of, last_of};
ghost use Rattle.wf_machine.specs.Naming.{in_later_turn, is_at, latest_of};
ghost use Rattle.wf_machine.specs.Sight.{seen};
ghost use Rattle.wf_flow.specs.Last.{greatest};

use crate::attempt::Attempt;
use crate::flow::Flow;
use crate::turns::capped_value;
use wf_names::TaskNo;

fn is_at(attempt: &Attempt, node: u32, iteration: u32) -> bool
    ensures { result ≡ is_of node iteration (seen attempt.now) }
{
    attempt.node() == node && attempt.iteration() == iteration && !attempt.superseded()
}

/// Whether it is at the node in the turn of that number, and isn't superseded. Turns above the type's last value are
/// given as that value, which no attempt has.
fn is_in_turn(attempt: &Attempt, node: u32, turn: u64) -> bool
    ensures { (named : ℕ) → turn ≡ min named (2 ^ 64 - 1) → result ≡ is_of node named (seen attempt.now) }
{
    attempt.node() == node && attempt.iteration() as u64 == turn && !attempt.superseded()
}

/// Whether it is at the node, and isn't superseded.
fn is_at_node(attempt: &Attempt, node: u32) -> bool
    ensures { result ≡ is_at node (seen attempt.now) }
{
    attempt.node() == node && !attempt.superseded()
}

/// Of an attempt and one found behind it the one in the later turn, the one behind where they are equal.
fn in_later_turn<'a>(attempt: &'a Attempt, found: Option<&'a Attempt>) -> &'a Attempt
    ensures { Some (seen result.now) ≡ in_later_turn (seen attempt.now) (option_map seen (option_copied found.entry)) }
{
    match found {
        Some(other) => {
            if other.iteration() < attempt.iteration() {
                attempt
            } else {
                other
            }
        }
        None => attempt,
    }
}

/// The latest with one attempt more, which stands before those that were looked at.
fn latest_with<'a>(
    attempt: &'a Attempt,
    node: u32,
    latest: Option<&'a Attempt>,
) -> Option<&'a Attempt>
    ensures { option_map seen (option_copied result)
        ≡ (if is_at node (seen attempt.now) then in_later_turn (seen attempt.now) (option_map seen (option_copied latest.entry))
        else option_map seen (option_copied latest.entry)) }
{
    if is_at_node(attempt, node) {
        Some(in_later_turn(attempt, latest))
    } else {
        latest
    }
}

impl Flow {
    /// The last attempt at a node in an iteration that isn't superseded.
    pub fn last_attempt(&self, node: u32, iteration: u32) -> Option<&Attempt>
        ensures seen { option_map seen (option_copied result) ≡ last_of (map seen self.now.flow.attempts) node iteration }
        ensures greatest { option_copied result ≡ greatest node iteration self.now.flow.attempts }
    {
        let mut last = None;
        for attempt in self.attempts() {
            if is_at(attempt, node, iteration) {
                last = Some(attempt);
            }
        }
        last
    }

    /// The number of the last attempt at a node in an iteration that isn't superseded.
    pub fn last(&self, node: u32, iteration: u32) -> Option<TaskNo>
        ensures { result ≡ option_map (λ a. a.number) (greatest node iteration self.now.flow.attempts) }
    {
        match self.last_attempt(node, iteration) {
            Some(attempt) => Some(attempt.number()),
            None => None,
        }
    }

    /// The last attempt at a node, in the latest turn that has one that isn't superseded.
    pub fn latest_attempt(&self, node: u32) -> Option<&Attempt>
        ensures { option_map seen (option_copied result) ≡ latest_of (map seen self.now.flow.attempts) node }
    {
        let attempts = self.attempts();
        let mut latest = None;
        let mut left = attempts.len();
        'attempts: while left > 0 {
            left -= 1;
            latest = latest_with(&attempts[left], node, latest);
        }
        latest
    }

    /// The last attempt at a node in the turn that the digits say that isn't superseded.
    pub(crate) fn attempt_in_turn(&self, node: u32, digits: &[u8]) -> Option<&Attempt>
        requires { list_all is_ascii_digit digits.now ≡ true }
        ensures { option_map seen (option_copied result) ≡ last_of (map seen self.now.flow.attempts) node (digits_value 10 digits.now) }
    {
        let turn = capped_value(digits);
        let mut last = None;
        for attempt in self.attempts() {
            if is_in_turn(attempt, node, turn) {
                last = Some(attempt);
            }
        }
        last
    }
}
