//! Attempts that are lost: they ended without success, and no later one takes their place.

ghost use Rattle.std.specs.Prelude.{◌≡◌, ◌&&◌, map, not, option_map};
ghost use Rattle.std.specs.List.{list_any};
ghost use Rattle.wf_machine.specs.Marks.{is_of};
ghost use Rattle.wf_machine.specs.Sight.{seen};
ghost use Rattle.wf_rules.specs.Rules as spec;

use wf_flow::Attempt;

/// The first attempt that is lost, with its place.
pub fn first_lost(attempts: &[Attempt]) -> Option<(u64, &Attempt)>
    ensures { option_map (λ found. (found.0, seen found.1.now)) result ≡ spec.first_lost (map seen attempts.now) }
{
    for (place, attempt) in attempts.iter().enumerate() {
        if is_lost(attempt, &attempts[place + 1..]) {
            return Some((place as u64, attempt));
        }
    }
    None
}

/// Only of an attempt that ended without success the later ones are looked at.
fn is_lost(attempt: &Attempt, later: &[Attempt]) -> bool
    ensures { result ≡ spec.is_lost (seen attempt.now) (map seen later.now) }
{
    has_failed(attempt) && !stands_in(later, attempt.node(), attempt.iteration())
}

/// It ended without success, and isn't superseded.
fn has_failed(attempt: &Attempt) -> bool
    ensures { result ≡ (not attempt.now.superseded && spec.is_lost_status attempt.now.status) }
{
    let status = attempt.status();
    !attempt.superseded() && !status.is_open() && !status.is_successful()
}

/// An attempt at the node in that iteration that isn't superseded stands among them.
fn stands_in(attempts: &[Attempt], node: u32, iteration: u32) -> bool
    ensures { result ≡ list_any (is_of node iteration) (map seen attempts.now) }
{
    for attempt in attempts {
        if is_at(attempt, node, iteration) {
            return true;
        }
    }
    false
}

fn is_at(attempt: &Attempt, node: u32, iteration: u32) -> bool
    ensures { result ≡ is_of node iteration (seen attempt.now) }
{
    attempt.node() == node && attempt.iteration() == iteration && !attempt.superseded()
}
