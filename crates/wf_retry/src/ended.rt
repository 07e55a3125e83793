//! Children that have ended.

ghost use Rattle.std.specs.Prelude.{◌≡◌, map};
ghost use Rattle.wf_rules.specs.Rules as spec;
ghost use Rattle.wf_rules.specs.Sight.{child_end};
ghost use Rattle.wf_setting.specs.Setting.{sight_in};

use wf_flow::{Attempt, Flow};
use wf_setting::{Children, EndedChild, Setting};

/// The first open attempt whose child has ended, by its place, and that child.
#[tactic(auto, unfolding(wf_rules::specs::Sight::sight))]
pub fn ended_child<'s, C: Children>(
    at: &Setting<'s, C>,
    flow: &Flow,
) -> Option<(u64, EndedChild<'s>)>
    ensures { result ≡ spec.first_some (sight_in at.now flow.now.flow).ended }
{
    first_ended(at.children, flow.attempts())
}

fn first_ended<'s, C: Children>(
    children: &'s C,
    attempts: &[Attempt],
) -> Option<(u64, EndedChild<'s>)>
    ensures { result ≡ spec.first_some (map (child_end (C.all children.now)) attempts.now) }
{
    for (place, attempt) in attempts.iter().enumerate() {
        if let Some(child) = child_end(children, attempt) {
            return Some((place as u64, child));
        }
    }
    None
}

/// The ended child of an open attempt.
fn child_end<'s, C: Children>(children: &'s C, attempt: &Attempt) -> Option<EndedChild<'s>>
    ensures { result ≡ child_end (C.all children.now) attempt.now }
{
    if !attempt.status().is_open() {
        return None;
    }
    attempt.in_range();
    match attempt.child() {
        Some(number) => children.ended(number),
        None => None,
    }
}
