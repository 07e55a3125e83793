//! Deadlines that have passed.

ghost use Rattle.std.specs.Prelude.{◌≡◌, map, option_map, slice_get, true, false, IfOk, IfSome, Some};
ghost use Rattle.std.specs.Option.{option_copied};
ghost use Rattle.wf_rules.specs.Rules as spec;
ghost use Rattle.wf_rules.specs.Sight.{clocked, due, is_in_progress, over_time};
ghost use Rattle.wf_retry.specs.Reading.{acts_due, cause_due, deadline_of};
ghost use Rattle.wf_setting.specs.Setting.{sight_in};

use std::alloc::Global;
use wf_doc::Text;
use wf_flow::{Attempt, Flow};
use wf_machine::{Cause, Clocked, TaskPolicy, Timing};
use wf_names::{FlowStatus, TaskStatus};
use wf_rules::{Act, Alert, Outcome};
use wf_setting::{Children, NoMemory, Setting, one, two};
use wf_time::deadline;

/// Whether the flow has run longer than it may, and that isn't noted yet.
pub fn is_over_time(moment: u64, flow: &Flow) -> bool
    ensures { result ≡ over_time moment flow.now.flow }
{
    flow.is_record();
    let timeout = flow.def().timeout;
    if flow.noted() || timeout == 0 {
        return false;
    }
    flow.started() + 1000 * timeout as u64 <= moment
}

/// What the first open attempt with a passed deadline wants done, by its earliest one.
#[tactic(auto, using(crate::proofs::DueLemmas::due_acts), unfolding(wf_rules::specs::Sight::sight))]
pub fn past_due<C: Children>(
    alloc: Global,
    at: &Setting<C>,
    flow: &Flow,
) -> Result<Option<Vec<Act>>, NoMemory>
    ensures { IfOk result (λ acts. option_map (λ a. a.items) acts ≡ spec.r2 (sight_in at.now flow.now.flow)) }
{
    match first_due(at.moment, flow.attempts()) {
        Some((place, attempt, cause)) => {
            let acts = acts_due(alloc, place, attempt.timing(), cause)?;
            Ok(Some(acts))
        }
        None => Ok(None),
    }
}

/// The first attempt with a passed deadline, its place, and why it is due.
fn first_due(moment: u64, attempts: &[Attempt]) -> Option<(u64, &Attempt, Cause)>
    ensures cause { option_map (λ found. (found.0, found.2)) result ≡ spec.first_due (map (due moment) attempts.now) }
    ensures attempt { IfSome result (λ found. slice_get attempts.now found.0 ≡ Some found.1.now) }
{
    for (place, attempt) in attempts.iter().enumerate() {
        if let Some(cause) = cause_due(moment, attempt) {
            return Some((place as u64, attempt, cause));
        }
    }
    None
}

/// Why the attempt is due, by its earliest deadline where that has passed.
#[tactic(auto, using(crate::proofs::DueLemmas::cause_first))]
fn cause_due(moment: u64, attempt: &Attempt) -> Option<Cause>
    ensures { result ≡ cause_due moment attempt.now }
{
    match deadline_of(attempt) {
        Some((due, cause)) => { if due <= moment { Some(cause) } else { None } }
        None => None,
    }
}

/// Its earliest deadline. An attempt that has ended has none.
fn deadline_of(attempt: &Attempt) -> Option<(u64, Cause)>
    ensures { result ≡ deadline_of attempt.now }
{
    if !attempt.status().is_open() {
        return None;
    }
    attempt.in_range();
    deadline(attempt.timing(), &clocked(attempt))
}

/// What its deadlines are counted from.
fn clocked(attempt: &Attempt) -> Clocked
    ensures { result ≡ clocked attempt.now }
{
    Clocked {
        held: is_in_progress(attempt.status()),
        ready: attempt.ready(),
        first_poll: attempt.first_poll(),
        last_poll: attempt.last_poll(),
        poll_noted: attempt.poll_noted(),
        total_noted: attempt.total_noted(),
        wait: attempt.wait(),
    }
}

fn is_in_progress(status: TaskStatus) -> bool
    ensures { result ≡ is_in_progress status }
{
    match status {
        TaskStatus::InProgress => true,
        TaskStatus::Scheduled => false,
        TaskStatus::Completed => false,
        TaskStatus::CompletedWithErrors => false,
        TaskStatus::Skipped => false,
        TaskStatus::Failed => false,
        TaskStatus::FailedWithTerminalError => false,
        TaskStatus::TimedOut => false,
        TaskStatus::Canceled => false,
    }
}

/// What a passed deadline does to the attempt at that place, which has that timing.
fn acts_due(
    alloc: Global,
    place: u64,
    timing: Option<&Timing>,
    cause: Cause,
) -> Result<Vec<Act>, NoMemory>
    ensures { IfOk result (λ acts. acts.items ≡ acts_due (option_copied timing.entry) place cause) }
{
    match cause {
        Cause::Poll => by_policy(alloc, place, Alert::Poll, "poll timeout", policy_of(timing)),
        Cause::Response => one(alloc, timed_out(alloc, place, "response timeout")?),
        Cause::Total => by_policy(
            alloc,
            place,
            Alert::Total,
            "total timeout",
            policy_of(timing),
        ),
        Cause::Wait => one(alloc, Act::Close(place, Outcome::Completed, None, None)),
    }
}

fn policy_of(timing: Option<&Timing>) -> TaskPolicy
    ensures { result ≡ spec.policy_of (option_copied timing.entry) }
{
    match timing {
        Some(timing) => timing.policy,
        None => TaskPolicy::Retry,
    }
}

fn by_policy(
    alloc: Global,
    place: u64,
    alert: Alert,
    reason: &str,
    policy: TaskPolicy,
) -> Result<Vec<Act>, NoMemory>
    ensures { IfOk result (λ acts. acts.items ≡ spec.by_policy place alert reason.now policy) }
{
    match policy {
        TaskPolicy::Retry => one(alloc, timed_out(alloc, place, reason)?),
        TaskPolicy::TimeOutWf => {
            let ends = Act::End(FlowStatus::TimedOut, Some(Text::new(alloc, reason)?), None);
            two(alloc, timed_out(alloc, place, reason)?, ends)
        }
        TaskPolicy::AlertOnly => one(alloc, Act::Note(place, alert, Text::new(alloc, reason)?)),
    }
}

fn timed_out(alloc: Global, place: u64, reason: &str) -> Result<Act, NoMemory>
    ensures { IfOk result (λ act. act ≡ spec.timed_out place reason.now) }
{
    let reason = Text::new(alloc, reason)?;
    Ok(Act::Close(place, Outcome::TimedOut, Some(reason), None))
}
