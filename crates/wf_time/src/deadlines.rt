//! The earliest deadline of an open attempt.

ghost use Rattle.std.specs.Prelude.{◌≡◌, Some, None};
ghost use Rattle.std.specs.Option.{ForSome, option_copied};
ghost use Rattle.wf_time.specs.Deadlines.{AreInTime, IsInTime, deadline, due_after, due_by_timing, due_by_wait, due_from, earliest, first_of};

use wf_machine::{Cause, Clocked, Timing};

/// The earliest moment, in milliseconds, at which the open attempt is due, and why. Of causes with the same
/// moment the first of poll, response, total and wait counts.
pub fn deadline(timing: Option<&Timing>, clocked: &Clocked) -> Option<(u64, Cause)>
    requires { AreInTime clocked.now }
    ensures { result ≡ deadline (option_copied timing.entry) clocked.now }
{
    let wait = wait_deadline(clocked.wait);
    match timing {
        Some(timing) => first_of(timed_deadline(timing, clocked), wait),
        None => wait,
    }
}

fn wait_deadline(wait: Option<u64>) -> Option<(u64, Cause)>
    ensures { result ≡ earliest (due_by_wait wait) }
{
    match wait {
        Some(moment) => Some((moment, Cause::Wait)),
        None => None,
    }
}

/// The earliest by the timing.
fn timed_deadline(timing: &Timing, clocked: &Clocked) -> Option<(u64, Cause)>
    requires { AreInTime clocked.now }
    ensures { result ≡ earliest (due_by_timing (Some timing.now) clocked.now) }
{
    let is_poll_due = !clocked.held && !clocked.poll_noted;
    let poll = due_after(is_poll_due, timing.poll, clocked.ready, Cause::Poll);
    let response = due_after(
        clocked.held,
        timing.response,
        clocked.last_poll,
        Cause::Response,
    );
    let total = due_from(
        !clocked.total_noted,
        timing.total,
        clocked.first_poll,
        Cause::Total,
    );
    first_of(first_of(poll, response), total)
}

/// That many seconds after the moment, where it is in force; of 0 seconds there is none.
fn due_after(in_force: bool, seconds: u32, moment: u64, cause: Cause) -> Option<(u64, Cause)>
    requires { IsInTime moment }
    ensures { result ≡ earliest (due_after in_force seconds moment cause) }
{
    if in_force && seconds != 0 {
        Some((moment + 1000 * seconds as u64, cause))
    } else {
        None
    }
}

fn due_from(in_force: bool, seconds: u32, moment: Option<u64>, cause: Cause) -> Option<(u64, Cause)>
    requires { ForSome moment IsInTime }
    ensures { result ≡ earliest (due_from in_force seconds moment cause) }
{
    match moment {
        Some(moment) => due_after(in_force, seconds, moment, cause),
        None => None,
    }
}

/// The earlier of the two, the first where their moments are the same.
fn first_of(first: Option<(u64, Cause)>, second: Option<(u64, Cause)>) -> Option<(u64, Cause)>
    ensures { result ≡ first_of first second }
{
    match (first, second) {
        (Some(due), Some(other)) if other.0 < due.0 => Some(other),
        (Some(due), _) => Some(due),
        (None, other) => other,
    }
}
