//! A WAIT is scheduled.

ghost use Rattle.std.specs.Prelude.{◌≡◌, IfOk};
ghost use Rattle.wf_doc.specs.declared.doc.Doc.TheOpen.{Doc-F};
ghost use Rattle.wf_doc.specs.declared.doc.Doc.TheViews.{out-Doc};
ghost use Rattle.wf_rules.specs.Scheduling as spec;
ghost use Rattle.wf_schedule.specs.Starting.{delay_here, delay_told};
ghost use Rattle.wf_time.specs.Durations.{duration};

use crate::starts::Start;
use std::alloc::Global;
use wf_doc::Doc;
use wf_rules::{Begin, NewAttempt};
use wf_setting::NoMemory;
use wf_time::duration_read;

/// An attempt that waits as long as its input says, or that has failed where that isn't a duration.
#[tactic(auto, using(crate::proofs::ScheduleLemmas::wait_by_delay))]
pub fn wait(alloc: Global, start: Start) -> Result<NewAttempt, NoMemory>
    ensures { IfOk result (λ made. made ≡ spec.wait_at start.entry.node.now start.entry.iteration start.entry.input) }
{
    match delay_told(&start.input) {
        Some(delay) => Ok(start.begin(alloc, Begin::Held(delay))),
        None => start.fail(alloc, "bad duration"),
    }
}

/// The seconds that the input says, `Some(None)` where it says none, and None where what it says isn't a duration.
fn delay_told(input: &Doc) -> Option<Option<u32>>
    ensures { result ≡ delay_told input.now }
{
    match input.field("duration") {
        Some(duration) => delay_here(duration),
        None => Some(None),
    }
}

fn delay_here(duration: &Doc) -> Option<Option<u32>>
    ensures { result ≡ delay_here (out-Doc duration.now) }
{
    match duration {
        Doc::Null => Some(None),
        Doc::Text(text) => delay_in(text.as_str()),
        Doc::Bool(_) => None,
        Doc::Int(_) => None,
        Doc::List(_) => None,
        Doc::Table(_) => None,
    }
}

#[tactic(auto, using(crate::proofs::ScheduleLemmas::delay_of_text, crate::proofs::ScheduleLemmas::no_text))]
fn delay_in(text: &str) -> Option<Option<u32>>
    ensures { result ≡ delay_here (Doc-F.Text text.now) }
{
    if text.is_empty() {
        return Some(None);
    }
    match seconds_in(text) {
        Some(seconds) => Some(Some(seconds)),
        None => None,
    }
}

/// No duration has more seconds than fit here.
#[tactic(auto, using(crate::proofs::ScheduleLemmas::duration_short))]
fn seconds_in(text: &str) -> Option<u32>
    ensures { result ≡ duration text.now }
{
    match duration_read(text) {
        Some(seconds) => Some(seconds as u32),
        None => None,
    }
}
