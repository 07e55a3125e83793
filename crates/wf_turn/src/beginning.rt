//! How a new attempt begins.

ghost use Rattle.std.specs.Prelude.{◌≡◌, ◌<◌, ◌^◌, option_and_then};
ghost use Rattle.wf_machine.specs.Records.{Held, IsDueMoment, IsMoment};
ghost use Rattle.wf_rules.specs.Acts as spec;

use std::alloc::Global;
use wf_flow::{Attempt, Flow};
use wf_machine::Timing;
use wf_names::{FlowNo, TaskNo, TaskStatus};
use wf_rules::{Begin, NewAttempt, Outcome};

/// The attempt that is made under the number, for that attempt that it retries and that flow that it starts.
pub fn begin(
    alloc: Global,
    attempt: NewAttempt,
    number: u64,
    retried: Option<TaskNo>,
    child: Option<FlowNo>,
    moment: u64,
) -> Attempt
    requires number { number < 2 ^ 56 }
    requires retried { Held (λ task. task.0 < 2 ^ 56) retried }
    requires child { Held (λ flow. flow.0 < 2 ^ 56) child }
    requires moment { IsMoment moment }
    ensures { result ≡ spec.begun moment attempt (record { 0 = number }) retried child }
{
    let begin = attempt.begin;
    let status = first_status(begin);
    let mut made = Attempt::new(
        alloc,
        TaskNo(number),
        attempt.node,
        attempt.iteration,
        status,
        attempt.input,
        moment,
    );
    made.set_output(attempt.output);
    made.set_reason(attempt.reason);
    made.set_retry(attempt.retry);
    made.set_retried(retried);
    made.set_ready(first_ready(begin, moment));
    made.set_first_poll(first_poll(begin, moment));
    made.set_timing(first_timing(begin));
    made.set_wait(first_wait(begin, moment));
    made.set_child(child);
    made.set_turn(attempt.turn);
    made
}

/// The number of the attempt at that place.
pub fn number_of(flow: &Flow, place: Option<u64>) -> Option<TaskNo>
    ensures value { result ≡ option_and_then (λ p. spec.number_at p flow.now.flow.attempts) place }
    ensures small { Held (λ task. task.0 < 2 ^ 56) result }
{
    match place {
        Some(place) => number_at(flow, place),
        None => None,
    }
}

#[tactic(auto, using(crate::proofs::PlaceLemmas::number_there, crate::proofs::PlaceLemmas::no_number))]
fn number_at(flow: &Flow, place: u64) -> Option<TaskNo>
    ensures value { result ≡ spec.number_at place flow.now.flow.attempts }
    ensures small { Held (λ task. task.0 < 2 ^ 56) result }
{
    match flow.at(place) {
        Some(attempt) => {
            attempt.in_range();
            Some(attempt.number())
        }
        None => None,
    }
}

pub fn status_of(outcome: Outcome) -> TaskStatus
    ensures { result ≡ spec.status_of outcome }
{
    match outcome {
        Outcome::Completed => TaskStatus::Completed,
        Outcome::Failed => TaskStatus::Failed,
        Outcome::FailedWithTerminalError => TaskStatus::FailedWithTerminalError,
        Outcome::TimedOut => TaskStatus::TimedOut,
    }
}

fn first_status(begin: Begin) -> TaskStatus
    ensures { result ≡ spec.first_status begin }
{
    match begin {
        Begin::Queued(_, _) => TaskStatus::Scheduled,
        Begin::Held(_) => TaskStatus::InProgress,
        Begin::Over(outcome) => status_of(outcome),
    }
}

fn first_timing(begin: Begin) -> Option<Timing>
    ensures { result ≡ spec.first_timing begin }
{
    match begin {
        Begin::Queued(timing, _) => Some(timing),
        Begin::Held(_) => None,
        Begin::Over(_) => None,
    }
}

fn first_ready(begin: Begin, moment: u64) -> u64
    requires { IsMoment moment }
    ensures value { result ≡ spec.first_ready moment begin }
    ensures due { IsDueMoment result }
{
    match begin {
        Begin::Queued(_, delay) => moment + 1000 * delay as u64,
        Begin::Held(_) => moment,
        Begin::Over(_) => moment,
    }
}

/// An attempt that workers don't poll counts as polled when it is made.
fn first_poll(begin: Begin, moment: u64) -> Option<u64>
    requires { IsMoment moment }
    ensures value { result ≡ spec.first_poll moment begin }
    ensures moment { Held IsMoment result }
{
    match begin {
        Begin::Queued(_, _) => None,
        Begin::Held(_) => Some(moment),
        Begin::Over(_) => Some(moment),
    }
}

fn first_wait(begin: Begin, moment: u64) -> Option<u64>
    requires { IsMoment moment }
    ensures value { result ≡ spec.first_wait moment begin }
    ensures due { Held IsDueMoment result }
{
    match begin {
        Begin::Held(Some(delay)) => Some(moment + 1000 * delay as u64),
        Begin::Held(None) => None,
        Begin::Queued(_, _) => None,
        Begin::Over(_) => None,
    }
}
