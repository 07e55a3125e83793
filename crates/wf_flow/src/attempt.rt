//! One attempt at a node.

ghost use Rattle.std.specs.Prelude.{◌≡◌, ◌+◌, ◌<◌, ◌≤◌, ◌^◌, true, min, IfOk, Some};
ghost use Rattle.std.specs.Option.{option_copied};
ghost use Rattle.wf_machine.specs.State.{canceled, new_attempt};
ghost use Rattle.wf_machine.specs.Records.{Held, IsDueMoment, IsInRange, IsMoment};
ghost use Rattle.wf_machine.specs.Tasks.{goes_on, handed_out, is_result_status, or_moment, or_worker, result_applied, result_noted};
ghost use Rattle.wf_flow.specs.Changes.{closed, forgiven, or_kept, poll_noted, total_noted, turned};

use crate::empty::{empty_table, empty_text};
use crate::no_memory::NoMemory;
use std::alloc::Global;
use std::marker::Model;
use wf_doc::{Doc, Text};
use wf_machine::{TaskResult, Timing};
use wf_names::{FlowNo, TaskNo, TaskStatus};

/// One attempt at a node. Moments are milliseconds.
#[derive(Drop)]
pub struct Attempt {
    number: TaskNo,
    node: u32,
    iteration: u32,
    status: TaskStatus,
    input: Doc,
    output: Doc,
    reason: Text,
    retry: u32,
    retried: Option<TaskNo>,
    scheduled: u64,
    ready: u64,
    first_poll: Option<u64>,
    last_poll: u64,
    updated: u64,
    ended: Option<u64>,
    polls: u32,
    callback: u32,
    worker: Text,
    timing: Option<Timing>,
    poll_noted: bool,
    total_noted: bool,
    wait: Option<u64>,
    child: Option<FlowNo>,
    turn: u32,
    superseded: bool,
}

impl Model for Attempt {
    ghost use Rattle.std.specs.Coded.{codes};
    ghost use Rattle.wf_doc.specs.contracts.doc.Doc as doc;
    ghost use Rattle.wf_machine.specs.State.{Attempt as Record};

    ghost Value = { Record };

    ghost coded = { Prim.hlevel (codes, doc.the_row.coded) };

    ghost use Rattle.wf_machine.specs.Records.{IsInRange};
    ghost use Rattle.wf_flow.specs.AttemptFields.{attempt_shown};

    ghost view = { attempt_shown };

    ghost invariant = { λ a. IsInRange (attempt_shown a) };
}

impl Attempt {
    /// A new attempt: scheduled, ready and updated at the moment, and ended there where the status is
    /// terminal. It takes no memory.
    pub fn new(
        alloc: Global,
        number: TaskNo,
        node: u32,
        iteration: u32,
        status: TaskStatus,
        input: Doc,
        moment: u64,
    ) -> Attempt
        requires number { number.0 < 2 ^ 56 }
        requires moment { IsMoment moment }
        ensures { result ≡ new_attempt number node iteration status input moment }
    {
        Attempt {
            number,
            node,
            iteration,
            status,
            input,
            output: empty_table(alloc),
            reason: empty_text(alloc),
            retry: 0,
            retried: None,
            scheduled: moment,
            ready: moment,
            first_poll: None,
            last_poll: 0,
            updated: moment,
            ended: if status.is_open() { None } else { Some(moment) },
            polls: 0,
            callback: 0,
            worker: empty_text(alloc),
            timing: None,
            poll_noted: false,
            total_noted: false,
            wait: None,
            child: None,
            turn: 0,
            superseded: false,
        }
    }

    /// An equal attempt.
    pub fn copy(&self, alloc: Global) -> Result<Attempt, NoMemory>
        ensures { IfOk result (λ attempt. attempt ≡ self.now) }
    {
        Ok(Attempt {
            number: self.number,
            node: self.node,
            iteration: self.iteration,
            status: self.status,
            input: wf_doc::copy(alloc, &self.input)?,
            output: wf_doc::copy(alloc, &self.output)?,
            reason: self.reason.copy(alloc)?,
            retry: self.retry,
            retried: self.retried,
            scheduled: self.scheduled,
            ready: self.ready,
            first_poll: self.first_poll,
            last_poll: self.last_poll,
            updated: self.updated,
            ended: self.ended,
            polls: self.polls,
            callback: self.callback,
            worker: self.worker.copy(alloc)?,
            timing: self.timing,
            poll_noted: self.poll_noted,
            total_noted: self.total_noted,
            wait: self.wait,
            child: self.child,
            turn: self.turn,
            superseded: self.superseded,
        })
    }

    pub fn number(&self) -> TaskNo
        ensures { result ≡ self.now.number }
    {
        self.number
    }

    /// The index of its node.
    pub fn node(&self) -> u32
        ensures { result ≡ self.now.node }
    {
        self.node
    }

    /// The turn of the loop that its node stands in; 0 outside a loop.
    pub fn iteration(&self) -> u32
        ensures { result ≡ self.now.iteration }
    {
        self.iteration
    }

    pub fn status(&self) -> TaskStatus
        ensures { result ≡ self.now.status }
    {
        self.status
    }

    pub fn input(&self) -> &Doc
        ensures { result.now ≡ self.now.input }
    {
        &self.input
    }

    pub fn output(&self) -> &Doc
        ensures { result.now ≡ self.now.output }
    {
        &self.output
    }

    /// Why it failed or ended; empty where nothing was said.
    pub fn reason(&self) -> &str
        ensures { result.now ≡ self.now.reason }
    {
        self.reason.as_str()
    }

    /// How many attempts it retries.
    pub fn retry(&self) -> u32
        ensures { result ≡ self.now.retry }
    {
        self.retry
    }

    /// The attempt that it retries.
    pub fn retried(&self) -> Option<TaskNo>
        ensures { result ≡ self.now.retried }
    {
        self.retried
    }

    pub fn scheduled(&self) -> u64
        ensures { result ≡ self.now.scheduled }
    {
        self.scheduled
    }

    /// The moment from which it may be handed out.
    pub fn ready(&self) -> u64
        ensures { result ≡ self.now.ready }
    {
        self.ready
    }

    /// The moment at which it was first handed out; it starts then.
    pub fn first_poll(&self) -> Option<u64>
        ensures { result ≡ self.now.first_poll }
    {
        self.first_poll
    }

    /// The moment at which it was last handed out; 0 where there is none.
    pub fn last_poll(&self) -> u64
        ensures { result ≡ self.now.last_poll }
    {
        self.last_poll
    }

    /// The moment of its last change.
    pub fn updated(&self) -> u64
        ensures { result ≡ self.now.updated }
    {
        self.updated
    }

    pub fn ended(&self) -> Option<u64>
        ensures { result ≡ self.now.ended }
    {
        self.ended
    }

    /// How often it was handed out, at most 2147483647.
    pub fn polls(&self) -> u32
        ensures { result ≡ self.now.polls }
    {
        self.polls
    }

    /// The seconds after which a worker wants it handed out again.
    pub fn callback(&self) -> u32
        ensures { result ≡ self.now.callback }
    {
        self.callback
    }

    /// The worker that it was handed out to last; empty where there is none.
    pub fn worker(&self) -> &str
        ensures { result.now ≡ self.now.worker }
    {
        self.worker.as_str()
    }

    /// What the task's definition said as it was scheduled.
    pub fn timing(&self) -> Option<&Timing>
        ensures { option_copied result ≡ self.now.timing }
    {
        self.timing.as_ref()
    }

    /// Its passed poll deadline was noted.
    pub fn poll_noted(&self) -> bool
        ensures { result ≡ self.now.poll_noted }
    {
        self.poll_noted
    }

    /// Its passed total deadline was noted.
    pub fn total_noted(&self) -> bool
        ensures { result ≡ self.now.total_noted }
    {
        self.total_noted
    }

    /// The moment at which its wait ends.
    pub fn wait(&self) -> Option<u64>
        ensures { result ≡ self.now.wait }
    {
        self.wait
    }

    /// The flow that it started.
    pub fn child(&self) -> Option<FlowNo>
        ensures { result ≡ self.now.child }
    {
        self.child
    }

    /// The turn that its loop is in.
    pub fn turn(&self) -> u32
        ensures { result ≡ self.now.turn }
    {
        self.turn
    }

    /// It no longer counts for how far its node has come, and isn't shown.
    pub fn superseded(&self) -> bool
        ensures { result ≡ self.now.superseded }
    {
        self.superseded
    }

    pub fn set_status(&mut self, value: TaskStatus)
        ensures { self.new ≡ record self.old { status = value } }
    {
        self.status = value;
    }

    pub fn set_output(&mut self, value: Doc)
        ensures { self.new ≡ record self.old { output = value } }
    {
        self.output = value;
    }

    pub fn set_reason(&mut self, value: Text)
        ensures { self.new ≡ record self.old { reason = value } }
    {
        self.reason = value;
    }

    pub fn set_retry(&mut self, value: u32)
        ensures { self.new ≡ record self.old { retry = value } }
    {
        self.retry = value;
    }

    pub fn set_retried(&mut self, value: Option<TaskNo>)
        requires { Held (λ task. task.0 < 2 ^ 56) value }
        ensures { self.new ≡ record self.old { retried = value } }
    {
        self.retried = value;
    }

    pub fn set_ready(&mut self, value: u64)
        requires { IsDueMoment value }
        ensures { self.new ≡ record self.old { ready = value } }
    {
        self.ready = value;
    }

    pub fn set_first_poll(&mut self, value: Option<u64>)
        requires { Held IsMoment value }
        ensures { self.new ≡ record self.old { first_poll = value } }
    {
        self.first_poll = value;
    }

    pub fn set_last_poll(&mut self, value: u64)
        requires { IsMoment value }
        ensures { self.new ≡ record self.old { last_poll = value } }
    {
        self.last_poll = value;
    }

    pub fn set_updated(&mut self, value: u64)
        requires { IsMoment value }
        ensures { self.new ≡ record self.old { updated = value } }
    {
        self.updated = value;
    }

    pub fn set_ended(&mut self, value: Option<u64>)
        requires { Held IsMoment value }
        ensures { self.new ≡ record self.old { ended = value } }
    {
        self.ended = value;
    }

    pub fn set_polls(&mut self, value: u32)
        ensures { self.new ≡ record self.old { polls = value } }
    {
        self.polls = value;
    }

    pub fn set_callback(&mut self, value: u32)
        ensures { self.new ≡ record self.old { callback = value } }
    {
        self.callback = value;
    }

    pub fn set_worker(&mut self, value: Text)
        ensures { self.new ≡ record self.old { worker = value } }
    {
        self.worker = value;
    }

    pub fn set_timing(&mut self, value: Option<Timing>)
        ensures { self.new ≡ record self.old { timing = value } }
    {
        self.timing = value;
    }

    pub fn set_poll_noted(&mut self, value: bool)
        ensures { self.new ≡ record self.old { poll_noted = value } }
    {
        self.poll_noted = value;
    }

    pub fn set_total_noted(&mut self, value: bool)
        ensures { self.new ≡ record self.old { total_noted = value } }
    {
        self.total_noted = value;
    }

    pub fn set_wait(&mut self, value: Option<u64>)
        requires { Held IsDueMoment value }
        ensures { self.new ≡ record self.old { wait = value } }
    {
        self.wait = value;
    }

    pub fn set_child(&mut self, value: Option<FlowNo>)
        requires { Held (λ flow. flow.0 < 2 ^ 56) value }
        ensures { self.new ≡ record self.old { child = value } }
    {
        self.child = value;
    }

    pub fn set_turn(&mut self, value: u32)
        ensures { self.new ≡ record self.old { turn = value } }
    {
        self.turn = value;
    }

    pub fn set_superseded(&mut self, value: bool)
        ensures { self.new ≡ record self.old { superseded = value } }
    {
        self.superseded = value;
    }

    /// That its numbers and moments are in their ranges, as a fact.
    pub fn in_range(&self)
        ensures { IsInRange self.now }
    {
        let _number = self.number;
    }

    /// Ends it as CANCELED where it is open.
    pub(crate) fn cancel(&mut self, moment: u64)
        requires { IsMoment moment }
        ensures { self.new ≡ canceled moment self.old }
    {
        if self.status.is_open() {
            self.status = TaskStatus::Canceled;
            self.updated = moment;
            self.ended = Some(moment);
        }
    }

    /// Hands it out to a worker.
    pub(crate) fn hand_out(&mut self, worker: Text, moment: u64)
        requires { IsMoment moment }
        ensures { self.new ≡ handed_out moment worker self.old }
    {
        self.status = TaskStatus::InProgress;
        self.first_poll = or_moment(self.first_poll, moment);
        self.last_poll = moment;
        self.updated = moment;
        self.polls = one_more_poll(self.polls);
        self.worker = worker;
    }

    /// Takes what a worker tells of it while it is open. `simple` tells that its node is a SIMPLE one.
    pub(crate) fn apply_result(&mut self, simple: bool, outcome: TaskResult, moment: u64)
        requires status { is_result_status outcome.status ≡ true }
        requires callback { outcome.callback ≤ 2147483647 }
        requires moment { IsMoment moment }
        ensures { self.new ≡ result_applied moment simple outcome self.old }
    {
        let status = outcome.status;
        let callback = outcome.callback;
        self.note_result(outcome, moment);
        match status {
            TaskStatus::InProgress => self.go_on(simple, callback, moment),
            _ => self.finish(status, moment),
        }
    }

    fn note_result(&mut self, outcome: TaskResult, moment: u64)
        requires { IsMoment moment }
        ensures { self.new ≡ result_noted moment outcome self.old }
    {
        self.output = outcome.output;
        self.reason = outcome.reason;
        self.callback = outcome.callback;
        self.updated = moment;
        self.note_worker(outcome.worker);
    }

    fn note_worker(&mut self, worker: Option<Text>)
        ensures { self.new ≡ record self.old { worker = or_worker self.old.worker worker } }
    {
        if let Some(worker) = worker {
            self.worker = worker;
        }
    }

    fn go_on(&mut self, simple: bool, callback: u32, moment: u64)
        requires callback { callback ≤ 2147483647 }
        requires moment { IsMoment moment }
        ensures { self.new ≡ goes_on moment callback simple self.old }
    {
        if simple {
            self.status = TaskStatus::Scheduled;
            self.ready = moment + 1000 * callback as u64;
        } else {
            self.status = TaskStatus::InProgress;
        }
    }

    /// Ends it, with a new reason and a new output where there are some.
    pub(crate) fn close(
        &mut self,
        status: TaskStatus,
        reason: Option<Text>,
        output: Option<Doc>,
        moment: u64,
    )
        requires { IsMoment moment }
        ensures { self.new ≡ closed moment status reason output self.old }
    {
        self.give_reason(reason);
        self.give_output(output);
        self.updated = moment;
        self.finish(status, moment);
    }

    fn give_reason(&mut self, reason: Option<Text>)
        ensures { self.new ≡ record self.old { reason = or_kept self.old.reason reason } }
    {
        if let Some(reason) = reason {
            self.reason = reason;
        }
    }

    fn give_output(&mut self, output: Option<Doc>)
        ensures { self.new ≡ record self.old { output = or_kept self.old.output output } }
    {
        if let Some(output) = output {
            self.output = output;
        }
    }

    /// Notes that its poll deadline has passed.
    pub(crate) fn note_poll(&mut self, reason: Text, moment: u64)
        requires { IsMoment moment }
        ensures { self.new ≡ poll_noted moment reason self.old }
    {
        self.poll_noted = true;
        self.reason = reason;
        self.updated = moment;
    }

    /// Notes that its total deadline has passed.
    pub(crate) fn note_total(&mut self, reason: Text, moment: u64)
        requires { IsMoment moment }
        ensures { self.new ≡ total_noted moment reason self.old }
    {
        self.total_noted = true;
        self.reason = reason;
        self.updated = moment;
    }

    /// Lets the flow go on as if it had succeeded.
    pub(crate) fn forgive(&mut self, moment: u64)
        requires { IsMoment moment }
        ensures { self.new ≡ forgiven moment self.old }
    {
        self.status = TaskStatus::CompletedWithErrors;
        self.updated = moment;
    }

    /// Puts its loop into that turn.
    pub(crate) fn turn_on(&mut self, output: Doc, turn: u32, moment: u64)
        requires { IsMoment moment }
        ensures { self.new ≡ turned moment output turn self.old }
    {
        self.output = output;
        self.turn = turn;
        self.updated = moment;
    }

    fn finish(&mut self, status: TaskStatus, moment: u64)
        requires { IsMoment moment }
        ensures { self.new ≡ record self.old { status = status; ended = Some moment } }
    {
        self.status = status;
        self.ended = Some(moment);
    }
}

fn or_moment(first: Option<u64>, moment: u64) -> Option<u64>
    ensures { result ≡ or_moment first moment }
{
    match first {
        Some(_) => first,
        None => Some(moment),
    }
}

fn one_more_poll(polls: u32) -> u32
    ensures { result ≡ min (polls + 1) 2147483647 }
{
    if polls < 2147483647 {
        polls + 1
    } else {
        2147483647
    }
}
