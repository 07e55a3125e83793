//! One workflow instance.

ghost use Rattle.std.specs.Prelude.{◌≡◌, ◌≢◌, [], ◌∷◌, ◌++◌, ◌+◌, ◌<◌, ◌≤◌, ◌^◌, true, false, length, slice_get, IfOk, IfSome, IsSome, IsSomeAnd, OnOk, Ok, Some};
ghost use Rattle.std.specs.Option.{option_copied, option_map_or};
ghost use Rattle.wf_names.specs.FlowStatus.{flow_is_open};
ghost use Rattle.wf_names.specs.TaskStatus.{task_is_open};
ghost use Rattle.wf_machine.specs.State.{RisingFrom, RisingTo, attempt_numbered, flow_ended, new_flow, with_attempt};
ghost use Rattle.wf_machine.specs.Records.{Each, Held, IsInRange, IsMoment, IsRecord, is_kind_at, is_scheduled, is_simple};
ghost use Rattle.wf_machine.specs.Tasks.{handed_out, is_result_status, result_applied};
ghost use Rattle.wf_machine.specs.Operators.{cleared, reopened, superseded};
ghost use Rattle.wf_flow.specs.Changes.{at_place, attempt_answer, closed, forgiven, has_failed, open_numbers, poll_noted, total_noted, turned, update_answer};

use crate::attempt::Attempt;
use crate::attempts::Attempts;
use crate::empty::{empty_table, empty_text};
use crate::no_memory::NoMemory;
use crate::nodes::{is_simple_at, takes_update_at};
use std::alloc::Global;
use std::marker::Model;
use wf_doc::{Doc, Items, Text};
use wf_machine::{FlowDef, TaskResult};
use wf_names::{FlowNo, FlowStatus, Refusal, TaskNo, TaskStatus};

/// Numbers of attempts in an order that the maker gives them.
pub type TaskNos = Items<TaskNo>;

/// One workflow instance, seen with the room that it has for more attempts. Moments are milliseconds.
#[derive(Drop)]
pub struct Flow {
    number: FlowNo,
    def: FlowDef,
    input: Doc,
    variables: Doc,
    output: Doc,
    status: FlowStatus,
    reason: Text,
    correlation: Text,
    depth: u32,
    parent: Option<(FlowNo, TaskNo)>,
    created: u64,
    started: u64,
    ended: Option<u64>,
    noted: bool,
    attempts: Attempts,
}

impl Model for Flow {
    ghost use Rattle.std.specs.Coded.{codes};
    ghost use Rattle.wf_doc.specs.contracts.doc.Doc as doc;
    ghost use Rattle.wf_machine.specs.contracts.definition.NodeKind as node_kind;
    ghost use Rattle.wf_flow.specs.Room.{FlowRoom};

    ghost Value = { FlowRoom };

    ghost coded = { Prim.hlevel (codes, doc.the_row.coded, node_kind.the_row.coded) };

    ghost use Rattle.wf_flow.specs.Keeping.{IsSoundFlow};
    ghost use Rattle.wf_flow.specs.FlowFields.{flow_shown};

    ghost view = { λ f. record { flow = flow_shown f; spare = f.attempts.spare } };

    ghost invariant = { λ f. IsSoundFlow (flow_shown f) };
}

impl Flow {
    /// A RUNNING flow without attempts, created and started at the moment. It takes no memory.
    pub fn new(
        alloc: Global,
        number: FlowNo,
        def: FlowDef,
        input: Doc,
        correlation: Text,
        parent: Option<(FlowNo, TaskNo)>,
        depth: u32,
        moment: u64,
    ) -> Flow
        requires number { number.0 < 2 ^ 56 }
        requires parent { Held (λ p. (p.0.0 < 2 ^ 56) × (p.1.0 < 2 ^ 56)) parent }
        requires moment { IsMoment moment }
        ensures { result.flow ≡ new_flow number def input correlation parent depth moment }
    {
        Flow {
            number,
            def,
            input,
            variables: empty_table(alloc),
            output: empty_table(alloc),
            status: FlowStatus::Running,
            reason: empty_text(alloc),
            correlation,
            depth,
            parent,
            created: moment,
            started: moment,
            ended: None,
            noted: false,
            attempts: Attempts::new(alloc),
        }
    }

    /// An equal flow, with room of its own.
    pub fn copy(&self, alloc: Global) -> Result<Flow, NoMemory>
        ensures { IfOk result (λ copy. copy.flow ≡ self.now.flow) }
    {
        Ok(Flow {
            number: self.number,
            def: self.def.copy(alloc)?,
            input: wf_doc::copy(alloc, &self.input)?,
            variables: wf_doc::copy(alloc, &self.variables)?,
            output: wf_doc::copy(alloc, &self.output)?,
            status: self.status,
            reason: self.reason.copy(alloc)?,
            correlation: self.correlation.copy(alloc)?,
            depth: self.depth,
            parent: self.parent,
            created: self.created,
            started: self.started,
            ended: self.ended,
            noted: self.noted,
            attempts: self.attempts.copy(alloc)?,
        })
    }

    pub fn number(&self) -> FlowNo
        ensures { result ≡ self.now.flow.number }
    {
        self.number
    }

    /// The definition as it stood when the flow started.
    pub fn def(&self) -> &FlowDef
        ensures { result.now ≡ self.now.flow.def }
    {
        &self.def
    }

    pub fn input(&self) -> &Doc
        ensures { result.now ≡ self.now.flow.input }
    {
        &self.input
    }

    pub fn variables(&self) -> &Doc
        ensures { result.now ≡ self.now.flow.variables }
    {
        &self.variables
    }

    pub fn output(&self) -> &Doc
        ensures { result.now ≡ self.now.flow.output }
    {
        &self.output
    }

    pub fn status(&self) -> FlowStatus
        ensures { result ≡ self.now.flow.status }
    {
        self.status
    }

    /// Why it ended without completing; empty where nothing was said.
    pub fn reason(&self) -> &str
        ensures { result.now ≡ self.now.flow.reason }
    {
        self.reason.as_str()
    }

    /// The id that the caller gave it; empty where there is none.
    pub fn correlation(&self) -> &str
        ensures { result.now ≡ self.now.flow.correlation }
    {
        self.correlation.as_str()
    }

    /// How many flows it is nested in.
    pub fn depth(&self) -> u32
        ensures { result ≡ self.now.flow.depth }
    {
        self.depth
    }

    /// The flow and the attempt that started it.
    pub fn parent(&self) -> Option<(FlowNo, TaskNo)>
        ensures { result ≡ self.now.flow.parent }
    {
        self.parent
    }

    pub fn created(&self) -> u64
        ensures { result ≡ self.now.flow.created }
    {
        self.created
    }

    /// The moment at which it was started, or started anew.
    pub fn started(&self) -> u64
        ensures { result ≡ self.now.flow.started }
    {
        self.started
    }

    pub fn ended(&self) -> Option<u64>
        ensures { result ≡ self.now.flow.ended }
    {
        self.ended
    }

    /// Its passed timeout was noted.
    pub fn noted(&self) -> bool
        ensures { result ≡ self.now.flow.noted }
    {
        self.noted
    }

    /// The attempts, by rising number.
    pub fn attempts(&self) -> &[Attempt]
        ensures value { result.now ≡ self.now.flow.attempts }
        ensures rising { RisingFrom 1 self.now.flow.attempts }
    {
        self.attempts.as_slice()
    }

    /// How many attempts there are.
    pub fn len(&self) -> u64
        ensures { result ≡ length self.now.flow.attempts }
    {
        self.attempts.len() as u64
    }

    /// That it can be kept, as a fact.
    pub fn is_record(&self)
        ensures { IsRecord self.now.flow }
    {
        let _number = self.number;
    }

    /// That its attempts are in their ranges, as a fact.
    pub fn attempts_in_range(&self)
        ensures { Each IsInRange self.now.flow.attempts }
    {
        let _number = self.number;
    }

    /// The attempt at that place, counted from 0 by rising number.
    pub fn at(&self, place: u64) -> Option<&Attempt>
        ensures { option_copied result ≡ slice_get self.now.flow.attempts place }
    {
        self.attempts.get(place as usize)
    }

    /// The attempt of that number.
    pub fn attempt(&self, task: TaskNo) -> Option<&Attempt>
        ensures { option_copied result ≡ attempt_numbered task self.now.flow.attempts }
    {
        match self.attempts.place(task) {
            Some(place) => self.attempts.get(place),
            None => None,
        }
    }

    /// The numbers of the open attempts, rising.
    pub fn open_attempts(&self, alloc: Global) -> Result<TaskNos, NoMemory>
        ensures { IfOk result (λ numbers. numbers ≡ open_numbers self.now.flow.attempts) }
    {
        self.attempts.open(alloc)
    }

    /// Makes room for `more` attempts.
    pub fn reserve(&mut self, more: u64) -> Result<(), NoMemory>
        ensures flow { self.new.flow ≡ self.old.flow }
        ensures room { OnOk result (more ≤ self.new.spare) }
        ensures kept { self.old.spare ≤ self.new.spare }
    {
        self.attempts.reserve(more as usize)
    }

    /// Adds an attempt whose number is above all others. It takes no memory.
    pub fn add(&mut self, attempt: Attempt)
        requires room { 0 < self.old.spare }
        requires above { RisingTo 1 attempt.number.0 self.old.flow.attempts }
        requires kept { IsRecord (record self.old.flow { attempts = self.old.flow.attempts ++ attempt ∷ [] }) }
        ensures flow { self.new.flow ≡ record self.old.flow { attempts = self.old.flow.attempts ++ attempt ∷ [] } }
        ensures room { self.old.spare ≤ self.new.spare + 1 }
    {
        attempt.in_range();
        self.attempts.add(attempt);
    }

    /// Puts an attempt in the place of the one of its number, which it gives back. It takes no memory.
    pub fn replace(&mut self, attempt: Attempt) -> Attempt
        requires there { IsSome (attempt_numbered attempt.number self.old.flow.attempts) }
        requires kept { IsRecord (record self.old.flow { attempts = with_attempt attempt self.old.flow.attempts }) }
        ensures old { attempt_numbered attempt.number self.old.flow.attempts ≡ Some result }
        ensures flow { self.new.flow ≡ record self.old.flow { attempts = with_attempt attempt self.old.flow.attempts } }
        ensures room { self.new.spare ≡ self.old.spare }
    {
        attempt.in_range();
        match self.attempts.place(attempt.number()) {
            Some(place) => self.attempts.replace(place, attempt),
            None => attempt,
        }
    }

    /// Ends it, and cancels its open attempts. It takes no memory.
    pub fn end(&mut self, status: FlowStatus, moment: u64)
        requires terminal { flow_is_open status ≡ false }
        requires moment { IsMoment moment }
        ensures flow { self.new.flow ≡ flow_ended status moment self.old.flow }
        ensures room { self.new.spare ≡ self.old.spare }
    {
        self.status = status;
        self.ended = Some(moment);
        self.attempts.cancel_open(moment);
    }

    /// Takes all attempts and variables away. It takes no memory.
    pub fn clear(&mut self)
        ensures flow { self.new.flow ≡ cleared self.old.flow }
        ensures room { self.old.spare ≤ self.new.spare }
    {
        self.attempts.clear();
        self.variables = empty_table(self.attempts.allocator());
    }

    /// Lets it run anew from the moment, without a reason, an end and an output. It takes no memory.
    pub fn reopen(&mut self, moment: u64)
        requires terminal { flow_is_open self.old.flow.status ≡ false }
        requires moment { IsMoment moment }
        ensures flow { self.new.flow ≡ reopened moment self.old.flow }
        ensures room { self.new.spare ≡ self.old.spare }
    {
        let alloc = self.attempts.allocator();
        self.status = FlowStatus::Running;
        self.reason = empty_text(alloc);
        self.started = moment;
        self.ended = None;
        self.output = empty_table(alloc);
        self.noted = false;
    }

    /// Hands a SCHEDULED attempt out to a worker. It takes no memory.
    pub fn hand_out(&mut self, task: TaskNo, worker: Text, moment: u64)
        requires scheduled { IsSomeAnd (attempt_numbered task self.old.flow.attempts) (λ a. is_scheduled a.status ≡ true) }
        requires moment { IsMoment moment }
        ensures flow { IsSomeAnd (attempt_numbered task self.old.flow.attempts)
            (λ a. self.new.flow ≡ record self.old.flow { attempts = with_attempt (handed_out moment worker a) self.old.flow.attempts }) }
        ensures room { self.new.spare ≡ self.old.spare }
    {
        if let Some(place) = self.attempts.place(task) {
            self.attempts.hand_out(place, worker, moment);
        }
    }

    /// Takes what a worker tells of an attempt: false where the attempt has ended, and keeps what it has. It is
    /// refused with NotFound where there is none of that number, and with NotUpdatable where the server alone
    /// ends it. It takes no memory.
    pub fn apply_result(
        &mut self,
        task: TaskNo,
        outcome: TaskResult,
        moment: u64,
    ) -> Result<bool, Refusal>
        requires status { is_result_status outcome.status ≡ true }
        requires callback { outcome.callback ≤ 2147483647 }
        requires moment { IsMoment moment }
        ensures answer { result ≡ update_answer self.old.flow.def (attempt_numbered task self.old.flow.attempts) }
        ensures applied { result ≡ Ok true → IsSomeAnd (attempt_numbered task self.old.flow.attempts)
            (λ a. self.new.flow ≡ record self.old.flow {
              attempts = with_attempt (result_applied moment (is_kind_at is_simple self.old.flow.def a.node) outcome a) self.old.flow.attempts;
            }) }
        ensures kept { result ≢ Ok true → self.new.flow ≡ self.old.flow }
        ensures room { self.new.spare ≡ self.old.spare }
    {
        match self.update_answer(task) {
            Ok(true) => {
                self.take_result(task, outcome, moment);
                Ok(true)
            }
            answer => answer,
        }
    }

    /// What an update of that attempt is answered.
    fn update_answer(&self, task: TaskNo) -> Result<bool, Refusal>
        ensures { result ≡ update_answer self.now.flow.def (attempt_numbered task self.now.flow.attempts) }
    {
        match self.attempt(task) {
            Some(attempt) => attempt_answer(&self.def, attempt),
            None => Err(Refusal::NotFound),
        }
    }

    /// Whether the node of that attempt is a SIMPLE one.
    fn is_simple(&self, task: TaskNo) -> bool
        ensures { result ≡ option_map_or (λ a. is_kind_at is_simple self.now.flow.def a.node) (attempt_numbered task self.now.flow.attempts) false }
    {
        match self.attempt(task) {
            Some(attempt) => is_simple_at(&self.def, attempt.node()),
            None => false,
        }
    }

    fn take_result(&mut self, task: TaskNo, outcome: TaskResult, moment: u64)
        requires status { is_result_status outcome.status ≡ true }
        requires callback { outcome.callback ≤ 2147483647 }
        requires moment { IsMoment moment }
        requires taken { update_answer self.old.flow.def (attempt_numbered task self.old.flow.attempts) ≡ Ok true }
        ensures flow { IsSomeAnd (attempt_numbered task self.old.flow.attempts)
            (λ a. self.new.flow ≡ record self.old.flow {
              attempts = with_attempt (result_applied moment (is_kind_at is_simple self.old.flow.def a.node) outcome a) self.old.flow.attempts;
            }) }
        ensures room { self.new.spare ≡ self.old.spare }
    {
        let simple = self.is_simple(task);
        if let Some(place) = self.attempts.place(task) {
            self.attempts.apply_result(place, simple, outcome, moment);
        }
    }

    /// Ends the open attempt at that place, with a new reason and a new output where there are some. It takes no memory.
    pub fn close_at(
        &mut self,
        place: u64,
        status: TaskStatus,
        reason: Option<Text>,
        output: Option<Doc>,
        moment: u64,
    )
        requires opened { IfSome (slice_get self.old.flow.attempts place) (λ a. task_is_open a.status ≡ true) }
        requires terminal { task_is_open status ≡ false }
        requires moment { IsMoment moment }
        ensures flow { self.new.flow ≡ record self.old.flow { attempts = at_place place (closed moment status reason output) self.old.flow.attempts } }
        ensures room { self.new.spare ≡ self.old.spare }
    {
        self.attempts
            .close(place as usize, status, reason, output, moment);
    }

    /// Notes that the poll deadline of the attempt at that place has passed. It takes no memory.
    pub fn note_poll_at(&mut self, place: u64, reason: Text, moment: u64)
        requires moment { IsMoment moment }
        ensures flow { self.new.flow ≡ record self.old.flow { attempts = at_place place (poll_noted moment reason) self.old.flow.attempts } }
        ensures room { self.new.spare ≡ self.old.spare }
    {
        self.attempts.note_poll(place as usize, reason, moment);
    }

    /// Notes that the total deadline of the attempt at that place has passed. It takes no memory.
    pub fn note_total_at(&mut self, place: u64, reason: Text, moment: u64)
        requires moment { IsMoment moment }
        ensures flow { self.new.flow ≡ record self.old.flow { attempts = at_place place (total_noted moment reason) self.old.flow.attempts } }
        ensures room { self.new.spare ≡ self.old.spare }
    {
        self.attempts.note_total(place as usize, reason, moment);
    }

    /// Lets the flow go on as if the attempt at that place, which has ended without success, had succeeded. It takes no memory.
    pub fn forgive_at(&mut self, place: u64, moment: u64)
        requires failed { IfSome (slice_get self.old.flow.attempts place) (λ a. has_failed a.status ≡ true) }
        requires moment { IsMoment moment }
        ensures flow { self.new.flow ≡ record self.old.flow { attempts = at_place place (forgiven moment) self.old.flow.attempts } }
        ensures room { self.new.spare ≡ self.old.spare }
    {
        self.attempts.forgive(place as usize, moment);
    }

    /// Puts the loop of the attempt at that place into that turn. It takes no memory.
    pub fn turn_at(&mut self, place: u64, output: Doc, turn: u32, moment: u64)
        requires turn { 0 < turn }
        requires moment { IsMoment moment }
        ensures flow { self.new.flow ≡ record self.old.flow { attempts = at_place place (turned moment output turn) self.old.flow.attempts } }
        ensures room { self.new.spare ≡ self.old.spare }
    {
        self.attempts.turn_on(place as usize, output, turn, moment);
    }

    /// Takes the attempt at that place, which has ended, out of the count: its node is seen as if it weren't there.
    /// It takes no memory.
    pub fn supersede_at(&mut self, place: u64)
        requires { IfSome (slice_get self.old.flow.attempts place) (λ a. task_is_open a.status ≡ false) }
        ensures flow { self.new.flow ≡ record self.old.flow { attempts = at_place place superseded self.old.flow.attempts } }
        ensures room { self.new.spare ≡ self.old.spare }
    {
        self.attempts.supersede(place as usize);
    }

    pub fn set_input(&mut self, value: Doc)
        ensures flow { self.new.flow ≡ record self.old.flow { input = value } }
        ensures room { self.new.spare ≡ self.old.spare }
    {
        self.input = value;
    }

    pub fn set_variables(&mut self, value: Doc)
        ensures flow { self.new.flow ≡ record self.old.flow { variables = value } }
        ensures room { self.new.spare ≡ self.old.spare }
    {
        self.variables = value;
    }

    pub fn set_output(&mut self, value: Doc)
        ensures flow { self.new.flow ≡ record self.old.flow { output = value } }
        ensures room { self.new.spare ≡ self.old.spare }
    {
        self.output = value;
    }

    pub fn set_reason(&mut self, value: Text)
        ensures flow { self.new.flow ≡ record self.old.flow { reason = value } }
        ensures room { self.new.spare ≡ self.old.spare }
    {
        self.reason = value;
    }

    /// Whether it is open stays: `end` and `reopen` change that.
    pub fn set_status(&mut self, value: FlowStatus)
        requires { flow_is_open value ≡ flow_is_open self.old.flow.status }
        ensures flow { self.new.flow ≡ record self.old.flow { status = value } }
        ensures room { self.new.spare ≡ self.old.spare }
    {
        self.status = value;
    }

    pub fn set_started(&mut self, value: u64)
        requires { IsMoment value }
        ensures flow { self.new.flow ≡ record self.old.flow { started = value } }
        ensures room { self.new.spare ≡ self.old.spare }
    {
        self.started = value;
    }

    pub fn set_noted(&mut self, value: bool)
        ensures flow { self.new.flow ≡ record self.old.flow { noted = value } }
        ensures room { self.new.spare ≡ self.old.spare }
    {
        self.noted = value;
    }
}

/// What an update of the attempt is answered.
fn attempt_answer(def: &FlowDef, attempt: &Attempt) -> Result<bool, Refusal>
    ensures { result ≡ attempt_answer def.now attempt.now }
{
    if !attempt.status().is_open() {
        return Ok(false);
    }
    if takes_update_at(def, attempt.node()) {
        Ok(true)
    } else {
        Err(Refusal::NotUpdatable)
    }
}
