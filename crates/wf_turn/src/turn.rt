//! One flow while it is decided.

ghost use Rattle.std.specs.Prelude.{◌≡◌, ◌+◌, ◌^◌, ◌<◌, ◌≤◌, [], ◌∷◌, ◌++◌, length, map, true, false, IfOk, OnOk};
ghost use Rattle.wf_machine.specs.Records.{Held, IsMoment, IsRecord};
ghost use Rattle.wf_machine.specs.Sight.{seen};
ghost use Rattle.wf_machine.specs.State.{RisingTo};
ghost use Rattle.wf_names.specs.FlowStatus.{flow_is_open};
ghost use Rattle.wf_rules.specs.Acts as spec;
ghost use Rattle.wf_rules.specs.Making.{CanMake, CanMakeAll, IsFit, LostAt, OpenAt};
ghost use Rattle.wf_rules.specs.Plans.{new_flow, new_flows, new_task, new_tasks, turn_at};
ghost use Rattle.wf_rules.specs.Rules.{is_running};
ghost use Rattle.wf_turn.specs.Keeping.{with_child};

use crate::beginning::{begin, number_of, status_of};
use crate::no_memory::NoMemory;
use std::alloc::Global;
use std::marker::Model;
use std::mem;
use wf_doc::{Doc, Text};
use wf_flow::{Attempt, Flow};
use wf_machine::FlowDef;
use wf_names::{FlowNo, FlowStatus, TaskNo};
use wf_rules::{Act, Alert, Child, NewAttempt, Outcome};

/// A flow that is decided, the flows that it started so far, and both next numbers.
#[derive(Drop)]
pub struct Turn {
    flow: Flow,
    children: Vec<Flow>,
    next_flow: u64,
    next_task: u64,
}

impl Model for Turn {
    ghost use Rattle.std.specs.Coded.{codes};
    ghost use Rattle.wf_doc.specs.contracts.doc.Doc as doc;
    ghost use Rattle.wf_machine.specs.contracts.definition.NodeKind as node_kind;
    ghost use Rattle.wf_rules.specs.Acts as acts;

    ghost Value = { acts.Turn };

    ghost coded = { Prim.hlevel (codes, doc.the_row.coded, node_kind.the_row.coded) };

    ghost use Rattle.wf_turn.specs.Keeping.{IsSoundTurn};
    ghost use Rattle.wf_turn.specs.TurnFields.{turn_shown};

    ghost view = { turn_shown };

    ghost invariant = { λ t. IsSoundTurn (turn_shown t) };
}

impl Turn {
    /// A flow that has started none yet.
    pub fn new(alloc: Global, flow: Flow, next_flow: u64, next_task: u64) -> Turn
        requires rising { RisingTo 1 next_task flow.flow.attempts }
        requires tasks { next_task ≤ 2 ^ 56 }
        requires flows { next_flow ≤ 2 ^ 56 }
        ensures { result ≡ turn_at flow.flow (record { flow = next_flow; task = next_task }) }
    {
        Turn {
            flow,
            children: Vec::new(alloc),
            next_flow,
            next_task,
        }
    }

    pub fn flow(&self) -> &Flow
        ensures { result.now.flow ≡ self.now.flow }
    {
        &self.flow
    }

    /// How many flows it has started.
    pub fn started(&self) -> u64
        ensures { result ≡ length self.now.children }
    {
        self.children.len() as u64
    }

    pub fn next_flow(&self) -> u64
        ensures value { result ≡ self.now.next_flow }
        ensures last { result ≤ 2 ^ 56 }
    {
        self.next_flow
    }

    pub fn next_task(&self) -> u64
        ensures value { result ≡ self.now.next_task }
        ensures last { result ≤ 2 ^ 56 }
    {
        self.next_task
    }

    /// The flow, and those that it started.
    pub fn into_parts(self) -> (Flow, Vec<Flow>)
        ensures flow { result.0.flow ≡ self.flow }
        ensures children { map (λ f. f.flow) result.1.items ≡ self.children }
    {
        (self.flow, self.children)
    }

    /// Makes the acts, one after another. After an error the turn is to be thrown away.
    pub fn make_all(&mut self, alloc: Global, acts: Vec<Act>, moment: u64) -> Result<(), NoMemory>
        requires fits { CanMakeAll moment acts.items self.old }
        requires tasks { self.old.next_task + new_tasks acts.items ≤ 2 ^ 56 }
        requires flows { self.old.next_flow + new_flows acts.items ≤ 2 ^ 56 }
        requires moment { IsMoment moment }
        ensures made { OnOk result (self.new ≡ spec.made moment acts.items self.old) }
    {
        for act in acts {
            self.make(alloc, act, moment)?;
        }
        Ok(())
    }

    /// Makes one act.
    fn make(&mut self, alloc: Global, act: Act, moment: u64) -> Result<(), NoMemory>
        requires fits { CanMake self.old.flow.def (is_running self.old.flow.status) (map seen self.old.flow.attempts) act }
        requires tasks { self.old.next_task + new_task act ≤ 2 ^ 56 }
        requires flows { self.old.next_flow + new_flow act ≤ 2 ^ 56 }
        requires moment { IsMoment moment }
        ensures { OnOk result (self.new ≡ spec.make moment act self.old) }
    {
        match act {
            Act::Add(attempt) => self.add(alloc, attempt, moment),
            Act::Close(place, outcome, reason, output) => {
                self.close(place, outcome, reason, output, moment);
                Ok(())
            }
            Act::Note(place, alert, reason) => {
                self.note(place, alert, reason, moment);
                Ok(())
            }
            Act::Forgive(place) => {
                self.forgive(place, moment);
                Ok(())
            }
            Act::Turn(place, output, turn) => {
                self.turn_on(place, output, turn, moment);
                Ok(())
            }
            Act::Variables(variables) => {
                self.give_variables(variables);
                Ok(())
            }
            Act::NoteFlow(reason) => {
                self.note_flow(reason);
                Ok(())
            }
            Act::End(status, reason, output) => {
                self.end(status, reason, output, moment);
                Ok(())
            }
        }
    }

    /// Adds an attempt under the next number, and before it the flow that it starts.
    fn add(&mut self, alloc: Global, attempt: NewAttempt, moment: u64) -> Result<(), NoMemory>
        requires fits { CanMake self.old.flow.def (is_running self.old.flow.status) (map seen self.old.flow.attempts) (Act.Add attempt) }
        requires tasks { self.old.next_task + 1 ≤ 2 ^ 56 }
        requires flows { self.old.next_flow + spec.births attempt.child ≤ 2 ^ 56 }
        requires moment { IsMoment moment }
        ensures { OnOk result (self.new ≡ spec.make moment (Act.Add attempt) self.old) }
    {
        self.is_record();
        let mut attempt = attempt;
        let number = self.next_task;
        let retried = number_of(&self.flow, attempt.retried);
        let child = mem::replace(&mut attempt.child, Child::Nothing);
        let child = self.start(alloc, child, moment)?;
        let made = begin(alloc, attempt, number, retried, child, moment);
        self.put(made)
    }

    /// That its flow can be kept, as a fact.
    fn is_record(&self)
        ensures { IsRecord self.now.flow }
    {
        self.flow.is_record();
    }

    /// Starts the flow that the next attempt wants, and gives its number.
    fn start(
        &mut self,
        alloc: Global,
        child: Child,
        moment: u64,
    ) -> Result<Option<FlowNo>, NoMemory>
        requires tasks { self.old.next_task + 1 ≤ 2 ^ 56 }
        requires flows { self.old.next_flow + spec.births child ≤ 2 ^ 56 }
        requires moment { IsMoment moment }
        ensures number { IfOk result (λ number. number ≡ spec.child_number self.old.next_flow child) }
        ensures small { IfOk result (λ number. Held (λ flow. flow.0 < 2 ^ 56) number) }
        ensures turn { OnOk result (self.new ≡ with_child moment child self.old) }
    {
        match child {
            Child::Flow(def, input) => {
                let number = self.start_flow(alloc, def, input, moment)?;
                Ok(Some(number))
            }
            Child::Nothing => Ok(None),
            Child::TooLarge => Ok(None),
            Child::Refused => Ok(None),
        }
    }

    /// Starts a flow one level deeper, with the same correlation.
    fn start_flow(
        &mut self,
        alloc: Global,
        def: FlowDef,
        input: Doc,
        moment: u64,
    ) -> Result<FlowNo, NoMemory>
        requires tasks { self.old.next_task + 1 ≤ 2 ^ 56 }
        requires flows { self.old.next_flow + 1 ≤ 2 ^ 56 }
        requires moment { IsMoment moment }
        ensures number { IfOk result (λ number. number.0 ≡ self.old.next_flow) }
        ensures turn { OnOk result (self.new ≡ record self.old {
          children = self.old.children ++ spec.child_started moment def input self.old ∷ [];
          next_flow = self.old.next_flow + 1;
        }) }
    {
        self.flow.is_record();
        let number = FlowNo(self.next_flow);
        let correlation = Text::new(alloc, self.flow.correlation())?;
        let parent = (self.flow.number(), TaskNo(self.next_task));
        // The rules start no flow below 16 levels, so there is a next level in every flow that they decide.
        let Some(depth) = self.flow.depth().checked_add(1) else {
            return Err(NoMemory);
        };
        let child = Flow::new(
            alloc,
            number,
            def,
            input,
            correlation,
            Some(parent),
            depth,
            moment,
        );
        self.children.push(child)?;
        self.next_flow += 1;
        Ok(number)
    }

    /// Puts the attempt of the next number at the end.
    fn put(&mut self, attempt: Attempt) -> Result<(), NoMemory>
        requires number { attempt.number.0 ≡ self.old.next_task }
        requires tasks { self.old.next_task + 1 ≤ 2 ^ 56 }
        requires kept { IsRecord (record self.old.flow { attempts = self.old.flow.attempts ++ attempt ∷ [] }) }
        ensures { OnOk result (self.new ≡ record self.old {
          flow = record self.old.flow { attempts = self.old.flow.attempts ++ attempt ∷ [] };
          next_task = self.old.next_task + 1;
        }) }
    {
        self.flow.reserve(1)?;
        self.flow.add(attempt);
        self.next_task += 1;
        Ok(())
    }

    fn close(
        &mut self,
        place: u64,
        outcome: Outcome,
        reason: Option<Text>,
        output: Option<Doc>,
        moment: u64,
    )
        requires opened { OpenAt (map seen self.old.flow.attempts) place }
        requires moment { IsMoment moment }
        ensures { self.new ≡ spec.make moment (Act.Close place outcome reason output) self.old }
    {
        self.flow
            .close_at(place, status_of(outcome), reason, output, moment);
    }

    fn note(&mut self, place: u64, alert: Alert, reason: Text, moment: u64)
        requires moment { IsMoment moment }
        ensures { self.new ≡ spec.make moment (Act.Note place alert reason) self.old }
    {
        match alert {
            Alert::Poll => self.note_poll(place, reason, moment),
            Alert::Total => self.note_total(place, reason, moment),
        }
    }

    fn note_poll(&mut self, place: u64, reason: Text, moment: u64)
        requires moment { IsMoment moment }
        ensures { self.new ≡ spec.make moment (Act.Note place Alert.Poll reason) self.old }
    {
        self.flow.note_poll_at(place, reason, moment);
    }

    fn note_total(&mut self, place: u64, reason: Text, moment: u64)
        requires moment { IsMoment moment }
        ensures { self.new ≡ spec.make moment (Act.Note place Alert.Total reason) self.old }
    {
        self.flow.note_total_at(place, reason, moment);
    }

    fn forgive(&mut self, place: u64, moment: u64)
        requires failed { LostAt (map seen self.old.flow.attempts) place }
        requires moment { IsMoment moment }
        ensures { self.new ≡ spec.make moment (Act.Forgive place) self.old }
    {
        self.flow.forgive_at(place, moment);
    }

    fn turn_on(&mut self, place: u64, output: Doc, turn: u32, moment: u64)
        requires turn { 0 < turn }
        requires moment { IsMoment moment }
        ensures { self.new ≡ spec.make moment (Act.Turn place output turn) self.old }
    {
        self.flow.turn_at(place, output, turn, moment);
    }

    fn give_variables(&mut self, variables: Doc)
        ensures { self.new ≡ record self.old { flow = record self.old.flow { variables = variables } } }
    {
        self.flow.set_variables(variables);
    }

    fn note_flow(&mut self, reason: Text)
        ensures { self.new ≡ record self.old { flow = record self.old.flow { noted = true; reason = reason } } }
    {
        self.flow.set_noted(true);
        self.flow.set_reason(reason);
    }

    fn end(&mut self, status: FlowStatus, reason: Option<Text>, output: Option<Doc>, moment: u64)
        requires over { flow_is_open status ≡ false }
        requires moment { IsMoment moment }
        ensures { self.new ≡ spec.make moment (Act.End status reason output) self.old }
    {
        give_reason(&mut self.flow, reason);
        give_output(&mut self.flow, output);
        self.flow.end(status, moment);
    }
}

fn give_reason(flow: &mut Flow, reason: Option<Text>)
    ensures { flow.new.flow ≡ record flow.old.flow { reason = spec.or_as_it_was flow.old.flow.reason reason } }
{
    if let Some(reason) = reason {
        flow.set_reason(reason);
    }
}

fn give_output(flow: &mut Flow, output: Option<Doc>)
    ensures { flow.new.flow ≡ record flow.old.flow { output = spec.or_as_it_was flow.old.flow.output output } }
{
    if let Some(output) = output {
        flow.set_output(output);
    }
}
