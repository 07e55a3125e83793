//! The machine's state, and its steps.

ghost use Rattle.std.specs.Prelude.{◌≡◌, ◌+◌, ◌<◌, ◌^◌, max, IfOk};
ghost use Rattle.wf_machine.specs.State.{new_state};
ghost use Rattle.wf_steps.specs.Calls.{IsProper, call_made, entry_of, step, stepped};
ghost use Rattle.wf_machine.specs.Records.{IsMoment};
ghost use Rattle.wf_machine.specs.Replies.{IsPrintable};
ghost use Rattle.wf_core.specs.Changes.{IsPrepared, IsReady, change_made, touched as state_touched};

use crate::change::{Change, Touched};
use crate::no_memory::NoMemory;
use std::alloc::Global;
use std::marker::Model;
use wf_doc::Text;
use wf_flow::Flow;
use wf_kept::{HandBook, KeptFlows, Roomy, forget, forget_task, register_all, register_tasks};
use wf_machine::{FlowDef, Reply, TaskDef, TaskResult};
use wf_names::{FlowNo, Refusal, TaskNo};
use wf_steps::Call;
use wf_wire::Limits;

/// The machine: its state, the limits that it keeps, and the number of entries that it has made. What it keeps beside
/// the flows has types of its own.
#[derive(Drop)]
pub struct Core {
    pub(crate) limits: Limits,
    pub(crate) entries: u64,
    pub(crate) mark: u32,
    pub(crate) last: u64,
    pub(crate) task_defs: Roomy<TaskDef>,
    pub(crate) flow_defs: Roomy<FlowDef>,
    pub(crate) defs_revision: u64,
    pub(crate) flows: KeptFlows,
    pub(crate) hands: HandBook,
}

impl Model for Core {
    ghost use Rattle.std.specs.Coded.{codes};
    ghost use Rattle.wf_doc.specs.contracts.doc.Doc as doc;
    ghost use Rattle.wf_machine.specs.contracts.definition.NodeKind as node_kind;
    ghost use Rattle.wf_machine.specs.Records.{IsMoment};
    ghost use Rattle.wf_core.specs.Store.{Store};

    ghost Value = { Store };

    ghost coded = { Prim.hlevel (codes, doc.the_row.coded, node_kind.the_row.coded) };

    ghost view = { λ c. record {
      state = record {
        mark = c.mark;
        last = c.last;
        next_flow = c.flows.next_flow;
        next_task = c.flows.next_task;
        task_defs = c.task_defs.items;
        flow_defs = c.flow_defs.items;
        defs_revision = c.defs_revision;
        flows = c.flows.kept;
        hands = c.hands.lists;
      };
      limits = c.limits;
      entries = c.entries;
      rooms = record {
        flows = c.flows.spare_flows;
        tasks = c.flows.spare_tasks;
        task_defs = c.task_defs.spare;
        flow_defs = c.flow_defs.spare;
        hands = c.hands.ready;
      };
    } };

    ghost invariant = { λ c. IsMoment c.last };
}

impl Core {
    /// A new store with this mark.
    pub fn new(alloc: Global, mark: u32, limits: Limits) -> Result<Core, NoMemory>
        ensures state { IfOk result (λ core. core.state ≡ new_state mark) }
        ensures limits { IfOk result (λ core. core.limits ≡ limits) }
        ensures entries { IfOk result (λ core. core.entries ≡ 0) }
    {
        Ok(Core {
            limits,
            entries: 0,
            mark,
            last: 0,
            task_defs: Roomy::new(alloc),
            flow_defs: Roomy::new(alloc),
            defs_revision: 0,
            flows: KeptFlows::new(alloc),
            hands: HandBook::new(alloc),
        })
    }

    /// How many entries were made.
    pub fn entries(&self) -> u64
        ensures { result ≡ self.now.entries }
    {
        self.entries
    }

    pub fn mark(&self) -> u32
        ensures { result ≡ self.now.state.mark }
    {
        self.mark
    }

    pub fn limits(&self) -> &Limits
        ensures { result.now ≡ self.now.limits }
    {
        &self.limits
    }

    /// One step of the machine. A call that finds no memory leaves the state as it was, and counts as an entry.
    pub fn step(&mut self, alloc: Global, caller: u64, moment: u64, call: Call) -> Reply
        requires entries { self.old.entries < 2 ^ 62 }
        requires moment { IsMoment moment }
        requires proper { IsProper call }
        ensures step { stepped self.new.state result ≡ step self.old.limits (self.old.entries + 1) self.old.state (entry_of caller moment call result) }
        ensures printable { IsPrintable result }
        ensures limits { self.new.limits ≡ self.old.limits }
        ensures entries { self.new.entries ≡ self.old.entries + 1 }
    {
        let _caller = caller;
        match self.prepare(alloc, moment, call) {
            Ok(change) => self.commit_change(change),
            Err(NoMemory) => {
                self.entries += 1;
                Reply::Refused(Refusal::NoMemory)
            }
        }
    }

    /// Makes all growths for a call, and changes nothing of the state.
    pub fn prepare(&mut self, alloc: Global, moment: u64, call: Call) -> Result<Change, NoMemory>
        requires moment { IsMoment moment }
        requires proper { IsProper call }
        ensures state { self.new.state ≡ self.old.state }
        ensures limits { self.new.limits ≡ self.old.limits }
        ensures entries { self.new.entries ≡ self.old.entries }
        ensures ok { IfOk result (IsPrepared (call_made self.old.limits (self.old.entries + 1) (max self.old.state.last moment) call self.old.state) self.old self.new) }
    {
        let at = self.last.max(moment);
        match call {
            Call::PutTaskDefs(defs) => self.prepare_tasks(alloc, at, defs),
            Call::UpdateTaskDef(def) => self.prepare_task_update(alloc, at, def),
            Call::TaskDefs => self.prepare_task_defs(alloc),
            Call::TaskDefNamed(name) => self.prepare_task_def(alloc, &name),
            Call::DropTaskDef(name) => Ok(self.prepare_task_drop(at, name)),
            Call::AddFlowDef(def) => self.prepare_register(alloc, at, def),
            Call::PutFlowDefs(defs) => self.prepare_flow_defs_put(alloc, at, defs),
            Call::FlowDefs => self.prepare_flow_defs(alloc),
            Call::FlowDefNamed(name, version) => self.prepare_flow_def(alloc, &name, version),
            Call::DropFlowDef(name, version) => Ok(self.prepare_flow_drop(at, name, version)),
            Call::Start {
                name,
                version,
                input,
                correlation,
            } => self.prepare_start(alloc, at, &name, version, input, correlation),
            Call::GetFlow(number, tasks) => self.prepare_read(alloc, number, tasks),
            Call::Running(name, version) => self.prepare_running(alloc, &name, version),
            Call::Poll(name, worker) => self.prepare_poll(alloc, at, name, worker),
            Call::GetTask(task) => self.prepare_task_read(alloc, task),
            Call::Update {
                flow,
                task,
                outcome,
            } => self.prepare_update(alloc, at, flow, task, outcome),
            Call::Decide(number) => self.prepare_decide(alloc, at, number),
            Call::Sweep => self.prepare_sweep(alloc, at),
            Call::Operate(number, operation) => self.prepare_operate(alloc, at, number, operation),
            Call::Remove(number) => Ok(self.prepare_remove(at, number)),
            Call::Shutdown => Ok(Change::none(Reply::Accepted)),
            Call::Look(_) => Ok(Change::none(Reply::Nothing)),
            Call::Drain => Ok(Change::none(Reply::Nothing)),
        }
    }

    /// Makes a change that was prepared in this state. It takes no memory.
    pub fn commit_change(&mut self, change: Change) -> Reply
        requires ready { IsReady change.touched self.old }
        requires moment { IsMoment change.moment }
        requires entries { self.old.entries < 2 ^ 62 }
        ensures step { stepped self.new.state result ≡ change_made (self.old.entries + 1) change self.old.state }
        ensures reply { result ≡ change.reply }
        ensures limits { self.new.limits ≡ self.old.limits }
        ensures entries { self.new.entries ≡ self.old.entries + 1 }
    {
        let Change {
            moment,
            touched,
            reply,
        } = change;
        self.touch(moment, touched);
        self.entries += 1;
        reply
    }

    /// Touches what the entry that comes next touches.
    fn touch(&mut self, moment: u64, touched: Touched)
        requires ready { IsReady touched self.old }
        requires moment { IsMoment moment }
        requires entries { self.old.entries < 2 ^ 62 }
        ensures state { self.new.state ≡ state_touched (self.old.entries + 1) moment touched self.old.state }
        ensures limits { self.new.limits ≡ self.old.limits }
        ensures entries { self.new.entries ≡ self.old.entries }
    {
        match touched {
            Touched::Nothing => {}
            Touched::TaskDefs(defs) => {
                self.last = moment;
                register_tasks(&mut self.task_defs, defs);
                self.defs_revision = self.entries + 1;
            }
            Touched::NoTaskDef(name) => {
                self.last = moment;
                forget_task(&mut self.task_defs, name.as_str());
                self.defs_revision = self.entries + 1;
            }
            Touched::FlowDefs(defs) => {
                self.last = moment;
                register_all(&mut self.flow_defs, defs);
                self.defs_revision = self.entries + 1;
            }
            Touched::NoFlowDef(name, version) => {
                self.last = moment;
                forget(&mut self.flow_defs, name.as_str(), version);
                self.defs_revision = self.entries + 1;
            }
            Touched::NewFlow(new) => {
                self.last = moment;
                self.flows.add(new.flow, self.entries + 1, new.next_task);
                self.flows.add_started(new.started, self.entries + 1);
            }
            Touched::Flow(changed, hand) => {
                self.last = moment;
                self.flows
                    .replace(changed.flow, self.entries + 1, changed.next_task);
                self.flows.add_started(changed.started, self.entries + 1);
                self.note_hand(hand, moment);
            }
            Touched::FlowAnew(changed) => {
                self.last = moment;
                self.flows
                    .replace_anew(changed.flow, self.entries + 1, changed.next_task);
                self.flows.add_started(changed.started, self.entries + 1);
            }
            Touched::NoFlow(number) => {
                self.last = moment;
                self.flows.remove(number, self.entries + 1);
            }
        }
    }
}
