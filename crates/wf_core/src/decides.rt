//! Decisions of kept flows.

ghost use Rattle.std.specs.Prelude.{◌≡◌, ◌+◌, ◌≤◌, ◌^◌, IfOk, Some, length, option_map};
ghost use Rattle.std.specs.Option.{option_copied};
ghost use Rattle.wf_machine.specs.Records.{IsMoment};
ghost use Rattle.wf_machine.specs.Flows.{flow_numbered};
ghost use Rattle.wf_machine.specs.Replies.{IsPrintable};
ghost use Rattle.wf_machine.specs.State.{Kept, RisingTo};
ghost use Rattle.wf_steps.specs.Calls as spec;
ghost use Rattle.wf_kept.specs.Flows.{kept};
ghost use Rattle.wf_core.specs.Changes.{IsPrepared};
ghost use Rattle.wf_core.specs.Grown.{HasGrown, IsChanged, IsDecided, IsEmptied, IsTold};

use crate::change::{Change, Decided, Touched};
use crate::no_memory::NoMemory;
use crate::steps::Core;
use std::alloc::Global;
use wf_flow::Flow;
use wf_kept::KeptFlow;
use wf_machine::Reply;
use wf_names::{FlowNo, IdKind, Refusal};
use wf_turn::Turn;

impl Core {
    #[tactic(auto, unfolding(wf_steps::specs::Calls::decide_flow))]
    pub(crate) fn prepare_decide(
        &mut self,
        alloc: Global,
        moment: u64,
        number: FlowNo,
    ) -> Result<Change, NoMemory>
        requires moment { IsMoment moment }
        ensures state { self.new.state ≡ self.old.state }
        ensures limits { self.new.limits ≡ self.old.limits }
        ensures entries { self.new.entries ≡ self.old.entries }
        ensures ok { IfOk result (IsPrepared (spec.decide_flow self.old.limits (self.old.entries + 1) moment number self.old.state) self.old self.new) }
    {
        let _rising = self.flows.as_slice();
        let kept = match self.flows.flow(number) {
            None => return Ok(Change::none(Reply::Refused(Refusal::NotFound))),
            Some(kept) => kept,
        };
        if self.is_settled(alloc, moment, &kept.flow)? {
            return Ok(Change::none(Reply::Accepted));
        }
        let flow = kept.flow.copy(alloc)?;
        self.prepare_changed(alloc, moment, flow, Reply::Accepted)
    }

    #[tactic(auto, unfolding(wf_steps::specs::Calls::sweep))]
    pub(crate) fn prepare_sweep(&mut self, alloc: Global, moment: u64) -> Result<Change, NoMemory>
        requires moment { IsMoment moment }
        ensures state { self.new.state ≡ self.old.state }
        ensures limits { self.new.limits ≡ self.old.limits }
        ensures entries { self.new.entries ≡ self.old.entries }
        ensures ok { IfOk result (IsPrepared (spec.sweep self.old.limits (self.old.entries + 1) moment self.old.state) self.old self.new) }
    {
        let _rising = self.flows.as_slice();
        let kept = match self.needing(alloc, moment)? {
            None => return Ok(Change::none(Reply::Nothing)),
            Some(kept) => kept,
        };
        let number = kept.flow.number();
        let flow = kept.flow.copy(alloc)?;
        self.prepare_changed(alloc, moment, flow, Reply::Id(IdKind::Flow, number.0))
    }

    /// The flow of the least number that has something to be decided.
    #[tactic(auto, unfolding(wf_steps::specs::Calls::needs))]
    fn needing(&self, alloc: Global, moment: u64) -> Result<Option<&KeptFlow>, NoMemory>
        ensures { IfOk result (λ found. option_map kept (option_copied found) ≡ spec.needs self.now.limits moment self.now.state) }
    {
        for kept in self.flows.as_slice() {
            if !self.is_settled(alloc, moment, &kept.flow)? {
                return Ok(Some(kept));
            }
        }
        Ok(None)
    }

    /// The flow, which the kept one of its number has become, is decided.
    pub(crate) fn prepare_changed(
        &mut self,
        alloc: Global,
        moment: u64,
        flow: Flow,
        reply: Reply,
    ) -> Result<Change, NoMemory>
        requires moment { IsMoment moment }
        requires changed { IsChanged flow.flow self.old.state }
        requires printable { IsPrintable reply }
        ensures state { self.new.state ≡ self.old.state }
        ensures limits { self.new.limits ≡ self.old.limits }
        ensures entries { self.new.entries ≡ self.old.entries }
        ensures ok { IfOk result (λ change. (before : Kept) → flow_numbered flow.flow.number self.old.state.flows ≡ Some before
            → IsPrepared (spec.stepped (spec.with_decided self.old.limits (self.old.entries + 1) moment before.flow flow.flow self.old.state) reply) self.old self.new change) }
    {
        let next_task = self.flows.next_task();
        self.prepare_grown(alloc, moment, flow, next_task, reply)
    }

    /// The same of a flow that has more attempts by now, and where the next one gets that number.
    pub(crate) fn prepare_grown(
        &mut self,
        alloc: Global,
        moment: u64,
        flow: Flow,
        next_task: u64,
        reply: Reply,
    ) -> Result<Change, NoMemory>
        requires moment { IsMoment moment }
        requires grown { HasGrown flow.flow next_task self.old.state }
        requires limit { next_task ≤ 2 ^ 56 }
        requires printable { IsPrintable reply }
        ensures state { self.new.state ≡ self.old.state }
        ensures limits { self.new.limits ≡ self.old.limits }
        ensures entries { self.new.entries ≡ self.old.entries }
        ensures ok { IfOk result (λ change. (before : Kept) → flow_numbered flow.flow.number self.old.state.flows ≡ Some before
            → IsPrepared (spec.stepped (spec.with_decided self.old.limits (self.old.entries + 1) moment before.flow flow.flow (record self.old.state { next_task = next_task })) reply) self.old self.new change) }
    {
        let decided = self.decide_and_reserve(alloc, moment, flow, next_task)?;
        Ok(Change {
            moment,
            touched: Touched::Flow(decided, None),
            reply,
        })
    }

    /// The same of a flow that begins anew, without attempts.
    pub(crate) fn prepare_anew(
        &mut self,
        alloc: Global,
        moment: u64,
        flow: Flow,
        reply: Reply,
    ) -> Result<Change, NoMemory>
        requires moment { IsMoment moment }
        requires emptied { IsEmptied flow.flow self.old.state }
        requires printable { IsPrintable reply }
        ensures state { self.new.state ≡ self.old.state }
        ensures limits { self.new.limits ≡ self.old.limits }
        ensures entries { self.new.entries ≡ self.old.entries }
        ensures ok { IfOk result (λ change. (before : Kept) → flow_numbered flow.flow.number self.old.state.flows ≡ Some before
            → IsPrepared (spec.stepped (spec.with_decided self.old.limits (self.old.entries + 1) moment before.flow flow.flow self.old.state) reply) self.old self.new change) }
    {
        let next_task = self.flows.next_task();
        let decided = self.decide_and_reserve(alloc, moment, flow, next_task)?;
        Ok(Change {
            moment,
            touched: Touched::FlowAnew(decided),
            reply,
        })
    }

    /// The flow, which the kept one of its number has become, is kept as it is.
    pub(crate) fn prepare_undecided(
        &self,
        alloc: Global,
        moment: u64,
        flow: Flow,
        reply: Reply,
    ) -> Change
        requires moment { IsMoment moment }
        requires changed { IsChanged flow.flow self.now.state }
        requires printable { IsPrintable reply }
        ensures { (before : Kept) → flow_numbered flow.flow.number self.now.state.flows ≡ Some before
            → IsPrepared (spec.stepped (spec.with_undecided (self.now.entries + 1) moment before.flow flow.flow self.now.state) reply) self.now self.now result }
    {
        let _next_flow = self.flows.next_flow();
        let changed = Decided {
            flow,
            started: Vec::new(alloc),
            next_task: self.flows.next_task(),
        };
        Change {
            moment,
            touched: Touched::Flow(changed, None),
            reply,
        }
    }

    /// Decides the flow, where the next attempt gets that number, and makes room for what that made.
    fn decide_and_reserve(
        &mut self,
        alloc: Global,
        moment: u64,
        flow: Flow,
        next_task: u64,
    ) -> Result<Decided, NoMemory>
        requires moment { IsMoment moment }
        requires rising { RisingTo 1 next_task flow.flow.attempts }
        requires order { self.old.state.next_task ≤ next_task }
        requires limit { next_task ≤ 2 ^ 56 }
        ensures state { self.new.state ≡ self.old.state }
        ensures limits { self.new.limits ≡ self.old.limits }
        ensures entries { self.new.entries ≡ self.old.entries }
        ensures decided { IfOk result (IsDecided flow.flow next_task moment self.old self.new) }
    {
        let kept = self.flows.len() as u64;
        let turn = self.decide(alloc, moment, flow, kept, self.flows.next_flow(), next_task)?;
        self.reserve(0, turn)
    }

    /// Makes room for so many new flows and what the decision made, which it gives back.
    pub(crate) fn reserve(&mut self, flows: usize, turn: Turn) -> Result<Decided, NoMemory>
        requires flows { flows ≤ 1 }
        requires higher { self.old.state.next_task ≤ turn.next_task }
        ensures state { self.new.state ≡ self.old.state }
        ensures limits { self.new.limits ≡ self.old.limits }
        ensures entries { self.new.entries ≡ self.old.entries }
        ensures decided { IfOk result (λ d. IsTold turn d) }
        ensures flows { IfOk result (λ d. flows + length d.started.items ≤ self.new.rooms.flows) }
        ensures tasks { IfOk result (λ d. d.next_task ≤ self.new.rooms.tasks + self.old.state.next_task) }
    {
        let before = self.flows.next_task();
        let next_task = turn.next_task();
        let (flow, started) = turn.into_parts();
        self.flows
            .reserve(flows + started.len(), (next_task - before) as usize)?;
        Ok(Decided {
            flow,
            started,
            next_task,
        })
    }
}
