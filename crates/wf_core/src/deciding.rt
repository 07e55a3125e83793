//! A flow is decided beside what is kept.

ghost use Rattle.std.specs.Prelude.{◌≡◌, ◌≤◌, ◌^◌, nat_le, length, IfOk};
ghost use Rattle.wf_machine.specs.Records.{IsMoment};
ghost use Rattle.wf_machine.specs.State.{RisingTo};
ghost use Rattle.wf_rules.specs.Plans.{turn_at};
ghost use Rattle.wf_rules.specs.Rules as spec;
ghost use Rattle.wf_rules.specs.Sight.{scene_in};
ghost use Rattle.wf_steps.specs.Calls.{is_settled};
ghost use Rattle.wf_turn.specs.Growing.{IsLaterTurn};

use crate::no_memory::NoMemory;
use crate::steps::Core;
use std::alloc::Global;
use wf_decide::{Room, choose, decide};
use wf_flow::Flow;
use wf_turn::Turn;

impl Core {
    /// Decides the flow in the present state, at a moment no earlier than the last change, when so many flows are kept
    /// and the next flow and the next attempt get those numbers.
    pub(crate) fn decide(
        &self,
        alloc: Global,
        moment: u64,
        flow: Flow,
        kept: u64,
        next_flow: u64,
        next_task: u64,
    ) -> Result<Turn, NoMemory>
        requires rising { RisingTo 1 next_task flow.flow.attempts }
        requires moment { IsMoment moment }
        requires next { self.now.state.next_flow ≤ next_flow }
        requires limit { next_flow ≤ 2 ^ 56 }
        requires limit_tasks { next_task ≤ 2 ^ 56 }
        ensures turn { IfOk result (λ turn. turn ≡ spec.decide self.now.limits (scene_in self.now.state flow.flow) kept moment
            (turn_at flow.flow (record { flow = next_flow; task = next_task }))) }
        ensures later { IfOk result (λ turn. IsLaterTurn (turn_at flow.flow (record { flow = next_flow; task = next_task })) turn) }
        ensures last { IfOk result (λ turn. (turn.next_task ≤ 2 ^ 56) × (turn.next_flow ≤ 2 ^ 56)) }
    {
        let children = self.children_of(flow.number());
        let at = self.setting(&flow, &children, moment);
        let mut turn = Turn::new(alloc, flow, next_flow, next_task);
        decide(alloc, &at, kept, &mut turn)?;
        let _last = (turn.next_flow(), turn.next_task());
        Ok(turn)
    }

    /// No rule applies to the flow at the moment.
    #[tactic(auto, unfolding(wf_rules::specs::Rules::choose))]
    pub(crate) fn is_settled(
        &self,
        alloc: Global,
        moment: u64,
        flow: &Flow,
    ) -> Result<bool, NoMemory>
        ensures { IfOk result (λ settled. settled ≡ is_settled self.now.limits moment self.now.state flow.now.flow) }
    {
        let children = self.children_of(flow.number());
        let at = self.setting(flow, &children, moment);
        let acts = choose(alloc, &at, self.room(), flow)?;
        Ok(acts.is_none())
    }

    /// What the numbers and the count of kept flows allow.
    fn room(&self) -> Room
        ensures spent { result.spent ≡ nat_le (2 ^ 56) self.now.state.next_task }
        ensures full { result.full ≡ nat_le self.now.limits.flows (length self.now.state.flows) }
        ensures unnumbered { result.unnumbered ≡ nat_le (2 ^ 56) self.now.state.next_flow }
    {
        Room {
            spent: 1 << 56 <= self.flows.next_task(),
            full: self.limits.flows as usize <= self.flows.len(),
            unnumbered: 1 << 56 <= self.flows.next_flow(),
        }
    }
}
