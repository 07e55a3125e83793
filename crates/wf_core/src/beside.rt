//! What stands beside a kept flow.

ghost use Rattle.std.specs.Prelude.{◌≡◌, ◌&&◌, not};
ghost use Rattle.wf_machine.specs.Flows.{flow_numbered};
ghost use Rattle.wf_names.specs.FlowStatus.{flow_is_open};
ghost use Rattle.wf_rules.specs.Plans.{AllBelow};
ghost use Rattle.wf_rules.specs.Sight as spec;
ghost use Rattle.wf_kept.specs.Flows.{kept};

use crate::steps::Core;
use wf_flow::Flow;
use wf_kept::{KeptFlow, KeptFlows};
use wf_names::{FlowNo, TaskNo};
use wf_setting::{Children, EndedChild, Setting};

/// The kept flows that have one flow as their parent.
#[derive(Drop)]
pub(crate) struct KeptChildren<'s> {
    flows: &'s KeptFlows,
    parent: FlowNo,
}

impl<'s> Children for KeptChildren<'s> {
    ghost use Rattle.std.specs.Prelude.{map, filter};
    ghost use Rattle.wf_rules.specs.Sight.{child_state, is_child_of};

    ghost all = { λ c. map child_state (filter (is_child_of c.parent) c.flows.now.kept) };

    #[tactic(auto, using(crate::proofs::BesideLemmas::not_kept, crate::proofs::BesideLemmas::kept_ended, crate::proofs::BesideLemmas::kept_open))]
    fn ended(&self, number: FlowNo) -> Option<EndedChild> {
        let _rising = self.flows.as_slice();
        let kept = self.flows.flow(number)?;
        if is_ended_child(self.parent, kept) {
            Some(shown(kept))
        } else {
            None
        }
    }
}

/// What the rules read of it.
fn shown(child: &KeptFlow) -> EndedChild
    ensures { result ≡ spec.child_state (kept child.now) }
{
    let flow = &child.flow;
    flow.is_record();
    EndedChild::new(flow.number(), flow.status(), flow.output(), flow.reason())
}

/// It has that flow as its parent, and has ended.
fn is_ended_child(parent: FlowNo, child: &KeptFlow) -> bool
    ensures { result ≡ (spec.is_child_of parent (kept child.now) && not (flow_is_open child.now.flow.flow.status)) }
{
    is_child_of(parent, child) && !child.flow.status().is_open()
}

fn is_child_of(parent: FlowNo, child: &KeptFlow) -> bool
    ensures { result ≡ spec.is_child_of parent (kept child.now) }
{
    match child.flow.parent() {
        Some(own) => own.0.0 == parent.0,
        None => false,
    }
}

impl Core {
    /// The kept flows that have the flow of that number as their parent.
    pub(crate) fn children_of(&self, parent: FlowNo) -> KeptChildren
        ensures parent { result.parent ≡ parent }
        ensures flows { result.flows.now.kept ≡ self.now.state.flows }
    {
        KeptChildren {
            flows: &self.flows,
            parent,
        }
    }

    /// Where and when a flow is decided: beside those children of it, and what else stands there.
    pub(crate) fn setting<'s>(
        &'s self,
        flow: &Flow,
        children: &'s KeptChildren<'s>,
        moment: u64,
    ) -> Setting<'s, KeptChildren<'s>>
        requires parent { children.now.parent ≡ flow.now.flow.number }
        requires flows { children.now.flows.now.kept ≡ self.now.state.flows }
        ensures limits { result.limits ≡ self.now.limits }
        ensures moment { result.moment ≡ moment }
        ensures scene { result.scene ≡ spec.scene_in self.now.state flow.now.flow }
        ensures below { AllBelow self.now.state.next_flow result.scene.children }
    {
        let _rising = self.flows.as_slice();
        Setting {
            limits: &self.limits,
            moment,
            mark: self.mark,
            task_defs: self.task_defs.as_slice(),
            flow_defs: self.flow_defs.as_slice(),
            orphan: self.is_orphan(flow),
            children,
        }
    }

    /// The flow has a parent, whose attempt is missing or not open.
    fn is_orphan(&self, flow: &Flow) -> bool
        ensures { result ≡ spec.is_orphan self.now.state flow.now.flow }
    {
        match flow.parent() {
            Some(parent) => !self.is_open_in(parent),
            None => false,
        }
    }

    fn is_open_in(&self, parent: (FlowNo, TaskNo)) -> bool
        ensures { result ≡ spec.is_open_in self.now.state parent }
    {
        match self.flows.flow(parent.0) {
            Some(kept) => is_open_there(kept, parent.1),
            None => false,
        }
    }
}

fn is_open_there(there: &KeptFlow, task: TaskNo) -> bool
    ensures { result ≡ spec.is_open_there task (kept there.now) }
{
    match there.flow.attempt(task) {
        Some(attempt) => attempt.status().is_open(),
        None => false,
    }
}
