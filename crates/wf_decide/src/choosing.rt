//! Which rule applies to a flow, and what it wants done.

ghost use Rattle.std.specs.Prelude.{◌≡◌, option_map, IfOk};
ghost use Rattle.wf_machine.specs.declared.walking.Next.{Next as Step};
ghost use Rattle.wf_rules.specs.Rules as spec;
ghost use Rattle.wf_setting.specs.Setting.{sight_in};
ghost use Rattle.wf_decide.specs.Choosing as own;

use crate::allowing::allowed;
use crate::room::Room;
use std::alloc::Global;
use wf_closing::{child_ended, complete, join, turn};
use wf_doc::Text;
use wf_flow::{Flow, node_at};
use wf_names::FlowStatus;
use wf_retry::{ended_child, is_over_time, lost, past_due};
use wf_rules::Act;
use wf_schedule::schedule;
use wf_setting::{Children, NoMemory, Setting, one};
use wf_tree::{Next, next_node};

/// What the first rule that applies to the flow does, where one does, as far as there is room for it.
pub fn choose<C: Children>(
    alloc: Global,
    at: &Setting<C>,
    room: Room,
    flow: &Flow,
) -> Result<Option<Vec<Act>>, NoMemory>
    ensures { IfOk result (λ acts. option_map (λ a. a.items) acts
        ≡ option_map (spec.allowed room) (spec.pick at.now.limits at.now.scene (sight_in at.now flow.now.flow))) }
{
    match pick(alloc, at, flow)? {
        Some(acts) => Ok(Some(allowed(alloc, &room, acts)?)),
        None => Ok(None),
    }
}

/// What the first rule that applies wants done: a flow that doesn't run has none.
#[tactic(auto, unfolding(wf_rules::specs::Rules::pick, wf_rules::specs::Sight::sight))]
fn pick<C: Children>(
    alloc: Global,
    at: &Setting<C>,
    flow: &Flow,
) -> Result<Option<Vec<Act>>, NoMemory>
    ensures { IfOk result (λ acts. option_map (λ a. a.items) acts
        ≡ spec.pick at.now.limits at.now.scene (sight_in at.now flow.now.flow)) }
{
    match flow.status() {
        FlowStatus::Running => by_rules(alloc, at, flow),
        FlowStatus::Paused => Ok(None),
        FlowStatus::Completed => Ok(None),
        FlowStatus::Failed => Ok(None),
        FlowStatus::TimedOut => Ok(None),
        FlowStatus::Terminated => Ok(None),
    }
}

/// All rules: a flow ends without its parent's attempt, and else by what follows.
fn by_rules<C: Children>(
    alloc: Global,
    at: &Setting<C>,
    flow: &Flow,
) -> Result<Option<Vec<Act>>, NoMemory>
    ensures { IfOk result (λ acts. option_map (λ a. a.items) acts
        ≡ spec.first_of (spec.rules at.now.limits at.now.scene (sight_in at.now flow.now.flow))) }
{
    if at.orphan {
        Ok(Some(parent_ended(alloc)?))
    } else {
        by_timeout(alloc, at, flow)
    }
}

/// The rules from the flow's timeout on.
#[tactic(auto, unfolding(wf_rules::specs::Sight::sight))]
fn by_timeout<C: Children>(
    alloc: Global,
    at: &Setting<C>,
    flow: &Flow,
) -> Result<Option<Vec<Act>>, NoMemory>
    ensures { IfOk result (λ acts. option_map (λ a. a.items) acts
        ≡ spec.first_of (own.from_timeout at.now.limits at.now.scene (sight_in at.now flow.now.flow))) }
{
    if is_over_time(at.moment, flow) {
        Ok(Some(ran_too_long(alloc, flow.def().alert_only)?))
    } else {
        by_deadlines(alloc, at, flow)
    }
}

/// The rules from passed deadlines on.
fn by_deadlines<C: Children>(
    alloc: Global,
    at: &Setting<C>,
    flow: &Flow,
) -> Result<Option<Vec<Act>>, NoMemory>
    ensures { IfOk result (λ acts. option_map (λ a. a.items) acts
        ≡ spec.first_of (own.from_deadlines at.now.limits at.now.scene (sight_in at.now flow.now.flow))) }
{
    match past_due(alloc, at, flow)? {
        Some(acts) => Ok(Some(acts)),
        None => by_children(alloc, at, flow),
    }
}

/// The rules from ended children on.
fn by_children<C: Children>(
    alloc: Global,
    at: &Setting<C>,
    flow: &Flow,
) -> Result<Option<Vec<Act>>, NoMemory>
    ensures { IfOk result (λ acts. option_map (λ a. a.items) acts
        ≡ spec.first_of (own.from_children at.now.limits at.now.scene (sight_in at.now flow.now.flow))) }
{
    match ended_child(at, flow) {
        Some((place, child)) => Ok(Some(child_ended(alloc, at, place, &child)?)),
        None => by_attempts(alloc, at, flow),
    }
}

/// The rules from lost attempts on.
#[tactic(auto, unfolding(wf_rules::specs::Sight::sight))]
fn by_attempts<C: Children>(
    alloc: Global,
    at: &Setting<C>,
    flow: &Flow,
) -> Result<Option<Vec<Act>>, NoMemory>
    ensures { IfOk result (λ acts. option_map (λ a. a.items) acts
        ≡ spec.first_of (own.from_attempts at.now.limits at.now.scene (sight_in at.now flow.now.flow))) }
{
    match lost(alloc, at, flow)? {
        Some(acts) => Ok(Some(acts)),
        None => by_step(alloc, at, flow, next_node(flow)),
    }
}

/// The next step is taken, or the flow completes where all is done.
fn by_step<C: Children>(
    alloc: Global,
    at: &Setting<C>,
    flow: &Flow,
    next: Next,
) -> Result<Option<Vec<Act>>, NoMemory>
    ensures { IfOk result (λ acts. option_map (λ a. a.items) acts
        ≡ own.by_step at.now.limits at.now.scene (sight_in at.now flow.now.flow) next) }
{
    match next {
        Next::Schedule(index, iteration) => schedule_at(alloc, at, flow, index, iteration),
        Next::Join(index, iteration) => join(alloc, at, flow, index, iteration),
        Next::Turn(index, iteration) => turn(alloc, at, flow, index, iteration),
        Next::Waits => Ok(None),
        Next::Done => Ok(Some(complete(alloc, at, flow)?)),
    }
}

#[tactic(auto, unfolding(wf_rules::specs::Sight::sight))]
fn schedule_at<C: Children>(
    alloc: Global,
    at: &Setting<C>,
    flow: &Flow,
    index: u32,
    iteration: u32,
) -> Result<Option<Vec<Act>>, NoMemory>
    ensures { IfOk result (λ acts. option_map (λ a. a.items) acts
        ≡ spec.take_step at.now.limits at.now.scene (sight_in at.now flow.now.flow) (Step.Schedule index iteration)) }
{
    match node_at(flow.def().nodes.as_slice(), index) {
        Some(node) => Ok(Some(schedule(alloc, at, flow, node, iteration)?)),
        None => Ok(None),
    }
}

/// The flow's parent wants no more of it.
fn parent_ended(alloc: Global) -> Result<Vec<Act>, NoMemory>
    ensures { IfOk result (λ acts. acts.items ≡ spec.parent_ended) }
{
    let reason = Text::new(alloc, "parent ended")?;
    one(alloc, Act::End(FlowStatus::Terminated, Some(reason), None))
}

fn ran_too_long(alloc: Global, alert_only: bool) -> Result<Vec<Act>, NoMemory>
    ensures { IfOk result (λ acts. acts.items ≡ spec.ran_too_long alert_only) }
{
    let reason = Text::new(alloc, "workflow timed out")?;
    if alert_only {
        one(alloc, Act::NoteFlow(reason))
    } else {
        one(alloc, Act::End(FlowStatus::TimedOut, Some(reason), None))
    }
}
