//! A node is scheduled, by its kind.

ghost use Rattle.std.specs.Prelude.{◌≡◌, IfOk};
ghost use Rattle.wf_rules.specs.Scheduling as spec;
ghost use Rattle.wf_machine.specs.Registered.{task_def_named};
ghost use Rattle.wf_schedule.specs.Starting.{large_refused, large_task};
ghost use Rattle.wf_setting.specs.Setting.{sight_in};

use crate::adding::{add, refuse_large};
use crate::delays::wait;
use crate::ending::terminate;
use crate::loops::begin_loop;
use crate::registered::task_def_of;
use crate::starts::Start;
use crate::sub_flows::begin_child;
use crate::switches::choose;
use crate::tasks::{fail_without_task, schedule_task};
use crate::variables::set_variables;
use std::alloc::Global;
use wf_flow::Flow;
use wf_machine::{Node, NodeKind};
use wf_rules::{Act, Begin, Outcome};
use wf_setting::{Children, NoMemory, Setting, fill_in};

/// What is done where the flow comes to that node in that iteration.
#[tactic(auto, using(wf_setting::proofs::FitLemmas::is_filled, wf_setting::proofs::FitLemmas::was_large, crate::proofs::ScheduleLemmas::large_kind))]
pub fn schedule<C: Children>(
    alloc: Global,
    at: &Setting<C>,
    flow: &Flow,
    node: &Node,
    iteration: u32,
) -> Result<Vec<Act>, NoMemory>
    ensures { IfOk result (λ acts. acts.items
        ≡ spec.schedule at.now.limits at.now.scene (sight_in at.now flow.now.flow) node.now iteration) }
{
    match fill_in(alloc, at, flow, &node.input)? {
        Some(input) => schedule_filled(
            alloc,
            at,
            flow,
            Start {
                node,
                iteration,
                input,
            },
        ),
        None => schedule_large(alloc, at, flow, node),
    }
}

/// The same with the filled input.
#[tactic(auto, using(crate::proofs::ScheduleLemmas::kind_switch))]
fn schedule_filled<C: Children>(
    alloc: Global,
    at: &Setting<C>,
    flow: &Flow,
    start: Start,
) -> Result<Vec<Act>, NoMemory>
    ensures { IfOk result (λ acts. acts.items
        ≡ spec.schedule_kind at.now.limits at.now.scene (sight_in at.now flow.now.flow) start.entry.node.now start.entry.iteration
        start.entry.node.now.kind start.entry.input) }
{
    let node = start.node;
    match &node.kind {
        NodeKind::Simple => schedule_task(alloc, at, flow, start),
        NodeKind::Switch(choice) => {
            let attempt = choose(alloc, choice.param(), start)?;
            add(alloc, at, flow, attempt)
        }
        NodeKind::Fork(_) => {
            let attempt = start.begin(alloc, Begin::Over(Outcome::Completed));
            add(alloc, at, flow, attempt)
        }
        NodeKind::Join(_) => add(alloc, at, flow, start.begin(alloc, Begin::Held(None))),
        NodeKind::Loop(count, _) => {
            let attempt = begin_loop(alloc, count, start)?;
            add(alloc, at, flow, attempt)
        }
        NodeKind::SubFlow(name, version) => {
            let attempt = begin_child(alloc, at, flow, start, name.as_str(), *version)?;
            add(alloc, at, flow, attempt)
        }
        NodeKind::SetVariable => set_variables(alloc, at, flow, start),
        NodeKind::Wait => {
            let attempt = wait(alloc, start)?;
            add(alloc, at, flow, attempt)
        }
        NodeKind::Human => add(alloc, at, flow, start.begin(alloc, Begin::Held(None))),
        NodeKind::Terminate => terminate(alloc, at, flow, start),
    }
}

/// The same where the filled input is too large.
fn schedule_large<C: Children>(
    alloc: Global,
    at: &Setting<C>,
    flow: &Flow,
    node: &Node,
) -> Result<Vec<Act>, NoMemory>
    ensures { IfOk result (λ acts. acts.items
        ≡ large_refused at.now.limits at.now.scene (sight_in at.now flow.now.flow) node.now node.now.kind) }
{
    match &node.kind {
        NodeKind::Simple => schedule_large_task(alloc, at, flow, node),
        NodeKind::Switch(_) => refuse_large(alloc, at, flow),
        NodeKind::Fork(_) => refuse_large(alloc, at, flow),
        NodeKind::Join(_) => refuse_large(alloc, at, flow),
        NodeKind::Loop(_, _) => refuse_large(alloc, at, flow),
        NodeKind::SubFlow(_, _) => refuse_large(alloc, at, flow),
        NodeKind::SetVariable => refuse_large(alloc, at, flow),
        NodeKind::Wait => refuse_large(alloc, at, flow),
        NodeKind::Human => refuse_large(alloc, at, flow),
        NodeKind::Terminate => refuse_large(alloc, at, flow),
    }
}

/// The task that is missing is told first.
fn schedule_large_task<C: Children>(
    alloc: Global,
    at: &Setting<C>,
    flow: &Flow,
    node: &Node,
) -> Result<Vec<Act>, NoMemory>
    ensures { IfOk result (λ acts. acts.items
        ≡ large_task at.now.limits (sight_in at.now flow.now.flow) node.now (task_def_named node.now.name at.now.scene.task_defs)) }
{
    match task_def_of(at.task_defs, node.name.as_str()) {
        None => fail_without_task(alloc, node.name.as_str()),
        Some(_) => refuse_large(alloc, at, flow),
    }
}
