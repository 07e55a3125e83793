//! A SIMPLE node is scheduled.

ghost use Rattle.std.specs.Prelude.{◌≡◌, ◌++◌, codes, IfOk, None};
ghost use Rattle.wf_machine.specs.Registered.{task_def_named};
ghost use Rattle.wf_rules.specs.Scheduling as spec;
ghost use Rattle.wf_setting.specs.Setting.{sight_in};

use crate::adding::add;
use crate::registered::task_def_of;
use crate::starts::Start;
use crate::texts::joined;
use std::alloc::Global;
use wf_flow::Flow;
use wf_machine::TaskDef;
use wf_names::FlowStatus;
use wf_rules::{Act, Begin, NewAttempt};
use wf_setting::{Children, NoMemory, Setting, one, with_template};

/// An attempt is added, or the flow fails where its task isn't registered.
pub fn schedule_task<C: Children>(
    alloc: Global,
    at: &Setting<C>,
    flow: &Flow,
    start: Start,
) -> Result<Vec<Act>, NoMemory>
    ensures { IfOk result (λ acts. acts.items
        ≡ spec.schedule_task at.now.limits (sight_in at.now flow.now.flow) start.entry.node.now start.entry.iteration
        (task_def_named start.entry.node.now.name at.now.scene.task_defs) start.entry.input) }
{
    let node = start.node;
    match task_def_of(at.task_defs, node.name.as_str()) {
        None => fail_without_task(alloc, node.name.as_str()),
        Some(def) => {
            let attempt = begin_task(alloc, def, start)?;
            add(alloc, at, flow, attempt)
        }
    }
}

pub fn fail_without_task(alloc: Global, name: &str) -> Result<Vec<Act>, NoMemory>
    ensures { IfOk result (λ acts. acts.items ≡ spec.fails (codes "no task definition " ++ name.now) None) }
{
    let reason = joined(alloc, "no task definition ", name)?;
    one(alloc, Act::End(FlowStatus::Failed, Some(reason), None))
}

/// The attempt, with the keys of the task's template.
fn begin_task(alloc: Global, def: &TaskDef, start: Start) -> Result<NewAttempt, NoMemory>
    ensures { IfOk result (λ made. made ≡ spec.task_at start.entry.node.now start.entry.iteration def.now start.entry.input) }
{
    let Start {
        node,
        iteration,
        input,
    } = start;
    let input = with_template(alloc, &def.template, input)?;
    let start = Start {
        node,
        iteration,
        input,
    };
    Ok(start.begin(alloc, Begin::Queued(def.timing, node.start_delay)))
}
