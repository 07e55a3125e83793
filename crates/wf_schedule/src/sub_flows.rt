//! A SUB_WORKFLOW is scheduled.

ghost use Rattle.std.specs.Prelude.{◌≡◌, ◌++◌, codes, nat_le, IfOk, Some};
ghost use Rattle.wf_machine.specs.Registered.{flow_def_for};
ghost use Rattle.wf_machine.specs.Naming.{with_template};
ghost use Rattle.wf_rules.specs.Scheduling as spec;
ghost use Rattle.wf_setting.specs.Setting.{sight_in};

use crate::registered::flow_def_of;
use crate::starts::Start;
use crate::texts::joined;
use std::alloc::Global;
use wf_doc::Doc;
use wf_flow::Flow;
use wf_machine::FlowDef;
use wf_rules::{Begin, Child, NewAttempt};
use wf_setting::{Children, NoMemory, Setting, is_too_large, with_template};
use wf_wire::Limits;

/// An attempt that starts a flow of that name, or one that has failed where it starts none.
pub fn begin_child<C: Children>(
    alloc: Global,
    at: &Setting<C>,
    flow: &Flow,
    start: Start,
    name: &str,
    version: Option<u32>,
) -> Result<NewAttempt, NoMemory>
    ensures { IfOk result (λ made. made
        ≡ spec.sub_flow_at at.now.limits (sight_in at.now flow.now.flow) start.entry.node.now start.entry.iteration name.now
        (flow_def_for name.now version at.now.scene.flow_defs) start.entry.input) }
{
    match flow_def_of(at.flow_defs, name, version) {
        None => refuse_unknown(alloc, name, start),
        Some(def) => begin_known(alloc, at, flow, start, def),
    }
}

/// No workflow of that name is registered.
fn refuse_unknown(alloc: Global, name: &str, start: Start) -> Result<NewAttempt, NoMemory>
    ensures { IfOk result (λ made. made
        ≡ spec.refused_at start.entry.node.now start.entry.iteration (codes "no workflow definition " ++ name.now) start.entry.input) }
{
    let reason = joined(alloc, "no workflow definition ", name)?;
    let failed = start.fail_with(alloc, reason);
    Ok(NewAttempt {
        child: Child::Refused,
        ..failed
    })
}

fn begin_known<C: Children>(
    alloc: Global,
    at: &Setting<C>,
    flow: &Flow,
    start: Start,
    def: &FlowDef,
) -> Result<NewAttempt, NoMemory>
    ensures { IfOk result (λ made. made
        ≡ spec.sub_flow_at at.now.limits (sight_in at.now flow.now.flow) start.entry.node.now start.entry.iteration def.now.name
        (Some def.now) start.entry.input) }
{
    if is_deepest(at, flow) {
        return refuse_deep(alloc, start);
    }
    begin_within(alloc, at.limits, start, def)
}

/// The flow is nested as deep as flows may be.
#[tactic(auto, unfolding(wf_rules::specs::Sight::sight))]
fn is_deepest<C: Children>(at: &Setting<C>, flow: &Flow) -> bool
    ensures { result ≡ nat_le at.now.limits.nesting (sight_in at.now flow.now.flow).depth }
{
    at.limits.nesting <= flow.depth()
}

fn refuse_deep(alloc: Global, start: Start) -> Result<NewAttempt, NoMemory>
    ensures { IfOk result (λ made. made
        ≡ spec.refused_at start.entry.node.now start.entry.iteration (codes "sub-workflow depth") start.entry.input) }
{
    let failed = start.fail(alloc, "sub-workflow depth")?;
    Ok(NewAttempt {
        child: Child::Refused,
        ..failed
    })
}

/// The child's input has the keys of its definition's template. Where that is too large, there is no child.
fn begin_within(
    alloc: Global,
    limits: &Limits,
    start: Start,
    def: &FlowDef,
) -> Result<NewAttempt, NoMemory>
    ensures { IfOk result (λ made. made
        ≡ spec.child_at limits.now start.entry.node.now start.entry.iteration def.now start.entry.input) }
{
    let input = child_input(alloc, &start.input, def)?;
    if is_too_large(limits, &input) {
        return refuse_large_child(alloc, start);
    }
    let child = Child::Flow(def.copy(alloc)?, input);
    let begun = start.begin(alloc, Begin::Held(None));
    Ok(NewAttempt { child, ..begun })
}

fn child_input(alloc: Global, input: &Doc, def: &FlowDef) -> Result<Doc, NoMemory>
    ensures { IfOk result (λ made. made ≡ with_template def.now.template input.now) }
{
    let input = wf_doc::copy(alloc, input)?;
    with_template(alloc, &def.template, input)
}

fn refuse_large_child(alloc: Global, start: Start) -> Result<NewAttempt, NoMemory>
    ensures { IfOk result (λ made. made
        ≡ record (spec.failed_at start.entry.node.now start.entry.iteration (codes "document limit") start.entry.input) { child = Child.TooLarge }) }
{
    let failed = start.fail(alloc, "document limit")?;
    Ok(NewAttempt {
        child: Child::TooLarge,
        ..failed
    })
}
