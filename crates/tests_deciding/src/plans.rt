//! A plan from a view, made on a turn, with ample memory, since no clause says that memory is there.

ghost use Rattle.std.specs.Prelude.{◌≡◌, []};

use std::alloc::Global;
use std::test::Fail;
use wf_decide::{apply, plan};
use wf_doc::{Doc, Fields, Items, Text};
use wf_flow::Flow;
use wf_machine::{FlowDef, View};
use wf_names::{FlowNo, FlowStatus};
use wf_turn::Turn;
use wf_wire::Limits;

fn nothing(alloc: Global) -> Text {
    Text::from_string(String::new(alloc))
}

fn empty(alloc: Global) -> Doc {
    Doc::Table(Fields::new(alloc))
}

fn workflow(alloc: Global) -> FlowDef {
    FlowDef {
        name: nothing(alloc),
        version: 1,
        timeout: 0,
        alert_only: false,
        restartable: true,
        template: empty(alloc),
        output: empty(alloc),
        nodes: Items::new(alloc),
        document: empty(alloc),
    }
}

/// The flow of number 2 of a workflow without nodes, which was made at the moment 40.
fn flow(alloc: Global) -> Flow
    ensures { result.flow.attempts ≡ [] }
{
    let def = workflow(alloc);
    let input = empty(alloc);
    Flow::new(alloc, FlowNo(2), def, input, nothing(alloc), None, 0, 40)
}

/// Nothing stands beside the flow. The last change was at the moment 50.
fn view(alloc: Global) -> View
    ensures next_task { result.next_task ≡ 8 }
    ensures next_flow { result.next_flow ≡ 3 }
    ensures last { result.last ≡ 50 }
    ensures children { result.children ≡ [] }
{
    View {
        mark: 7,
        last: 50,
        task_defs: Items::new(alloc),
        child_defs: Items::new(alloc),
        parent_open: false,
        children: Items::new(alloc),
        flows: 1,
        next_flow: 3,
        next_task: 8,
        revision: 0,
        defs: 0,
        entries: 0,
    }
}

#[test]
fn a_plan_completes_a_flow_without_nodes(rt: HostRuntime) -> Result<(), Fail> {
    let alloc = rt.alloc();
    let running = flow(alloc);
    let planned = plan(alloc, &running, &view(alloc), &Limits::STANDARD, 45)?;
    assert_eq!(rt; planned.moment(), 50);
    let mut turn = Turn::new(alloc, running, 3, 8);
    apply(alloc, planned, &mut turn, 50)?;
    assert_eq!(rt; turn.flow().status(), FlowStatus::Completed);
    assert_eq!(rt; turn.flow().ended(), Some(50));
    Ok(())
}
