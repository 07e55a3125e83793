//! The index of attempts: the flow that each number is in.

ghost use Rattle.std.specs.Prelude.{◌≡◌, ◌++◌, ◌+◌, ◌≤◌, drop, filter, length, option_map, IfNone, IfSome, None};
ghost use Rattle.std.specs.List.{find};
ghost use Rattle.wf_kept.specs.Index.{is_elsewhere, placed_in, placed_task, rows_of};
ghost use Rattle.wf_kept.specs.Rising.{IsPlaceOf, Rises};

use crate::roomy::Roomy;
use wf_flow::Attempt;
use wf_names::{FlowNo, TaskNo};

/// An attempt, and the flow that it is in.
#[derive(Clone, Copy)]
pub struct Placed {
    pub task: TaskNo,
    pub flow: FlowNo,
}

/// Adds a row for each attempt of the flow from that place on. It takes no memory.
pub fn add_rows(index: &mut Roomy<Placed>, flow: FlowNo, attempts: &[Attempt], from: usize)
    requires within { from ≤ length attempts.now }
    requires room { length attempts.now ≤ from + index.old.spare }
    ensures items { index.new.items ≡ index.old.items ++ rows_of flow (drop from attempts.now) }
    ensures room { from + index.old.spare ≤ length attempts.now + index.new.spare }
{
    for attempt in &attempts[from..] {
        index.add(Placed {
            task: attempt.number(),
            flow,
        });
    }
}

/// Takes the rows of the flow's attempts out.
pub fn drop_rows(index: &mut Roomy<Placed>, flow: FlowNo)
    ensures items { index.new.items ≡ filter (is_elsewhere flow) index.old.items }
    ensures room { index.old.spare ≤ index.new.spare }
{
    index.items.retain(|placed| placed.flow.0 != flow.0);
}

/// The flow that the attempt is in.
pub fn flow_of(index: &[Placed], task: TaskNo) -> Option<FlowNo>
    requires { Rises placed_task index.now }
    ensures { option_map (λ (flow : FlowNo). flow.0) result ≡ placed_in task.0 index.now }
{
    let place = place_of(index, task)?;
    Some(index[place].flow)
}

/// The place of the attempt's row.
fn place_of(index: &[Placed], task: TaskNo) -> Option<usize>
    requires { Rises placed_task index.now }
    ensures none { IfNone result (placed_in task.0 index.now ≡ None) }
    ensures some { IfSome result (λ place. IsPlaceOf placed_task task.0 index.now place) }
{
    index
        .binary_search_by_key(&task.0, |placed| placed.task.0)
        .ok()
}
