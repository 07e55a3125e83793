//! A DO_WHILE is scheduled.

ghost use Rattle.std.specs.Prelude.{◌≡◌, IfOk};
ghost use Rattle.wf_rules.specs.Outputs.{loop_output};
ghost use Rattle.wf_rules.specs.Scheduling as spec;

use crate::counts::count_of;
use crate::starts::Start;
use crate::texts::table_of;
use std::alloc::Global;
use wf_doc::Doc;
use wf_machine::Count;
use wf_rules::{Begin, NewAttempt};
use wf_setting::NoMemory;

/// An attempt in the first turn, or one that has failed where there is no count of turns.
pub fn begin_loop(alloc: Global, count: &Count, start: Start) -> Result<NewAttempt, NoMemory>
    ensures { IfOk result (λ made. made ≡ spec.counted_at start.entry.node.now start.entry.iteration count.now start.entry.input) }
{
    match count_of(count, &start.input) {
        Some(_) => begin_turn(alloc, start),
        None => start.fail(alloc, "bad loop count"),
    }
}

fn begin_turn(alloc: Global, start: Start) -> Result<NewAttempt, NoMemory>
    ensures { IfOk result (λ made. made ≡ spec.loop_at start.entry.node.now start.entry.iteration start.entry.input) }
{
    let output = loop_output(alloc)?;
    let begun = start.begin(alloc, Begin::Held(None));
    Ok(NewAttempt {
        output,
        turn: 1,
        ..begun
    })
}

fn loop_output(alloc: Global) -> Result<Doc, NoMemory>
    ensures { IfOk result (λ output. output ≡ loop_output) }
{
    table_of(alloc, "iteration", Doc::Int(1))
}
