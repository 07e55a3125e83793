//! A DO_WHILE whose body is done in its turn.

ghost use Rattle.std.specs.Prelude.{◌≡◌, ◌<◌, true, map, option_map, IfOk};
ghost use Rattle.wf_machine.specs.declared.walking.Next.{Next};
ghost use Rattle.wf_machine.specs.Marks.{all_nodes};
ghost use Rattle.wf_machine.specs.Sight.{seen};
ghost use Rattle.wf_rules.specs.Outputs.{is_below, turns_on as spec_turns_on};
ghost use Rattle.wf_rules.specs.Rules as spec;
ghost use Rattle.wf_setting.specs.Setting.{sight_in};
ghost use Rattle.wf_closing.specs.Closing.{turned_doc};

use crate::counting::count_of;
use crate::joining::joined;
use crate::outputs::with_outputs;
use crate::places::last_place;
use crate::tables::with_key;
use std::alloc::Global;
use wf_doc::{Doc, Fields};
use wf_flow::{Attempt, Flow, node_at};
use wf_machine::{Count, Node, NodeKind};
use wf_rules::Act;
use wf_setting::{Children, NoMemory, Setting, is_too_large, one, unless_large};
use wf_wire::Limits;

/// The last turn that a DO_WHILE can be in.
const LAST_TURN: u32 = 2_147_483_647;

/// The DO_WHILE of that index goes on in the iteration, or is completed there. None where it has no attempt there, or
/// is no DO_WHILE.
#[tactic(auto, unfolding(wf_rules::specs::Sight::sight))]
pub fn turn<C: Children>(
    alloc: Global,
    at: &Setting<C>,
    flow: &Flow,
    index: u32,
    iteration: u32,
) -> Result<Option<Vec<Act>>, NoMemory>
    ensures { IfOk result (λ acts. option_map (λ a. a.items) acts
        ≡ spec.take_step at.now.limits at.now.scene (sight_in at.now flow.now.flow) (Next.Turn index iteration)) }
{
    let Some(node) = node_at(flow.def().nodes.as_slice(), index) else {
        return Ok(None);
    };
    let Some(place) = last_place(flow, index, iteration) else {
        return Ok(None);
    };
    let Some(attempt) = flow.at(place) else {
        return Ok(None);
    };
    turn_of_loop(alloc, at, flow, place, attempt, &node.kind)
}

#[tactic(auto, using(crate::proofs::EndLemmas::turned_output_is), unfolding(wf_rules::specs::Sight::sight))]
fn turn_of_loop<C: Children>(
    alloc: Global,
    at: &Setting<C>,
    flow: &Flow,
    place: u64,
    attempt: &Attempt,
    kind: &NodeKind,
) -> Result<Option<Vec<Act>>, NoMemory>
    ensures { IfOk result (λ acts. option_map (λ a. a.items) acts
        ≡ spec.turn_of_loop at.now.limits (sight_in at.now flow.now.flow) place (seen attempt.now) kind.now) }
{
    match kind {
        NodeKind::Loop(count, body) => {
            let output = turned_output(alloc, flow, attempt, body.as_slice())?;
            let goes_on = turns_on(attempt.turn(), count, attempt.input());
            let acts = turned_on(alloc, at.limits, place, attempt.turn(), output, goes_on)?;
            Ok(Some(acts))
        }
        NodeKind::Simple => Ok(None),
        NodeKind::Switch(_) => Ok(None),
        NodeKind::Fork(_) => Ok(None),
        NodeKind::Join(_) => Ok(None),
        NodeKind::SubFlow(_, _) => Ok(None),
        NodeKind::SetVariable => Ok(None),
        NodeKind::Wait => Ok(None),
        NodeKind::Human => Ok(None),
        NodeKind::Terminate => Ok(None),
    }
}

/// The output of the attempt, with the outputs of the body's nodes under the number of its turn.
fn turned_output(
    alloc: Global,
    flow: &Flow,
    attempt: &Attempt,
    body: &[Node],
) -> Result<Doc, NoMemory>
    ensures { IfOk result (λ made. made ≡ turned_doc (map seen flow.now.flow.attempts) attempt.now.turn (all_nodes body.now) attempt.now.output) }
{
    let turn = attempt.turn();
    let outputs = with_outputs(alloc, flow, turn, body, Fields::new(alloc))?;
    let output = wf_doc::copy(alloc, attempt.output())?;
    let key = format!(in alloc; "{turn}")?;
    with_key(alloc, key.as_str(), Doc::Table(outputs), output)
}

/// Whether there is a turn after this one.
fn turns_on(turn: u32, count: &Count, input: &Doc) -> bool
    ensures value { result ≡ spec_turns_on turn count.now input.now }
    ensures below { result ≡ true → turn < 2147483647 }
{
    is_below(turn, count_of(count, input)) && turn < LAST_TURN
}

fn is_below(turn: u32, count: Option<i64>) -> bool
    ensures { result ≡ is_below turn count }
{
    match count {
        Some(count) => i64::from(turn) < count,
        None => false,
    }
}

/// The attempt at that place goes on in the next turn, or is completed.
fn turned_on(
    alloc: Global,
    limits: &Limits,
    place: u64,
    turn: u32,
    output: Doc,
    goes_on: bool,
) -> Result<Vec<Act>, NoMemory>
    requires { goes_on ≡ true → turn < 2147483647 }
    ensures { IfOk result (λ acts. acts.items ≡ spec.turned_on limits.now place turn output goes_on) }
{
    if goes_on {
        next_turn(alloc, limits, place, turn, output)
    } else {
        joined(alloc, limits, output, place)
    }
}

fn next_turn(
    alloc: Global,
    limits: &Limits,
    place: u64,
    turn: u32,
    output: Doc,
) -> Result<Vec<Act>, NoMemory>
    requires { turn < 2147483647 }
    ensures { IfOk result (λ acts. acts.items ≡ spec.turned_on limits.now place turn output true) }
{
    let next = turn + 1;
    let number = Doc::Int(i64::from(next));
    let output = with_key(alloc, "iteration", number, output)?;
    let large = is_too_large(limits, &output);
    let acts = one(alloc, Act::Turn(place, output, next))?;
    unless_large(alloc, large, acts)
}
