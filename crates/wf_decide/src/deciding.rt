//! Rule after rule, until none applies.

ghost use Rattle.std.specs.Prelude.{◌≡◌, ◌+◌, ◌*◌, ◌^◌, ◌≤◌, max, length, IfOk, OnOk};
ghost use Rattle.wf_machine.specs.Records.{IsMoment};
ghost use Rattle.wf_rules.specs.Plans.{AllBelow};
ghost use Rattle.wf_rules.specs.Rules as spec;
ghost use Rattle.wf_decide.specs.Deciding.{Steps};

use crate::choosing::choose;
use crate::room::Room;
use std::alloc::Global;
use wf_flow::Flow;
use wf_setting::{Children, NoMemory, Setting};
use wf_turn::Turn;
use wf_wire::Limits;

/// The first number that no flow and no attempt gets.
const NUMBERS: u64 = 1 << 56;

/// Rule after rule is made of the flow, until none applies. `kept` flows are kept. After an error the turn is to be
/// thrown away.
pub fn decide<C: Children>(
    alloc: Global,
    at: &Setting<C>,
    kept: u64,
    turn: &mut Turn,
) -> Result<(), NoMemory>
    requires children { AllBelow turn.old.next_flow at.now.scene.children }
    requires moment { IsMoment at.now.moment }
    ensures { OnOk result (turn.new ≡ spec.decide at.now.limits at.now.scene kept at.now.moment turn.old) }
{
    let most = rules_at_most(at.limits, turn.flow());
    for _rule in 0..most {
        if !step(alloc, at, kept, turn)? {
            return Ok(());
        }
    }
    Ok(())
}

/// The first rule that applies is made of the flow: false where none does.
#[tactic(auto, using(wf_rules::proofs::WantLemmas::chosen_fits, crate::proofs::DecideLemmas::chosen_tasks, crate::proofs::DecideLemmas::chosen_flows, crate::proofs::DecideLemmas::below_later), unfolding(wf_rules::specs::Rules::rule))]
fn step<C: Children>(
    alloc: Global,
    at: &Setting<C>,
    kept: u64,
    turn: &mut Turn,
) -> Result<bool, NoMemory>
    requires children { AllBelow turn.old.next_flow at.now.scene.children }
    requires moment { IsMoment at.now.moment }
    ensures steps { IfOk result (λ applied. Steps at.now.limits at.now.scene kept at.now.moment turn.old turn.new applied) }
    ensures children { OnOk result (AllBelow turn.new.next_flow at.now.scene.children) }
{
    let room = room(at.limits, kept, turn);
    match choose(alloc, at, room, turn.flow())? {
        Some(acts) => match turn.make_all(alloc, acts, at.moment) {
            Ok(()) => Ok(true),
            Err(_) => Err(NoMemory),
        },
        None => Ok(false),
    }
}

/// What there is room for, where `kept` flows are kept beside those that the turn started.
pub fn room(limits: &Limits, kept: u64, turn: &Turn) -> Room
    ensures room { result ≡ spec.room limits.now kept turn.now }
    ensures tasks { turn.now.next_task ≤ 2 ^ 56 }
    ensures flows { turn.now.next_flow ≤ 2 ^ 56 }
{
    Room {
        spent: turn.next_task() >= NUMBERS,
        full: kept.saturating_add(turn.started()) >= limits.flows as u64,
        unnumbered: turn.next_flow() >= NUMBERS,
    }
}

/// How many rules can apply at most.
#[tactic(auto, using(crate::proofs::DecideLemmas::few_attempts))]
pub fn rules_at_most(limits: &Limits, flow: &Flow) -> u64
    ensures { result ≡ 6 * max limits.now.attempts (length flow.now.flow.attempts) + 2 }
{
    flow.attempts_in_range();
    let most = flow.attempts().len().max(limits.attempts as usize);
    6 * most as u64 + 2
}
