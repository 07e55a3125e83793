//! Plans: what a decision makes of a flow, with numbers and moments left open.

ghost use Rattle.std.specs.Prelude.{◌≡◌, ◌^◌, ◌≤◌, max, option_map, IfOk, OnOk};
ghost use Rattle.std.specs.Option.{option_map_or};
ghost use Rattle.wf_machine.specs.Records.{IsMoment};
ghost use Rattle.wf_machine.specs.State.{RisingTo};
ghost use Rattle.wf_rules.specs.Acts.{made as turn_made};
ghost use Rattle.wf_rules.specs.Plans.{AllBelow, plan as acts_of, turn_at};
ghost use Rattle.wf_rules.specs.Rules as spec;
ghost use Rattle.wf_decide.specs.Planning.{Applies};
ghost use Rattle.wf_decide.specs.Viewing.{numbers_of, scene_of};

use crate::choosing::choose;
use crate::copies::copy_acts;
use crate::deciding::{room, rules_at_most};
use crate::plans::Plan;
use crate::viewing::{ShownChildren, setting_of};
use std::alloc::Global;
use wf_flow::Flow;
use wf_machine::View;
use wf_rules::Act;
use wf_setting::{Children, NoMemory, Setting};
use wf_turn::Turn;
use wf_wire::Limits;

/// Plans the flow beside what the view shows, at the moment or at that of the last change where that is later. The
/// flow stays as it is: a copy of it is decided.
pub fn plan(
    alloc: Global,
    flow: &Flow,
    view: &View,
    limits: &Limits,
    moment: u64,
) -> Result<Plan, NoMemory>
    requires rising { RisingTo 1 view.now.next_task flow.now.flow.attempts }
    requires tasks { view.now.next_task ≤ 2 ^ 56 }
    requires flows { view.now.next_flow ≤ 2 ^ 56 }
    requires children { AllBelow view.now.next_flow view.now.children }
    requires last { IsMoment view.now.last }
    requires moment { IsMoment moment }
    ensures acts { IfOk result (λ made. made.acts
        ≡ acts_of limits.now (scene_of view.now flow.now.flow) view.now.flows made.moment (turn_at flow.now.flow (numbers_of view.now))) }
    ensures moment { IfOk result (λ made. made.moment ≡ max view.now.last moment) }
    ensures kept { IfOk result (λ made. made.kept ≡ view.now.flows) }
    ensures applies { IfOk result (λ made. Applies made made.moment (turn_at flow.now.flow (numbers_of view.now))) }
{
    let moment = view.last.max(moment);
    let children = ShownChildren::new(view);
    let at = setting_of(limits, view, flow, &children, moment);
    let mut turn = Turn::new(alloc, flow.copy(alloc)?, view.next_flow, view.next_task);
    let acts = gather(alloc, &at, view.flows, &mut turn)?;
    Ok(Plan::new(acts, moment, view.flows))
}

/// The acts of rule after rule, each made of the flow before the next is chosen, until none applies.
fn gather<C: Children>(
    alloc: Global,
    at: &Setting<C>,
    kept: u64,
    turn: &mut Turn,
) -> Result<Vec<Act>, NoMemory>
    requires children { AllBelow turn.old.next_flow at.now.scene.children }
    requires moment { IsMoment at.now.moment }
    ensures { IfOk result (λ acts. acts.items ≡ acts_of at.now.limits at.now.scene kept at.now.moment turn.old) }
{
    let most = rules_at_most(at.limits, turn.flow());
    let mut acts = Vec::new(alloc);
    for _rule in 0..most {
        match make_next(alloc, at, kept, turn)? {
            Some(mut more) => acts.append(&mut more)?,
            None => return Ok(acts),
        }
    }
    Ok(acts)
}

/// Makes of the flow what the first rule that applies wants done, and tells it: None where none applies.
#[tactic(auto, using(wf_rules::proofs::WantLemmas::chosen_fits, crate::proofs::DecideLemmas::chosen_tasks, crate::proofs::DecideLemmas::chosen_flows, crate::proofs::DecideLemmas::below_later))]
fn make_next<C: Children>(
    alloc: Global,
    at: &Setting<C>,
    kept: u64,
    turn: &mut Turn,
) -> Result<Option<Vec<Act>>, NoMemory>
    requires children { AllBelow turn.old.next_flow at.now.scene.children }
    requires moment { IsMoment at.now.moment }
    ensures acts { IfOk result (λ acts. option_map (λ a. a.items) acts
        ≡ spec.choose at.now.limits at.now.scene kept at.now.moment turn.old) }
    ensures turn { IfOk result (λ acts. turn.new ≡ option_map_or (λ a. turn_made at.now.moment a.items turn.old) acts turn.old) }
    ensures children { OnOk result (AllBelow turn.new.next_flow at.now.scene.children) }
{
    let room = room(at.limits, kept, turn);
    match choose(alloc, at, room, turn.flow())? {
        Some(acts) => {
            let told = copy_acts(alloc, acts.as_slice())?;
            match turn.make_all(alloc, acts, at.moment) {
                Ok(()) => Ok(Some(told)),
                Err(_) => Err(NoMemory),
            }
        }
        None => Ok(None),
    }
}
