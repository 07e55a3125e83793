//! Laws of the decider, over every flow. The functions do nothing: their contracts are the laws.

ghost use Rattle.std.specs.Prelude.{◌≡◌, ◌+◌, ◌≤◌, ◌^◌, ℕ, List, None, Some};
ghost use Rattle.wf_rules.specs.Acts.{Turn, made};
ghost use Rattle.wf_rules.specs.Loops.{LoopsFit};
ghost use Rattle.wf_rules.specs.Plans.{AllBelow, IsLater, Numbers, PlanHolds, SameBeside, new_flows, new_tasks, plan, turn_at};
ghost use Rattle.wf_machine.specs.Records.{IsMoment, IsRecord};
ghost use Rattle.wf_rules.specs.Rules.{choose, decide, rule};
ghost use Rattle.wf_rules.specs.Sight.{Scene};
ghost use Rattle.wf_machine.specs.State.{Flow};
ghost use Rattle.wf_rules.specs.declared.acting.Act.{Act};
ghost use Rattle.wf_wire.specs.declared.limits.Limits.{Limits};

/// A plan does what the decision does, at its own moment, and where it holds also at another one, beside other flows
/// and with other numbers.
pub fn plans_hold()
    ensures at_once { (limits : Limits) (scene : Scene) (kept e : ℕ) (flow : Flow) (next : Numbers) →
        made e (plan limits scene kept e (turn_at flow next)) (turn_at flow next) ≡ decide limits scene kept e (turn_at flow next) }
    ensures later { (limits : Limits) (scene : Scene) (kept now_kept m e : ℕ) (flow : Flow) (old now : Numbers) → IsLater scene old now →
        PlanHolds (plan limits scene kept m (turn_at flow old)) flow m e kept now_kept now →
        made e (plan limits scene kept m (turn_at flow old)) (turn_at flow now) ≡ decide limits scene now_kept e (turn_at flow now) }
{}

/// After a decision no rule applies, so a second decision changes nothing.
pub fn decided_once()
    ensures settled { (limits : Limits) (scene : Scene) (kept e : ℕ) (t : Turn) → AllBelow t.next_flow scene.children → LoopsFit t.flow.def.nodes →
        rule limits scene kept e (decide limits scene kept e t) ≡ None }
    ensures again { (limits : Limits) (scene : Scene) (kept e : ℕ) (t : Turn) → AllBelow t.next_flow scene.children → LoopsFit t.flow.def.nodes →
        decide limits scene kept e (decide limits scene kept e t) ≡ decide limits scene kept e t }
{}

/// A decision leaves a flow that can be kept.
pub fn decided_kept()
    ensures { (limits : Limits) (scene : Scene) (kept e : ℕ) (t : Turn) → AllBelow t.next_flow scene.children →
        IsMoment e → IsRecord t.flow → IsRecord (decide limits scene kept e t).flow }
{}

/// A plan reads of what is registered only what the flow's nodes name.
pub fn plans_read_what_is_named()
    ensures { (limits : Limits) (a b : Scene) (kept e : ℕ) (t : Turn) → SameBeside t.flow.def.nodes a b →
        plan limits a kept e t ≡ plan limits b kept e t }
{}

/// What a rule does never runs past the last number.
pub fn numbers_last()
    ensures { (limits : Limits) (scene : Scene) (kept e : ℕ) (t : Turn) (acts : List Act) → choose limits scene kept e t ≡ Some acts →
        t.next_task ≤ 2 ^ 56 → t.next_flow ≤ 2 ^ 56 →
        (t.next_task + new_tasks acts ≤ 2 ^ 56) × (t.next_flow + new_flows acts ≤ 2 ^ 56) }
{}
