//! Laws of plans, over every state. The functions do nothing: their contracts are the laws.

ghost use Rattle.std.specs.Prelude.{◌≡◌, ℕ, length};
ghost use Rattle.wf_machine.specs.State.{Flow, State};
ghost use Rattle.wf_machine.specs.declared.sight.View.{View};
ghost use Rattle.wf_rules.specs.Acts.{made};
ghost use Rattle.wf_rules.specs.Plans.{plan, turn_at};
ghost use Rattle.wf_rules.specs.Rules.{decide};
ghost use Rattle.wf_rules.specs.Sight.{scene_in};
ghost use Rattle.wf_wire.specs.declared.limits.Limits.{Limits};
ghost use Rattle.wf_decide.specs.Viewing.{IsViewOf, numbers_in, numbers_of, scene_of};

use wf_rules::laws::{plans_hold, plans_read_what_is_named};

/// What is planned of a flow from a view of a state does, at the plan's own moment and with the numbers of that state,
/// what the decision there does: on the whole flow, on the flows that it starts and on both next numbers.
pub fn plan_applied_is_decide()
    ensures { (limits : Limits) (s : State) (flow : Flow) (view : View) (e : ℕ) → IsViewOf s flow view
        → made e (plan limits (scene_of view flow) view.flows e (turn_at flow (numbers_of view))) (turn_at flow (numbers_in s))
        ≡ decide limits (scene_in s flow) (length s.flows) e (turn_at flow (numbers_in s)) }
{
    plans_hold();
    plans_read_what_is_named();
}
