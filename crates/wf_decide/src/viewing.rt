//! What a view shows beside a flow, as the rules read it.

ghost use Rattle.std.specs.Prelude.{◌≡◌, IfSome};
ghost use Rattle.std.specs.Option.{option_copied};
ghost use Rattle.wf_rules.specs.Sight.{ended_child, has_ended};
ghost use Rattle.wf_decide.specs.Viewing.{scene_of};

use wf_flow::Flow;
use wf_machine::{ChildState, View};
use wf_names::FlowNo;
use wf_setting::{Children, EndedChild, Setting};
use wf_wire::Limits;

/// The children that a view shows.
#[derive(Drop)]
pub struct ShownChildren<'v> {
    children: &'v [ChildState],
}

impl<'v> ShownChildren<'v> {
    pub fn new(view: &'v View) -> ShownChildren<'v>
        ensures { result.children.now ≡ view.now.children }
    {
        ShownChildren {
            children: view.children.as_slice(),
        }
    }
}

impl<'v> Children for ShownChildren<'v> {
    ghost all = { λ c. c.children.now };

    fn ended(&self, number: FlowNo) -> Option<EndedChild> {
        match find_ended(self.children, number) {
            Some(child) => Some(EndedChild::new(
                child.flow,
                child.status,
                &child.output,
                child.reason.as_str(),
            )),
            None => None,
        }
    }
}

fn find_ended(children: &[ChildState], number: FlowNo) -> Option<&ChildState>
    ensures child { option_copied result ≡ ended_child children.now number }
    ensures number { IfSome result (λ child. child.now.flow.0 ≡ number.0) }
{
    children.iter().find(|child| has_ended(number, child))
}

fn has_ended(number: FlowNo, child: &ChildState) -> bool
    ensures { result ≡ has_ended number child.now }
{
    child.flow.0 == number.0 && !child.status.is_open()
}

/// Where and when the flow is planned: beside what the view shows.
pub fn setting_of<'v>(
    limits: &'v Limits,
    view: &'v View,
    flow: &Flow,
    children: &'v ShownChildren<'v>,
    moment: u64,
) -> Setting<'v, ShownChildren<'v>>
    requires { children.now.children.now ≡ view.now.children }
    ensures { result ≡ record { limits = limits.now; moment = moment; scene = scene_of view.now flow.now.flow } }
{
    Setting {
        limits,
        moment,
        mark: view.mark,
        task_defs: view.task_defs.as_slice(),
        flow_defs: view.child_defs.as_slice(),
        orphan: flow.parent().is_some() && !view.parent_open,
        children,
    }
}
