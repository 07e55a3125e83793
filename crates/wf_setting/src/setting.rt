//! Where and when a flow is decided.

use crate::child::EndedChild;
use std::marker::Model;
use wf_machine::{FlowDef, TaskDef};
use wf_names::FlowNo;
use wf_wire::Limits;

/// The kept flows that have one flow as their parent: a list `all` to contracts.
pub trait Children {
    ghost use Rattle.std.specs.Prelude.{◌≡◌, ◌<◌, ◌^◌, List};
    ghost use Rattle.wf_machine.specs.declared.sight.ChildState.{ChildState};
    ghost use Rattle.wf_rules.specs.Sight.{ended_child};

    ghost all: { Self → List ChildState };

    /// The one of that number, where it has ended.
    fn ended(&self, number: FlowNo) -> Option<EndedChild>
        requires { number.0 < 2 ^ 56 }
        ensures { result ≡ ended_child (all self.now) number };
}

/// The limits, the moment in milliseconds, and what stands beside a flow that is decided.
#[derive(Drop)]
pub struct Setting<'s, C: Children> {
    pub limits: &'s Limits,
    pub moment: u64,
    /// That of the store.
    pub mark: u32,
    pub task_defs: &'s [TaskDef],
    pub flow_defs: &'s [FlowDef],
    /// The flow has a parent, whose attempt is missing or not open.
    pub orphan: bool,
    /// The kept flows that have this one as their parent.
    pub children: &'s C,
}

impl<'s, C: Children> Model for Setting<'s, C> {
    ghost use Rattle.std.specs.Coded.{codes};
    ghost use Rattle.wf_doc.specs.contracts.doc.Doc as doc;
    ghost use Rattle.wf_machine.specs.contracts.definition.NodeKind as node_kind;
    ghost use Rattle.wf_setting.specs.Setting as spec;

    ghost Value = { spec.Setting };

    ghost coded = { Prim.hlevel (codes, doc.the_row.coded, node_kind.the_row.coded) };

    ghost view = { λ s. record {
      limits = s.limits.now;
      moment = s.moment;
      scene = record {
        mark = s.mark;
        task_defs = s.task_defs.now;
        flow_defs = s.flow_defs.now;
        orphan = s.orphan;
        children = C.all s.children.now;
      };
    } };
}
