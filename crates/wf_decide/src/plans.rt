//! Plans, and what they make of a flow.

ghost use Rattle.std.specs.Prelude.{◌≡◌, OnOk};
ghost use Rattle.wf_machine.specs.Records.{IsMoment};
ghost use Rattle.wf_rules.specs.Acts.{made};
ghost use Rattle.wf_rules.specs.Rules.{decide};
ghost use Rattle.wf_decide.specs.Planning.{Applies};

use std::alloc::Global;
use std::marker::Model;
use wf_rules::Act;
use wf_setting::NoMemory;
use wf_turn::Turn;

/// What a decision makes of a flow, with the moment at which it was made and the count of flows that were kept then.
#[derive(Drop)]
pub struct Plan {
    acts: Vec<Act>,
    moment: u64,
    kept: u64,
}

impl Model for Plan {
    ghost use Rattle.std.specs.Coded.{codes};
    ghost use Rattle.wf_doc.specs.contracts.doc.Doc as doc;
    ghost use Rattle.wf_machine.specs.contracts.definition.NodeKind as node_kind;
    ghost use Rattle.wf_decide.specs.Planning.{Planned};

    ghost Value = { Planned };

    ghost coded = { Prim.hlevel (codes, doc.the_row.coded, node_kind.the_row.coded) };

    ghost view = { λ p. record { acts = p.acts.items; moment = p.moment; kept = p.kept } };
}

impl Plan {
    /// Those acts, planned at the moment and beside so many kept flows.
    pub(crate) fn new(acts: Vec<Act>, moment: u64, kept: u64) -> Plan
        ensures { result ≡ record { acts = acts.items; moment = moment; kept = kept } }
    {
        Plan { acts, moment, kept }
    }

    /// The moment at which it was made: no earlier than the last change that its view shows.
    pub fn moment(&self) -> u64
        ensures { result ≡ self.now.moment }
    {
        self.moment
    }

    /// How many flows were kept then.
    pub fn kept(&self) -> u64
        ensures { result ≡ self.now.kept }
    {
        self.kept
    }
}

/// Makes what was planned, at the moment, of a flow that is as it was planned. After an error the turn is to be thrown away.
#[tactic(auto, using(crate::proofs::PlannedLemmas::applied_fits, crate::proofs::PlannedLemmas::applied_tasks, crate::proofs::PlannedLemmas::applied_flows))]
pub fn apply(alloc: Global, plan: Plan, turn: &mut Turn, moment: u64) -> Result<(), NoMemory>
    requires moment { IsMoment moment }
    requires applies { Applies plan moment turn.old }
    ensures made { OnOk result (turn.new ≡ made moment plan.acts turn.old) }
    ensures decided { OnOk result ((from : Applies plan moment turn.old)
        → turn.new ≡ decide from.limits from.scene from.kept moment turn.old) }
{
    match turn.make_all(alloc, plan.acts, moment) {
        Ok(()) => Ok(()),
        Err(_) => Err(NoMemory),
    }
}
