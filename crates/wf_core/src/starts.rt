//! Starts of workflows.

ghost use Rattle.std.specs.Prelude.{◌≡◌, ◌+◌, ◌<◌, ◌^◌, length, IfOk};
ghost use Rattle.wf_steps.specs.Calls.{is_too_long, start, start_of, started};
ghost use Rattle.wf_machine.specs.Records.{IsMoment};
ghost use Rattle.wf_core.specs.Changes.{IsPrepared};

use crate::change::{Change, Touched};
use crate::no_memory::NoMemory;
use crate::steps::Core;
use std::alloc::Global;
use wf_doc::{Doc, Text, print_len};
use wf_flow::Flow;
use wf_kept::find_flow_def;
use wf_machine::{FlowDef, Reply};
use wf_names::{FlowNo, IdKind, Refusal};
use wf_setting::with_template;

impl Core {
    #[tactic(auto, unfolding(wf_steps::specs::Calls::start))]
    pub(crate) fn prepare_start(
        &mut self,
        alloc: Global,
        moment: u64,
        name: &Text,
        version: Option<u32>,
        input: Doc,
        correlation: Text,
    ) -> Result<Change, NoMemory>
        requires moment { IsMoment moment }
        ensures state { self.new.state ≡ self.old.state }
        ensures limits { self.new.limits ≡ self.old.limits }
        ensures entries { self.new.entries ≡ self.old.entries }
        ensures ok { IfOk result (IsPrepared (start self.old.limits (self.old.entries + 1) moment name.now version input correlation self.old.state) self.old self.new) }
    {
        let def = match find_flow_def(self.flow_defs.as_slice(), name.as_str(), version) {
            None => return Ok(Change::none(Reply::Refused(Refusal::NotFound))),
            Some(def) => def,
        };
        if self.limits.flows as usize <= self.flows.len() || 1 << 56 <= self.flows.next_flow() {
            return Ok(Change::none(Reply::Refused(Refusal::StoreFull)));
        }
        let input = with_template(alloc, &def.template, input)?;
        if print_len(&input) > self.limits.document as u64 {
            return Ok(Change::none(Reply::Refused(Refusal::DocumentLimit)));
        }
        let def = def.copy(alloc)?;
        self.prepare_flow(alloc, moment, def, input, correlation)
    }

    /// Makes a flow of the definition, and decides it.
    fn prepare_flow(
        &mut self,
        alloc: Global,
        moment: u64,
        def: FlowDef,
        input: Doc,
        correlation: Text,
    ) -> Result<Change, NoMemory>
        requires number { self.old.state.next_flow < 2 ^ 56 }
        requires room { length self.old.state.flows < self.old.limits.flows }
        requires moment { IsMoment moment }
        ensures state { self.new.state ≡ self.old.state }
        ensures limits { self.new.limits ≡ self.old.limits }
        ensures entries { self.new.entries ≡ self.old.entries }
        ensures ok { IfOk result (IsPrepared (started self.old.limits (self.old.entries + 1) moment def input correlation self.old.state) self.old self.new) }
    {
        let number = self.flows.next_flow();
        let flow = Flow::new(
            alloc,
            FlowNo(number),
            def,
            input,
            correlation,
            None,
            0,
            moment,
        );
        let _rising = self.flows.as_slice();
        let next_task = self.flows.next_task();
        let kept = self.flows.len() as u64 + 1;
        let turn = self.decide(alloc, moment, flow, kept, number + 1, next_task)?;
        let decided = self.reserve(1, turn)?;
        Ok(Change {
            moment,
            touched: Touched::NewFlow(decided),
            reply: Reply::Id(IdKind::Flow, number),
        })
    }
}
