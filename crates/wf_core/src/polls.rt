//! Polls: which attempt is handed out, and that it is.

ghost use Rattle.std.specs.Prelude.{◌≡◌, ◌+◌, true, false, option_map, IfOk, Some};
ghost use Rattle.std.specs.Option.{option_map_or};
ghost use Rattle.wf_machine.specs.Marks.{node_at};
ghost use Rattle.wf_steps.specs.Calls.{hand_over, poll};
ghost use Rattle.wf_machine.specs.Queues as spec;
ghost use Rattle.wf_machine.specs.Records.{IsMoment};
ghost use Rattle.wf_machine.specs.State.{Attempt as SeenAttempt, attempt_numbered};
ghost use Rattle.wf_kept.specs.Flows.{all_kept};
ghost use Rattle.wf_core.specs.Changes.{IsPrepared};
ghost use Rattle.wf_core.specs.Found.{comes_first, with_waiting};
ghost use Rattle.wf_core.specs.Grown.{IsOffered};

use crate::change::{Change, Decided, Touched};
use crate::no_memory::NoMemory;
use crate::reads::task_reply;
use crate::steps::Core;
use std::alloc::Global;
use wf_doc::Text;
use wf_flow::{Attempt, Flow, node_at};
use wf_kept::KeptFlow;
use wf_machine::{NodeKind, Reply};
use wf_names::{TaskNo, TaskStatus};

impl Core {
    #[tactic(auto, unfolding(wf_steps::specs::Calls::poll))]
    pub(crate) fn prepare_poll(
        &mut self,
        alloc: Global,
        moment: u64,
        name: Text,
        worker: Text,
    ) -> Result<Change, NoMemory>
        requires moment { IsMoment moment }
        ensures state { self.new.state ≡ self.old.state }
        ensures limits { self.new.limits ≡ self.old.limits }
        ensures entries { self.new.entries ≡ self.old.entries }
        ensures ok { IfOk result (IsPrepared (poll (self.old.entries + 1) moment name worker self.old.state) self.old self.new) }
    {
        let found = next_waiting(self.flows.as_slice(), name.as_str(), moment);
        let (flow, attempt) = match found {
            None => return Ok(Change::none(Reply::Nothing)),
            Some(found) => found,
        };
        let task = attempt.number();
        let flow = flow.copy(alloc)?;
        self.prepare_hand_out(alloc, moment, name, worker, flow, task)
    }

    /// The attempt of the flow, which is an equal copy of the kept one, is handed out.
    fn prepare_hand_out(
        &mut self,
        alloc: Global,
        moment: u64,
        name: Text,
        worker: Text,
        mut flow: Flow,
        task: TaskNo,
    ) -> Result<Change, NoMemory>
        requires moment { IsMoment moment }
        requires offered { IsOffered task flow.flow self.old.state }
        ensures state { self.new.state ≡ self.old.state }
        ensures limits { self.new.limits ≡ self.old.limits }
        ensures entries { self.new.entries ≡ self.old.entries }
        ensures ok { IfOk result (λ change. (a : SeenAttempt) → attempt_numbered task flow.flow.attempts ≡ Some a
            → IsPrepared (hand_over (self.old.entries + 1) moment name worker (record { flow = flow.flow; attempt = a }) self.old.state) self.old self.new change) }
    {
        self.hands.reserve(alloc, name.as_str())?;
        flow.hand_out(task, worker, moment);
        let reply = task_reply(alloc, self.mark, &flow, task)?;
        let _next_flow = self.flows.next_flow();
        let changed = Decided {
            flow,
            started: Vec::new(alloc),
            next_task: self.flows.next_task(),
        };
        Ok(Change {
            moment,
            touched: Touched::Flow(changed, Some(name)),
            reply,
        })
    }
}

/// The attempt that a poll of that name hands out at the moment, and its flow.
#[tactic(auto, using(crate::proofs::FoundLemmas::flows_more))]
fn next_waiting<'a>(
    flows: &'a [KeptFlow],
    name: &str,
    moment: u64,
) -> Option<(&'a Flow, &'a Attempt)>
    ensures { option_map (λ p. record { flow = p.0.now.flow; attempt = p.1.now }) result ≡ spec.next_waiting name.now moment (all_kept flows.now) }
{
    let mut best = None;
    for kept in flows {
        best = first_with(best, &kept.flow, name, moment);
    }
    best
}

/// The one before, or the first of the flow's attempts that can be handed out, where that comes first.
fn first_with<'a>(
    before: Option<(&'a Flow, &'a Attempt)>,
    flow: &'a Flow,
    name: &str,
    moment: u64,
) -> Option<(&'a Flow, &'a Attempt)>
    ensures { option_map (λ p. record { flow = p.0.now.flow; attempt = p.1.now }) result ≡ spec.earlier (option_map (λ p. record { flow = p.0.now.flow; attempt = p.1.now }) before.entry) (spec.first_waiting (spec.waiting_in name.now moment flow.now.flow)) }
{
    let mut best = before;
    for attempt in flow.attempts() {
        best = with_attempt(best, flow, attempt, name, moment);
    }
    best
}

/// The one before, or the attempt, where that can be handed out and comes first. Whether it comes first is tried before its
/// node is looked up, which costs more.
fn with_attempt<'a>(
    before: Option<(&'a Flow, &'a Attempt)>,
    flow: &'a Flow,
    attempt: &'a Attempt,
    name: &str,
    moment: u64,
) -> Option<(&'a Flow, &'a Attempt)>
    ensures { option_map (λ p. record { flow = p.0.now.flow; attempt = p.1.now }) result ≡ with_waiting name.now moment flow.now.flow attempt.now (option_map (λ p. record { flow = p.0.now.flow; attempt = p.1.now }) before.entry) }
{
    if goes_before(attempt, &before) && is_ready(flow, attempt, name, moment) {
        Some((flow, attempt))
    } else {
        before
    }
}

/// The attempt comes before the one that is the first so far, if there is one.
fn goes_before(attempt: &Attempt, first: &Option<(&Flow, &Attempt)>) -> bool
    ensures { result ≡ option_map_or (λ p. comes_first attempt.now p.1.now) first.now true }
{
    match first {
        None => true,
        Some(first) => comes_before(attempt, first.1),
    }
}

fn comes_before(attempt: &Attempt, other: &Attempt) -> bool
    ensures { result ≡ comes_first attempt.now other.now }
{
    attempt.ready() < other.ready()
        || (attempt.ready() == other.ready() && attempt.number().0 < other.number().0)
}

/// The attempt is one at a task of that name, SCHEDULED and ready.
fn is_ready(flow: &Flow, attempt: &Attempt, name: &str, moment: u64) -> bool
    ensures { result ≡ spec.is_ready name.now moment flow.now.flow.def attempt.now }
{
    attempt.status() == TaskStatus::Scheduled
        && attempt.ready() <= moment
        && runs_task(flow, attempt, name)
}

fn runs_task(flow: &Flow, attempt: &Attempt, name: &str) -> bool
    ensures { result ≡ option_map_or (spec.runs_task name.now) (node_at flow.now.flow.def.nodes attempt.now.node) false }
{
    match node_at(flow.def().nodes.as_slice(), attempt.node()) {
        None => false,
        Some(node) => match &node.kind {
            NodeKind::Simple => node.name.as_str() == name,
            _ => false,
        },
    }
}
