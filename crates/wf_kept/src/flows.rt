//! Kept flows, found by their numbers and by those of their attempts.

ghost use Rattle.std.specs.Prelude.{◌≡◌, ◌+◌, ◌<◌, ◌≤◌, ◌^◌, [], ◌∷◌, ◌++◌, length, map, option_map, slice_get, IfNone, IfSome, None, OnOk, Some};
ghost use Rattle.std.specs.List.{All};
ghost use Rattle.std.specs.Option.{option_copied};
ghost use Rattle.wf_machine.specs.State.{RisingTo};
ghost use Rattle.wf_machine.specs.Flows.{emptied, flow_numbered, flow_of_task, is_concerned, new_kept, removed};
ghost use Rattle.wf_kept.specs.Flows.{AreAttemptsBelow, IsAnewFlow, IsGrownFlow, IsKeptIn, AreStarted, all_kept, attempt_count, flow_changed, flow_number, flow_removed, kept, new_attempts, revised_with};
ghost use Rattle.wf_kept.specs.Rising.{IsPlaceOf, Rises, RisesTo};

use crate::concerned::{is_concerned, is_orphaned_by};
use crate::index::{Placed, add_rows, drop_rows, flow_of};
use crate::kept::KeptFlow;
use crate::no_memory::NoMemory;
use crate::roomy::Roomy;
use std::alloc::Global;
use std::marker::Model;
use wf_flow::Flow;
use wf_names::{FlowNo, TaskNo};

/// The kept flows by rising number, and the numbers that come next. An index tells which flow an attempt is in.
#[derive(Drop)]
pub struct KeptFlows {
    flows: Roomy<KeptFlow>,
    index: Roomy<Placed>,
    next_flow: u64,
    next_task: u64,
}

impl Model for KeptFlows {
    ghost use Rattle.std.specs.Coded.{codes};
    ghost use Rattle.wf_doc.specs.contracts.doc.Doc as doc;
    ghost use Rattle.wf_machine.specs.contracts.definition.NodeKind as node_kind;
    ghost use Rattle.wf_kept.specs.Flows.{FlowTable, all_kept};
    ghost use Rattle.wf_kept.specs.Index.{AreTied};

    ghost Value = { FlowTable };

    ghost coded = { Prim.hlevel (codes, doc.the_row.coded, node_kind.the_row.coded) };

    ghost view = { λ t. record {
      kept = all_kept t.flows.items;
      next_flow = t.next_flow;
      next_task = t.next_task;
      spare_flows = t.flows.spare;
      spare_tasks = t.index.spare;
    } };

    ghost invariant = { λ t. AreTied (all_kept t.flows.items) t.index.items t.next_flow t.next_task };
}

impl KeptFlows {
    /// No flows; the first flow and the first attempt will have number 1.
    pub fn new(alloc: Global) -> KeptFlows
        ensures kept { result.kept ≡ [] }
        ensures next_flow { result.next_flow ≡ 1 }
        ensures next_task { result.next_task ≡ 1 }
    {
        KeptFlows {
            flows: Roomy::new(alloc),
            index: Roomy::new(alloc),
            next_flow: 1,
            next_task: 1,
        }
    }

    /// The kept flows, by rising number.
    pub fn as_slice(&self) -> &[KeptFlow]
        ensures value { all_kept result.now ≡ self.now.kept }
        ensures rising { RisesTo flow_number 1 self.now.next_flow self.now.kept }
        ensures attempts { All (AreAttemptsBelow self.now.next_task) self.now.kept }
    {
        self.flows.as_slice()
    }

    /// How many flows are kept.
    pub fn len(&self) -> usize
        ensures { result ≡ length self.now.kept }
    {
        self.flows.as_slice().len()
    }

    /// The number of the next flow; at 2^56 none is left.
    pub fn next_flow(&self) -> u64
        ensures value { result ≡ self.now.next_flow }
        ensures range { (1 ≤ self.now.next_flow) × (self.now.next_flow ≤ 2 ^ 56) }
    {
        self.next_flow
    }

    /// The number of the next attempt; at 2^56 none is left.
    pub fn next_task(&self) -> u64
        ensures value { result ≡ self.now.next_task }
        ensures range { (1 ≤ self.now.next_task) × (self.now.next_task ≤ 2 ^ 56) }
    {
        self.next_task
    }

    /// The flow of that number.
    pub fn flow(&self, number: FlowNo) -> Option<&KeptFlow>
        ensures { option_map kept (option_copied result) ≡ flow_numbered number self.now.kept }
    {
        flow_in(self.flows.as_slice(), number)
    }

    /// The flow that has the attempt of that number.
    pub fn flow_of_task(&self, task: TaskNo) -> Option<&KeptFlow>
        ensures flow { option_map kept (option_copied result) ≡ flow_of_task task self.now.kept }
        ensures itself { IfSome result (λ k. IsKeptIn self.now (kept k.now)) }
    {
        match flow_of(self.index.as_slice(), task) {
            Some(number) => flow_in(self.flows.as_slice(), number),
            None => None,
        }
    }

    /// Makes room for that many flows, and for that many attempts in the index.
    pub fn reserve(&mut self, flows: usize, tasks: usize) -> Result<(), NoMemory>
        ensures kept { self.new.kept ≡ self.old.kept }
        ensures next_flow { self.new.next_flow ≡ self.old.next_flow }
        ensures next_task { self.new.next_task ≡ self.old.next_task }
        ensures flows { OnOk result (flows ≤ self.new.spare_flows) }
        ensures tasks { OnOk result (tasks ≤ self.new.spare_tasks) }
        ensures room_kept { (self.old.spare_flows ≤ self.new.spare_flows) × (self.old.spare_tasks ≤ self.new.spare_tasks) }
    {
        self.flows.reserve(flows)?;
        self.index.reserve(tasks)?;
        Ok(())
    }

    /// Keeps a new flow, which has the next number. Its attempts have numbers from the next one on, below `next_task`,
    /// which is the next one from then on. It takes no memory.
    pub fn add(&mut self, flow: Flow, revision: u64, next_task: u64)
        requires number { flow.flow.number.0 ≡ self.old.next_flow }
        requires numbers_left { self.old.next_flow < 2 ^ 56 }
        requires attempts { RisingTo self.old.next_task next_task flow.flow.attempts }
        requires limit { next_task ≤ 2 ^ 56 }
        requires room_flows { 0 < self.old.spare_flows }
        requires room_tasks { length flow.flow.attempts ≤ self.old.spare_tasks }
        ensures kept { self.new.kept ≡ self.old.kept ++ record { flow = flow.flow; revision = revision } ∷ [] }
        ensures next_flow { self.new.next_flow ≡ self.old.next_flow + 1 }
        ensures next_task { self.new.next_task ≡ next_task }
        ensures spare_flows { self.old.spare_flows ≤ self.new.spare_flows + 1 }
        ensures spare_tasks { self.old.spare_tasks ≤ self.new.spare_tasks + length flow.flow.attempts }
    {
        add_rows(&mut self.index, flow.number(), flow.attempts(), 0);
        self.flows.add(KeptFlow { flow, revision });
        self.next_flow += 1;
        self.next_task = next_task;
    }

    /// Keeps flows that have the next numbers, in their order, and no attempts. It takes no memory.
    pub fn add_started(&mut self, flows: Vec<Flow>, revision: u64)
        requires started { AreStarted self.old.next_flow (map (λ f. f.flow) flows.items) }
        requires numbers_left { self.old.next_flow + length flows.items ≤ 2 ^ 56 }
        requires room { length flows.items ≤ self.old.spare_flows }
        ensures kept { self.new.kept ≡ self.old.kept ++ map (λ f. new_kept revision f.flow) flows.items }
        ensures next_flow { self.new.next_flow ≡ self.old.next_flow + length flows.items }
        ensures next_task { self.new.next_task ≡ self.old.next_task }
    {
        for flow in flows {
            let next_task = self.next_task;
            self.add(flow, revision, next_task);
        }
    }

    /// Keeps a flow in place of that of its number, from which it has grown: its new attempts have numbers from the
    /// next one on, below `next_task`, which is the next one from then on. Its parent is revised where the flow ends, and
    /// its children where their attempts do. It takes no memory.
    pub fn replace(&mut self, flow: Flow, revision: u64, next_task: u64)
        requires grown { IsGrownFlow self.old flow.flow next_task }
        requires limit { next_task ≤ 2 ^ 56 }
        requires room { new_attempts flow.flow self.old.kept ≤ self.old.spare_tasks }
        ensures kept { self.new.kept ≡ flow_changed revision flow.flow self.old.kept }
        ensures next_flow { self.new.next_flow ≡ self.old.next_flow }
        ensures next_task { self.new.next_task ≡ next_task }
        ensures spare_flows { self.new.spare_flows ≡ self.old.spare_flows }
        ensures spare_tasks { self.old.spare_tasks ≤ self.new.spare_tasks + new_attempts flow.flow self.old.kept }
    {
        if let Some(place) = place_of(self.flows.as_slice(), flow.number()) {
            let known = attempts_at(self.flows.as_slice(), place);
            add_rows(&mut self.index, flow.number(), flow.attempts(), known);
            put(&mut self.flows, place, flow, revision);
            self.next_task = next_task;
        }
    }

    /// Keeps a flow in place of that of its number, without the attempts that this had: those of the flow have numbers
    /// from the next one on, below `next_task`, which is the next one from then on. The children of the flow are revised.
    /// It takes no memory.
    pub fn replace_anew(&mut self, flow: Flow, revision: u64, next_task: u64)
        requires anew { IsAnewFlow self.old flow.flow next_task }
        requires limit { next_task ≤ 2 ^ 56 }
        requires room { length flow.flow.attempts ≤ self.old.spare_tasks }
        ensures kept { self.new.kept ≡ flow_changed revision flow.flow self.old.kept }
        ensures next_flow { self.new.next_flow ≡ self.old.next_flow }
        ensures next_task { self.new.next_task ≡ next_task }
        ensures spare_flows { self.new.spare_flows ≡ self.old.spare_flows }
        ensures spare_tasks { self.old.spare_tasks ≤ self.new.spare_tasks + length flow.flow.attempts }
    {
        if let Some(place) = place_of(self.flows.as_slice(), flow.number()) {
            drop_rows(&mut self.index, flow.number());
            add_rows(&mut self.index, flow.number(), flow.attempts(), 0);
            put(&mut self.flows, place, flow, revision);
            self.next_task = next_task;
        }
    }

    /// Takes the flow of that number out, with its attempts; its children are revised. It takes no memory.
    pub fn remove(&mut self, number: FlowNo, revision: u64)
        ensures kept { self.new.kept ≡ flow_removed revision number self.old.kept }
        ensures next_flow { self.new.next_flow ≡ self.old.next_flow }
        ensures next_task { self.new.next_task ≡ self.old.next_task }
        ensures spare_flows { self.old.spare_flows ≤ self.new.spare_flows }
        ensures spare_tasks { self.old.spare_tasks ≤ self.new.spare_tasks }
    {
        if let Some(place) = place_of(self.flows.as_slice(), number) {
            drop_rows(&mut self.index, number);
            take_out(&mut self.flows, place, revision);
        }
    }
}

/// Takes the flow at that place out, and revises its children.
fn take_out(flows: &mut Roomy<KeptFlow>, place: usize, revision: u64)
    requires rises { Rises flow_number (all_kept flows.old.items) }
    requires there { place < length flows.old.items }
    ensures items { IfSome (slice_get (all_kept flows.old.items) place)
        (λ gone. all_kept flows.new.items ≡ removed revision gone.flow (all_kept flows.old.items)) }
    ensures room { flows.old.spare ≤ flows.new.spare }
{
    let gone = flows.remove(place);
    revise_children(flows, &gone.flow, revision);
}

/// Revises the flows that lose their parent's attempt where that flow goes.
fn revise_children(flows: &mut Roomy<KeptFlow>, gone: &Flow, revision: u64)
    ensures items { all_kept flows.new.items ≡ map (revised_with revision gone.now.flow (emptied gone.now.flow)) (all_kept flows.old.items) }
    ensures room { flows.new.spare ≡ flows.old.spare }
{
    let mut left = flows.as_slice().len();
    'flows: while left > 0 {
        left -= 1;
        if is_orphaned_by(gone, &flows.as_slice()[left].flow) {
            flows.revise(left, revision);
        }
    }
}

/// Puts a flow in the place of the one of its number, and revises the flows that this change concerns.
fn put(flows: &mut Roomy<KeptFlow>, place: usize, flow: Flow, revision: u64)
    requires rises { Rises flow_number (all_kept flows.old.items) }
    requires there { IsPlaceOf flow_number flow.flow.number.0 (all_kept flows.old.items) place }
    ensures items { all_kept flows.new.items ≡ flow_changed revision flow.flow (all_kept flows.old.items) }
    ensures room { flows.new.spare ≡ flows.old.spare }
{
    let before = flows.replace(place, KeptFlow { flow, revision });
    revise(flows, place, &before.flow, revision);
}

/// Revises the flows that the change of the one at that place concerns, which was so before.
fn revise(flows: &mut Roomy<KeptFlow>, place: usize, before: &Flow, revision: u64)
    requires { place < length flows.old.items }
    ensures items { IfSome (slice_get (all_kept flows.old.items) place)
        (λ now. all_kept flows.new.items ≡ map (revised_with revision before.now.flow now.flow) (all_kept flows.old.items)) }
    ensures room { flows.new.spare ≡ flows.old.spare }
{
    let mut left = flows.as_slice().len();
    'flows: while left > 0 {
        left -= 1;
        if concerns(flows.as_slice(), before, place, left) {
            flows.revise(left, revision);
        }
    }
}

/// The change of the flow at the place `now`, which was so before, concerns the one at the place `other`.
fn concerns(flows: &[KeptFlow], before: &Flow, now: usize, other: usize) -> bool
    requires now { now < length flows.now }
    requires other { other < length flows.now }
    ensures { IfSome (slice_get (all_kept flows.now) now) (λ n. IfSome (slice_get (all_kept flows.now) other)
        (λ o. result ≡ is_concerned before.now.flow n.flow o.flow)) }
{
    is_concerned(before, &flows[now].flow, &flows[other].flow)
}

/// How many attempts the flow at that place has.
fn attempts_at(flows: &[KeptFlow], place: usize) -> usize
    requires { place < length flows.now }
    ensures { option_map attempt_count (slice_get (all_kept flows.now) place) ≡ Some result }
{
    flows[place].flow.attempts().len()
}

/// The flow of that number.
fn flow_in(flows: &[KeptFlow], number: FlowNo) -> Option<&KeptFlow>
    requires { Rises flow_number (all_kept flows.now) }
    ensures { option_map kept (option_copied result) ≡ flow_numbered number (all_kept flows.now) }
{
    match place_of(flows, number) {
        Some(place) => flows.get(place),
        None => None,
    }
}

/// The place of the flow of that number.
fn place_of(flows: &[KeptFlow], number: FlowNo) -> Option<usize>
    requires { Rises flow_number (all_kept flows.now) }
    ensures none { IfNone result (flow_numbered number (all_kept flows.now) ≡ None) }
    ensures some { IfSome result (λ place. IsPlaceOf flow_number number.0 (all_kept flows.now) place) }
{
    flows
        .binary_search_by_key(&number.0, |kept| kept.flow.number().0)
        .ok()
}
