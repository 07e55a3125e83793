//! Nodes from documents, in one descent: a node is tried by its rules before the nodes inside it are looked at, and
//! those before the node that follows.

ghost use Rattle.std.specs.Prelude.{◌≡◌, ◌≢◌, ◌++◌, ◌<◌, ◌^◌, ◌∷◌, [], IfErr, IfOk, None, OnOk, Some, length, map, take};
ghost use Rattle.wf_defs.specs.Nodes as nodes;
ghost use Rattle.wf_defs.specs.Nodes.{sites_at, sites_inside, sites_of, sites_of_lists};
ghost use Rattle.wf_defs.specs.FlowRules.{first_fault, references, site_fault};
ghost use Rattle.wf_defs.specs.Lists.{listed_as, place_of};
ghost use Rattle.wf_defs.specs.NodeRules as rules;
ghost use Rattle.wf_defs.specs.NodeReading as spec;
ghost use Rattle.wf_defs.specs.NodeReading.{kind_at};

use crate::condition::{condition_key, condition_number};
use crate::faults::{DefFault, tell};
use crate::lists::{NodeList, lists_inside, place_of};
use crate::node_rules::{broken_node_rule, nested, sub_name, text_of};
use crate::nodes::{cases, entries_in, is_type, item_place, previous, reference_of, type_of};
use std::alloc::Global;
use wf_doc::{Doc, Items, NoMemory, SharedEntry, Text};
use wf_fields::{as_count, items_in, number_or, table_in, text_in, truth_or};
use wf_machine::{Branch, Case, Cases, Count, Node, NodeKind};

/// The nodes of the list, so many levels down. `seen` are the references of the nodes before, and then of these too.
#[cycle(reading)]
pub(crate) fn read_list(
    alloc: Global,
    most: u32,
    levels: u32,
    list: &NodeList<'_>,
    seen: &mut Items<Text>,
) -> Result<Items<Node>, DefFault>
    ensures valid { OnOk result
        (first_fault most seen.old (sites_of (sites_inside levels) (listed_as list.now)) ≡ None) }
    ensures value { IfOk result (λ made. made
        ≡ spec.nodes_of (sites_inside levels) (kind_at levels) (length seen.old) (listed_as list.now)) }
    ensures seen { OnOk result
        (seen.new ≡ seen.old ++ references (sites_of (sites_inside levels) (listed_as list.now))) }
    ensures err { IfErr result (λ fault. fault ≢ DefFault.NoMemory
        → first_fault most seen.old (sites_of (sites_inside levels) (listed_as list.now)) ≡ Some fault) }
{
    let mut made = Items::new(alloc);
    for (n, node) in list.items.iter().enumerate() {
        made.push(read_node(alloc, most, levels, list, n, node, seen)?)?;
    }
    Ok(made)
}

/// The node that is the n-th of the list.
#[cycle(reading)]
fn read_node(
    alloc: Global,
    most: u32,
    levels: u32,
    list: &NodeList<'_>,
    n: usize,
    node: &Doc,
    seen: &mut Items<Text>,
) -> Result<Node, DefFault>
    requires { n < length list.now.items.now }
    ensures valid { OnOk result
        (first_fault most seen.old (sites_at (sites_inside levels) (listed_as list.now) n node.now) ≡ None) }
    ensures value { IfOk result (λ made. made
        ≡ spec.node_at (sites_inside levels) (kind_at levels) (listed_as list.now) n (length seen.old) node.now) }
    ensures seen { OnOk result
        (seen.new ≡ seen.old ++ references (sites_at (sites_inside levels) (listed_as list.now) n node.now)) }
    ensures err { IfErr result (λ fault. fault ≢ DefFault.NoMemory
        → first_fault most seen.old (sites_at (sites_inside levels) (listed_as list.now) n node.now) ≡ Some fault) }
{
    let place = check_node(alloc, most, list, n, node, seen)?;
    let index = note(alloc, node, seen)?;
    let kind = read_kind(alloc, most, levels, node, place.as_str(), list.looped, seen)?;
    Ok(node_of(alloc, index, kind, node)?)
}

/// The kind of the node at that place, with the nodes inside it.
#[cycle(reading)]
fn read_kind(
    alloc: Global,
    most: u32,
    levels: u32,
    node: &Doc,
    place: &str,
    looped: bool,
    seen: &mut Items<Text>,
) -> Result<NodeKind, DefFault>
    ensures valid { OnOk result
        (first_fault most seen.old (sites_inside levels looped place.now node.now) ≡ None) }
    ensures value { IfOk result (λ made. made ≡ kind_at levels (length seen.old) looped place.now node.now) }
    ensures seen { OnOk result
        (seen.new ≡ seen.old ++ references (sites_inside levels looped place.now node.now)) }
    ensures err { IfErr result (λ fault. fault ≢ DefFault.NoMemory
        → first_fault most seen.old (sites_inside levels looped place.now node.now) ≡ Some fault) }
{
    if levels == 0 {
        // No node of a definition lies so deep.
        return Ok(NodeKind::Simple);
    }
    let lists = lists_inside(alloc, node, place, looped)?;
    let made = read_lists(alloc, most, levels - 1, &lists, seen)?;
    Ok(kind_with(alloc, node, made)?)
}

/// The nodes of each list.
#[cycle(reading)]
fn read_lists(
    alloc: Global,
    most: u32,
    levels: u32,
    lists: &[NodeList<'_>],
    seen: &mut Items<Text>,
) -> Result<Vec<Items<Node>>, DefFault>
    ensures valid { OnOk result
        (first_fault most seen.old (sites_of_lists (sites_inside levels) (map listed_as lists.now)) ≡ None) }
    ensures value { IfOk result (λ made. made.items
        ≡ spec.nodes_of_lists (sites_inside levels) (kind_at levels) (length seen.old) (map listed_as lists.now)) }
    ensures seen { OnOk result
        (seen.new ≡ seen.old ++ references (sites_of_lists (sites_inside levels) (map listed_as lists.now))) }
    ensures err { IfErr result (λ fault. fault ≢ DefFault.NoMemory
        → first_fault most seen.old (sites_of_lists (sites_inside levels) (map listed_as lists.now)) ≡ Some fault) }
{
    let mut made = Vec::new(alloc);
    for list in lists {
        made.push(read_list(alloc, most, levels, list, seen)?)?;
    }
    Ok(made)
}

/// The place of the node that is the n-th of the list, where it breaks no rule.
fn check_node(
    alloc: Global,
    most: u32,
    list: &NodeList<'_>,
    n: usize,
    node: &Doc,
    seen: &Items<Text>,
) -> Result<Text, DefFault>
    requires { n < length list.now.items.now }
    ensures valid { OnOk result (site_fault most seen.now (nodes.site (listed_as list.now) n node.now) ≡ None) }
    ensures place { IfOk result (λ place. place ≡ nodes.item_place (listed_as list.now).place n) }
    ensures room { OnOk result (length seen.now < most) }
    ensures err { IfErr result (λ fault. fault ≢ DefFault.NoMemory
        → site_fault most seen.now (nodes.site (listed_as list.now) n node.now) ≡ Some fault) }
{
    let list_place = place_of(alloc, list.base, &list.part)?;
    let place = item_place(alloc, list_place.as_str(), n)?;
    let before = previous(list.items, n);
    let after = list.items.get(n + 1);
    let broken = broken_node_rule(most, seen, node, before, after, list.looped);
    tell(alloc, place.as_str(), broken)?;
    Ok(place)
}

/// Notes the reference of a node that breaks no rule. Answers its index.
fn note(alloc: Global, node: &Doc, seen: &mut Items<Text>) -> Result<u32, NoMemory>
    requires { length seen.old < 2 ^ 32 }
    ensures index { IfOk result (λ index. index ≡ length seen.old) }
    ensures seen { OnOk result (seen.new ≡ seen.old ++ nodes.reference_of node.now ∷ []) }
{
    let index = seen.len() as u32;
    seen.push(Text::new(alloc, reference_of(node))?)?;
    Ok(index)
}

fn node_of(alloc: Global, index: u32, kind: NodeKind, node: &Doc) -> Result<Node, NoMemory>
    ensures { IfOk result (λ made. made ≡ spec.node_of index kind node.now) }
{
    Ok(Node {
        index,
        name: Text::new(alloc, text_in(node, "name"))?,
        reference: Text::new(alloc, reference_of(node))?,
        optional: truth_or(node, "optional", false),
        start_delay: number_or(node, "startDelay", 0),
        input: table_in(alloc, node, "inputParameters")?,
        kind,
    })
}

// ---- kinds

/// The kind of a node, from the nodes of the lists inside it.
fn kind_with(alloc: Global, node: &Doc, lists: Vec<Items<Node>>) -> Result<NodeKind, NoMemory>
    ensures { IfOk result (λ made. made ≡ spec.kind_with node.now lists.items) }
{
    if is_type(node, "SWITCH") {
        Ok(NodeKind::Switch(choice_of(alloc, node, lists)?))
    } else if is_type(node, "FORK_JOIN") {
        Ok(NodeKind::Fork(branches_of(alloc, lists)?))
    } else if is_type(node, "JOIN") {
        Ok(NodeKind::Join(joined(alloc, node)?))
    } else if is_type(node, "DO_WHILE") {
        let count = count_of(alloc, node)?;
        Ok(NodeKind::Loop(count, last_of(alloc, lists)))
    } else if is_type(node, "SUB_WORKFLOW") {
        let name = Text::new(alloc, sub_name(node))?;
        Ok(NodeKind::SubFlow(name, sub_version(node)))
    } else {
        Ok(plain_kind(type_of(node)))
    }
}

/// A kind that says no more than the type.
fn plain_kind(type_text: &str) -> NodeKind
    ensures { result ≡ spec.plain_kind type_text.now }
{
    if type_text == "SET_VARIABLE" {
        NodeKind::SetVariable
    } else if type_text == "WAIT" {
        NodeKind::Wait
    } else if type_text == "HUMAN" {
        NodeKind::Human
    } else if type_text == "TERMINATE" {
        NodeKind::Terminate
    } else {
        NodeKind::Simple
    }
}

fn choice_of(alloc: Global, node: &Doc, lists: Vec<Items<Node>>) -> Result<Cases, NoMemory>
    ensures { IfOk result (λ made. made ≡ spec.choice_with node.now lists.items) }
{
    let param = Text::new(alloc, text_in(node, "expression"))?;
    let mut lists = lists;
    let otherwise = take_last(alloc, &mut lists);
    let cases = cases_of(alloc, cases(node), lists)?;
    Ok(Cases {
        param,
        cases,
        otherwise,
    })
}

/// Takes the last list away, an empty one where there is none.
fn take_last(alloc: Global, lists: &mut Vec<Items<Node>>) -> Items<Node>
    ensures last { result ≡ spec.last_of lists.old.items }
    ensures rest { lists.new.items ≡ spec.all_but_last lists.old.items }
{
    match lists.pop() {
        Some(nodes) => nodes,
        None => Items::new(alloc),
    }
}

fn last_of(alloc: Global, lists: Vec<Items<Node>>) -> Items<Node>
    ensures { result ≡ spec.last_of lists.items }
{
    let mut lists = lists;
    take_last(alloc, &mut lists)
}

/// The cases by their keys.
fn cases_of(
    alloc: Global,
    entries: &[SharedEntry<Doc>],
    lists: Vec<Items<Node>>,
) -> Result<Items<Case>, NoMemory>
    ensures { IfOk result (λ made. made ≡ spec.cases_of entries.now lists.items) }
{
    let mut made = Items::new(alloc);
    let mut n = 0;
    for nodes in lists {
        if let Some(entry) = entries.get(n) {
            let key = entry.key().copy(alloc)?;
            made.push(Case { key, nodes })?;
            n += 1;
        }
    }
    Ok(made)
}

fn branches_of(alloc: Global, lists: Vec<Items<Node>>) -> Result<Items<Branch>, NoMemory>
    ensures { IfOk result (λ made. made ≡ map spec.branch_of lists.items) }
{
    let mut made = Items::new(alloc);
    for nodes in lists {
        made.push(Branch { nodes })?;
    }
    Ok(made)
}

/// The references that a JOIN names.
fn joined(alloc: Global, node: &Doc) -> Result<Items<Text>, NoMemory>
    ensures { IfOk result (λ made. made ≡ rules.joined node.now) }
{
    let mut made = Items::new(alloc);
    for value in items_in(node, "joinOn") {
        made.push(Text::new(alloc, text_of(value))?)?;
    }
    Ok(made)
}

/// How often a DO_WHILE runs its body.
fn count_of(alloc: Global, node: &Doc) -> Result<Count, NoMemory>
    ensures { IfOk result (λ made. made ≡ spec.count_of node.now) }
{
    let reference = reference_of(node);
    let condition = text_in(node, "loopCondition");
    if let Some(times) = condition_number(reference, condition) {
        return Ok(Count::Number(times));
    }
    let entries = entries_in(node, "inputParameters");
    let key = condition_key(reference, entries, condition).unwrap_or("");
    Ok(Count::Param(Text::new(alloc, key)?))
}

fn sub_version(node: &Doc) -> Option<u32>
    ensures { result ≡ spec.sub_version node.now }
{
    as_count(nested(node, "subWorkflowParam", "version")?)
}
