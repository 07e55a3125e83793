//! Lists of nodes as the reader holds them: their places are written only where they are asked for.

ghost use Rattle.std.specs.Prelude.{◌≡◌, ◌∷◌, [], IfOk, codes, map};
ghost use Rattle.wf_defs.specs.Nodes as nodes;
ghost use Rattle.wf_defs.specs.Lists as spec;

use crate::nodes::{body, branches, cases, field_place, is_type, item_place};
use std::alloc::Global;
use wf_doc::{Doc, NoMemory, SharedEntry, Text};
use wf_fields::{items_in, items_of};

/// Which part of what stands at a place is the list.
#[derive(Clone, Copy)]
pub(crate) enum Part<'a> {
    Whole,
    Case(&'a str),
    Default,
    Branch(usize),
    Body,
}

/// A list of nodes, and whether it stands inside a DO_WHILE.
#[derive(Clone, Copy)]
pub(crate) struct NodeList<'a> {
    pub(crate) items: &'a [Doc],
    pub(crate) base: &'a str,
    pub(crate) part: Part<'a>,
    pub(crate) looped: bool,
}

/// The place of the part.
pub(crate) fn place_of(alloc: Global, base: &str, part: &Part<'_>) -> Result<Text, NoMemory>
    ensures { IfOk result (λ place. place ≡ spec.place_of base.now part.now) }
{
    match part {
        Part::Whole => Text::new(alloc, base),
        Part::Case(key) => {
            let table = field_place(alloc, base, "decisionCases")?;
            field_place(alloc, table.as_str(), key)
        }
        Part::Default => field_place(alloc, base, "defaultCase"),
        Part::Branch(n) => {
            let list = field_place(alloc, base, "forkTasks")?;
            item_place(alloc, list.as_str(), *n)
        }
        Part::Body => field_place(alloc, base, "loopOver"),
    }
}

/// The list of a case of the table of the node at that place.
fn case_list<'a>(entry: &'a SharedEntry<Doc>, base: &'a str, looped: bool) -> NodeList<'a>
    ensures { spec.listed_as result
        ≡ nodes.case_list looped (nodes.field_place base.now (codes "decisionCases")) entry.now }
{
    NodeList {
        items: items_of(entry.value()),
        base,
        part: Part::Case(entry.key().as_str()),
        looped,
    }
}

fn switch_lists<'a>(
    alloc: Global,
    node: &'a Doc,
    place: &'a str,
    looped: bool,
) -> Result<Vec<NodeList<'a>>, NoMemory>
    ensures { IfOk result (λ made. map spec.listed_as made.items
        ≡ nodes.switch_lists looped place.now node.now) }
{
    let mut made = Vec::new(alloc);
    for entry in cases(node) {
        made.push(case_list(entry, place, looped))?;
    }
    made.push(NodeList {
        items: items_in(node, "defaultCase"),
        base: place,
        part: Part::Default,
        looped,
    })?;
    Ok(made)
}

fn fork_lists<'a>(
    alloc: Global,
    node: &'a Doc,
    place: &'a str,
    looped: bool,
) -> Result<Vec<NodeList<'a>>, NoMemory>
    ensures { IfOk result (λ made. map spec.listed_as made.items
        ≡ nodes.fork_lists looped place.now node.now) }
{
    let mut made = Vec::new(alloc);
    for (n, branch) in branches(node).iter().enumerate() {
        made.push(NodeList {
            items: items_of(branch),
            base: place,
            part: Part::Branch(n),
            looped,
        })?;
    }
    Ok(made)
}

fn body_lists<'a>(
    alloc: Global,
    node: &'a Doc,
    place: &'a str,
) -> Result<Vec<NodeList<'a>>, NoMemory>
    ensures { IfOk result (λ made. map spec.listed_as made.items
        ≡ nodes.body_list place.now node.now ∷ []) }
{
    let mut made = Vec::new(alloc);
    made.push(NodeList {
        items: body(node),
        base: place,
        part: Part::Body,
        looped: true,
    })?;
    Ok(made)
}

/// The lists inside the node at that place, in their order.
pub(crate) fn lists_inside<'a>(
    alloc: Global,
    node: &'a Doc,
    place: &'a str,
    looped: bool,
) -> Result<Vec<NodeList<'a>>, NoMemory>
    ensures { IfOk result (λ made. map spec.listed_as made.items
        ≡ nodes.lists_inside looped place.now node.now) }
{
    if is_type(node, "SWITCH") {
        switch_lists(alloc, node, place, looped)
    } else if is_type(node, "FORK_JOIN") {
        fork_lists(alloc, node, place, looped)
    } else if is_type(node, "DO_WHILE") {
        body_lists(alloc, node, place)
    } else {
        Ok(Vec::new(alloc))
    }
}
