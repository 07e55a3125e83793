//! The rules of a node. Each gives the first place inside the node that breaks it, or empty for the node itself. A
//! rule that speaks of one type holds of all others.

ghost use Rattle.std.specs.Prelude.{◌≡◌, ◌≤◌, length, map, option_map};
ghost use Rattle.std.specs.List.{count_by, list_all};
ghost use Rattle.std.specs.Option.{option_copied};
ghost use Rattle.wf_machine.specs.Text.{same_text};
ghost use Rattle.wf_defs.specs.Faults.{first_broken};
ghost use Rattle.wf_defs.specs.NodeRules as spec;
ghost use Rattle.wf_fields.specs.Fields as fields;

use crate::condition::is_condition;
use crate::faults::{Broken, first_broken};
use crate::names::{is_name, is_reference};
use crate::nodes::{body, branches, entries_in, is_type, reference_of, type_of};
use crate::task_rules::{name_rule, table_rule};
use wf_doc::{Doc, Items, Text};
use wf_fields::{
    Form, first_misformed, first_misnumbered, given, is_among, is_number, items_in, items_of,
    text_in, unless,
};

const MOST: u64 = 2_147_483_647;

/// The rule, of nodes of this type alone.
fn of_type(name: &str, node: &Doc, rule: Option<&'static str>) -> Option<&'static str>
    ensures { option_map (λ place. place.now) result
        ≡ spec.of_type name.now node.now (option_map (λ place. place.now) rule.entry) }
{
    if is_type(node, name) { rule } else { None }
}

// ---- fields of any node

fn node_number_rule(node: &Doc) -> Option<&'static str>
    ensures { option_map (λ place. place.now) result ≡ spec.node_number_rule node.now }
{
    first_misnumbered(node, &[("startDelay", 0, MOST)])
}

fn type_form_rule(node: &Doc) -> Option<&'static str>
    ensures { option_map (λ place. place.now) result ≡ spec.type_form_rule node.now }
{
    if is_type(node, "SWITCH") {
        switch_form_rule(node)
    } else if is_type(node, "FORK_JOIN") {
        first_misformed(node, &[("forkTasks", Form::Lists)])
    } else if is_type(node, "JOIN") {
        first_misformed(node, &[("joinOn", Form::Texts)])
    } else if is_type(node, "DO_WHILE") {
        loop_form_rule(node)
    } else if is_type(node, "SUB_WORKFLOW") {
        first_misformed(node, &[("subWorkflowParam", Form::ATable)])
    } else {
        None
    }
}

fn switch_form_rule(node: &Doc) -> Option<&'static str>
    ensures { option_map (λ place. place.now) result
        ≡ fields.first_misformed node.now spec.switch_forms }
{
    first_misformed(
        node,
        &[
            ("expression", Form::AText),
            ("decisionCases", Form::Cases),
            ("defaultCase", Form::AList),
        ],
    )
}

fn loop_form_rule(node: &Doc) -> Option<&'static str>
    ensures { option_map (λ place. place.now) result
        ≡ fields.first_misformed node.now spec.loop_forms }
{
    first_misformed(
        node,
        &[("loopCondition", Form::AText), ("loopOver", Form::AList)],
    )
}

fn node_form_rule(node: &Doc) -> Option<&'static str>
    ensures { option_map (λ place. place.now) result ≡ spec.node_form_rule node.now }
{
    let any = first_misformed(
        node,
        &[("inputParameters", Form::ATable), ("optional", Form::Truth)],
    );
    any.or(type_form_rule(node))
}

fn is_earlier(reference: &str, earlier: &[Text]) -> bool
    ensures { result ≡ fields.is_among reference.now earlier.now }
{
    for other in earlier {
        if reference == other.as_str() {
            return true;
        }
    }
    false
}

fn reference_rule(earlier: &Items<Text>, node: &Doc) -> Option<&'static str>
    ensures { option_map (λ place. place.now) result ≡ spec.reference_rule earlier.now node.now }
{
    let reference = reference_of(node);
    let holds = is_reference(reference) && !is_earlier(reference, earlier.as_slice());
    unless(holds, "taskReferenceName")
}

fn type_rule(node: &Doc) -> Option<&'static str>
    ensures { option_map (λ place. place.now) result ≡ spec.type_rule node.now }
{
    let types = [
        "SIMPLE",
        "SWITCH",
        "FORK_JOIN",
        "JOIN",
        "DO_WHILE",
        "SUB_WORKFLOW",
        "SET_VARIABLE",
        "WAIT",
        "HUMAN",
        "TERMINATE",
    ];
    unless(is_among(type_of(node), &types), "type")
}

// ---- SWITCH

/// The text is a key of the node's `inputParameters`.
fn has_parameter(node: &Doc, value: &Doc) -> bool
    ensures { result ≡ spec.has_parameter node.now value.now }
{
    match value.as_text() {
        Some(key) => parameter(node, key.as_str()).is_some(),
        None => false,
    }
}

fn parameter<'a>(node: &'a Doc, key: &str) -> Option<&'a Doc>
    ensures { option_copied result ≡ spec.parameter key.now node.now }
{
    given(node, "inputParameters")?.field(key)
}

fn evaluator_rule(node: &Doc) -> Option<&'static str>
    ensures { option_map (λ place. place.now) result ≡ spec.evaluator_rule node.now }
{
    unless(
        text_in(node, "evaluatorType") == "value-param",
        "evaluatorType",
    )
}

fn expression_rule(node: &Doc) -> Option<&'static str>
    ensures { option_map (λ place. place.now) result ≡ spec.expression_rule node.now }
{
    match given(node, "expression") {
        Some(value) => unless(has_parameter(node, value), "expression"),
        None => Some("expression"),
    }
}

fn switch_rule(node: &Doc) -> Option<&'static str>
    ensures { option_map (λ place. place.now) result ≡ spec.switch_rule node.now }
{
    of_type(
        "SWITCH",
        node,
        evaluator_rule(node).or(expression_rule(node)),
    )
}

// ---- FORK_JOIN and JOIN

fn has_items(list: &Doc) -> bool
    ensures { result ≡ spec.has_items list.now }
{
    !items_of(list).is_empty()
}

fn have_items(lists: &[Doc]) -> bool
    ensures { result ≡ list_all spec.has_items lists.now }
{
    lists.iter().all(has_items)
}

/// There is a branch, and none is empty.
fn has_branches(node: &Doc) -> bool
    ensures { result ≡ spec.has_branches node.now }
{
    !branches(node).is_empty() && have_items(branches(node))
}

fn is_node_of(name: &str, node: Option<&Doc>) -> bool
    ensures { result ≡ spec.is_node_of name.now (option_copied node.entry) }
{
    match node {
        Some(node) => is_type(node, name),
        None => false,
    }
}

fn fork_rule(node: &Doc, after: Option<&Doc>) -> Option<&'static str>
    ensures { option_map (λ place. place.now) result
        ≡ spec.fork_rule node.now (option_copied after.entry) }
{
    let lists = unless(has_branches(node), "forkTasks");
    let next = unless(is_node_of("JOIN", after), "");
    of_type("FORK_JOIN", node, lists.or(next))
}

fn join_rule(node: &Doc, before: Option<&Doc>) -> Option<&'static str>
    ensures { option_map (λ place. place.now) result
        ≡ spec.join_rule node.now (option_copied before.entry) }
{
    of_type("JOIN", node, unless(is_node_of("FORK_JOIN", before), ""))
}

fn pair_rule(node: &Doc, before: Option<&Doc>, after: Option<&Doc>) -> Option<&'static str>
    ensures { option_map (λ place. place.now) result
        ≡ spec.pair_rule node.now (option_copied before.entry) (option_copied after.entry) }
{
    fork_rule(node, after).or(join_rule(node, before))
}

/// The reference of the last node of a branch.
fn last_reference(branch: &Doc) -> &str
    ensures { result.now ≡ spec.last_reference branch.now }
{
    match items_of(branch).last() {
        Some(node) => reference_of(node),
        None => "",
    }
}

/// The branches of a FORK_JOIN, none of another node.
fn fork_branches(node: &Doc) -> &[Doc]
    ensures { result.now ≡ spec.fork_branches node.now }
{
    if is_type(node, "FORK_JOIN") {
        branches(node)
    } else {
        &[]
    }
}

fn branches_before(before: Option<&Doc>) -> &[Doc]
    ensures { result.now ≡ spec.branches_before (option_copied before.entry) }
{
    match before {
        Some(node) => fork_branches(node),
        None => &[],
    }
}

pub(crate) fn text_of(value: &Doc) -> &str
    ensures { result.now ≡ spec.text_of value.now }
{
    match value.as_text() {
        Some(text) => text.as_str(),
        None => "",
    }
}

/// How many of the values are this text.
fn count_of(text: &str, values: &[Doc]) -> usize
    ensures value { result ≡ count_by (same_text text.now) (map spec.text_of values.now) }
    ensures within { result ≤ length values.now }
{
    let mut count = 0;
    for value in values {
        if text == text_of(value) {
            count += 1;
        }
    }
    count
}

fn is_once(text: &str, values: &[Doc]) -> bool
    ensures { result ≡ spec.is_once (map spec.text_of values.now) text.now }
{
    count_of(text, values) == 1
}

fn are_once(branches: &[Doc], values: &[Doc]) -> bool
    ensures { result ≡ list_all (spec.is_once (map spec.text_of values.now))
        (map spec.last_reference branches.now) }
{
    for branch in branches {
        if !is_once(last_reference(branch), values) {
            return false;
        }
    }
    true
}

fn is_last(word: &str, branches: &[Doc]) -> bool
    ensures { result ≡ fields.is_among word.now (map spec.last_reference branches.now) }
{
    for branch in branches {
        if word == last_reference(branch) {
            return true;
        }
    }
    false
}

fn are_last(values: &[Doc], branches: &[Doc]) -> bool
    ensures { result ≡ list_all (λ w. fields.is_among w (map spec.last_reference branches.now))
        (map spec.text_of values.now) }
{
    for value in values {
        if !is_last(text_of(value), branches) {
            return false;
        }
    }
    true
}

/// Nothing is joined by name, or the ends of all branches are, each once.
fn joins_all(node: &Doc, before: Option<&Doc>) -> bool
    ensures { result ≡ spec.joins_all node.now (option_copied before.entry) }
{
    let values = items_in(node, "joinOn");
    let branches = branches_before(before);
    values.is_empty() || (are_once(branches, values) && are_last(values, branches))
}

fn joined_rule(node: &Doc, before: Option<&Doc>) -> Option<&'static str>
    ensures { option_map (λ place. place.now) result
        ≡ spec.joined_rule node.now (option_copied before.entry) }
{
    if is_type(node, "JOIN") {
        unless(joins_all(node, before), "joinOn")
    } else {
        None
    }
}

// ---- DO_WHILE

fn condition_rule(node: &Doc) -> Option<&'static str>
    ensures { option_map (λ place. place.now) result ≡ spec.condition_rule node.now }
{
    let entries = entries_in(node, "inputParameters");
    let condition = text_in(node, "loopCondition");
    unless(
        is_condition(reference_of(node), entries, condition),
        "loopCondition",
    )
}

fn body_rule(node: &Doc) -> Option<&'static str>
    ensures { option_map (λ place. place.now) result ≡ spec.body_rule node.now }
{
    unless(!body(node).is_empty(), "loopOver")
}

/// Its condition, its body, and that it stands in no other DO_WHILE.
fn loop_rule(node: &Doc, looped: bool) -> Option<&'static str>
    ensures { option_map (λ place. place.now) result ≡ spec.loop_rule node.now looped }
{
    if !is_type(node, "DO_WHILE") {
        return None;
    }
    let fields = condition_rule(node).or(body_rule(node));
    fields.or(unless(!looped, ""))
}

// ---- SUB_WORKFLOW

/// The value of a field of the table that stands in a field.
pub(crate) fn nested<'a>(doc: &'a Doc, outer: &str, key: &str) -> Option<&'a Doc>
    ensures { option_copied result ≡ spec.nested outer.now key.now doc.now }
{
    given(given(doc, outer)?, key)
}

pub(crate) fn sub_name(node: &Doc) -> &str
    ensures { result.now ≡ spec.sub_name node.now }
{
    match nested(node, "subWorkflowParam", "name") {
        Some(value) => text_of(value),
        None => "",
    }
}

fn sub_name_rule(node: &Doc) -> Option<&'static str>
    ensures { option_map (λ place. place.now) result ≡ spec.sub_name_rule node.now }
{
    unless(is_name(sub_name(node)), "subWorkflowParam.name")
}

fn sub_version_rule(node: &Doc) -> Option<&'static str>
    ensures { option_map (λ place. place.now) result ≡ spec.sub_version_rule node.now }
{
    match nested(node, "subWorkflowParam", "version") {
        Some(value) => unless(is_number(value, 1, MOST), "subWorkflowParam.version"),
        None => None,
    }
}

fn sub_flow_rule(node: &Doc) -> Option<&'static str>
    ensures { option_map (λ place. place.now) result ≡ spec.sub_flow_rule node.now }
{
    of_type(
        "SUB_WORKFLOW",
        node,
        sub_name_rule(node).or(sub_version_rule(node)),
    )
}

// ---- left-out features

/// Null, false, 0, an empty text, list or table.
fn is_empty_value(value: &Doc) -> bool
    ensures { result ≡ spec.is_empty_value value.now }
{
    match value {
        Doc::Null => true,
        Doc::Bool(truth) => !*truth,
        Doc::Int(number) => *number == 0,
        Doc::Text(text) => text.as_str().is_empty(),
        Doc::List(items) => items.as_slice().is_empty(),
        Doc::Table(fields) => fields.entries().is_empty(),
    }
}

fn says_nothing(value: Option<&Doc>) -> bool
    ensures { result ≡ spec.says_nothing (option_copied value.entry) }
{
    match value {
        Some(value) => is_empty_value(value),
        None => true,
    }
}

/// The first of these fields that says something.
pub(crate) fn first_used(doc: &Doc, names: &[&'static str]) -> Option<&'static str>
    ensures { option_map (λ place. place.now) result
        ≡ spec.first_used doc.now (map (λ name. name.now) names.now) }
{
    for name in names {
        if !says_nothing(given(doc, name)) {
            return Some(*name);
        }
    }
    None
}

fn used_by_node(node: &Doc) -> Option<&'static str>
    ensures { option_map (λ place. place.now) result
        ≡ spec.first_used node.now spec.left_out_of_nodes }
{
    first_used(
        node,
        &[
            "dynamicTaskNameParam",
            "dynamicForkTasksParam",
            "dynamicForkTasksInputParamName",
            "dynamicForkJoinTasksParam",
            "sink",
            "asyncComplete",
            "scriptExpression",
            "caseExpression",
            "caseValueParam",
            "cacheConfig",
            "onStateChange",
            "retryCount",
        ],
    )
}

fn is_unused(node: &Doc, outer: &str, key: &str) -> bool
    ensures { result ≡ spec.is_unused outer.now key.now node.now }
{
    says_nothing(nested(node, outer, key))
}

fn until_rule(node: &Doc) -> Option<&'static str>
    ensures { option_map (λ place. place.now) result ≡ spec.until_rule node.now }
{
    let unused = is_unused(node, "inputParameters", "until");
    of_type("WAIT", node, unless(unused, "inputParameters.until"))
}

fn domain_rule(node: &Doc) -> Option<&'static str>
    ensures { option_map (λ place. place.now) result ≡ spec.domain_rule node.now }
{
    unless(
        is_unused(node, "subWorkflowParam", "taskToDomain"),
        "subWorkflowParam.taskToDomain",
    )
}

fn inline_rule(node: &Doc) -> Option<&'static str>
    ensures { option_map (λ place. place.now) result ≡ spec.inline_rule node.now }
{
    unless(
        is_unused(node, "subWorkflowParam", "workflowDefinition"),
        "subWorkflowParam.workflowDefinition",
    )
}

fn idempotency_rule(node: &Doc) -> Option<&'static str>
    ensures { option_map (λ place. place.now) result ≡ spec.idempotency_rule node.now }
{
    unless(
        is_unused(node, "subWorkflowParam", "idempotencyKey"),
        "subWorkflowParam.idempotencyKey",
    )
}

fn sub_left_out_rule(node: &Doc) -> Option<&'static str>
    ensures { option_map (λ place. place.now) result ≡ spec.sub_left_out_rule node.now }
{
    let first = domain_rule(node).or(inline_rule(node));
    of_type("SUB_WORKFLOW", node, first.or(idempotency_rule(node)))
}

/// No key of a left-out feature says something.
fn left_out_rule(node: &Doc) -> Option<&'static str>
    ensures { option_map (λ place. place.now) result ≡ spec.left_out_rule node.now }
{
    used_by_node(node)
        .or(until_rule(node))
        .or(sub_left_out_rule(node))
}

// ---- all rules

/// There is room for the node behind the earlier ones.
fn room_rule(most: u32, earlier: &Items<Text>) -> Option<&'static str>
    ensures { option_map (λ place. place.now) result ≡ spec.room_rule most earlier.now }
{
    unless(earlier.len() < most as usize, "")
}

/// The first broken of the rules of the fields that any node has.
fn broken_field_rule(earlier: &Items<Text>, node: &Doc) -> Option<Broken>
    ensures { option_map (λ b. (b.rule, b.place.now)) result
        ≡ first_broken (spec.field_rules earlier.now node.now) }
{
    first_broken(&[
        (1, table_rule(node)),
        (2, name_rule(node)),
        (3, node_number_rule(node)),
        (5, node_form_rule(node)),
        (7, reference_rule(earlier, node)),
        (8, type_rule(node)),
    ])
}

/// The first broken of the other rules.
fn broken_type_rule(
    most: u32,
    earlier: &Items<Text>,
    node: &Doc,
    before: Option<&Doc>,
    after: Option<&Doc>,
    looped: bool,
) -> Option<Broken>
    ensures { option_map (λ b. (b.rule, b.place.now)) result
        ≡ first_broken (spec.type_rules most earlier.now node.now (option_copied before.entry) (option_copied after.entry) looped) }
{
    first_broken(&[
        (9, switch_rule(node)),
        (10, pair_rule(node, before, after)),
        (11, joined_rule(node, before)),
        (12, loop_rule(node, looped)),
        (13, sub_flow_rule(node)),
        (14, left_out_rule(node)),
        (15, room_rule(most, earlier)),
    ])
}

/// The first broken rule of a node, of which there may be `most`. `earlier` are the references of the nodes before
/// it, `before` and `after` its neighbours in its list. What its type asks is tried only where its fields are right:
/// the work for a field without its form would have no bound.
#[tactic(auto, unfolding(crate::specs::NodeRules::broken_node_rule))]
pub(crate) fn broken_node_rule(
    most: u32,
    earlier: &Items<Text>,
    node: &Doc,
    before: Option<&Doc>,
    after: Option<&Doc>,
    looped: bool,
) -> Option<Broken>
    ensures { option_map (λ b. (b.rule, b.place.now)) result
        ≡ spec.broken_node_rule most earlier.now node.now (option_copied before.entry) (option_copied after.entry) looped }
{
    match broken_field_rule(earlier, node) {
        Some(broken) => Some(broken),
        None => broken_type_rule(most, earlier, node, before, after, looped),
    }
}
