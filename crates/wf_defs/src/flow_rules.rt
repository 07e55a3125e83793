//! The rules of a workflow definition's own table.

ghost use Rattle.std.specs.Prelude.{◌≡◌, option_map};
ghost use Rattle.wf_defs.specs.FlowRules as spec;

use crate::faults::{Broken, first_broken};
use crate::node_rules::first_used;
use crate::task_rules::{name_rule, table_rule};
use wf_doc::Doc;
use wf_fields::{Form, first_misformed, first_misnumbered, is_absent_or_one_of, items_in, unless};

const MOST: u64 = 2_147_483_647;

fn flow_number_rule(doc: &Doc) -> Option<&'static str>
    ensures { option_map (λ place. place.now) result ≡ spec.flow_number_rule doc.now }
{
    first_misnumbered(
        doc,
        &[
            ("version", 1, MOST),
            ("schemaVersion", 2, 2),
            ("timeoutSeconds", 0, MOST),
        ],
    )
}

fn flow_choice_rule(doc: &Doc) -> Option<&'static str>
    ensures { option_map (λ place. place.now) result ≡ spec.flow_choice_rule doc.now }
{
    let words = ["TIME_OUT_WF", "ALERT_ONLY"];
    unless(
        is_absent_or_one_of(doc, "timeoutPolicy", &words),
        "timeoutPolicy",
    )
}

fn flow_form_rule(doc: &Doc) -> Option<&'static str>
    ensures { option_map (λ place. place.now) result ≡ spec.flow_form_rule doc.now }
{
    first_misformed(
        doc,
        &[
            ("restartable", Form::Truth),
            ("inputTemplate", Form::ATable),
            ("outputParameters", Form::ATable),
            ("inputParameters", Form::AList),
            ("tasks", Form::AList),
        ],
    )
}

fn tasks_rule(doc: &Doc) -> Option<&'static str>
    ensures { option_map (λ place. place.now) result ≡ spec.tasks_rule doc.now }
{
    unless(!items_in(doc, "tasks").is_empty(), "tasks")
}

fn flow_left_out_rule(doc: &Doc) -> Option<&'static str>
    ensures { option_map (λ place. place.now) result ≡ spec.flow_left_out_rule doc.now }
{
    first_used(
        doc,
        &[
            "failureWorkflow",
            "variables",
            "inputSchema",
            "outputSchema",
            "rateLimitConfig",
        ],
    )
}

/// The first broken rule of the definition's table.
#[tactic(auto, unfolding(crate::specs::FlowRules::broken_flow_rule))]
pub(crate) fn broken_flow_rule(doc: &Doc) -> Option<Broken>
    ensures { option_map (λ b. (b.rule, b.place.now)) result ≡ spec.broken_flow_rule doc.now }
{
    first_broken(&[
        (1, table_rule(doc)),
        (2, name_rule(doc)),
        (3, flow_number_rule(doc)),
        (4, flow_choice_rule(doc)),
        (5, flow_form_rule(doc)),
        (6, tasks_rule(doc)),
        (14, flow_left_out_rule(doc)),
    ])
}
