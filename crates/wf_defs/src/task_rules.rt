//! The rules of task definitions. Each gives the first place that breaks it.

ghost use Rattle.std.specs.Prelude.{◌≡◌, option_map};
ghost use Rattle.wf_defs.specs.TaskRules as spec;

use crate::faults::{Broken, first_broken};
use crate::names::is_name;
use wf_doc::Doc;
use wf_fields::{
    Form, first_misformed, first_misnumbered, is_absent_or_number, is_absent_or_one_of, text_in,
    unless,
};

const MOST: u64 = 2_147_483_647;

pub(crate) fn table_rule(doc: &Doc) -> Option<&'static str>
    ensures { option_map (λ place. place.now) result ≡ spec.table_rule doc.now }
{
    unless(doc.as_table().is_some(), "")
}

pub(crate) fn name_rule(doc: &Doc) -> Option<&'static str>
    ensures { option_map (λ place. place.now) result ≡ spec.name_rule doc.now }
{
    unless(is_name(text_in(doc, "name")), "name")
}

fn task_number_rule(doc: &Doc) -> Option<&'static str>
    ensures { option_map (λ place. place.now) result ≡ spec.task_number_rule doc.now }
{
    first_misnumbered(
        doc,
        &[
            ("retryCount", 0, MOST),
            ("retryDelaySeconds", 0, MOST),
            ("backoffScaleFactor", 0, MOST),
            ("timeoutSeconds", 0, MOST),
            ("responseTimeoutSeconds", 0, MOST),
            ("pollTimeoutSeconds", 0, MOST),
            ("concurrentExecLimit", 0, MOST),
            // Its upper bound has a rule of its own.
            ("rateLimitPerFrequency", 0, 9_223_372_036_854_775_807),
            ("rateLimitFrequencyInSeconds", 0, MOST),
        ],
    )
}

fn task_choice_rule(doc: &Doc) -> Option<&'static str>
    ensures { option_map (λ place. place.now) result ≡ spec.task_choice_rule doc.now }
{
    retry_logic_rule(doc).or(task_policy_rule(doc))
}

fn retry_logic_rule(doc: &Doc) -> Option<&'static str>
    ensures { option_map (λ place. place.now) result ≡ spec.retry_logic_rule doc.now }
{
    let words = ["FIXED", "LINEAR_BACKOFF", "EXPONENTIAL_BACKOFF"];
    unless(is_absent_or_one_of(doc, "retryLogic", &words), "retryLogic")
}

fn task_policy_rule(doc: &Doc) -> Option<&'static str>
    ensures { option_map (λ place. place.now) result ≡ spec.task_policy_rule doc.now }
{
    let words = ["RETRY", "TIME_OUT_WF", "ALERT_ONLY"];
    unless(
        is_absent_or_one_of(doc, "timeoutPolicy", &words),
        "timeoutPolicy",
    )
}

fn task_form_rule(doc: &Doc) -> Option<&'static str>
    ensures { option_map (λ place. place.now) result ≡ spec.task_form_rule doc.now }
{
    first_misformed(doc, &[("inputTemplate", Form::ATable)])
}

fn rate_rule(doc: &Doc) -> Option<&'static str>
    ensures { option_map (λ place. place.now) result ≡ spec.rate_rule doc.now }
{
    unless(
        is_absent_or_number(doc, "rateLimitPerFrequency", 0, 1000),
        "rateLimitPerFrequency",
    )
}

/// The first broken rule of a task definition.
pub(crate) fn broken_task_rule(doc: &Doc) -> Option<Broken>
    ensures { option_map (λ b. (b.rule, b.place.now)) result ≡ spec.broken_task_rule doc.now }
{
    first_broken(&[
        (1, table_rule(doc)),
        (2, name_rule(doc)),
        (3, task_number_rule(doc)),
        (4, task_choice_rule(doc)),
        (5, task_form_rule(doc)),
        (6, rate_rule(doc)),
    ])
}
