//! Task definitions from documents.

ghost use Rattle.std.specs.Prelude.{◌≡◌, ◌≢◌, IfErr, IfOk, OnOk, None, Some};
ghost use Rattle.wf_defs.specs.TaskRules.{task_rule};
ghost use Rattle.wf_defs.specs.TaskReading as spec;

use crate::faults::{DefFault, tell};
use crate::task_rules::broken_task_rule;
use std::alloc::Global;
use wf_doc::{Doc, NoMemory, Text};
use wf_fields::{number_or, table_in, text_in};
use wf_machine::{RetryLogic, TaskDef, TaskPolicy, Timing};

/// The task definition that the document is, or the first rule that it breaks.
pub fn read_taskdef(alloc: Global, doc: Doc) -> Result<TaskDef, DefFault>
    ensures valid { OnOk result (task_rule doc ≡ None) }
    ensures value { IfOk result (λ def. def ≡ spec.task_definition doc) }
    ensures err { IfErr result (λ fault. fault ≢ DefFault.NoMemory → task_rule doc ≡ Some fault) }
{
    tell(alloc, "", broken_task_rule(&doc))?;
    Ok(task_definition(alloc, doc)?)
}

fn task_definition(alloc: Global, doc: Doc) -> Result<TaskDef, NoMemory>
    ensures { IfOk result (λ def. def ≡ spec.task_definition doc) }
{
    let name = Text::new(alloc, text_in(&doc, "name"))?;
    let template = table_in(alloc, &doc, "inputTemplate")?;
    Ok(TaskDef {
        name,
        timing: task_timing(&doc),
        concurrent: number_or(&doc, "concurrentExecLimit", 0),
        rate: number_or(&doc, "rateLimitPerFrequency", 0),
        per: number_or(&doc, "rateLimitFrequencyInSeconds", 1).max(1),
        template,
        document: doc,
    })
}

fn task_timing(doc: &Doc) -> Timing
    ensures { result ≡ spec.task_timing doc.now }
{
    Timing {
        retry_count: number_or(doc, "retryCount", 3),
        logic: retry_logic(text_in(doc, "retryLogic")),
        delay: number_or(doc, "retryDelaySeconds", 60),
        scale: number_or(doc, "backoffScaleFactor", 1),
        total: number_or(doc, "timeoutSeconds", 0),
        policy: task_policy(text_in(doc, "timeoutPolicy")),
        response: number_or(doc, "responseTimeoutSeconds", 3600),
        poll: number_or(doc, "pollTimeoutSeconds", 0),
    }
}

fn retry_logic(text: &str) -> RetryLogic
    ensures { result ≡ spec.retry_logic text.now }
{
    if text == "LINEAR_BACKOFF" {
        RetryLogic::Linear
    } else if text == "EXPONENTIAL_BACKOFF" {
        RetryLogic::Exponential
    } else {
        RetryLogic::Fixed
    }
}

fn task_policy(text: &str) -> TaskPolicy
    ensures { result ≡ spec.task_policy text.now }
{
    if text == "RETRY" {
        TaskPolicy::Retry
    } else if text == "ALERT_ONLY" {
        TaskPolicy::AlertOnly
    } else {
        TaskPolicy::TimeOutWf
    }
}
