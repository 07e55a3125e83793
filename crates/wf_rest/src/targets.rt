//! The parameters of a path and the values of a query.

ghost use Rattle.std.specs.Prelude.{◌≡◌, ◌≢◌, Err, [], false, IfErr, IfOk, Ok, OnOk};
ghost use Rattle.wf_routes.specs.Target.{parameter_text};
ghost use Rattle.wf_rest.specs.Requests as spec;

use crate::faulting::HttpFault;
use crate::numbers::read_number;
use std::alloc::Global;
use wf_doc::{NoMemory, Text};
use wf_routes::{Query, decode_parameter, segment};

/// The parameter that stands in a segment of the path, which are counted from 0 before the first slash.
pub fn parameter(alloc: Global, path: &str, place: usize) -> Result<Text, HttpFault>
    ensures ok { IfOk result (λ text. spec.parameter place path.now ≡ Ok text) }
    ensures err { IfErr result (λ fault. fault ≢ HttpFault.NoMemory → spec.parameter place path.now ≡ Err fault) }
{
    match segment(path, place) {
        Some(segment) => decoded(alloc, segment)?.ok_or(HttpFault::BadPath),
        None => Err(HttpFault::BadPath),
    }
}

fn decoded(alloc: Global, segment: &str) -> Result<Option<Text>, NoMemory>
    ensures { IfOk result (λ text. text ≡ parameter_text segment.now) }
{
    match decode_parameter(alloc, segment) {
        Ok(Some(text)) => Ok(Some(Text::from_string(text))),
        Ok(None) => Ok(None),
        Err(_) => Err(NoMemory),
    }
}

/// The version that stands in a segment of the path.
pub fn version_parameter(alloc: Global, path: &str, place: usize) -> Result<u32, HttpFault>
    ensures ok { IfOk result (λ version. spec.version_parameter place path.now ≡ Ok version) }
    ensures err { IfErr result (λ fault. fault ≢ HttpFault.NoMemory → spec.version_parameter place path.now ≡ Err fault) }
{
    let text = parameter(alloc, path, place)?;
    version_of(text.as_str()).ok_or(HttpFault::BadPath)
}

fn version_of(text: &str) -> Option<u32>
    ensures { result ≡ spec.version_of text.now }
{
    read_number(text, 1, 2_147_483_647)
}

/// The version that the query names, where it names one.
pub fn version_query(query: &Query) -> Result<Option<u32>, HttpFault>
    ensures ok { IfOk result (λ version. spec.version_query query.now ≡ Ok version) }
    ensures err { IfErr result (λ fault. spec.version_query query.now ≡ Err fault) }
{
    let Some(text) = query.value("version") else {
        return Ok(None);
    };
    match version_of(text) {
        Some(version) => Ok(Some(version)),
        None => Err(HttpFault::BadQuery),
    }
}

/// The text that the query has under a key, empty where there is none.
pub fn text_query(alloc: Global, query: &Query, key: &str) -> Result<Text, NoMemory>
    ensures { IfOk result (λ text. spec.text_query key.now query.now ≡ Ok text) }
{
    match query.value(key) {
        Some(text) => Text::new(alloc, text),
        None => Text::new(alloc, ""),
    }
}

/// Whether the query asks for the tasks of a flow too.
pub fn tasks_query(query: &Query) -> Result<bool, HttpFault>
    ensures ok { IfOk result (λ tasks. spec.tasks_query query.now ≡ Ok tasks) }
    ensures err { IfErr result (λ fault. spec.tasks_query query.now ≡ Err fault) }
{
    let Some(text) = query.value("includeTasks") else {
        return Ok(true);
    };
    if text == "true" {
        Ok(true)
    } else if text == "false" {
        Ok(false)
    } else {
        Err(HttpFault::BadQuery)
    }
}

/// The query has `false` under the key, or nothing.
pub fn is_false_query(query: &Query, key: &str) -> Result<(), HttpFault>
    ensures ok { OnOk result (spec.false_query key.now query.now ≡ Ok false) }
    ensures err { IfErr result (λ fault. spec.false_query key.now query.now ≡ Err fault) }
{
    match query.value(key) {
        Some(text) if text != "false" => Err(HttpFault::BadQuery),
        _ => Ok(()),
    }
}

/// A poll has no domain, or an empty one.
pub fn has_no_domain(query: &Query) -> Result<(), HttpFault>
    ensures ok { OnOk result (spec.domain_query query.now ≡ Ok []) }
    ensures err { IfErr result (λ fault. spec.domain_query query.now ≡ Err fault) }
{
    match query.value("domain") {
        Some(text) if !text.is_empty() => Err(HttpFault::BadQuery),
        _ => Ok(()),
    }
}
