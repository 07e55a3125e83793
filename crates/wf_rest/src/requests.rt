//! Requests as calls of the machine.

ghost use Rattle.std.specs.Prelude.{◌≡◌, ◌≢◌, Err, IfErr, IfOk, Ok};
ghost use Rattle.wf_steps.specs.Calls.{IsProper};
ghost use Rattle.wf_routes.specs.Paths.{path_of};
ghost use Rattle.wf_routes.specs.Queries.{query_pairs};
ghost use Rattle.wf_rest.specs.Requests as spec;

use crate::faulting::HttpFault;
use crate::routed::by_route;
use std::alloc::Global;
use wf_doc::{NoMemory, Text};
use wf_routes::table::Route;
use wf_routes::{Query, Routes, Unrouted, split_target};
use wf_steps::Call;
use wf_wire::{FieldLook, Limits, Message};

/// The call that a request is in the store with that mark, or the first reason why it is none.
///
/// The reasons are tried in this order: ContentEncoding, NoRoute, BadMethod, NotBuilt of a route, BadPath, BadQuery, the
/// faults of the body's document, BadBody, BadDefinition. A text that isn't
/// an id of this store and of the kind that its place asks for names the number 0. NoMemory means that memory was wanting
/// while the request was read.
#[tactic(auto, using(crate::proofs::CallLemmas::call_is_proper))]
pub fn read_call(
    alloc: Global,
    message: &Message,
    mark: u32,
    limits: &Limits,
    routes: &Routes,
) -> Result<Call, HttpFault>
    ensures ok { IfOk result (λ call. spec.request_call limits.now mark message.now ≡ Ok call) }
    ensures proper { IfOk result IsProper }
    ensures err { IfErr result (λ fault. fault ≢ HttpFault.NoMemory
        → spec.request_call limits.now mark message.now ≡ Err fault) }
{
    match read_request(alloc, message, mark, limits, routes) {
        Ok(call) => Ok(call),
        Err(fault) => Err(fault),
    }
}

#[tactic(auto, unfolding(crate::specs::Requests::request_call))]
fn read_request(
    alloc: Global,
    message: &Message,
    mark: u32,
    limits: &Limits,
    routes: &Routes,
) -> Result<Call, HttpFault>
    ensures ok { IfOk result (λ call. spec.request_call limits.now mark message.now ≡ Ok call) }
    ensures err { IfErr result (λ fault. fault ≢ HttpFault.NoMemory
        → spec.request_call limits.now mark message.now ≡ Err fault) }
{
    if is_encoded(message) {
        return Err(HttpFault::ContentEncoding);
    }
    let (path, query) = split_target(target_of(message));
    let route = route_of(alloc, routes, path, message.method())?;
    let query = read_query(alloc, query)?;
    by_route(alloc, limits, mark, path, &query, message.body(), route)
}

/// The body is encoded: there is a Content-Encoding other than `identity`, in any case of its letters, or several.
pub fn is_encoded(message: &Message) -> bool
    ensures { result ≡ spec.is_encoded message.now }
{
    match message.field("content-encoding") {
        FieldLook::Absent => false,
        FieldLook::One(coding) => !coding.eq_ignore_ascii_case(b"identity"),
        FieldLook::Many => true,
    }
}

/// The target as text, which it always is.
fn target_of(message: &Message) -> &str
    ensures { result.now ≡ message.now.target }
{
    match str::from_utf8(message.target()) {
        Ok(target) => target,
        Err(_) => unreachable!(),
    }
}

fn route_of(alloc: Global, routes: &Routes, path: &str, method: &[u8]) -> Result<Route, HttpFault>
    ensures ok { IfOk result (λ route. spec.route_of path.now method.now ≡ Ok route) }
    ensures err { IfErr result (λ fault. fault ≢ HttpFault.NoMemory → spec.route_of path.now method.now ≡ Err fault) }
{
    match routes.route(path, method) {
        Ok(route) => Ok(route),
        Err(Unrouted::NoRoute) => Err(HttpFault::NoRoute),
        Err(Unrouted::BadMethod) => Err(HttpFault::BadMethod(allowed(alloc, routes, path)?)),
    }
}

/// The methods that a path has.
fn allowed(alloc: Global, routes: &Routes, path: &str) -> Result<Text, NoMemory>
    ensures { IfOk result (λ methods. methods ≡ spec.allowed (path_of path.now)) }
{
    match routes.allow(path) {
        Some(methods) => Text::new(alloc, methods),
        None => Text::new(alloc, ""),
    }
}

fn read_query(alloc: Global, query: &str) -> Result<Query, NoMemory>
    ensures { IfOk result (λ read. read ≡ query_pairs query.now) }
{
    match Query::read(alloc, query) {
        Ok(query) => Ok(query),
        Err(_) => Err(NoMemory),
    }
}
