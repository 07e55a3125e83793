//! The call of each route.

ghost use Rattle.std.specs.Prelude.{◌≡◌, ◌≢◌, Err, IfErr, IfOk, Ok, codes};
ghost use Rattle.wf_rest.specs.Requests as spec;

use crate::bodies::{document_of, input_of, items_of_body};
use crate::definitions::{flow_def_of, flow_defs_of, task_def_of, task_defs_of};
use crate::faulting::HttpFault;
use crate::ids::{flow_named, task_named};
use crate::operations::{operate, remove, rerun, restart, retry, skip, terminate};
use crate::starts::start_of;
use crate::targets::{
    has_no_domain, parameter, tasks_query, text_query, version_parameter, version_query,
};
use crate::updates::update_of;
use std::alloc::Global;
use wf_routes::Query;
use wf_routes::table::Route;
use wf_steps::{Call, Operation};
use wf_wire::Limits;

/// The call of a request with that route, in the store with that mark.
#[tactic(auto, unfolding(crate::specs::Requests::by_route))]
pub fn by_route(
    alloc: Global,
    limits: &Limits,
    mark: u32,
    path: &str,
    query: &Query,
    body: &[u8],
    route: Route,
) -> Result<Call, HttpFault>
    ensures ok { IfOk result (λ call. spec.by_route limits.now mark path.now query.now body.now route ≡ Ok call) }
    ensures err { IfErr result (λ fault. fault ≢ HttpFault.NoMemory
        → spec.by_route limits.now mark path.now query.now body.now route ≡ Err fault) }
{
    match route {
        Route::PutTaskDefs => put_task_defs(alloc, limits, body),
        Route::UpdateTaskDef => task_def_of(alloc, document_of(alloc, limits, body)?),
        Route::TaskDefs => Ok(Call::TaskDefs),
        Route::TaskDefNamed => Ok(Call::TaskDefNamed(parameter(alloc, path, 4)?)),
        Route::DropTaskDef => Ok(Call::DropTaskDef(parameter(alloc, path, 4)?)),
        Route::AddFlowDef => flow_def_of(alloc, document_of(alloc, limits, body)?, limits),
        Route::PutFlowDefs => put_flow_defs(alloc, limits, body),
        Route::FlowDefs => Ok(Call::FlowDefs),
        Route::FlowDefNamed => flow_def_named(alloc, path, query),
        Route::DropFlowDef => drop_flow_def(alloc, path),
        Route::Start => start_of(alloc, &document_of(alloc, limits, body)?),
        Route::StartNamed => start_named(alloc, limits, path, query, body),
        Route::GetFlow => get_flow(alloc, mark, path, query),
        Route::Running => running(alloc, path, query),
        Route::Poll => poll(alloc, path, query),
        Route::GetTask => get_task(alloc, mark, path),
        Route::Update => update_of(alloc, mark, &document_of(alloc, limits, body)?),
        Route::Decide => decide(alloc, mark, path),
        Route::Sweep => Ok(Call::Sweep),
        Route::Terminate => terminate(alloc, mark, path, query),
        Route::Remove => remove(alloc, mark, path),
        Route::Pause => operate(alloc, mark, path, Operation::Pause),
        Route::Resume => operate(alloc, mark, path, Operation::Resume),
        Route::Restart => restart(alloc, mark, path, query),
        Route::Retry => retry(alloc, mark, path, query),
        Route::Rerun => rerun(alloc, limits, mark, path, body),
        Route::Skip => skip(alloc, limits, mark, path, body),
        Route::Shutdown => Ok(Call::Shutdown),
        Route::PollBatch => Err(HttpFault::NotBuilt),
    }
}

fn put_task_defs(alloc: Global, limits: &Limits, body: &[u8]) -> Result<Call, HttpFault>
    ensures ok { IfOk result (λ call. spec.put_task_defs limits.now body.now ≡ Ok call) }
    ensures err { IfErr result (λ fault. fault ≢ HttpFault.NoMemory → spec.put_task_defs limits.now body.now ≡ Err fault) }
{
    let doc = document_of(alloc, limits, body)?;
    task_defs_of(alloc, items_of_body(&doc)?)
}

fn put_flow_defs(alloc: Global, limits: &Limits, body: &[u8]) -> Result<Call, HttpFault>
    ensures ok { IfOk result (λ call. spec.put_flow_defs limits.now body.now ≡ Ok call) }
    ensures err { IfErr result (λ fault. fault ≢ HttpFault.NoMemory → spec.put_flow_defs limits.now body.now ≡ Err fault) }
{
    let doc = document_of(alloc, limits, body)?;
    flow_defs_of(alloc, items_of_body(&doc)?, limits)
}

fn flow_def_named(alloc: Global, path: &str, query: &Query) -> Result<Call, HttpFault>
    ensures ok { IfOk result (λ call. spec.flow_def_named path.now query.now ≡ Ok call) }
    ensures err { IfErr result (λ fault. fault ≢ HttpFault.NoMemory → spec.flow_def_named path.now query.now ≡ Err fault) }
{
    let name = parameter(alloc, path, 4)?;
    let version = version_query(query)?;
    Ok(Call::FlowDefNamed(name, version))
}

fn drop_flow_def(alloc: Global, path: &str) -> Result<Call, HttpFault>
    ensures ok { IfOk result (λ call. spec.drop_flow_def path.now ≡ Ok call) }
    ensures err { IfErr result (λ fault. fault ≢ HttpFault.NoMemory → spec.drop_flow_def path.now ≡ Err fault) }
{
    let name = parameter(alloc, path, 4)?;
    let version = version_parameter(alloc, path, 5)?;
    Ok(Call::DropFlowDef(name, version))
}

/// The start of the workflow that the path names; the body is its input.
fn start_named(
    alloc: Global,
    limits: &Limits,
    path: &str,
    query: &Query,
    body: &[u8],
) -> Result<Call, HttpFault>
    ensures ok { IfOk result (λ call. spec.start_named limits.now path.now query.now body.now ≡ Ok call) }
    ensures err { IfErr result (λ fault. fault ≢ HttpFault.NoMemory
        → spec.start_named limits.now path.now query.now body.now ≡ Err fault) }
{
    let name = parameter(alloc, path, 3)?;
    let version = version_query(query)?;
    let correlation = text_query(alloc, query, "correlationId")?;
    let input = input_of(alloc, limits, body)?;
    Ok(Call::Start {
        name,
        version,
        input,
        correlation,
    })
}

fn get_flow(alloc: Global, mark: u32, path: &str, query: &Query) -> Result<Call, HttpFault>
    ensures ok { IfOk result (λ call. spec.get_flow mark path.now query.now ≡ Ok call) }
    ensures err { IfErr result (λ fault. fault ≢ HttpFault.NoMemory → spec.get_flow mark path.now query.now ≡ Err fault) }
{
    let id = parameter(alloc, path, 3)?;
    let tasks = tasks_query(query)?;
    Ok(Call::GetFlow(flow_named(mark, id.as_str()), tasks))
}

fn running(alloc: Global, path: &str, query: &Query) -> Result<Call, HttpFault>
    ensures ok { IfOk result (λ call. spec.running path.now query.now ≡ Ok call) }
    ensures err { IfErr result (λ fault. fault ≢ HttpFault.NoMemory → spec.running path.now query.now ≡ Err fault) }
{
    let name = parameter(alloc, path, 4)?;
    let version = version_query(query)?;
    Ok(Call::Running(name, version))
}

fn poll(alloc: Global, path: &str, query: &Query) -> Result<Call, HttpFault>
    ensures ok { IfOk result (λ call. spec.poll path.now query.now ≡ Ok call) }
    ensures err { IfErr result (λ fault. fault ≢ HttpFault.NoMemory → spec.poll path.now query.now ≡ Err fault) }
{
    let name = parameter(alloc, path, 4)?;
    let worker = text_query(alloc, query, "workerid")?;
    has_no_domain(query)?;
    Ok(Call::Poll(name, worker))
}

fn get_task(alloc: Global, mark: u32, path: &str) -> Result<Call, HttpFault>
    ensures ok { IfOk result (λ call. spec.get_task mark path.now ≡ Ok call) }
    ensures err { IfErr result (λ fault. fault ≢ HttpFault.NoMemory → spec.get_task mark path.now ≡ Err fault) }
{
    let id = parameter(alloc, path, 3)?;
    Ok(Call::GetTask(task_named(mark, id.as_str())))
}

fn decide(alloc: Global, mark: u32, path: &str) -> Result<Call, HttpFault>
    ensures ok { IfOk result (λ call. spec.decide mark path.now ≡ Ok call) }
    ensures err { IfErr result (λ fault. fault ≢ HttpFault.NoMemory → spec.decide mark path.now ≡ Err fault) }
{
    let id = parameter(alloc, path, 4)?;
    Ok(Call::Decide(flow_named(mark, id.as_str())))
}
