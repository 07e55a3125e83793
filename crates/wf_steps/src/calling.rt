//! Calls of the machine, and the entries of its history.

use crate::operation::Operation;
use wf_doc::{Doc, Text};
use wf_machine::{FlowDef, FlowDefs, TaskDef, TaskDefs, TaskResult};
use wf_names::{FlowNo, TaskNo};

/// A call of the machine.
#[derive(Drop)]
pub enum Call {
    /// Registers tasks, each in place of one of its name.
    PutTaskDefs(TaskDefs),
    /// Registers a task in place of the one of its name, which has to be there.
    UpdateTaskDef(TaskDef),
    /// Reads all tasks, by name.
    TaskDefs,
    /// Reads the task of that name.
    TaskDefNamed(Text),
    /// Forgets the task of that name.
    DropTaskDef(Text),
    /// Registers a workflow under its name and version.
    AddFlowDef(FlowDef),
    /// Registers workflows, each in place of one of its name and version.
    PutFlowDefs(FlowDefs),
    /// Reads all workflows, by name and then by version.
    FlowDefs,
    /// Reads a workflow: without a version, the greatest that is registered.
    FlowDefNamed(Text, Option<u32>),
    /// Forgets the workflow of that name and version.
    DropFlowDef(Text, u32),
    /// Starts a workflow: without a version, the greatest that is registered.
    Start {
        name: Text,
        version: Option<u32>,
        input: Doc,
        correlation: Text,
    },
    /// Reads a flow, and its attempts where that is asked for.
    GetFlow(FlowNo, bool),
    /// Reads the ids of the running flows of a workflow, of all its versions or of one.
    Running(Text, Option<u32>),
    /// Hands out an attempt at the tasks of that name, to that worker.
    Poll(Text, Text),
    /// Reads an attempt.
    GetTask(TaskNo),
    /// Tells what came of an attempt. A flow that is given has to be the attempt's own.
    Update {
        flow: Option<FlowNo>,
        task: TaskNo,
        outcome: TaskResult,
    },
    /// Decides a flow.
    Decide(FlowNo),
    /// Decides the flow of the least number that has something to be decided.
    Sweep,
    /// Does what an operator does to a flow.
    Operate(FlowNo, Operation),
    /// Takes a flow that has ended out of the store, with its attempts.
    Remove(FlowNo),
    /// Ends the run. It changes nothing.
    Shutdown,
    /// A server looks at the flow of that number, to plan beside the machine. It changes nothing.
    Look(FlowNo),
    /// A server takes away what changed since the last time, to store it. It changes nothing.
    Drain,
}

/// One entry of a history. A starved one was refused for want of memory, and changes nothing.
#[derive(Drop)]
pub struct Entry {
    pub caller: u64,
    pub moment: u64,
    pub call: Call,
    pub starved: bool,
}
