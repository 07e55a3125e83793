//! The machine under small limits.

ghost use Rattle.std.specs.Prelude.{IfOk};
ghost use Rattle.wf_machine.specs.Replies.{IsPrintable};

use std::alloc::Global;
use std::process::Abort;
use std::test::Fail;
use wf_core::Core;
use wf_machine::Reply;
use wf_rest::{Routes, moment_of, print_reply, read_call};
use wf_wire::{Limits, MemorySource, Message, all_messages};

/// The last moment that there is, in milliseconds.
const LAST_MOMENT: u64 = 9_007_199_254_740_991;

/// The limits that are made small: kept flows, attempts of a flow, and the depth and the printed bytes of a document.
#[derive(Clone, Copy)]
struct Small {
    flows: u32,
    attempts: u32,
    depth: u32,
    document: u32,
}

const STANDARD: Small = Small {
    flows: 20_000,
    attempts: 4_096,
    depth: 64,
    document: 1_048_576,
};

/// Limits, and what is asked and answered under them. A request has its method, its target, its moment behind `@` and perhaps
/// a body; it is read under the standard limits. The line behind it is `= `, the status of the reply and its body.
const RUNS: [(Small, &str); 19] = [
    // A full store takes no start, and a flow that has ended is kept until it is removed.
    (
        Small {
            flows: 1,
            ..STANDARD
        },
        r#"
POST /api/metadata/taskdefs @0 [{"name":"pick"}]
= 200
POST /api/metadata/workflow @0 {"name":"one","tasks":[{"name":"pick","taskReferenceName":"a"}]}
= 200
POST /api/workflow/one @1000 {}
= 200 00000001-0100-8000-8000-000000000001
POST /api/workflow/one @9000 {}
= 409 {"code":"STORE_FULL","message":"the store is full","status":409}
POST /api/tasks @2000 {"workflowInstanceId":"00000001-0100-8000-8000-000000000001","taskId":"00000001-0200-8000-8000-000000000001","status":"COMPLETED","outputData":{}}
= 200 00000001-0200-8000-8000-000000000001
POST /api/workflow/one @9000 {}
= 409 {"code":"STORE_FULL","message":"the store is full","status":409}
GET /api/workflow/00000001-0100-8000-8000-000000000001 @9000
= 200 {"correlationId":"","createTime":1000,"endTime":2000,"input":{},"output":{},"reasonForIncompletion":"","startTime":1000,"status":"COMPLETED","tasks":[{"callbackAfterSeconds":0,"endTime":2000,"inputData":{},"iteration":0,"outputData":{},"pollCount":0,"reasonForIncompletion":"","referenceTaskName":"a","retryCount":0,"scheduledTime":1000,"startTime":0,"status":"COMPLETED","taskDefName":"pick","taskId":"00000001-0200-8000-8000-000000000001","taskType":"pick","updateTime":2000,"workerId":"","workflowInstanceId":"00000001-0100-8000-8000-000000000001"}],"variables":{},"workflowId":"00000001-0100-8000-8000-000000000001","workflowName":"one","workflowVersion":1}
GET /api/workflow/00000001-0100-8000-8000-000000000002 @9000
= 404 {"code":"NOT_FOUND","message":"no such thing","status":404}
POST /api/metadata/taskdefs @3000 [{"name":"pack"}]
= 200
DELETE /api/workflow/00000001-0100-8000-8000-000000000001/remove @4000
= 200
POST /api/workflow/one @5000 {}
= 200 00000001-0100-8000-8000-000000000002
"#,
    ),
    // No flow at all.
    (
        Small {
            flows: 0,
            ..STANDARD
        },
        r#"
POST /api/metadata/taskdefs @0 [{"name":"pick"}]
= 200
POST /api/metadata/workflow @0 {"name":"one","tasks":[{"name":"pick","taskReferenceName":"a"}]}
= 200
POST /api/workflow/none @0 {}
= 404 {"code":"NOT_FOUND","message":"no such thing","status":404}
POST /api/workflow/one @0 {}
= 409 {"code":"STORE_FULL","message":"the store is full","status":409}
"#,
    ),
    // A start is refused first for its name, then for the store, then for its input.
    (
        Small {
            flows: 2,
            document: 9,
            ..STANDARD
        },
        r#"
POST /api/metadata/taskdefs @0 [{"name":"pick"}]
= 200
POST /api/metadata/workflow @0 {"name":"one","tasks":[{"name":"pick","taskReferenceName":"a"}]}
= 200
POST /api/workflow/none @9000 {"n":1234}
= 404 {"code":"NOT_FOUND","message":"no such thing","status":404}
POST /api/workflow/one @9000 {"n":1234}
= 409 {"code":"DOCUMENT_LIMIT","message":"the document is too large","status":409}
POST /api/workflow/one @9000 { "n" : 1234 }
= 409 {"code":"DOCUMENT_LIMIT","message":"the document is too large","status":409}
POST /api/workflow/one @1000  { "n" : 123 }
= 200 00000001-0100-8000-8000-000000000001
POST /api/workflow/one @1000 {"n":321}
= 200 00000001-0100-8000-8000-000000000002
POST /api/workflow/none @9000 {"n":1234}
= 404 {"code":"NOT_FOUND","message":"no such thing","status":404}
POST /api/workflow/one @9000 {"n":1234}
= 409 {"code":"STORE_FULL","message":"the store is full","status":409}
GET /api/workflow/00000001-0100-8000-8000-000000000001 @9000
= 200 {"correlationId":"","createTime":1000,"endTime":0,"input":{"n":123},"output":{},"reasonForIncompletion":"","startTime":1000,"status":"RUNNING","tasks":[{"callbackAfterSeconds":0,"endTime":0,"inputData":{},"iteration":0,"outputData":{},"pollCount":0,"reasonForIncompletion":"","referenceTaskName":"a","retryCount":0,"scheduledTime":1000,"startTime":0,"status":"SCHEDULED","taskDefName":"pick","taskId":"00000001-0200-8000-8000-000000000001","taskType":"pick","updateTime":1000,"workerId":"","workflowInstanceId":"00000001-0100-8000-8000-000000000001"}],"variables":{},"workflowId":"00000001-0100-8000-8000-000000000001","workflowName":"one","workflowVersion":1}
"#,
    ),
    // An input is measured in bytes of its text as it is printed.
    (
        Small {
            document: 10,
            ..STANDARD
        },
        r#"
POST /api/metadata/taskdefs @0 [{"name":"pick"}]
= 200
POST /api/metadata/workflow @0 {"name":"one","tasks":[{"name":"pick","taskReferenceName":"a"}]}
= 200
POST /api/workflow/one @0 {"é":"1"}
= 200 00000001-0100-8000-8000-000000000001
POST /api/workflow/one @0 {"éé":""}
= 409 {"code":"DOCUMENT_LIMIT","message":"the document is too large","status":409}
POST /api/workflow/one @0 {"é":"é"}
= 409 {"code":"DOCUMENT_LIMIT","message":"the document is too large","status":409}
POST /api/workflow/one @0 {"é":"\u0031"}
= 200 00000001-0100-8000-8000-000000000002
POST /api/workflow/one @0 {"a":"\n"}
= 200 00000001-0100-8000-8000-000000000003
POST /api/workflow/one @0 {"a":"\u000a"}
= 200 00000001-0100-8000-8000-000000000004
POST /api/workflow/one @0 {"a":"\u000a1"}
= 409 {"code":"DOCUMENT_LIMIT","message":"the document is too large","status":409}
POST /api/workflow/one @0 {"a":"\u0001"}
= 409 {"code":"DOCUMENT_LIMIT","message":"the document is too large","status":409}
"#,
    ),
    // A second attempt ends the flow at the limit of attempts, and no node is skipped there.
    (
        Small {
            attempts: 1,
            ..STANDARD
        },
        r#"
POST /api/metadata/taskdefs @0 [{"name":"pick"},{"name":"pack"}]
= 200
POST /api/metadata/workflow @0 {"name":"order","tasks":[{"name":"pick","taskReferenceName":"a"},{"name":"pack","taskReferenceName":"b"}]}
= 200
POST /api/workflow/order @1000 {}
= 200 00000001-0100-8000-8000-000000000001
GET /api/tasks/poll/pick @2000
= 200 {"callbackAfterSeconds":0,"endTime":0,"inputData":{},"iteration":0,"outputData":{},"pollCount":1,"reasonForIncompletion":"","referenceTaskName":"a","retryCount":0,"scheduledTime":1000,"startTime":2000,"status":"IN_PROGRESS","taskDefName":"pick","taskId":"00000001-0200-8000-8000-000000000001","taskType":"pick","updateTime":2000,"workerId":"","workflowInstanceId":"00000001-0100-8000-8000-000000000001"}
PUT /api/workflow/00000001-0100-8000-8000-000000000001/skiptask/b @2000
= 409 {"code":"ATTEMPT_LIMIT","message":"too many attempts","status":409}
POST /api/tasks @3000 {"workflowInstanceId":"00000001-0100-8000-8000-000000000001","taskId":"00000001-0200-8000-8000-000000000001","status":"COMPLETED","outputData":{"box":1}}
= 200 00000001-0200-8000-8000-000000000001
GET /api/workflow/00000001-0100-8000-8000-000000000001 @3000
= 200 {"correlationId":"","createTime":1000,"endTime":3000,"input":{},"output":{},"reasonForIncompletion":"attempt limit","startTime":1000,"status":"FAILED","tasks":[{"callbackAfterSeconds":0,"endTime":3000,"inputData":{},"iteration":0,"outputData":{"box":1},"pollCount":1,"reasonForIncompletion":"","referenceTaskName":"a","retryCount":0,"scheduledTime":1000,"startTime":2000,"status":"COMPLETED","taskDefName":"pick","taskId":"00000001-0200-8000-8000-000000000001","taskType":"pick","updateTime":3000,"workerId":"","workflowInstanceId":"00000001-0100-8000-8000-000000000001"}],"variables":{},"workflowId":"00000001-0100-8000-8000-000000000001","workflowName":"order","workflowVersion":1}
GET /api/tasks/poll/pack @4000
= 204
POST /api/workflow/order @4000 {}
= 200 00000001-0100-8000-8000-000000000002
GET /api/tasks/poll/pick @4000
= 200 {"callbackAfterSeconds":0,"endTime":0,"inputData":{},"iteration":0,"outputData":{},"pollCount":1,"reasonForIncompletion":"","referenceTaskName":"a","retryCount":0,"scheduledTime":4000,"startTime":4000,"status":"IN_PROGRESS","taskDefName":"pick","taskId":"00000001-0200-8000-8000-000000000002","taskType":"pick","updateTime":4000,"workerId":"","workflowInstanceId":"00000001-0100-8000-8000-000000000002"}
"#,
    ),
    // A flow of as many attempts as there may be completes.
    (
        Small {
            attempts: 2,
            ..STANDARD
        },
        r#"
POST /api/metadata/taskdefs @0 [{"name":"pick"},{"name":"pack"}]
= 200
POST /api/metadata/workflow @0 {"name":"order","tasks":[{"name":"pick","taskReferenceName":"a"},{"name":"pack","taskReferenceName":"b"}]}
= 200
POST /api/workflow/order @0 {}
= 200 00000001-0100-8000-8000-000000000001
POST /api/tasks @0 {"workflowInstanceId":"00000001-0100-8000-8000-000000000001","taskId":"00000001-0200-8000-8000-000000000001","status":"COMPLETED","outputData":{}}
= 200 00000001-0200-8000-8000-000000000001
POST /api/tasks @0 {"workflowInstanceId":"00000001-0100-8000-8000-000000000001","taskId":"00000001-0200-8000-8000-000000000002","status":"COMPLETED","outputData":{}}
= 200 00000001-0200-8000-8000-000000000002
GET /api/workflow/00000001-0100-8000-8000-000000000001 @0
= 200 {"correlationId":"","createTime":0,"endTime":0,"input":{},"output":{},"reasonForIncompletion":"","startTime":0,"status":"COMPLETED","tasks":[{"callbackAfterSeconds":0,"endTime":0,"inputData":{},"iteration":0,"outputData":{},"pollCount":0,"reasonForIncompletion":"","referenceTaskName":"a","retryCount":0,"scheduledTime":0,"startTime":0,"status":"COMPLETED","taskDefName":"pick","taskId":"00000001-0200-8000-8000-000000000001","taskType":"pick","updateTime":0,"workerId":"","workflowInstanceId":"00000001-0100-8000-8000-000000000001"},{"callbackAfterSeconds":0,"endTime":0,"inputData":{},"iteration":0,"outputData":{},"pollCount":0,"reasonForIncompletion":"","referenceTaskName":"b","retryCount":0,"scheduledTime":0,"startTime":0,"status":"COMPLETED","taskDefName":"pack","taskId":"00000001-0200-8000-8000-000000000002","taskType":"pack","updateTime":0,"workerId":"","workflowInstanceId":"00000001-0100-8000-8000-000000000001"}],"variables":{},"workflowId":"00000001-0100-8000-8000-000000000001","workflowName":"order","workflowVersion":1}
"#,
    ),
    // Nodes that end by themselves reach the limit of attempts in one decision: what they set stays.
    (
        Small {
            attempts: 2,
            ..STANDARD
        },
        r#"
POST /api/metadata/workflow @0 {"name":"set","tasks":[{"name":"s","taskReferenceName":"a","type":"SET_VARIABLE","inputParameters":{"x":1}},{"name":"s","taskReferenceName":"b","type":"SET_VARIABLE","inputParameters":{"x":2}},{"name":"s","taskReferenceName":"c","type":"SET_VARIABLE","inputParameters":{"x":3}}]}
= 200
POST /api/workflow/set @1000 {}
= 200 00000001-0100-8000-8000-000000000001
GET /api/workflow/00000001-0100-8000-8000-000000000001 @2000
= 200 {"correlationId":"","createTime":1000,"endTime":1000,"input":{},"output":{},"reasonForIncompletion":"attempt limit","startTime":1000,"status":"FAILED","tasks":[{"callbackAfterSeconds":0,"endTime":1000,"inputData":{"x":1},"iteration":0,"outputData":{},"pollCount":0,"reasonForIncompletion":"","referenceTaskName":"a","retryCount":0,"scheduledTime":1000,"startTime":1000,"status":"COMPLETED","taskDefName":"s","taskId":"00000001-0200-8000-8000-000000000001","taskType":"SET_VARIABLE","updateTime":1000,"workerId":"","workflowInstanceId":"00000001-0100-8000-8000-000000000001"},{"callbackAfterSeconds":0,"endTime":1000,"inputData":{"x":2},"iteration":0,"outputData":{},"pollCount":0,"reasonForIncompletion":"","referenceTaskName":"b","retryCount":0,"scheduledTime":1000,"startTime":1000,"status":"COMPLETED","taskDefName":"s","taskId":"00000001-0200-8000-8000-000000000002","taskType":"SET_VARIABLE","updateTime":1000,"workerId":"","workflowInstanceId":"00000001-0100-8000-8000-000000000001"}],"variables":{"x":2},"workflowId":"00000001-0100-8000-8000-000000000001","workflowName":"set","workflowVersion":1}
PUT /api/workflow/00000001-0100-8000-8000-000000000001/skiptask/c @2000
= 409 {"code":"NOT_RUNNING","message":"the workflow is not running","status":409}
"#,
    ),
    // An attempt that a retry leaves behind counts.
    (
        Small {
            attempts: 1,
            ..STANDARD
        },
        r#"
POST /api/metadata/taskdefs @0 [{"name":"pick","retryCount":0}]
= 200
POST /api/metadata/workflow @0 {"name":"one","tasks":[{"name":"pick","taskReferenceName":"a"}]}
= 200
POST /api/workflow/one @0 {}
= 200 00000001-0100-8000-8000-000000000001
POST /api/tasks @1000 {"taskId":"00000001-0200-8000-8000-000000000001","status":"FAILED","reasonForIncompletion":"torn"}
= 200 00000001-0200-8000-8000-000000000001
POST /api/workflow/00000001-0100-8000-8000-000000000001/retry @2000
= 200
GET /api/workflow/00000001-0100-8000-8000-000000000001 @2000
= 200 {"correlationId":"","createTime":0,"endTime":2000,"input":{},"output":{},"reasonForIncompletion":"attempt limit","startTime":2000,"status":"FAILED","tasks":[],"variables":{},"workflowId":"00000001-0100-8000-8000-000000000001","workflowName":"one","workflowVersion":1}
"#,
    ),
    // No attempt at all.
    (
        Small {
            attempts: 0,
            ..STANDARD
        },
        r#"
POST /api/metadata/taskdefs @0 [{"name":"pick"}]
= 200
POST /api/metadata/workflow @0 {"name":"one","tasks":[{"name":"pick","taskReferenceName":"a"}]}
= 200
POST /api/workflow/one @1000 {"n":1}
= 200 00000001-0100-8000-8000-000000000001
GET /api/workflow/00000001-0100-8000-8000-000000000001 @1000
= 200 {"correlationId":"","createTime":1000,"endTime":1000,"input":{"n":1},"output":{},"reasonForIncompletion":"attempt limit","startTime":1000,"status":"FAILED","tasks":[],"variables":{},"workflowId":"00000001-0100-8000-8000-000000000001","workflowName":"one","workflowVersion":1}
"#,
    ),
    // Want of a registered task goes before the limit of attempts.
    (
        Small {
            attempts: 1,
            ..STANDARD
        },
        r#"
POST /api/metadata/taskdefs @0 [{"name":"pick"}]
= 200
POST /api/metadata/workflow @0 {"name":"order","tasks":[{"name":"pick","taskReferenceName":"a"},{"name":"pack","taskReferenceName":"b"}]}
= 200
POST /api/workflow/order @1000 {}
= 200 00000001-0100-8000-8000-000000000001
POST /api/tasks @2000 {"workflowInstanceId":"00000001-0100-8000-8000-000000000001","taskId":"00000001-0200-8000-8000-000000000001","status":"COMPLETED","outputData":{}}
= 200 00000001-0200-8000-8000-000000000001
GET /api/workflow/00000001-0100-8000-8000-000000000001 @2000
= 200 {"correlationId":"","createTime":1000,"endTime":2000,"input":{},"output":{},"reasonForIncompletion":"no task definition pack","startTime":1000,"status":"FAILED","tasks":[{"callbackAfterSeconds":0,"endTime":2000,"inputData":{},"iteration":0,"outputData":{},"pollCount":0,"reasonForIncompletion":"","referenceTaskName":"a","retryCount":0,"scheduledTime":1000,"startTime":0,"status":"COMPLETED","taskDefName":"pick","taskId":"00000001-0200-8000-8000-000000000001","taskType":"pick","updateTime":2000,"workerId":"","workflowInstanceId":"00000001-0100-8000-8000-000000000001"}],"variables":{},"workflowId":"00000001-0100-8000-8000-000000000001","workflowName":"order","workflowVersion":1}
"#,
    ),
    // Want of a registered task goes before all limits.
    (
        Small {
            attempts: 0,
            depth: 0,
            document: 2,
            ..STANDARD
        },
        r#"
POST /api/metadata/workflow @0 {"name":"one","tasks":[{"name":"pick","taskReferenceName":"a"}]}
= 200
POST /api/workflow/one @0 {}
= 200 00000001-0100-8000-8000-000000000001
GET /api/workflow/00000001-0100-8000-8000-000000000001 @0
= 200 {"correlationId":"","createTime":0,"endTime":0,"input":{},"output":{},"reasonForIncompletion":"no task definition pick","startTime":0,"status":"FAILED","tasks":[],"variables":{},"workflowId":"00000001-0100-8000-8000-000000000001","workflowName":"one","workflowVersion":1}
"#,
    ),
    // The limit of attempts goes before that of documents.
    (
        Small {
            attempts: 0,
            depth: 0,
            document: 2,
            ..STANDARD
        },
        r#"
POST /api/metadata/taskdefs @0 [{"name":"pick"}]
= 200
POST /api/metadata/workflow @0 {"name":"one","tasks":[{"name":"pick","taskReferenceName":"a"}]}
= 200
POST /api/workflow/one @0 {}
= 200 00000001-0100-8000-8000-000000000001
GET /api/workflow/00000001-0100-8000-8000-000000000001 @0
= 200 {"correlationId":"","createTime":0,"endTime":0,"input":{},"output":{},"reasonForIncompletion":"attempt limit","startTime":0,"status":"FAILED","tasks":[],"variables":{},"workflowId":"00000001-0100-8000-8000-000000000001","workflowName":"one","workflowVersion":1}
"#,
    ),
    // An input of a task that nests too deep ends the flow, and a start measures no depth.
    (
        Small {
            depth: 0,
            ..STANDARD
        },
        r#"
POST /api/metadata/taskdefs @0 [{"name":"pick"}]
= 200
POST /api/metadata/workflow @0 {"name":"one","tasks":[{"name":"pick","taskReferenceName":"a"}]}
= 200
POST /api/workflow/one @1000 {"a":[[]]}
= 200 00000001-0100-8000-8000-000000000001
GET /api/workflow/00000001-0100-8000-8000-000000000001 @1000
= 200 {"correlationId":"","createTime":1000,"endTime":1000,"input":{"a":[[]]},"output":{},"reasonForIncompletion":"document limit","startTime":1000,"status":"FAILED","tasks":[],"variables":{},"workflowId":"00000001-0100-8000-8000-000000000001","workflowName":"one","workflowVersion":1}
GET /api/tasks/00000001-0200-8000-8000-000000000001 @1000
= 404 {"code":"NOT_FOUND","message":"no such thing","status":404}
"#,
    ),
    // An output of a flow that is too long ends it, and an update measures nothing.
    (
        Small {
            document: 9,
            ..STANDARD
        },
        r#"
POST /api/metadata/taskdefs @0 [{"name":"pick"},{"name":"pack"}]
= 200
POST /api/metadata/workflow @0 {"name":"order","tasks":[{"name":"pick","taskReferenceName":"a"},{"name":"pack","taskReferenceName":"b"}]}
= 200
POST /api/workflow/order @1000 {}
= 200 00000001-0100-8000-8000-000000000001
POST /api/tasks @2000 {"workflowInstanceId":"00000001-0100-8000-8000-000000000001","taskId":"00000001-0200-8000-8000-000000000001","status":"COMPLETED","outputData":{"long":"far too long"}}
= 200 00000001-0200-8000-8000-000000000001
POST /api/tasks @3000 {"workflowInstanceId":"00000001-0100-8000-8000-000000000001","taskId":"00000001-0200-8000-8000-000000000002","status":"COMPLETED","outputData":{"n":1234}}
= 200 00000001-0200-8000-8000-000000000002
GET /api/workflow/00000001-0100-8000-8000-000000000001 @3000
= 200 {"correlationId":"","createTime":1000,"endTime":3000,"input":{},"output":{},"reasonForIncompletion":"document limit","startTime":1000,"status":"FAILED","tasks":[{"callbackAfterSeconds":0,"endTime":2000,"inputData":{},"iteration":0,"outputData":{"long":"far too long"},"pollCount":0,"reasonForIncompletion":"","referenceTaskName":"a","retryCount":0,"scheduledTime":1000,"startTime":0,"status":"COMPLETED","taskDefName":"pick","taskId":"00000001-0200-8000-8000-000000000001","taskType":"pick","updateTime":2000,"workerId":"","workflowInstanceId":"00000001-0100-8000-8000-000000000001"},{"callbackAfterSeconds":0,"endTime":3000,"inputData":{},"iteration":0,"outputData":{"n":1234},"pollCount":0,"reasonForIncompletion":"","referenceTaskName":"b","retryCount":0,"scheduledTime":2000,"startTime":0,"status":"COMPLETED","taskDefName":"pack","taskId":"00000001-0200-8000-8000-000000000002","taskType":"pack","updateTime":3000,"workerId":"","workflowInstanceId":"00000001-0100-8000-8000-000000000001"}],"variables":{},"workflowId":"00000001-0100-8000-8000-000000000001","workflowName":"order","workflowVersion":1}
POST /api/workflow/order @4000 {}
= 200 00000001-0100-8000-8000-000000000002
POST /api/tasks @4000 {"workflowInstanceId":"00000001-0100-8000-8000-000000000002","taskId":"00000001-0200-8000-8000-000000000003","status":"COMPLETED","outputData":{}}
= 200 00000001-0200-8000-8000-000000000003
POST /api/tasks @4000 {"workflowInstanceId":"00000001-0100-8000-8000-000000000002","taskId":"00000001-0200-8000-8000-000000000004","status":"COMPLETED","outputData":{"n":123}}
= 200 00000001-0200-8000-8000-000000000004
GET /api/workflow/00000001-0100-8000-8000-000000000002 @4000
= 200 {"correlationId":"","createTime":4000,"endTime":4000,"input":{},"output":{"n":123},"reasonForIncompletion":"","startTime":4000,"status":"COMPLETED","tasks":[{"callbackAfterSeconds":0,"endTime":4000,"inputData":{},"iteration":0,"outputData":{},"pollCount":0,"reasonForIncompletion":"","referenceTaskName":"a","retryCount":0,"scheduledTime":4000,"startTime":0,"status":"COMPLETED","taskDefName":"pick","taskId":"00000001-0200-8000-8000-000000000003","taskType":"pick","updateTime":4000,"workerId":"","workflowInstanceId":"00000001-0100-8000-8000-000000000002"},{"callbackAfterSeconds":0,"endTime":4000,"inputData":{},"iteration":0,"outputData":{"n":123},"pollCount":0,"reasonForIncompletion":"","referenceTaskName":"b","retryCount":0,"scheduledTime":4000,"startTime":0,"status":"COMPLETED","taskDefName":"pack","taskId":"00000001-0200-8000-8000-000000000004","taskType":"pack","updateTime":4000,"workerId":"","workflowInstanceId":"00000001-0100-8000-8000-000000000002"}],"variables":{},"workflowId":"00000001-0100-8000-8000-000000000002","workflowName":"order","workflowVersion":1}
"#,
    ),
    // An output of a flow that nests too deep ends it.
    (
        Small {
            depth: 2,
            ..STANDARD
        },
        r#"
POST /api/metadata/taskdefs @0 [{"name":"pick"}]
= 200
POST /api/metadata/workflow @0 {"name":"one","tasks":[{"name":"pick","taskReferenceName":"a"}]}
= 200
POST /api/workflow/one @1000 {}
= 200 00000001-0100-8000-8000-000000000001
POST /api/workflow/one @1000 {}
= 200 00000001-0100-8000-8000-000000000002
POST /api/tasks @2000 {"workflowInstanceId":"00000001-0100-8000-8000-000000000001","taskId":"00000001-0200-8000-8000-000000000001","status":"COMPLETED","outputData":{"a":[1]}}
= 200 00000001-0200-8000-8000-000000000001
POST /api/tasks @2000 {"workflowInstanceId":"00000001-0100-8000-8000-000000000002","taskId":"00000001-0200-8000-8000-000000000002","status":"COMPLETED","outputData":{"a":[[]]}}
= 200 00000001-0200-8000-8000-000000000002
GET /api/workflow/00000001-0100-8000-8000-000000000001 @2000
= 200 {"correlationId":"","createTime":1000,"endTime":2000,"input":{},"output":{"a":[1]},"reasonForIncompletion":"","startTime":1000,"status":"COMPLETED","tasks":[{"callbackAfterSeconds":0,"endTime":2000,"inputData":{},"iteration":0,"outputData":{"a":[1]},"pollCount":0,"reasonForIncompletion":"","referenceTaskName":"a","retryCount":0,"scheduledTime":1000,"startTime":0,"status":"COMPLETED","taskDefName":"pick","taskId":"00000001-0200-8000-8000-000000000001","taskType":"pick","updateTime":2000,"workerId":"","workflowInstanceId":"00000001-0100-8000-8000-000000000001"}],"variables":{},"workflowId":"00000001-0100-8000-8000-000000000001","workflowName":"one","workflowVersion":1}
GET /api/workflow/00000001-0100-8000-8000-000000000002 @2000
= 200 {"correlationId":"","createTime":1000,"endTime":2000,"input":{},"output":{},"reasonForIncompletion":"document limit","startTime":1000,"status":"FAILED","tasks":[{"callbackAfterSeconds":0,"endTime":2000,"inputData":{},"iteration":0,"outputData":{"a":[[]]},"pollCount":0,"reasonForIncompletion":"","referenceTaskName":"a","retryCount":0,"scheduledTime":1000,"startTime":0,"status":"COMPLETED","taskDefName":"pick","taskId":"00000001-0200-8000-8000-000000000002","taskType":"pick","updateTime":2000,"workerId":"","workflowInstanceId":"00000001-0100-8000-8000-000000000002"}],"variables":{},"workflowId":"00000001-0100-8000-8000-000000000002","workflowName":"one","workflowVersion":1}
"#,
    ),
    // A start's input is measured with the keys that the workflow's template gives it.
    (
        Small {
            document: 20,
            ..STANDARD
        },
        r#"
POST /api/metadata/taskdefs @0 [{"name":"pick"}]
= 200
POST /api/metadata/workflow @0 {"name":"one","inputTemplate":{"k":"0123456"},"tasks":[{"name":"pick","taskReferenceName":"a"}]}
= 200
POST /api/workflow/one @0 {"n":123456}
= 409 {"code":"DOCUMENT_LIMIT","message":"the document is too large","status":409}
POST /api/workflow/one @0 {}
= 200 00000001-0100-8000-8000-000000000001
POST /api/workflow/one @0 {"k":"","n":123456}
= 200 00000001-0100-8000-8000-000000000002
GET /api/workflow/00000001-0100-8000-8000-000000000001 @0
= 200 {"correlationId":"","createTime":0,"endTime":0,"input":{"k":"0123456"},"output":{},"reasonForIncompletion":"","startTime":0,"status":"RUNNING","tasks":[{"callbackAfterSeconds":0,"endTime":0,"inputData":{},"iteration":0,"outputData":{},"pollCount":0,"reasonForIncompletion":"","referenceTaskName":"a","retryCount":0,"scheduledTime":0,"startTime":0,"status":"SCHEDULED","taskDefName":"pick","taskId":"00000001-0200-8000-8000-000000000001","taskType":"pick","updateTime":0,"workerId":"","workflowInstanceId":"00000001-0100-8000-8000-000000000001"}],"variables":{},"workflowId":"00000001-0100-8000-8000-000000000001","workflowName":"one","workflowVersion":1}
GET /api/workflow/00000001-0100-8000-8000-000000000002 @0
= 200 {"correlationId":"","createTime":0,"endTime":0,"input":{"k":"","n":123456},"output":{},"reasonForIncompletion":"","startTime":0,"status":"RUNNING","tasks":[{"callbackAfterSeconds":0,"endTime":0,"inputData":{},"iteration":0,"outputData":{},"pollCount":0,"reasonForIncompletion":"","referenceTaskName":"a","retryCount":0,"scheduledTime":0,"startTime":0,"status":"SCHEDULED","taskDefName":"pick","taskId":"00000001-0200-8000-8000-000000000002","taskType":"pick","updateTime":0,"workerId":"","workflowInstanceId":"00000001-0100-8000-8000-000000000002"}],"variables":{},"workflowId":"00000001-0100-8000-8000-000000000002","workflowName":"one","workflowVersion":1}
"#,
    ),
    // An input of a task is measured once it is filled.
    (
        Small {
            document: 28,
            ..STANDARD
        },
        r#"
POST /api/metadata/taskdefs @0 [{"name":"pick"}]
= 200
POST /api/metadata/workflow @0 {"name":"one","tasks":[{"name":"pick","taskReferenceName":"a","inputParameters":{"x":"${workflow.input.s}${workflow.input.s}"}}]}
= 200
POST /api/workflow/one @0 {"s":"0123456789"}
= 200 00000001-0100-8000-8000-000000000001
POST /api/workflow/one @0 {"s":"0123456789a"}
= 200 00000001-0100-8000-8000-000000000002
GET /api/workflow/00000001-0100-8000-8000-000000000001 @0
= 200 {"correlationId":"","createTime":0,"endTime":0,"input":{"s":"0123456789"},"output":{},"reasonForIncompletion":"","startTime":0,"status":"RUNNING","tasks":[{"callbackAfterSeconds":0,"endTime":0,"inputData":{"x":"01234567890123456789"},"iteration":0,"outputData":{},"pollCount":0,"reasonForIncompletion":"","referenceTaskName":"a","retryCount":0,"scheduledTime":0,"startTime":0,"status":"SCHEDULED","taskDefName":"pick","taskId":"00000001-0200-8000-8000-000000000001","taskType":"pick","updateTime":0,"workerId":"","workflowInstanceId":"00000001-0100-8000-8000-000000000001"}],"variables":{},"workflowId":"00000001-0100-8000-8000-000000000001","workflowName":"one","workflowVersion":1}
GET /api/workflow/00000001-0100-8000-8000-000000000002 @0
= 200 {"correlationId":"","createTime":0,"endTime":0,"input":{"s":"0123456789a"},"output":{},"reasonForIncompletion":"document limit","startTime":0,"status":"FAILED","tasks":[],"variables":{},"workflowId":"00000001-0100-8000-8000-000000000002","workflowName":"one","workflowVersion":1}
GET /api/tasks/00000001-0200-8000-8000-000000000002 @0
= 404 {"code":"NOT_FOUND","message":"no such thing","status":404}
"#,
    ),
    // An input of a task is measured with the keys that the task's template gives it.
    (
        Small {
            document: 17,
            ..STANDARD
        },
        r#"
POST /api/metadata/taskdefs @0 [{"name":"pick","inputTemplate":{"k":"012345678"}},{"name":"pack","inputTemplate":{"k":"0123456789"}}]
= 200
POST /api/metadata/workflow @0 {"name":"order","tasks":[{"name":"pick","taskReferenceName":"a"},{"name":"pack","taskReferenceName":"b"}]}
= 200
POST /api/workflow/order @0 {}
= 200 00000001-0100-8000-8000-000000000001
POST /api/tasks @0 {"taskId":"00000001-0200-8000-8000-000000000001","status":"COMPLETED"}
= 200 00000001-0200-8000-8000-000000000001
GET /api/workflow/00000001-0100-8000-8000-000000000001 @0
= 200 {"correlationId":"","createTime":0,"endTime":0,"input":{},"output":{},"reasonForIncompletion":"document limit","startTime":0,"status":"FAILED","tasks":[{"callbackAfterSeconds":0,"endTime":0,"inputData":{"k":"012345678"},"iteration":0,"outputData":{},"pollCount":0,"reasonForIncompletion":"","referenceTaskName":"a","retryCount":0,"scheduledTime":0,"startTime":0,"status":"COMPLETED","taskDefName":"pick","taskId":"00000001-0200-8000-8000-000000000001","taskType":"pick","updateTime":0,"workerId":"","workflowInstanceId":"00000001-0100-8000-8000-000000000001"}],"variables":{},"workflowId":"00000001-0100-8000-8000-000000000001","workflowName":"order","workflowVersion":1}
"#,
    ),
    // An output of a flow is measured once it is filled.
    (
        Small {
            document: 28,
            ..STANDARD
        },
        r#"
POST /api/metadata/taskdefs @0 [{"name":"pick"}]
= 200
POST /api/metadata/workflow @0 {"name":"one","tasks":[{"name":"pick","taskReferenceName":"a"}],"outputParameters":{"x":"${a.output.s}${a.output.s}"}}
= 200
POST /api/workflow/one @0 {}
= 200 00000001-0100-8000-8000-000000000001
POST /api/workflow/one @0 {}
= 200 00000001-0100-8000-8000-000000000002
POST /api/tasks @0 {"taskId":"00000001-0200-8000-8000-000000000001","status":"COMPLETED","outputData":{"s":"0123456789"}}
= 200 00000001-0200-8000-8000-000000000001
POST /api/tasks @0 {"taskId":"00000001-0200-8000-8000-000000000002","status":"COMPLETED","outputData":{"s":"0123456789a"}}
= 200 00000001-0200-8000-8000-000000000002
GET /api/workflow/00000001-0100-8000-8000-000000000001?includeTasks=false @0
= 200 {"correlationId":"","createTime":0,"endTime":0,"input":{},"output":{"x":"01234567890123456789"},"reasonForIncompletion":"","startTime":0,"status":"COMPLETED","tasks":[],"variables":{},"workflowId":"00000001-0100-8000-8000-000000000001","workflowName":"one","workflowVersion":1}
GET /api/workflow/00000001-0100-8000-8000-000000000002?includeTasks=false @0
= 200 {"correlationId":"","createTime":0,"endTime":0,"input":{},"output":{},"reasonForIncompletion":"document limit","startTime":0,"status":"FAILED","tasks":[],"variables":{},"workflowId":"00000001-0100-8000-8000-000000000002","workflowName":"one","workflowVersion":1}
"#,
    ),
];

/// The standard limits but for those; none is above the standard one.
fn limits_of(small: Small) -> Limits {
    let mut limits = Limits::STANDARD;
    limits.flows = small.flows.min(20_000);
    limits.attempts = small.attempts.min(4_096);
    limits.depth = small.depth.min(64);
    limits.document = small.document.min(1_048_576);
    limits
}

/// The bytes of the request that a line says.
fn request(alloc: Global, line: &str) -> Result<String, Fail> {
    let (start, rest) = line.split_once(" @").unwrap_or((line, "0"));
    let (moment, body) = rest.split_once(' ').unwrap_or((rest, ""));
    let length = body.len();
    Ok(format!(in alloc;
        "{start} HTTP/1.1\r\nMoment-Ms: {moment}\r\nContent-Length: {length}\r\n\r\n{body}"
    )?)
}

/// One step of the machine, where it can make one more.
fn stepped(alloc: Global, core: &mut Core, message: &Message) -> Result<Reply, Fail>
    ensures { IfOk result IsPrintable }
{
    if core.entries() >= 1 << 61 {
        return Err(Fail::new("too many entries"));
    }
    let routes = Routes::new(alloc)?;
    let Ok(Some(moment)) = moment_of(message) else {
        return Err(Fail::new("no moment"));
    };
    match read_call(alloc, message, 1, &Limits::STANDARD, &routes) {
        Ok(call) => Ok(core.step(alloc, 0, moment.min(LAST_MOMENT), call)),
        Err(_) => Err(Fail::new("a request is no call")),
    }
}

/// The status and the body of the machine's reply to the request that a line says.
fn answer(alloc: Global, core: &mut Core, line: &str) -> Result<String, Fail> {
    let request = request(alloc, line)?;
    let mut source = MemorySource::new(alloc, request.as_str().as_bytes(), 4096, &[])?;
    let items = all_messages(alloc, &mut source, &Limits::STANDARD);
    let Some(message) = items.messages.first() else {
        return Err(Fail::new("no request"));
    };
    let reply = stepped(alloc, core, message)?;
    let text = print_reply(alloc, &reply, 1, false, false)?;
    let (head, body) = text.as_str().split_once("\r\n\r\n").unwrap_or(("", ""));
    let status = head.split(' ').nth(1).unwrap_or("");
    Ok(format!(in alloc; "= {status} {body}")?)
}

/// Asks each request of a run, and compares its answer.
fn assert_run(rt: &impl Abort, alloc: Global, core: &mut Core, run: &str) -> Result<(), Fail> {
    let mut answered = String::new(alloc);
    for line in run.lines() {
        if line.starts_with("= ") {
            assert_eq!(rt; answered.as_str().trim_end(), line);
        } else if !line.is_empty() {
            answered = answer(alloc, core, line)?;
        }
    }
    Ok(())
}

#[test]
fn limits_hold(rt: HostRuntime) -> Result<(), Fail> {
    for (small, run) in RUNS {
        let mut core = Core::new(rt.alloc(), 1, limits_of(small))?;
        assert_run(&rt, rt.alloc(), &mut core, run)?;
    }
    Ok(())
}
