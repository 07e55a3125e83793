//! A child flow that has ended.

ghost use Rattle.std.specs.Prelude.{◌≡◌, ◌<◌, ◌^◌};

use std::marker::Model;
use wf_doc::Doc;
use wf_names::{FlowNo, FlowStatus};

/// What the rules read of a child that has ended, wherever it is kept.
#[derive(Drop)]
pub struct EndedChild<'c> {
    number: FlowNo,
    status: FlowStatus,
    output: &'c Doc,
    reason: &'c str,
}

impl<'c> Model for EndedChild<'c> {
    ghost use Rattle.std.specs.Prelude.{◌<◌, ◌^◌};
    ghost use Rattle.std.specs.Coded.{codes};
    ghost use Rattle.wf_doc.specs.contracts.doc.Doc as doc;
    ghost use Rattle.wf_machine.specs.declared.sight.ChildState.{ChildState};

    ghost Value = { ChildState };

    ghost coded = { Prim.hlevel (codes, doc.the_row.coded) };

    ghost view = { λ c. record { flow = c.number; status = c.status; output = c.output.now; reason = c.reason.now } };

    ghost invariant = { λ c. c.number.0 < 2 ^ 56 };
}

impl<'c> EndedChild<'c> {
    pub fn new(
        number: FlowNo,
        status: FlowStatus,
        output: &'c Doc,
        reason: &'c str,
    ) -> EndedChild<'c>
        requires { number.0 < 2 ^ 56 }
        ensures { result ≡ record { flow = number; status = status; output = output.now; reason = reason.now } }
    {
        EndedChild {
            number,
            status,
            output,
            reason,
        }
    }

    /// Its number, which an id can hold.
    pub fn number(&self) -> FlowNo
        ensures value { result ≡ self.now.flow }
        ensures small { result.0 < 2 ^ 56 }
    {
        self.number
    }

    pub fn status(&self) -> FlowStatus
        ensures { result ≡ self.now.status }
    {
        self.status
    }

    pub fn output(&self) -> &'c Doc
        ensures { result.now ≡ self.now.output }
    {
        self.output
    }

    /// Why it ended without completing; empty where nothing was said.
    pub fn reason(&self) -> &'c str
        ensures { result.now ≡ self.now.reason }
    {
        self.reason
    }
}
