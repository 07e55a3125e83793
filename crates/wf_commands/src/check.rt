//! The command `check`: one document from a source, and whether it is a valid definition.

ghost use Rattle.std.specs.Prelude.{◌≡◌, ◌≢◌, ◌↔◌, IfOk, None, Some, string_bytes, true, false};
ghost use Rattle.wf_wire.specs.Stream.{Rose};
ghost use Rattle.wf_defs.specs.FlowRules.{flow_rule};
ghost use Rattle.wf_defs.specs.Several.{first_fault_in};
ghost use Rattle.wf_defs.specs.TaskRules.{task_rule};
ghost use Rattle.wf_commands.specs.Words.{are_check};
ghost use Rattle.wf_commands.specs.Checking as spec;
ghost use Rattle.wf_commands.specs.Checking.{ChecksOver, ChecksStandard, CompletesStandard, IsTold};
ghost use Rattle.wf_commands.specs.Standard.{IsStandard};

use crate::input::{Input, read_input};
use crate::status::Status;
use crate::words::{Word, is_check};
use std::alloc::Global;
use wf_defs::{DefFault, read_flowdef, read_taskdefs};
use wf_doc::{Doc, DocFault, NoMemory, Text, read};
use wf_wire::{Limits, Sink, Source, write_all};

/// What is to be said of an input.
#[derive(Drop)]
pub enum Verdict {
    /// It is a valid definition.
    Valid,
    /// It is no document.
    Unread(DocFault),
    /// It is a document that breaks a rule.
    Broken(DefFault),
}

// ---- the first fault

/// The first fault of task definitions.
fn list_fault(alloc: Global, items: &[Doc]) -> Result<Option<DefFault>, NoMemory>
    ensures { IfOk result (λ fault. fault ≡ first_fault_in task_rule 0 items.now) }
{
    match read_taskdefs(alloc, items) {
        Ok(_) => Ok(None),
        Err(DefFault::NoMemory) => Err(NoMemory),
        Err(fault) => Ok(Some(fault)),
    }
}

/// The fault of a workflow definition.
fn flow_fault(alloc: Global, limits: &Limits, doc: Doc) -> Result<Option<DefFault>, NoMemory>
    ensures { IfOk result (λ fault. fault ≡ flow_rule limits.now.nodes doc) }
{
    match read_flowdef(alloc, doc, limits) {
        Ok(_) => Ok(None),
        Err(DefFault::NoMemory) => Err(NoMemory),
        Err(fault) => Ok(Some(fault)),
    }
}

/// The first fault of a document: a list is one of task definitions, anything else a workflow definition.
fn definition_fault(alloc: Global, limits: &Limits, doc: Doc) -> Result<Option<DefFault>, NoMemory>
    ensures { IfOk result (λ fault. fault ≡ spec.definition_fault limits.now.nodes doc) }
{
    match doc.as_list() {
        Some(items) => list_fault(alloc, items.as_slice()),
        None => flow_fault(alloc, limits, doc),
    }
}

// ---- the verdict

/// What is to be said of these bytes.
fn judge(alloc: Global, limits: &Limits, bytes: &[u8]) -> Result<Verdict, NoMemory>
    ensures { IfOk result (λ verdict. verdict ≡ spec.verdict limits.now bytes.now) }
{
    match read(alloc, bytes, limits.depth) {
        Ok(doc) => Ok(verdict_on(definition_fault(alloc, limits, doc)?)),
        Err(DocFault::NoMemory) => Err(NoMemory),
        Err(fault) => Ok(Verdict::Unread(fault)),
    }
}

fn verdict_on(fault: Option<DefFault>) -> Verdict
    ensures { result ≡ spec.verdict_on fault }
{
    match fault {
        None => Verdict::Valid,
        Some(fault) => Verdict::Broken(fault),
    }
}

fn verdict_status(verdict: &Verdict) -> Status
    ensures { result ≡ spec.verdict_status verdict.now }
{
    match verdict {
        Verdict::Valid => Status::Done,
        Verdict::Unread(_) => Status::Invalid,
        Verdict::Broken(_) => Status::Invalid,
    }
}

// ---- what is written

fn document_code(fault: DocFault) -> &'static str
    ensures { result.now ≡ spec.document_code fault }
{
    match fault {
        DocFault::Syntax => "SYNTAX",
        DocFault::Fraction => "FRACTION",
        DocFault::Range => "RANGE",
        DocFault::TooDeep => "TOO_DEEP",
        DocFault::NoMemory => "NO_MEMORY",
    }
}

/// The rule by its number, and the place.
fn rule_text(alloc: Global, rule: u8, place: &str) -> Result<String, NoMemory>
    ensures { IfOk result (λ text. string_bytes text ≡ spec.rule_text rule place.now) }
{
    Ok(format!(in alloc; "rule {rule} at {place}")?)
}

fn fault_text(alloc: Global, fault: &DefFault) -> Result<String, NoMemory>
    ensures { IfOk result (λ text. string_bytes text ≡ spec.fault_text fault.now) }
{
    match fault {
        DefFault::Rule { rule, place } => rule_text(alloc, *rule, place.as_str()),
        DefFault::NoMemory => Err(NoMemory),
    }
}

fn verdict_text(alloc: Global, verdict: &Verdict) -> Result<String, NoMemory>
    ensures { IfOk result (λ text. string_bytes text ≡ spec.verdict_text verdict.now) }
{
    match verdict {
        Verdict::Valid => Ok(String::from_str(alloc, "ok")?),
        Verdict::Unread(fault) => Ok(String::from_str(alloc, document_code(*fault))?),
        Verdict::Broken(fault) => fault_text(alloc, fault),
    }
}

/// The text of the verdict, and a line feed.
fn line(alloc: Global, verdict: &Verdict) -> Result<String, NoMemory>
    ensures { IfOk result (λ text. string_bytes text ≡ spec.line verdict.now) }
{
    let mut text = verdict_text(alloc, verdict)?;
    text.push_str("\n")?;
    Ok(text)
}

// ---- the command

/// Writes what is to be said, and tells the status.
fn tell<W: Sink>(alloc: Global, verdict: &Verdict, sink: &mut W) -> Status
    ensures told { IsTold verdict.now (W.taken sink.old) (W.taken sink.new) result }
    ensures write_fault { result ≡ Status.WriteFault → Rose (W.faults sink.old) (W.faults sink.new) }
{
    let text = match line(alloc, verdict) {
        Ok(text) => text,
        Err(NoMemory) => return Status::NoMemory,
    };
    if write_all(sink, text.as_str().as_bytes()).is_err() {
        return Status::WriteFault;
    }
    verdict_status(verdict)
}

/// Says of these bytes what is to be said.
fn answer<W: Sink>(alloc: Global, limits: &Limits, bytes: &[u8], sink: &mut W) -> Status
    ensures told { IsTold (spec.verdict limits.now bytes.now) (W.taken sink.old) (W.taken sink.new) result }
    ensures write_fault { result ≡ Status.WriteFault → Rose (W.faults sink.old) (W.faults sink.new) }
{
    match judge(alloc, limits, bytes) {
        Ok(verdict) => tell(alloc, &verdict, sink),
        Err(NoMemory) => Status::NoMemory,
    }
}

/// What a server that is told nothing else takes.
fn standard_limits() -> Limits
    ensures { IsStandard result }
{
    Limits::STANDARD
}

/// Reads a document, and says whether it is a valid definition.
fn check_source<R: Source, W: Sink>(
    alloc: Global,
    limits: &Limits,
    source: &mut R,
    sink: &mut W,
) -> Status
    ensures run { ChecksOver limits.now (R.left source.old) (R.left source.new) (W.taken sink.old) (W.taken sink.new) result }
    ensures usage { result ≢ Status.Usage }
    ensures read_fault { result ≡ Status.ReadFault → Rose (R.faults source.old) (R.faults source.new) }
    ensures write_fault { result ≡ Status.WriteFault → Rose (W.faults sink.old) (W.faults sink.new) }
{
    match read_input(alloc, source, limits.body) {
        Input::Whole(bytes) => answer(alloc, limits, bytes.as_slice(), sink),
        Input::Long => Status::TooLarge(0),
        Input::Failed => Status::ReadFault,
        Input::NoMemory => Status::NoMemory,
    }
}

/// Says whether one document is a valid definition: a list of task definitions, or else a workflow definition.
///
/// The words are `check` alone. What is said is one line, `ok`, or the first fault: `rule N at PLACE`, or why the bytes are
/// no document. Of an input that is too large, or where memory is wanting, nothing is said.
pub fn check<R: Source, W: Sink>(
    alloc: Global,
    words: &[Word],
    source: &mut R,
    sink: &mut W,
) -> Status
    // What is said is the input's verdict.
    ensures run { are_check words.now ≡ true → ChecksStandard (R.left source.old) (R.left source.new) (W.taken sink.old) (W.taken sink.new) result }

    // When each fault may come.
    ensures usage { (result ≡ Status.Usage) ↔ (are_check words.now ≡ false) }
    ensures read_fault { result ≡ Status.ReadFault → Rose (R.faults source.old) (R.faults source.new) }
    ensures write_fault { result ≡ Status.WriteFault → Rose (W.faults sink.old) (W.faults sink.new) }

    // Words that are no command touch nothing.
    ensures idle { are_check words.now ≡ false → (R.left source.new ≡ R.left source.old) × (W.taken sink.new ≡ W.taken sink.old) }

    // Where nothing fails, the input is answered, but for want of memory.
    ensures complete { are_check words.now ≡ true → ¬ (Rose (R.faults source.old) (R.faults source.new)) → ¬ (Rose (W.faults sink.old) (W.faults sink.new))
        → CompletesStandard (R.left source.old) (W.taken sink.old) (W.taken sink.new) result }
{
    if !is_check(words) {
        return Status::Usage;
    }
    let limits = standard_limits();
    check_source(alloc, &limits, source, sink)
}
