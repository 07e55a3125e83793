//! Replies as bytes.

ghost use Rattle.std.specs.Prelude.{◌≡◌, ◌++◌, IfOk, OnOk, codes, string_bytes};
ghost use Rattle.std.specs.Fmt.{decimal};
ghost use Rattle.wf_machine.specs.Replies.{IsPrintable};
ghost use Rattle.wf_rest.specs.Responses as spec;

use crate::faulting::HttpFault;
use crate::response::Response;
use std::alloc::Global;
use wf_doc::{NoMemory, Text};
use wf_machine::Reply;
use wf_names::ids::id_text;

/// The bytes of a reply of the store with that mark: `close` where the connection ends after it, `head` where the
/// request was a HEAD, whose reply has no body.
pub fn print_reply(
    alloc: Global,
    reply: &Reply,
    mark: u32,
    close: bool,
    head: bool,
) -> Result<Text, NoMemory>
    requires { IsPrintable reply.now }
    ensures { IfOk result (λ text. text ≡ spec.printed_reply mark reply.now close head) }
{
    print_response(alloc, &response_of(alloc, reply, mark)?, close, head)
}

/// The bytes of a fault's reply, likewise.
pub fn print_fault(
    alloc: Global,
    fault: &HttpFault,
    close: bool,
    head: bool,
) -> Result<Text, NoMemory>
    ensures { IfOk result (λ text. text ≡ spec.printed_fault fault.now close head) }
{
    print_response(alloc, &fault_response(alloc, fault)?, close, head)
}

fn response_of(alloc: Global, reply: &Reply, mark: u32) -> Result<Response, NoMemory>
    requires { IsPrintable reply.now }
    ensures { IfOk result (λ response. response ≡ spec.response_of mark reply.now) }
{
    match reply {
        Reply::Accepted => Response::empty(alloc, 200),
        Reply::Id(kind, number) => {
            let bytes = id_text(mark, *kind, *number);
            match str::from_utf8(&bytes) {
                Ok(text) => Response::text(alloc, text),
                Err(_) => unreachable!(),
            }
        }
        Reply::Json(doc) => Response::json(alloc, 200, doc),
        Reply::Nothing => Response::empty(alloc, 204),
        Reply::Refused(refusal) => {
            Response::refusal(alloc, refusal.code(), refusal.message(), refusal.status())
        }
    }
}

fn fault_response(alloc: Global, fault: &HttpFault) -> Result<Response, NoMemory>
    ensures { IfOk result (λ response. response ≡ spec.fault_response fault.now) }
{
    let row = fault_row(alloc, fault)?;
    let response = Response::refusal(alloc, row.code, row.message.as_str(), row.status)?;
    Ok(response.allowing(fault_allow(alloc, fault)?))
}

/// The methods that a fault lists.
fn fault_allow(alloc: Global, fault: &HttpFault) -> Result<Text, NoMemory>
    ensures { IfOk result (λ allow. allow ≡ spec.fault_allow fault.now) }
{
    match fault {
        HttpFault::BadMethod(allow) => allow.copy(alloc),
        _ => Text::new(alloc, ""),
    }
}

/// What is answered for a fault.
#[derive(Drop)]
struct Row {
    code: &'static str,
    status: u16,
    message: Text,
}

impl Row {
    fn new(alloc: Global, code: &'static str, status: u16, message: &str) -> Result<Row, NoMemory>
        ensures code { IfOk result (λ row. row.code.now ≡ code.now) }
        ensures status { IfOk result (λ row. row.status ≡ status) }
        ensures message { IfOk result (λ row. row.message ≡ message.now) }
    {
        Ok(Row {
            code,
            status,
            message: Text::new(alloc, message)?,
        })
    }
}

fn fault_row(alloc: Global, fault: &HttpFault) -> Result<Row, NoMemory>
    ensures code { IfOk result (λ row. row.code.now ≡ (spec.fault_row fault.now).0) }
    ensures status { IfOk result (λ row. row.status ≡ (spec.fault_row fault.now).1) }
    ensures message { IfOk result (λ row. row.message ≡ (spec.fault_row fault.now).2) }
{
    match fault {
        HttpFault::BadFrame => Row::new(alloc, "BAD_FRAME", 400, "not an HTTP message"),
        HttpFault::Coding => Row::new(alloc, "CODING", 501, "unknown transfer coding"),
        HttpFault::HeadTooLarge => {
            Row::new(alloc, "HEAD_TOO_LARGE", 431, "the head is too large")
        }
        HttpFault::BodyTooLarge => {
            Row::new(alloc, "BODY_TOO_LARGE", 413, "the body is too large")
        }
        HttpFault::ContentEncoding => {
            Row::new(alloc, "CONTENT_ENCODING", 415, "the body is encoded")
        }
        HttpFault::BadMoment => Row::new(alloc, "BAD_MOMENT", 400, "Moment-Ms is not a moment"),
        HttpFault::NoRoute => Row::new(alloc, "NO_ROUTE", 404, "no such path"),
        HttpFault::BadMethod(_) => Row::new(alloc, "BAD_METHOD", 405, "no such method here"),
        HttpFault::BadPath => Row::new(alloc, "BAD_PATH", 400, "bad path parameter"),
        HttpFault::BadQuery => Row::new(alloc, "BAD_QUERY", 400, "bad query"),
        HttpFault::Syntax => Row::new(alloc, "SYNTAX", 400, "not a JSON text"),
        HttpFault::Fraction => {
            Row::new(
                alloc,
                "FRACTION",
                400,
                "a number has a fraction or an exponent",
            )
        }
        HttpFault::Range => Row::new(alloc, "RANGE", 400, "a number is out of range"),
        HttpFault::TooDeep => Row::new(alloc, "TOO_DEEP", 400, "nested too deep"),
        HttpFault::BadBody => Row::new(alloc, "BAD_BODY", 400, "the body has another form"),
        HttpFault::BadDefinition(rule, place) => definition_row(alloc, *rule, place.as_str()),
        HttpFault::StoreFault => Row::new(alloc, "STORE_FAULT", 503, "the store failed"),
        HttpFault::NotBuilt => Row::new(alloc, "NOT_BUILT", 501, "not built yet"),
        HttpFault::NoMemory => Row::new(alloc, "NO_MEMORY", 500, "no memory"),
    }
}

fn definition_row(alloc: Global, rule: u8, place: &str) -> Result<Row, NoMemory>
    ensures code { IfOk result (λ row. row.code.now ≡ codes "BAD_DEFINITION") }
    ensures status { IfOk result (λ row. row.status ≡ 400) }
    ensures message { IfOk result (λ row. row.message ≡ spec.definition_message rule place.now) }
{
    let message = definition_message(alloc, rule, place)?;
    Row::new(alloc, "BAD_DEFINITION", 400, message.as_str())
}

fn definition_message(alloc: Global, rule: u8, place: &str) -> Result<String, NoMemory>
    ensures { IfOk result (λ text. string_bytes text ≡ spec.definition_message rule place.now) }
{
    Ok(format!(in alloc; "rule {rule} at {place}")?)
}

#[tactic(auto, unfolding(crate::specs::Responses::response_bytes))]
fn print_response(
    alloc: Global,
    response: &Response,
    close: bool,
    head: bool,
) -> Result<Text, NoMemory>
    ensures { IfOk result (λ text. text ≡ spec.response_bytes response.now close head) }
{
    let mut out = status_line(alloc, response.status())?;
    push_allow(&mut out, response.allow())?;
    push_connection(&mut out, close)?;
    push_type(&mut out, response)?;
    push_length(alloc, &mut out, response)?;
    out.push_str("\r\n")?;
    push_body(&mut out, response.body(), head)?;
    Ok(Text::from_string(out))
}

fn status_line(alloc: Global, status: u16) -> Result<String, NoMemory>
    ensures { IfOk result (λ line. string_bytes line ≡ spec.status_line status) }
{
    let mut line = String::from_str(alloc, "HTTP/1.1 ")?;
    line.push_str(status.to_string(alloc)?.as_str())?;
    line.push_str(" ")?;
    line.push_str(phrase_of(status))?;
    line.push_str("\r\n")?;
    Ok(line)
}

fn push_allow(out: &mut String, allow: &str) -> Result<(), NoMemory>
    ensures { OnOk result (string_bytes out.new ≡ string_bytes out.old ++ spec.allow_line allow.now) }
{
    if allow.is_empty() {
        return Ok(());
    }
    out.push_str("Allow: ")?;
    out.push_str(allow)?;
    out.push_str("\r\n")?;
    Ok(())
}

fn push_connection(out: &mut String, close: bool) -> Result<(), NoMemory>
    ensures { OnOk result (string_bytes out.new ≡ string_bytes out.old ++ spec.connection_line close) }
{
    if !close {
        return Ok(());
    }
    out.push_str("Connection: close\r\n")?;
    Ok(())
}

fn push_type(out: &mut String, response: &Response) -> Result<(), NoMemory>
    ensures { OnOk result (string_bytes out.new ≡ string_bytes out.old ++ spec.type_line response.now) }
{
    if response.is_empty() {
        return Ok(());
    }
    push_media(out, response.media())
}

fn push_media(out: &mut String, media: &str) -> Result<(), NoMemory>
    ensures { OnOk result (string_bytes out.new ≡ string_bytes out.old ++ spec.line (codes "Content-Type: " ++ media.now)) }
{
    out.push_str("Content-Type: ")?;
    out.push_str(media)?;
    out.push_str("\r\n")?;
    Ok(())
}

fn push_length(alloc: Global, out: &mut String, response: &Response) -> Result<(), NoMemory>
    ensures { OnOk result (string_bytes out.new ≡ string_bytes out.old ++ spec.length_line response.now) }
{
    if response.status() == 204 {
        return Ok(());
    }
    out.push_str("Content-Length: ")?;
    out.push_str(response.body().len().to_string(alloc)?.as_str())?;
    out.push_str("\r\n")?;
    Ok(())
}

fn push_body(out: &mut String, body: &str, head: bool) -> Result<(), NoMemory>
    ensures { OnOk result (string_bytes out.new ≡ string_bytes out.old ++ spec.sent_body head body.now) }
{
    if head {
        return Ok(());
    }
    out.push_str(body)?;
    Ok(())
}

/// The phrase of a status code (RFC 9110).
fn phrase_of(status: u16) -> &'static str
    ensures { result.now ≡ spec.phrase_of status }
{
    match status {
        200 => "OK",
        204 => "No Content",
        400 => "Bad Request",
        404 => "Not Found",
        405 => "Method Not Allowed",
        409 => "Conflict",
        413 => "Content Too Large",
        415 => "Unsupported Media Type",
        431 => "Request Header Fields Too Large",
        500 => "Internal Server Error",
        501 => "Not Implemented",
        _ => "Service Unavailable",
    }
}
