//! What a reply says, before it is framed.

ghost use Rattle.std.specs.Prelude.{◌≡◌, ◌==◌, IfOk, length};
ghost use Rattle.wf_rest.specs.Responses as spec;

use std::alloc::Global;
use std::marker::Model;
use wf_doc::{Doc, Fields, NoMemory, Text, print};

/// A reply's status, the methods that it allows where it says so, its body and the body's media type.
#[derive(Drop)]
pub struct Response {
    status: u16,
    allow: Text,
    media: &'static str,
    body: Text,
}

impl Model for Response {
    ghost Value = { spec.Response };

    ghost view = { λ r. record { status = r.status; allow = r.allow; media = r.media.now; body = r.body } };
}

impl Response {
    /// A reply without a body.
    pub fn empty(alloc: Global, status: u16) -> Result<Response, NoMemory>
        ensures { IfOk result (λ response. response ≡ spec.empty_response status) }
    {
        Ok(Response {
            status,
            allow: Text::new(alloc, "")?,
            media: "",
            body: Text::new(alloc, "")?,
        })
    }

    /// The text, with status 200.
    pub fn text(alloc: Global, text: &str) -> Result<Response, NoMemory>
        ensures { IfOk result (λ response. response ≡ spec.text_response text.now) }
    {
        Ok(Response {
            status: 200,
            allow: Text::new(alloc, "")?,
            media: "text/plain",
            body: Text::new(alloc, text)?,
        })
    }

    pub fn json(alloc: Global, status: u16, doc: &Doc) -> Result<Response, NoMemory>
        ensures { IfOk result (λ response. response ≡ spec.json_response status doc.now) }
    {
        Ok(Response {
            status,
            allow: Text::new(alloc, "")?,
            media: "application/json",
            body: print(alloc, doc)?,
        })
    }

    /// The refusal with its code, message and status, in its body too.
    pub fn refusal(
        alloc: Global,
        code: &str,
        message: &str,
        status: u16,
    ) -> Result<Response, NoMemory>
        ensures { IfOk result (λ response. response ≡ spec.refusal_response code.now message.now status) }
    {
        let doc = refusal_document(alloc, code, message, status)?;
        Response::json(alloc, status, &doc)
    }

    /// The same, with these methods in its field Allow; an empty list of them is no field.
    pub fn allowing(self, allow: Text) -> Response
        ensures { result ≡ spec.allowing allow self }
    {
        Response {
            status: self.status,
            allow,
            media: self.media,
            body: self.body,
        }
    }

    pub fn allow(&self) -> &str
        ensures { result.now ≡ self.now.allow }
    {
        self.allow.as_str()
    }

    pub fn status(&self) -> u16
        ensures { result ≡ self.now.status }
    {
        self.status
    }

    pub fn media(&self) -> &str
        ensures { result.now ≡ self.now.media }
    {
        self.media
    }

    /// There is no body.
    pub fn is_empty(&self) -> bool
        ensures { result ≡ (length self.now.body == 0) }
    {
        self.body.as_str().is_empty()
    }

    pub fn body(&self) -> &str
        ensures { result.now ≡ self.now.body }
    {
        self.body.as_str()
    }
}

fn refusal_document(alloc: Global, code: &str, message: &str, status: u16) -> Result<Doc, NoMemory>
    ensures { IfOk result (λ doc. doc ≡ spec.refusal_document code.now message.now status) }
{
    let mut fields = Fields::new(alloc);
    fields.set(
        Text::new(alloc, "code")?,
        Doc::Text(Text::new(alloc, code)?),
    )?;
    fields.set(
        Text::new(alloc, "message")?,
        Doc::Text(Text::new(alloc, message)?),
    )?;
    fields.set(Text::new(alloc, "status")?, Doc::Int(status as i64))?;
    Ok(Doc::Table(fields))
}
