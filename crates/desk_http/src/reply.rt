//! An answer, and its text.

ghost use Rattle.std.specs.Prelude.{◌≡◌, ◌++◌, IfOk, OnOk, codes, decimal, length, slice_get, string_bytes};
ghost use Rattle.desk_http.specs.Reply.{IsReply, connection_field, head_text, kind_text, named_field, refused_json, reply_text, run_field};
ghost use Rattle.desk_http.specs.Refused.{name_in, refused_name, refused_status, refused_words};

use crate::refused::Refused;
use crate::run::Run;
use crate::status::Status;
use crate::user::User;
use desk_json::said_json;
use std::alloc::{AllocError, Global};

/// What a body is.
#[derive(Clone, Copy, Debug, PartialEq, Eq)]
pub enum Kind {
    Json,
    Page,
    /// Prometheus' text.
    Metrics,
}

impl Kind {
    pub(crate) fn text(self) -> &'static str
        ensures { result.now ≡ kind_text self }
    {
        match self {
            Kind::Json => "application/json",
            Kind::Page => "text/html; charset=utf-8",
            Kind::Metrics => "text/plain; version=0.0.4; charset=utf-8",
        }
    }
}

/// An answer with its whole body.
#[derive(Debug, Drop)]
pub struct Reply {
    pub status: Status,
    pub kind: Kind,
    pub body: String,
}

/// An answer in JSON.
pub(crate) fn json_reply(status: Status, body: String) -> Reply
    ensures { IsReply result status Kind.Json (string_bytes body) }
{
    Reply {
        status,
        kind: Kind::Json,
        body,
    }
}

/// The name of the user at a place, if there is one.
fn name_at(users: &[User], place: usize) -> &str
    ensures { result.now ≡ name_in (slice_get users.now place) }
{
    match users.get(place) {
        Some(user) => user.name.as_str(),
        None => "",
    }
}

/// The name of the user that a refusal is about; none where it is about nobody.
fn refused_name(users: &[User], refused: Refused) -> &str
    ensures { result.now ≡ refused_name users.now refused }
{
    match refused {
        Refused::MayNot { user, .. } => name_at(users, user),
        _ => "",
    }
}

/// Why a request isn't carried out, in words.
fn refused_text(alloc: Global, users: &[User], refused: Refused) -> Result<String, AllocError>
    ensures { IfOk result (λ text. string_bytes text ≡ refused_name users.now refused ++ refused_words refused) }
{
    let (name, words) = (refused_name(users, refused), refused.words());
    format!(in alloc; "{name}{words}")
}

/// An answer that says why a request isn't carried out; these are the users. The only refusal is out of memory.
pub(crate) fn refused_reply(
    alloc: Global,
    users: &[User],
    refused: Refused,
) -> Result<Reply, AllocError>
    ensures { IfOk result (λ reply. IsReply reply (refused_status refused) Kind.Json
        (refused_json users.now refused)) }
{
    let text = refused_text(alloc, users, refused)?;
    let body = said_json(alloc, text.as_str())?;
    Ok(json_reply(refused.status(), body))
}

/// The head of an answer, up to the fields that every answer has.
fn head_text(
    alloc: Global,
    line: &str,
    kind: &str,
    len: usize,
    more: &str,
) -> Result<String, AllocError>
    ensures { IfOk result (λ text. string_bytes text ≡ head_text line.now kind.now len more.now) }
{
    format!(in alloc; "HTTP/1.1 {line}\r\nContent-Type: {kind}\r\nContent-Length: {len}\r\n{more}")
}

/// Appends the field of a name, with its line's end, where there is one.
fn append_named(head: &str, name: &String, text: &mut String) -> Result<(), AllocError>
    ensures { OnOk result (string_bytes text.new
        ≡ string_bytes text.old ++ named_field head.now (string_bytes name.now)) }
{
    if !name.is_empty() {
        text.push_str(head)?;
        text.push_str(name.as_str())?;
        text.push_str("\r\n")?;
    }
    Ok(())
}

/// The fields that say which run of which desk answers, each with its line's end.
pub(crate) fn run_field(alloc: Global, run: &Run) -> Result<String, AllocError>
    ensures { IfOk result (λ text. string_bytes text ≡ run_field run.now) }
{
    let id = run.id.as_str();
    let mut text = format!(in alloc; "Dispatch-Run: {id}\r\n")?;
    append_named("Dispatch-Desk: ", &run.desk, &mut text)?;
    append_named("Dispatch-Environment: ", &run.environment, &mut text)?;
    Ok(text)
}

/// What an answer says of its connection, and the end of its head.
pub(crate) fn connection_field(stays: bool) -> &'static str
    ensures { result.now ≡ connection_field stays }
{
    if stays {
        "Connection: keep-alive\r\n\r\n"
    } else {
        "Connection: close\r\n\r\n"
    }
}

/// The text of an answer of a run, behind which its connection stays or is closed: its status, its head and its body.
/// The only refusal is out of memory.
pub(crate) fn reply_text(
    alloc: Global,
    run: &Run,
    stays: bool,
    reply: &Reply,
) -> Result<String, AllocError>
    ensures { IfOk result (λ text. string_bytes text ≡ reply_text run.now stays reply.now) }
{
    let body = reply.body.as_str();
    let line = reply.status.line();
    let more = reply.status.more_head();
    let mut text = head_text(alloc, line, reply.kind.text(), body.len(), more)?;
    let field = run_field(alloc, run)?;
    text.push_str(field.as_str())?;
    text.push_str(SAFE_HEAD)?;
    text.push_str(connection_field(stays))?;
    text.push_str(body)?;
    Ok(text)
}

/// The fields that every answer has.
pub(crate) const SAFE_HEAD: &str =
    "Cache-Control: no-store\r\nX-Content-Type-Options: nosniff\r\nX-Frame-Options: DENY\r\n";
