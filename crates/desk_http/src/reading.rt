//! The requests of a connection, read from its bytes.

ghost use Rattle.std.specs.Prelude.{◌≡◌, ◌≢◌, ◌≤◌, ◌<◌, List, [], ◌++◌, All, Some, None, Ok, false, true, length, map, option_map, take, drop, IfOk, OnErr, OnOk, MatchOption};
ghost use Rattle.httparse.specs.Spans.{IsHeaderWithin, IsRequestWithin, IsWithin, header_bytes, span_bytes};
ghost use Rattle.http1.specs.declared.conn.Reading.TheVariants.{Head};
ghost use Rattle.desk_http.specs.Reading.{Came, Drafts, Gives, IsReading, Keeps, asked_by, asked_of, field, filled_field, given, method_of, unread_of};
ghost use Rattle.desk_http.specs.Reading.{with_input};

use crate::refused::Refused;
use crate::request::{Method, Request};
use bytes::{Buf, BytesMut};
use http1::fields::KnownFields;
use http1::text::eq_ignore_case;
use http1::{BodySize, Event, Limits, ReadError, Server};
use httparse::spans::{EMPTY_HEADER_SPAN, HeaderSpan, RequestSpans};
use std::alloc::{AllocError, Global};
use std::marker::Model;
use std::mem;

/// The most bytes of a body.
const MOST_BODY: usize = 64 * 1024;

/// The most fields of a head.
const MOST_FIELDS: usize = 64;

/// The most bytes of a head, and of what stands about the chunks of a body.
const LIMITS: Limits = Limits {
    max_head_len: 8 * 1024,
    max_extensions_len: 1024,
    max_trailers_len: 1024,
};

/// What was read of a request.
#[derive(Drop)]
pub(crate) struct Draft {
    pub(crate) request: Request,
    /// Whether the connection stays behind it.
    pub(crate) stays: bool,
}

/// What a step of reading came to.
#[derive(Clone, Copy)]
pub(crate) enum Step {
    /// More bytes are needed.
    More,
    /// Go on with what is there.
    On,
    /// The request is whole.
    Whole,
    /// It can't be read.
    Refused(Refused),
}

fn method_of(word: &[u8]) -> Method
    ensures { result ≡ method_of word.now }
{
    match word {
        b"GET" => Method::Get,
        b"POST" => Method::Post,
        _ => Method::Other,
    }
}

/// The value of the field of this name, if it is there; none where it stands twice.
fn given<'a>(bytes: &'a [u8], fields: &[HeaderSpan], name: &[u8]) -> Option<Option<&'a [u8]>>
    requires { All (IsHeaderWithin (length bytes.now)) fields.now }
    ensures { MatchOption result
        (given name.now (map (header_bytes bytes.now) fields.now) ≡ None)
        (λ value. given name.now (map (header_bytes bytes.now) fields.now) ≡ Some (option_map (λ v. v.now) value)) }
{
    let mut found: Option<&[u8]> = None;
    for span in fields {
        if eq_ignore_case(span.name.of(bytes), name) {
            if found.is_some() {
                return None;
            }
            found = Some(span.value.of(bytes));
        }
    }
    Some(found)
}

/// The value of the field of this name, empty where it is missing, if it doesn't stand twice.
fn field<'a>(bytes: &'a [u8], fields: &[HeaderSpan], name: &[u8]) -> Option<&'a [u8]>
    requires { All (IsHeaderWithin (length bytes.now)) fields.now }
    ensures { MatchOption result
        (field name.now (map (header_bytes bytes.now) fields.now) ≡ None)
        (λ value. field name.now (map (header_bytes bytes.now) fields.now) ≡ Some value.now) }
{
    match given(bytes, fields, name)? {
        Some(value) => Some(value),
        None => Some(&[]),
    }
}

/// The same of a field that isn't empty where it is there.
fn filled_field<'a>(bytes: &'a [u8], fields: &[HeaderSpan], name: &[u8]) -> Option<&'a [u8]>
    requires { All (IsHeaderWithin (length bytes.now)) fields.now }
    ensures { MatchOption result
        (filled_field name.now (map (header_bytes bytes.now) fields.now) ≡ None)
        (λ value. filled_field name.now (map (header_bytes bytes.now) fields.now) ≡ Some value.now) }
{
    match given(bytes, fields, name)? {
        Some(value) if value.is_empty() => None,
        Some(value) => Some(value),
        None => Some(&[]),
    }
}

fn copied(alloc: Global, bytes: &[u8]) -> Result<Vec<u8>, AllocError>
    ensures { IfOk result (λ copy. copy.items ≡ bytes.now) }
{
    let mut copy = Vec::new(alloc);
    copy.extend_from_slice(bytes)?;
    Ok(copy)
}

/// What a head asks, if no field that the desk looks at stands twice, and its reference isn't empty.
fn request_of(
    alloc: Global,
    method: &[u8],
    target: &[u8],
    bytes: &[u8],
    fields: &[HeaderSpan],
) -> Result<Option<Request>, AllocError>
    requires { All (IsHeaderWithin (length bytes.now)) fields.now }
    ensures { IfOk result (λ asked. MatchOption asked
        (asked_by method.now target.now (map (header_bytes bytes.now) fields.now) ≡ None)
        (λ request. (asked_by method.now target.now (map (header_bytes bytes.now) fields.now)
        ≡ Some (asked_of request)) × (request.body.items ≡ []))) }
{
    let Some(host) = field(bytes, fields, b"host") else {
        return Ok(None);
    };
    let Some(origin) = field(bytes, fields, b"origin") else {
        return Ok(None);
    };
    let Some(content_type) = field(bytes, fields, b"content-type") else {
        return Ok(None);
    };
    let Some(authorization) = field(bytes, fields, b"authorization") else {
        return Ok(None);
    };
    let Some(last_event_id) = field(bytes, fields, b"last-event-id") else {
        return Ok(None);
    };
    let Some(idempotency_key) = filled_field(bytes, fields, b"idempotency-key") else {
        return Ok(None);
    };
    Ok(Some(Request {
        method: method_of(method),
        target: copied(alloc, target)?,
        host: copied(alloc, host)?,
        origin: copied(alloc, origin)?,
        content_type: copied(alloc, content_type)?,
        authorization: copied(alloc, authorization)?,
        last_event_id: copied(alloc, last_event_id)?,
        idempotency_key: copied(alloc, idempotency_key)?,
        body: Vec::new(alloc),
    }))
}

/// Why a head or a body can't be read.
fn refusal_of(fault: ReadError) -> Refused {
    match fault.status() {
        414 => Refused::TargetTooLong,
        431 => Refused::HeadTooLarge,
        _ => Refused::Unreadable,
    }
}

impl Draft {
    /// Of no request.
    fn new(alloc: Global) -> Draft
        ensures { result.request.body.items ≡ [] }
    {
        Draft {
            request: Request {
                method: Method::Other,
                target: Vec::new(alloc),
                host: Vec::new(alloc),
                origin: Vec::new(alloc),
                content_type: Vec::new(alloc),
                authorization: Vec::new(alloc),
                last_event_id: Vec::new(alloc),
                idempotency_key: Vec::new(alloc),
                body: Vec::new(alloc),
            },
            stays: false,
        }
    }

    /// Takes a head, if it has one length at most, and none of the fields that the desk looks at twice.
    fn take_head(
        &mut self,
        alloc: Global,
        bytes: &[u8],
        head: RequestSpans,
        fields: &[HeaderSpan],
    ) -> Result<Step, AllocError>
        requires { IsRequestWithin bytes.now fields.now head }
        ensures { IfOk result (Drafts (span_bytes bytes.now head.method) (span_bytes bytes.now head.path)
            head.version (map (header_bytes bytes.now) (take head.headers fields.now)) self.new) }
    {
        let fields = &fields[..head.headers];
        let known = KnownFields::from_spans(bytes, fields);
        if known.framing_fields > 1 {
            return Ok(Step::Refused(Refused::Unreadable));
        }
        let (method, target) = (head.method.of(bytes), head.path.of(bytes));
        match request_of(alloc, method, target, bytes, fields)? {
            Some(request) => {
                self.request = request;
                self.stays = head.version > 0 && !known.close;
                Ok(Step::On)
            }
            None => Ok(Step::Refused(Refused::Unreadable)),
        }
    }

    /// Takes a piece of the body.
    fn take_body(&mut self, bytes: &[u8]) -> Result<Step, AllocError>
        requires { length self.old.request.body.items ≤ 65536 }
        ensures { IfOk result (Keeps self.old bytes.now self.new) }
    {
        if bytes.len() > MOST_BODY.saturating_sub(self.request.body.len()) {
            return Ok(Step::Refused(Refused::BodyTooLarge));
        }
        self.request.body.extend_from_slice(bytes)?;
        Ok(Step::On)
    }
}

/// Reads on in what is there, and says how much of it was read.
fn read_on(
    alloc: Global,
    server: &mut Server,
    input: &[u8],
    draft: &mut Draft,
) -> Result<(usize, Step), AllocError>
    requires { IsReading server.old (asked_of draft.old.request) }
    ensures within { IfOk result (λ r. r.0 ≤ length input.now) }
    ensures came { IfOk result (λ r.
        Came (unread_of server.old (asked_of draft.old.request) draft.old.stays input.now)
        (unread_of server.new (asked_of draft.new.request) draft.new.stays (drop r.0 input.now))
        (IsReading server.new (asked_of draft.new.request)) r.1) }
{
    let mut fields = [EMPTY_HEADER_SPAN; MOST_FIELDS];
    let read = match server.read(input, &mut fields) {
        Ok(read) => read,
        Err(fault) => return Ok((0, Step::Refused(refusal_of(fault)))),
    };
    match read.event {
        Event::NeedMore => Ok((read.consumed, Step::More)),
        Event::Head(head) => {
            let step = draft.take_head(alloc, input, head, &fields)?;
            Ok((read.consumed, step))
        }
        Event::Data(span) => {
            let step = draft.take_body(span.of(input))?;
            Ok((read.consumed, step))
        }
        Event::End(_) => Ok((read.consumed, Step::Whole)),
        _ => Ok((0, Step::Refused(Refused::Unreadable))),
    }
}

/// Reads on until the request is whole or refused, or more bytes are needed.
fn read_all(
    alloc: Global,
    server: &mut Server,
    input: &mut BytesMut,
    draft: &mut Draft,
) -> Result<Step, AllocError>
    requires { IsReading server.old (asked_of draft.old.request) }
    ensures ends { IfOk result (λ step. step ≢ Step.On) }
    ensures came { IfOk result
        (Came (unread_of server.old (asked_of draft.old.request) draft.old.stays input.old.items)
        (unread_of server.new (asked_of draft.new.request) draft.new.stays input.new.items)
        (IsReading server.new (asked_of draft.new.request))) }
{
    loop {
        let (consumed, step) = read_on(alloc, server, input.as_slice(), draft)?;
        input.advance(consumed);
        match step {
            Step::On => {}
            Step::More | Step::Whole | Step::Refused(_) => return Ok(step),
        }
    }
}

/// What the bytes of a connection give.
#[derive(Debug, Drop)]
pub(crate) enum Got {
    Request {
        request: Request,
        /// Whether the connection stays behind it.
        stays: bool,
    },
    /// More bytes are needed.
    More,
    Refused(Refused),
    /// Nothing is read any more, since a request was refused.
    Over,
}

/// The requests of a connection. Contracts see what wasn't read of its bytes.
#[derive(Drop)]
pub(crate) struct Reader {
    alloc: Global,
    server: Server,
    input: BytesMut,
    draft: Draft,
    is_over: bool,
}

impl Model for Reader {
    ghost use Rattle.std.specs.Prelude.{◌≡◌, false};
    ghost use Rattle.desk_http.specs.Reading.{IsReading, Pending, asked_of, unread_of};

    ghost Value = { Pending };

    ghost view = { λ r. record {
      is_over = r.is_over;
      unread = unread_of r.server (asked_of r.draft.request) r.draft.stays r.input.items;
    } };

    ghost invariant = { λ r. r.is_over ≡ false → IsReading r.server (asked_of r.draft.request) };
}

impl Reader {
    /// Of a connection whose first request is due.
    pub fn new(alloc: Global) -> Reader
        ensures open { result.is_over ≡ false }
        ensures due { result.unread.reading ≡ Head }
        ensures empty { result.unread.input ≡ [] }
    {
        Reader {
            alloc,
            server: Server::new(LIMITS),
            input: BytesMut::new(alloc),
            draft: Draft::new(alloc),
            is_over: false,
        }
    }

    /// Takes bytes that came.
    pub fn take(&mut self, bytes: &[u8]) -> Result<(), AllocError>
        ensures taken { OnOk result (self.new ≡ with_input self.old bytes.now) }
        ensures kept { OnErr result (self.new ≡ self.old) }
    {
        self.input.extend_from_slice(bytes)
    }

    /// Whether a part of the next request has come.
    pub fn has_begun(&self) -> bool {
        !self.input.is_empty() || self.server.unread_size() != BodySize::Empty
    }

    /// Whether the client waits for a 100 before it sends the body.
    pub fn is_awaited(&self) -> bool {
        self.server.expects_continue()
    }

    /// The next request, where all its bytes have come. Behind a refusal, or where memory was wanted, none is read.
    pub fn next(&mut self) -> Result<Got, AllocError>
        ensures got { self.old.is_over ≡ false → IfOk result (Gives self.old.unread self.new) }
        ensures over { self.old.is_over ≡ true → (result ≡ Ok Got.Over) × (self.new ≡ self.old) }
        ensures lost { OnErr result (self.new.is_over ≡ true) }
    {
        if self.is_over {
            return Ok(Got::Over);
        }
        self.is_over = true;
        let step = read_all(
            self.alloc,
            &mut self.server,
            &mut self.input,
            &mut self.draft,
        )?;
        match step {
            Step::Whole => {
                let draft = mem::replace(&mut self.draft, Draft::new(self.alloc));
                self.server = Server::new(LIMITS);
                self.is_over = false;
                Ok(Got::Request {
                    request: draft.request,
                    stays: draft.stays,
                })
            }
            Step::Refused(refused) => Ok(Got::Refused(refused)),
            _ => {
                self.is_over = false;
                Ok(Got::More)
            }
        }
    }
}
