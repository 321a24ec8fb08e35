//! One connection, as its bytes come and go.

ghost use Rattle.std.specs.Prelude.{◌≡◌, ◌++◌, Ok, Err, IfOk, OnErr, OnOk};
ghost use Rattle.desk_http.specs.declared.reply.Kind.TheVariants.{Json};
ghost use Rattle.desk_http.specs.Answer.{Closes, Handles};
ghost use Rattle.desk_http.specs.Door.{allowed};
ghost use Rattle.desk_http.specs.Refused.{refused_status};
ghost use Rattle.desk_http.specs.Reply.{IsReply, Sends, refused_json, reply_text};
ghost use Rattle.desk_http.specs.declared.admitted.Admitted.{Admitted};
ghost use Rattle.desk_http.specs.declared.refused.Refused.{Refused};

use crate::admitted::Admitted;
use crate::answer::{answer, busy_reply};
use crate::call::Call;
use crate::day::Day;
use crate::door::{Door, allowed};
use crate::reading::{Got, Reader};
use crate::refused::Refused;
use crate::reply::{Reply, refused_reply, reply_text};
use crate::request::{Method, Request};
use crate::run::Run;
use crate::stream::after_of;
use bytes::BytesMut;
use std::alloc::{AllocError, Global};

/// What a connection came to.
#[derive(Clone, Copy, Debug, PartialEq, Eq)]
pub enum Turn {
    /// More bytes are needed.
    Waits,
    /// A request was answered, and the next one may follow.
    Answered,
    /// Nothing more is read: the connection is to be closed once its answers are sent.
    Ends,
    /// A token was nobody's: its answer is to be held back, and nothing is read meanwhile. Whether the connection stays
    /// behind it.
    Guessed(bool),
    /// From now on the client follows the day, behind this execution where it names one.
    Follows(Option<u64>),
}

/// A connection: the requests that its bytes ask, one after the other.
#[derive(Drop)]
pub struct Connection {
    alloc: Global,
    reader: Reader,
    /// Whether the client was told to go on with the body of this request.
    is_invited: bool,
}

/// Sends an answer behind what is sent before.
fn send_reply(
    alloc: Global,
    run: &Run,
    stays: bool,
    reply: &Reply,
    output: &mut BytesMut,
) -> Result<(), AllocError>
    ensures { OnOk result (output.new.items ≡ output.old.items ++ reply_text run.now stays reply.now) }
{
    let text = reply_text(alloc, run, stays, reply)?;
    output.extend_from_slice(text.as_str().as_bytes())?;
    Ok(())
}

/// Says at a door why a request isn't carried out, behind what is sent before. The only refusal is out of memory.
pub fn refuse(
    alloc: Global,
    door: &Door,
    run: &Run,
    stays: bool,
    refused: Refused,
    output: &mut BytesMut,
) -> Result<(), AllocError>
    ensures { OnOk result (Sends run.now stays
        (λ reply. IsReply reply (refused_status refused) Json (refused_json door.now.users.items refused))
        output.old.items output.new.items) }
{
    let reply = refused_reply(alloc, door.users.as_slice(), refused)?;
    send_reply(alloc, run, stays, &reply, output)?;
    Ok(())
}

fn turn_of(stays: bool) -> Turn {
    if stays { Turn::Answered } else { Turn::Ends }
}

/// What a connection comes to behind a request that isn't carried out.
fn turn_behind(refused: Refused, stays: bool) -> Turn
    ensures { refused ≡ Refused.WrongToken → result ≡ Turn.Guessed stays }
{
    match refused {
        Refused::WrongToken => Turn::Guessed(stays),
        _ => turn_of(stays),
    }
}

/// Answers a call, behind what is sent before.
fn carry_out<D: Day>(
    alloc: Global,
    day: &mut D,
    page: &str,
    run: &Run,
    admitted: Admitted,
    request: &Request,
    stays: bool,
    output: &mut BytesMut,
) -> Result<(), AllocError>
    ensures place { admitted.call ≡ Call.Place → OnOk result (Sends run.now stays
        (λ reply. Handles (D.venue_names day.old) D.places request.now.body.items
        request.now.idempotency_key.items admitted.by day.old reply day.new) output.old.items output.new.items) }
    ensures close { admitted.call ≡ Call.Close → OnOk result (Sends run.now stays
        (λ reply. Closes D.closes admitted.by day.old reply day.new) output.old.items output.new.items) }
{
    let reply = answer(alloc, day, page, run, admitted, request)?;
    send_reply(alloc, run, stays, &reply, output)?;
    Ok(())
}

/// Answers a client that asks for the events: it follows them from now on, or too many do.
fn stream<D: Day>(
    alloc: Global,
    day: &mut D,
    run: &Run,
    request: &Request,
    stays: bool,
    output: &mut BytesMut,
) -> Result<Turn, AllocError> {
    if day.may_follow() {
        return Ok(Turn::Follows(after_of(request.last_event_id.as_slice())));
    }
    let reply = busy_reply(alloc)?;
    send_reply(alloc, run, stays, &reply, output)?;
    Ok(turn_of(stays))
}

/// Answers a request, behind what is sent before: with one answer, unless the client follows the events.
fn respond<D: Day>(
    alloc: Global,
    day: &mut D,
    door: &Door,
    page: &str,
    run: &Run,
    request: &Request,
    stays: bool,
    output: &mut BytesMut,
) -> Result<Turn, AllocError>
    // Where a request isn't allowed the day is asked nothing.
    ensures refused { OnErr (allowed door.now request.now) (day.new ≡ day.old) }
    ensures told { (refused : Refused) → allowed door.now request.now ≡ Err refused → OnOk result (Sends run.now stays
        (λ reply. IsReply reply (refused_status refused) Json (refused_json door.now.users.items refused))
        output.old.items output.new.items) }
    ensures guessed { allowed door.now request.now ≡ Err Refused.WrongToken
        → IfOk result (λ turn. turn ≡ Turn.Guessed stays) }
    ensures place { (asked : Admitted) → allowed door.now request.now ≡ Ok asked → asked.call ≡ Call.Place
        → OnOk result (Sends run.now stays (λ reply. Handles (D.venue_names day.old) D.places request.now.body.items
        request.now.idempotency_key.items asked.by day.old reply day.new) output.old.items output.new.items) }
    ensures close { (asked : Admitted) → allowed door.now request.now ≡ Ok asked → asked.call ≡ Call.Close
        → OnOk result (Sends run.now stays (λ reply. Closes D.closes asked.by day.old reply day.new)
        output.old.items output.new.items) }
{
    match allowed(door, request) {
        Ok(
            Admitted {
                call: Call::Events,
                ..
            },
        ) => stream(alloc, day, run, request, stays, output),
        Ok(admitted) => {
            carry_out(alloc, day, page, run, admitted, request, stays, output)?;
            Ok(turn_of(stays))
        }
        Err(refused) => {
            refuse(alloc, door, run, stays, refused, output)?;
            Ok(turn_behind(refused, stays))
        }
    }
}

impl Connection {
    /// A new one.
    pub fn new(alloc: Global) -> Connection {
        Connection {
            alloc,
            reader: Reader::new(alloc),
            is_invited: false,
        }
    }

    /// Takes bytes that came. The only refusal is out of memory.
    pub fn take(&mut self, bytes: &[u8]) -> Result<(), AllocError> {
        self.reader.take(bytes)
    }

    /// Whether a part of the next request has come.
    pub fn has_begun(&self) -> bool {
        self.reader.has_begun()
    }

    /// Tells a client that waits for it to go on with its body, once.
    fn invite(&mut self, output: &mut BytesMut) -> Result<(), AllocError> {
        if !self.is_invited && self.reader.is_awaited() {
            self.is_invited = true;
            output.extend_from_slice(b"HTTP/1.1 100 Continue\r\n\r\n")?;
        }
        Ok(())
    }

    /// Answers the next request, behind what is sent before, where all its bytes have come: a head of 8 KiB at most,
    /// with 64 fields, and a body of 64 KiB at most. Where the client waits for a 100 it is sent one. The only refusal
    /// is out of memory, and then the connection is to be given up.
    pub fn answer_next<D: Day>(
        &mut self,
        day: &mut D,
        door: &Door,
        page: &str,
        run: &Run,
        output: &mut BytesMut,
    ) -> Result<Turn, AllocError> {
        match self.reader.next()? {
            Got::Request { request, stays } => {
                self.is_invited = false;
                // A client that asks by HEAD takes the body of its answer for the next one.
                let stays = stays && request.method != Method::Other;
                respond(self.alloc, day, door, page, run, &request, stays, output)
            }
            Got::Refused(refused) => {
                refuse(self.alloc, door, run, false, refused, output)?;
                Ok(Turn::Ends)
            }
            Got::More => {
                self.invite(output)?;
                Ok(Turn::Waits)
            }
            Got::Over => Ok(Turn::Ends),
        }
    }
}
