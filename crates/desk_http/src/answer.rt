//! What a call is answered.

ghost use Rattle.std.specs.Prelude.{◌≡◌, ◌≤◌, ℕ, None, IfOk, codes, drop, length};
ghost use Rattle.desk_json.specs.FaultJson.{said_json};
ghost use Rattle.desk_http.specs.Answer.{Asks, Closes, Finds, Halts, Handles, Placed, Resumes, ShowsExecutions, ShowsFound, ShowsLegs};
ghost use Rattle.desk_http.specs.Answer.{ShowsMetrics, ShowsSweeps, ShowsVenues, key_in, keyed, one_of, outcome_status, ref_asked};
ghost use Rattle.desk_http.specs.Answer.{IsLegs};
ghost use Rattle.desk_http.specs.Reply.{IsReply};

use crate::admitted::Admitted;
use crate::call::Call;
use crate::day::Day;
use crate::metrics::metrics_text;
use crate::parts::parts_at;
use crate::reply::{Kind, Reply, json_reply};
use crate::request::Request;
use crate::run::Run;
use crate::status::Status;
use crate::stopped::{resumed_json, stopped_json};
use desk_json::{
    BodyFault, Outcome, body_fault_json, executions_json, legs_json, outcome_json, read_sweep,
    said_json, sweeps_json, venues_json,
};
use desk_words::VenueName;
use percent_encoding::percent_decode;
use std::alloc::{AllocError, Global};
use sweep_refs::{Submission, SweepRef};

/// The status of what became of a sweep.
fn outcome_status(outcome: &Outcome) -> Status
    ensures { result ≡ outcome_status outcome.now }
{
    match outcome {
        Outcome::Placed { .. } => Status::Created,
        Outcome::Again { .. } => Status::Ok,
        Outcome::Refused(_) => Status::Conflict,
        Outcome::Closing => Status::Conflict,
    }
}

/// Hands a sweep in by a user, and says what became of it.
fn placed_reply<D: Day>(
    alloc: Global,
    day: &mut D,
    submission: Submission,
    by: Option<usize>,
) -> Result<Reply, AllocError>
    ensures { IfOk result (λ reply. Placed D.places day.old submission by reply day.new) }
{
    let outcome = day.place(submission, by);
    let body = outcome_json(alloc, &outcome)?;
    Ok(json_reply(outcome_status(&outcome), body))
}

/// The key of a head, read.
fn key_in(key: &[u8]) -> Result<Option<SweepRef>, BodyFault>
    ensures { result ≡ key_in key.now }
{
    if key.is_empty() {
        return Ok(None);
    }
    match SweepRef::new(key) {
        Some(reference) => Ok(Some(reference)),
        None => Err(BodyFault::BadKey),
    }
}

/// One reference of the two that head and body may have.
fn one_of(key: Option<SweepRef>, reference: Option<SweepRef>) -> Result<Option<SweepRef>, BodyFault>
    ensures { result ≡ one_of key reference }
{
    let Some(key) = key else {
        return Ok(reference);
    };
    let Some(reference) = reference else {
        return Ok(Some(key));
    };
    if key != reference {
        return Err(BodyFault::TwoReferences);
    }
    Ok(Some(key))
}

/// The sweep of a body under the key of the head.
fn keyed(key: &[u8], submission: Submission) -> Result<Submission, BodyFault>
    ensures { result ≡ keyed key.now submission }
{
    let key = key_in(key)?;
    let Submission { reference, sweep } = submission;
    let reference = one_of(key, reference)?;
    Ok(Submission { reference, sweep })
}

/// The sweep that body and head ask for, or their first fault. The only refusal is out of memory.
fn asked(
    alloc: Global,
    names: &[VenueName],
    body: &[u8],
    key: &[u8],
) -> Result<Result<Submission, BodyFault>, AllocError>
    requires { length names.now ≤ 16 }
    ensures { IfOk result (λ asked. Asks names.now body.now key.now asked) }
{
    match read_sweep(alloc, names, body)? {
        Ok(submission) => Ok(keyed(key, submission)),
        Err(fault) => Ok(Err(fault)),
    }
}

/// Hands in the sweep of a body by a user, under the key of its head, or says why it is none.
fn place_reply<D: Day>(
    alloc: Global,
    day: &mut D,
    body: &[u8],
    key: &[u8],
    by: Option<usize>,
) -> Result<Reply, AllocError>
    ensures { IfOk result (λ reply.
        Handles (D.venue_names day.old) D.places body.now key.now by day.old reply day.new) }
{
    match asked(alloc, day.names(), body, key)? {
        Ok(submission) => placed_reply(alloc, day, submission, by),
        Err(fault) => {
            let body = body_fault_json(alloc, &fault)?;
            Ok(json_reply(Status::BadRequest, body))
        }
    }
}

fn sweeps_reply<D: Day>(
    alloc: Global,
    day: &mut D,
    after: u64,
    most: u64,
) -> Result<Reply, AllocError>
    ensures { IfOk result (λ reply. ShowsSweeps D.pages after most day.old reply day.new) }
{
    let page = day.sweeps(after, most)?;
    let body = sweeps_json(alloc, &page)?;
    Ok(json_reply(Status::Ok, body))
}

fn no_sweep_reply(alloc: Global) -> Result<Reply, AllocError>
    ensures { IfOk result (λ reply. IsLegs reply None) }
{
    let body = said_json(alloc, "no such sweep")?;
    Ok(json_reply(Status::NotFound, body))
}

fn sweep_reply<D: Day>(alloc: Global, day: &mut D, number: u64) -> Result<Reply, AllocError>
    ensures { IfOk result (λ reply. ShowsLegs D.shows number day.old reply day.new) }
{
    match day.sweep(number)? {
        Some(legs) => {
            let body = legs_json(alloc, &legs)?;
            Ok(json_reply(Status::Ok, body))
        }
        None => no_sweep_reply(alloc),
    }
}

/// What stands behind the first four bytes of a text.
fn behind_four(text: &[u8]) -> &[u8]
    ensures { result.now ≡ drop 4 text.now }
{
    if text.len() < 4 {
        return &[];
    }
    &text[4..]
}

/// The reference that a target's query asks for.
fn ref_asked(alloc: Global, target: &[u8]) -> Result<Option<SweepRef>, AllocError>
    ensures { IfOk result (λ reference. reference ≡ ref_asked target.now) }
{
    let (_, query) = parts_at(target, b'?');
    let mut text = Vec::new(alloc);
    percent_decode(behind_four(query)).append_to(&mut text)?;
    Ok(SweepRef::new(text.as_slice()))
}

/// The legs of a sweep that was found, or that there is none.
fn shown_reply<D: Day>(alloc: Global, day: &mut D, number: Option<u64>) -> Result<Reply, AllocError>
    ensures { IfOk result (λ reply. ShowsFound D.shows number day.old reply day.new) }
{
    match number {
        Some(number) => sweep_reply(alloc, day, number),
        None => no_sweep_reply(alloc),
    }
}

/// The legs of the sweep that was placed under a reference.
fn found_reply<D: Day>(
    alloc: Global,
    day: &mut D,
    reference: Option<SweepRef>,
) -> Result<Reply, AllocError>
    ensures { IfOk result (λ reply. Finds D.finds D.shows reference day.old reply day.new) }
{
    match reference {
        Some(reference) => {
            let number = day.find(&reference);
            shown_reply(alloc, day, number)
        }
        None => no_sweep_reply(alloc),
    }
}

/// The legs of the sweep that was placed under the reference of a target's query.
fn find_reply<D: Day>(alloc: Global, day: &mut D, target: &[u8]) -> Result<Reply, AllocError>
    ensures { IfOk result (λ reply. Finds D.finds D.shows (ref_asked target.now) day.old reply day.new) }
{
    let reference = ref_asked(alloc, target)?;
    found_reply(alloc, day, reference)
}

fn executions_reply<D: Day>(
    alloc: Global,
    day: &mut D,
    after: u64,
    most: u64,
) -> Result<Reply, AllocError>
    ensures { IfOk result (λ reply. ShowsExecutions D.reports after most day.old reply day.new) }
{
    let page = day.executions(after, most)?;
    let body = executions_json(alloc, &page)?;
    Ok(json_reply(Status::Ok, body))
}

fn venues_reply<D: Day>(alloc: Global, day: &mut D) -> Result<Reply, AllocError>
    ensures { IfOk result (λ reply. ShowsVenues D.lists day.old reply day.new) }
{
    let rows = day.venues()?;
    let body = venues_json(alloc, rows.as_slice())?;
    Ok(json_reply(Status::Ok, body))
}

fn close_reply<D: Day>(alloc: Global, day: &mut D, by: Option<usize>) -> Result<Reply, AllocError>
    ensures { IfOk result (λ reply. Closes D.closes by day.old reply day.new) }
{
    let body = String::from_str(alloc, "{\"closing\":true}")?;
    day.close(by);
    Ok(json_reply(Status::Accepted, body))
}

fn halt_reply<D: Day>(alloc: Global, day: &mut D, by: Option<usize>) -> Result<Reply, AllocError>
    ensures { IfOk result (λ reply. Halts D.halts by day.old reply day.new) }
{
    let stopped = day.halt(by);
    let body = stopped_json(alloc, stopped)?;
    Ok(json_reply(Status::Ok, body))
}

fn resume_reply<D: Day>(alloc: Global, day: &mut D, by: Option<usize>) -> Result<Reply, AllocError>
    ensures { IfOk result (λ reply. Resumes D.resumes by day.old reply day.new) }
{
    let is_kept = day.resume(by);
    let body = resumed_json(alloc, is_kept)?;
    Ok(json_reply(Status::Ok, body))
}

fn page_reply(alloc: Global, page: &str) -> Result<Reply, AllocError>
    ensures { IfOk result (λ reply. IsReply reply Status.Ok Kind.Page page.now) }
{
    Ok(Reply {
        status: Status::Ok,
        kind: Kind::Page,
        body: String::from_str(alloc, page)?,
    })
}

fn metrics_reply<D: Day>(alloc: Global, day: &mut D, run: &Run) -> Result<Reply, AllocError>
    ensures { IfOk result (λ reply.
        ShowsMetrics D.lists D.sums_up D.refuses D.guesses D.uses run.now day.old reply day.new) }
{
    let rows = day.venues()?;
    let sums = day.sums()?;
    let refusals = day.refusals();
    let wrong_tokens = day.wrong_tokens();
    let used = day.process_use();
    let body = metrics_text(
        alloc,
        run,
        used,
        &sums,
        &refusals,
        wrong_tokens,
        rows.as_slice(),
    )?;
    Ok(Reply {
        status: Status::Ok,
        kind: Kind::Metrics,
        body,
    })
}

pub(crate) fn busy_reply(alloc: Global) -> Result<Reply, AllocError>
    ensures { IfOk result (λ reply. IsReply reply Status.Unavailable Kind.Json (said_json (codes "too many streams"))) }
{
    let body = said_json(alloc, "too many streams")?;
    Ok(json_reply(Status::Unavailable, body))
}

/// What a call that may be carried out is answered. The only refusal is out of memory, before the day was asked or
/// behind it.
pub(crate) fn answer<D: Day>(
    alloc: Global,
    day: &mut D,
    page: &str,
    run: &Run,
    admitted: Admitted,
    request: &Request,
) -> Result<Reply, AllocError>
    ensures page { admitted.call ≡ Call.Page
        → IfOk result (λ reply. IsReply reply Status.Ok Kind.Page page.now × (day.new ≡ day.old)) }
    ensures place { admitted.call ≡ Call.Place
        → IfOk result (λ reply. Handles (D.venue_names day.old) D.places request.now.body.items
        request.now.idempotency_key.items admitted.by day.old reply day.new) }
    ensures sweeps { (after most : ℕ) → admitted.call ≡ Call.Sweeps after most
        → IfOk result (λ reply. ShowsSweeps D.pages after most day.old reply day.new) }
    ensures sweep { (number : ℕ) → admitted.call ≡ Call.Sweep number
        → IfOk result (λ reply. ShowsLegs D.shows number day.old reply day.new) }
    ensures find { admitted.call ≡ Call.Find → IfOk result (λ reply.
        Finds D.finds D.shows (ref_asked request.now.target.items) day.old reply day.new) }
    ensures executions { (after most : ℕ) → admitted.call ≡ Call.Executions after most
        → IfOk result (λ reply. ShowsExecutions D.reports after most day.old reply day.new) }
    ensures venues { admitted.call ≡ Call.Venues → IfOk result (λ reply. ShowsVenues D.lists day.old reply day.new) }
    ensures events { admitted.call ≡ Call.Events → IfOk result (λ reply.
        IsReply reply Status.Unavailable Kind.Json (said_json (codes "too many streams")) × (day.new ≡ day.old)) }
    ensures close { admitted.call ≡ Call.Close → IfOk result (λ reply.
        Closes D.closes admitted.by day.old reply day.new) }
    ensures halt { admitted.call ≡ Call.Halt → IfOk result (λ reply.
        Halts D.halts admitted.by day.old reply day.new) }
    ensures resume { admitted.call ≡ Call.Resume → IfOk result (λ reply.
        Resumes D.resumes admitted.by day.old reply day.new) }
    ensures metrics { admitted.call ≡ Call.Metrics
        → IfOk result (λ reply.
        ShowsMetrics D.lists D.sums_up D.refuses D.guesses D.uses run.now day.old reply day.new) }
{
    let Admitted { call, by } = admitted;
    match call {
        Call::Page => page_reply(alloc, page),
        Call::Place => {
            let key = request.idempotency_key.as_slice();
            place_reply(alloc, day, request.body.as_slice(), key, by)
        }
        Call::Sweeps { after, most } => sweeps_reply(alloc, day, after, most),
        Call::Sweep(number) => sweep_reply(alloc, day, number),
        Call::Find => find_reply(alloc, day, request.target.as_slice()),
        Call::Executions { after, most } => executions_reply(alloc, day, after, most),
        Call::Venues => venues_reply(alloc, day),
        Call::Events => busy_reply(alloc),
        Call::Close => close_reply(alloc, day, by),
        Call::Halt => halt_reply(alloc, day, by),
        Call::Resume => resume_reply(alloc, day, by),
        Call::Metrics => metrics_reply(alloc, day, run),
    }
}
