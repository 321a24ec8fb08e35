//! What a message says, from its words, as `logon heart=30 reset=N next=1`.
ghost use Rattle.std.specs.Prelude.{◌≤◌, IfOk};
ghost use Rattle.dialect.specs.Writable.{IsNext};

use crate::leg_text::leg_in;
use crate::message::Header;
use crate::report::exec_and_kind;
use case_fields::{flag_of, number_of, text_of};
use case_text::{Answers, PlayFault};
use dialect::{Content, ExecId, OrderView, Report};
use fix_tags::{SessionBody, TextRef};
use std::alloc::Global;

/// The greatest number that a message may name.
const MAX_REFERENCE: u64 = 999_999_999;

/// The longest heartbeat interval, in seconds.
const MAX_HEART: u64 = 999_999;

/// A number of another message.
fn reference(word: &str, key: &str) -> Result<u64, PlayFault>
    ensures { IfOk result (λ number. number ≤ 999999999) }
{
    let number = number_of(word, key)?;
    if number > MAX_REFERENCE {
        return Err(PlayFault::NotUnderstood);
    }
    Ok(number)
}

/// A heartbeat interval.
fn heart(word: &str) -> Result<u64, PlayFault>
    ensures { IfOk result (λ number. number ≤ 999999) }
{
    let number = number_of(word, "heart")?;
    if number > MAX_HEART {
        return Err(PlayFault::NotUnderstood);
    }
    Ok(number)
}

/// The number that is expected next, where it is said.
fn next_in(words: &[&str]) -> Result<Option<u64>, PlayFault>
    ensures { IfOk result IsNext }
{
    match words {
        [] => Ok(None),
        [word] => {
            let number = reference(word, "next")?;
            if number < 1 {
                return Err(PlayFault::NotUnderstood);
            }
            Ok(Some(number))
        }
        _ => Err(PlayFault::NotUnderstood),
    }
}

/// The id of a test request, which has the range of the ids that an exchange gives.
fn test_id(alloc: Global, word: &str) -> Result<ExecId, PlayFault> {
    ExecId::new(&text_of(alloc, word, "id")?).ok_or(PlayFault::NotUnderstood)
}

/// Writes a message about numbers.
fn write_numbers(header: &Header, words: &[&str], answers: &mut Answers) -> Result<(), PlayFault> {
    match words {
        ["resend_request", begin, last] => {
            let (begin, last) = (reference(begin, "begin")?, reference(last, "last")?);
            header.say(SessionBody::ResendRequest { begin, last }, answers)
        }
        ["gap_fill", new] => {
            let new_number = reference(new, "new")?;
            header.say(SessionBody::GapFill { new_number }, answers)
        }
        ["reset", new] => {
            let new_number = reference(new, "new")?;
            header.say(SessionBody::Reset { new_number }, answers)
        }
        ["reject", number] => {
            let number = reference(number, "number")?;
            header.say(SessionBody::Reject { number }, answers)
        }
        ["business_reject"] => { header.say(SessionBody::BusinessReject { number: None }, answers) }
        ["business_reject", number] => {
            let number = Some(reference(number, "number")?);
            header.say(SessionBody::BusinessReject { number }, answers)
        }
        _ => Err(PlayFault::NotUnderstood),
    }
}

/// Writes a report on the order that its exchange knows.
fn write_report(
    header: &Header,
    view: &OrderView,
    words: &[&str],
    answers: &mut Answers,
) -> Result<(), PlayFault> {
    let (exec, kind) = exec_and_kind(header.alloc, words)?;
    let id = view.leg().id;
    let report = Report { id, exec, kind };
    let view = view.clone()?;
    report.in_range();
    let _ = view.leaves();
    header.write(Content::ExecutionReport(Ok(report)), Some(view), answers)
}

/// Writes the message of these words.
pub fn write_content(
    header: &Header,
    view: Option<&OrderView>,
    words: &[&str],
    answers: &mut Answers,
) -> Result<(), PlayFault> {
    match words {
        ["logon", heart_word, reset, next @ ..] => {
            let (heart, reset) = (heart(heart_word)?, flag_of(reset, "reset")?);
            let next = next_in(next)?;
            header.say(SessionBody::Logon { heart, reset, next }, answers)
        }
        ["heartbeat"] => header.say(SessionBody::Heartbeat { id: None }, answers),
        ["heartbeat", id] => {
            let id = test_id(header.alloc, id)?;
            let id = Some(TextRef::new(id.as_bytes()));
            header.say(SessionBody::Heartbeat { id }, answers)
        }
        ["test_request", id] => {
            let id = test_id(header.alloc, id)?;
            let id = TextRef::new(id.as_bytes());
            header.say(SessionBody::TestRequest { id }, answers)
        }
        ["logout"] => header.say(SessionBody::Logout, answers),
        ["order", leg @ ..] => {
            let leg = leg_in(leg)?;
            leg.in_range();
            header.write(Content::Order(Ok(leg)), None, answers)
        }
        ["report", report @ ..] => match view {
            Some(view) => write_report(header, view, report, answers),
            None => Err(PlayFault::NotUnderstood),
        },
        _ => write_numbers(header, words, answers),
    }
}
