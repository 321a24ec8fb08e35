//! The venues, written.

ghost use Rattle.std.specs.Prelude.{◌≡◌, [], ◌++◌, IfOk, OnOk, codes, string_bytes};
ghost use Rattle.desk_news.specs.Cause.{ending_text};
ghost use Rattle.desk_json.specs.Parted.{parted};
ghost use Rattle.desk_json.specs.Venues.{cause_json, counts_json, ended_json, ending_code, ending_words, failed_dial_json, heard_json, leg_counts_json, lost_json, state_json, traffic_json, unreachable_json, venue_json, venues_json};

use crate::executions_written::write_unbooked;
use crate::quoted::quoted;
use crate::standing::VenueRow;
use desk_news::{Cause, VenueState};
use session_core::Ended;
use std::alloc::{AllocError, Global};

/// Why a session ended its connection, in words; "it" is the exchange.
fn ending_words(ended: Ended) -> &'static str
    ensures { result.now ≡ ending_words ended }
{
    match ended {
        Ended::FirstNotLogon => "its first message was no logon",
        Ended::TooLow => "it used a number again",
        Ended::WrongComp => "it named a wrong comp id",
        Ended::ResetRefused => "it began its numbers anew",
        Ended::ResendInDoubt => "it asked for legs in doubt again",
        Ended::BadResend => "it asked for numbers that were not sent",
        Ended::PeerLogout => "it logged out",
        Ended::LogonAgain => "it logged on again",
        Ended::BadGapFill => "it filled a gap backwards",
        Ended::Silent => "it was silent",
        Ended::Malformed => "it sent a malformed message",
        Ended::LogoutDone => "it answered our logout",
        Ended::BadNextExpected => "it expects a number that was not sent",
        Ended::PeerForgot => "it forgot numbers that it had taken",
    }
}

/// The code of why a session ended its connection.
fn ending_code(ended: Ended) -> &'static str
    ensures { result.now ≡ ending_code ended }
{
    match ended {
        Ended::FirstNotLogon => "E01",
        Ended::TooLow => "E02",
        Ended::WrongComp => "E03",
        Ended::ResetRefused => "E04",
        Ended::ResendInDoubt => "E05",
        Ended::BadResend => "E06",
        Ended::PeerLogout => "E07",
        Ended::LogonAgain => "E08",
        Ended::BadGapFill => "E09",
        Ended::Silent => "E10",
        Ended::Malformed => "E11",
        Ended::LogoutDone => "E12",
        Ended::BadNextExpected => "E13",
        Ended::PeerForgot => "E14",
    }
}

/// Appends why a session ended its connection.
fn write_ended(text: &mut String, ended: Ended) -> Result<(), AllocError>
    ensures { OnOk result (string_bytes text.new ≡ string_bytes text.old ++ ended_json ended) }
{
    let words = ending_words(ended);
    let code = ending_code(ended);
    write!(text, ",\"text\":\"{words}\",\"code\":\"{code}\"")
}

/// Appends why a connection was lost.
fn write_lost(alloc: Global, text: &mut String, why: &str) -> Result<(), AllocError>
    ensures { OnOk result (string_bytes text.new ≡ string_bytes text.old ++ lost_json why.now) }
{
    let why = quoted(alloc, why)?;
    write!(text, ",\"text\":{why}")
}

/// Appends why a dial failed, and when the next one is.
fn write_failed_dial(
    alloc: Global,
    text: &mut String,
    why: &str,
    seconds: u64,
) -> Result<(), AllocError>
    ensures { OnOk result (string_bytes text.new ≡ string_bytes text.old ++ failed_dial_json why.now seconds) }
{
    write_lost(alloc, text, why)?;
    write!(text, ",\"next_s\":{seconds}")
}

/// Appends that a venue is unreachable.
fn write_unreachable(
    alloc: Global,
    text: &mut String,
    why: &str,
    seconds: u64,
) -> Result<(), AllocError>
    ensures { OnOk result (string_bytes text.new ≡ string_bytes text.old ++ unreachable_json why.now seconds) }
{
    text.push_str("\"unreachable\"")?;
    write_failed_dial(alloc, text, why, seconds)
}

/// Appends why a connection ended.
fn write_cause(alloc: Global, text: &mut String, cause: &Cause) -> Result<(), AllocError>
    ensures { OnOk result (string_bytes text.new ≡ string_bytes text.old ++ cause_json cause.now) }
{
    match cause {
        Cause::Ended(ended) => write_ended(text, *ended),
        Cause::Said { ended, text: said } => {
            write_ended(text, *ended)?;
            let said = quoted(alloc, said.as_str())?;
            write!(text, ",\"said\":{said}")
        }
        Cause::Lost(why) => write_lost(alloc, text, why.as_str()),
    }
}

/// Appends a venue's state with its cause.
fn write_state(alloc: Global, text: &mut String, state: &VenueState) -> Result<(), AllocError>
    ensures { OnOk result (string_bytes text.new ≡ string_bytes text.old ++ state_json state.now) }
{
    match state {
        VenueState::Dialled => text.push_str("\"dialled\""),
        VenueState::Up => text.push_str("\"up\""),
        VenueState::Down(cause) => {
            text.push_str("\"down\"")?;
            write_cause(alloc, text, cause)
        }
        VenueState::Unreachable { why, seconds } => {
            write_unreachable(alloc, text, why.as_str(), *seconds)
        }
        VenueState::Closed(cause) => {
            text.push_str("\"closed\"")?;
            write_cause(alloc, text, cause)
        }
    }
}

/// Appends when the last message came, and the end of an object.
fn write_heard(text: &mut String, heard_ms_ago: Option<u64>) -> Result<(), AllocError>
    ensures { OnOk result (string_bytes text.new ≡ string_bytes text.old ++ heard_json heard_ms_ago) }
{
    match heard_ms_ago {
        Some(ms) => write!(text, "{ms}}}"),
        None => text.push_str("null}"),
    }
}

/// Appends the counts of a venue's legs, and of the lines that its log lost.
fn write_leg_counts(text: &mut String, venue: &VenueRow) -> Result<(), AllocError>
    ensures { OnOk result (string_bytes text.new ≡ string_bytes text.old ++ leg_counts_json venue.now) }
{
    let unsent = venue.status.unsent;
    let doubt = venue.status.doubt;
    let settled = venue.settled;
    let accepted = venue.accepted();
    let withdrawn = venue.withdrawn;
    let lost = venue.status.lost;
    let contradicted = venue.status.contradicted;
    write!(
        text,
        ",\"unsent\":{unsent},\"doubt\":{doubt},\"settled\":{settled}"
    )?;
    write!(
        text,
        ",\"accepted\":{accepted},\"withdrawn\":{withdrawn},\"contradicted\":{contradicted}"
    )?;
    write!(text, ",\"lost\":{lost}")
}

/// Appends the counts of what went both ways, and the key of what stands behind them.
fn write_traffic(text: &mut String, venue: &VenueRow) -> Result<(), AllocError>
    ensures { OnOk result (string_bytes text.new ≡ string_bytes text.old ++ traffic_json venue.now) }
{
    let connections = venue.connections;
    let refused_dials = venue.refused_dials;
    let sent = venue.messages_sent;
    let received = venue.messages_received;
    let bytes_sent = venue.bytes_sent;
    let bytes_received = venue.bytes_received;
    write!(
        text,
        ",\"connections\":{connections},\"refused_dials\":{refused_dials}"
    )?;
    write!(text, ",\"sent\":{sent},\"received\":{received}")?;
    write!(
        text,
        ",\"bytes_sent\":{bytes_sent},\"bytes_received\":{bytes_received},\"heard_ms_ago\":"
    )
}

/// Appends the counts of a venue.
fn write_counts(text: &mut String, venue: &VenueRow) -> Result<(), AllocError>
    ensures { OnOk result (string_bytes text.new ≡ string_bytes text.old ++ counts_json venue.now) }
{
    write_leg_counts(text, venue)?;
    text.push_str(",\"unbooked\":")?;
    write_unbooked(text, &venue.unbooked)?;
    write_traffic(text, venue)
}

/// Appends a venue behind a mark.
fn write_venue(
    alloc: Global,
    text: &mut String,
    mark: &str,
    venue: &VenueRow,
) -> Result<(), AllocError>
    ensures { OnOk result (string_bytes text.new ≡ string_bytes text.old ++ mark.now ++ venue_json venue.now) }
{
    let name = &venue.status.venue;
    write!(text, "{mark}{{\"venue\":\"{name}\",\"state\":")?;
    write_state(alloc, text, &venue.status.state)?;
    write_counts(text, venue)?;
    write_heard(text, venue.heard_ms_ago)
}

/// How a venue stands, as `{"venue":"ARCA","state":"down","text":"it was silent","code":"E10","unsent":0,..}`. The
/// only refusal is out of memory.
pub fn venue_json(alloc: Global, venue: &VenueRow) -> Result<String, AllocError>
    ensures { IfOk result (λ text. string_bytes text ≡ venue_json venue.now) }
{
    let mut text = String::new(alloc);
    write_venue(alloc, &mut text, "", venue)?;
    Ok(text)
}

/// Appends venues, parted by commas.
fn write_venues(alloc: Global, text: &mut String, venues: &[VenueRow]) -> Result<(), AllocError>
    ensures { OnOk result (string_bytes text.new ≡ string_bytes text.old ++ parted venue_json [] venues.now) }
{
    let mut mark = "";
    for venue in venues {
        write_venue(alloc, text, mark, venue)?;
        mark = ",";
    }
    Ok(())
}

/// How the venues stand, as `{"venues":[..]}`. The only refusal is out of memory.
pub fn venues_json(alloc: Global, venues: &[VenueRow]) -> Result<String, AllocError>
    ensures { IfOk result (λ text. string_bytes text ≡ venues_json venues.now) }
{
    let mut text = String::from_str(alloc, "{\"venues\":[")?;
    write_venues(alloc, &mut text, venues)?;
    text.push_str("]}")?;
    Ok(text)
}
