//! The metrics of venues.

ghost use Rattle.std.specs.Prelude.{◌≡◌, [], ◌++◌, OnOk, codes, string_bytes};
ghost use Rattle.desk_http.specs.VenueMetric.{legs_samples, metric_text, samples, samples_at_each, state_sample};
ghost use Rattle.desk_http.specs.VenueMetric.{state_value, state_word, states_samples, sum_sample, venue_help};
ghost use Rattle.desk_http.specs.VenueMetric.{unbooked_samples, venue_kind, venue_name, venue_sample, venues_text};
ghost use Rattle.desk_http.specs.VenueMetric.{wait_sample, wait_samples, waits_samples, ways_samples};

use crate::metric_text::{Seconds, write_head};
use desk_json::{OrderWaits, VenueRow, WaitCount};
use desk_news::VenueState;
use desk_words::VenueName;
use std::alloc::AllocError;

/// What is told of each venue.
#[derive(Clone, Copy, Debug, PartialEq, Eq)]
enum VenueMetric {
    State,
    Legs,
    Unbooked,
    Contradicted,
    LinesLost,
    Connections,
    FailedDials,
    Messages,
    Bytes,
    Waits,
}

/// The name of a metric of venues.
fn venue_name(metric: VenueMetric) -> &'static str
    ensures { result.now ≡ venue_name metric }
{
    match metric {
        VenueMetric::State => "dispatch_venue_state",
        VenueMetric::Legs => "dispatch_legs",
        VenueMetric::Unbooked => "dispatch_unbooked_reports_total",
        VenueMetric::Contradicted => "dispatch_contradicted_legs_total",
        VenueMetric::LinesLost => "dispatch_log_lines_lost_total",
        VenueMetric::Connections => "dispatch_connections_total",
        VenueMetric::FailedDials => "dispatch_failed_dials_total",
        VenueMetric::Messages => "dispatch_messages_total",
        VenueMetric::Bytes => "dispatch_bytes_total",
        VenueMetric::Waits => "dispatch_order_wait_seconds",
    }
}

/// What a metric of venues is, in words.
fn venue_help(metric: VenueMetric) -> &'static str
    ensures { result.now ≡ venue_help metric }
{
    match metric {
        VenueMetric::State => "Whether the venue is in this state: 1 or 0.",
        VenueMetric::Legs => "Legs of the venue, by their state.",
        VenueMetric::Unbooked => "Reports of the venue that the book didn't take.",
        VenueMetric::Contradicted =>
            "Legs that the venue reported on and showed later not to have.",
        VenueMetric::LinesLost => "Lines that the log of the venue lost.",
        VenueMetric::Connections => "Connections to the venue in this day.",
        VenueMetric::FailedDials => "Dials of the venue that failed.",
        VenueMetric::Messages => "Messages to and from the venue.",
        VenueMetric::Bytes => "Bytes to and from the venue.",
        VenueMetric::Waits => "How long an order waited to be written.",
    }
}

/// The type of a metric of venues.
fn venue_kind(metric: VenueMetric) -> &'static str
    ensures { result.now ≡ venue_kind metric }
{
    match metric {
        VenueMetric::State => "gauge",
        VenueMetric::Legs => "gauge",
        VenueMetric::Unbooked => "counter",
        VenueMetric::Contradicted => "counter",
        VenueMetric::LinesLost => "counter",
        VenueMetric::Connections => "counter",
        VenueMetric::FailedDials => "counter",
        VenueMetric::Messages => "counter",
        VenueMetric::Bytes => "counter",
        VenueMetric::Waits => "histogram",
    }
}

/// The word of a venue's state.
fn state_word(state: &VenueState) -> &'static str
    ensures { result.now ≡ state_word state.now }
{
    match state {
        VenueState::Dialled => "dialled",
        VenueState::Up => "up",
        VenueState::Down(_) => "down",
        VenueState::Unreachable { .. } => "unreachable",
        VenueState::Closed(_) => "closed",
    }
}

/// Appends a sample of a venue: its metric, one more label or none, and its value.
fn write_sample(
    text: &mut String,
    metric: &str,
    venue: &VenueName,
    label: &str,
    value: u64,
) -> Result<(), AllocError>
    ensures { OnOk result (string_bytes text.new
        ≡ string_bytes text.old ++ venue_sample metric.now venue.now label.now value) }
{
    write!(text, "{metric}{{venue=\"{venue}\"{label}}} {value}\n")
}

/// 1 where a state of a venue, said in its word, is the one of a word, and else 0.
fn state_value(said: &str, word: &str) -> u64
    ensures { result ≡ state_value said.now word.now }
{
    if said == word { 1 } else { 0 }
}

/// Appends whether a venue, whose state has this word, is in the state of that one.
fn write_state(
    text: &mut String,
    venue: &VenueName,
    said: &str,
    word: &str,
) -> Result<(), AllocError>
    ensures { OnOk result (string_bytes text.new
        ≡ string_bytes text.old ++ state_sample venue.now said.now word.now) }
{
    let value = state_value(said, word);
    write!(
        text,
        "dispatch_venue_state{{venue=\"{venue}\",state=\"{word}\"}} {value}\n"
    )
}

/// Appends a sample of each state of a venue, whose state has this word.
fn write_states(text: &mut String, venue: &VenueName, said: &str) -> Result<(), AllocError>
    ensures { OnOk result (string_bytes text.new ≡ string_bytes text.old ++ states_samples venue.now said.now) }
{
    write_state(text, venue, said, "dialled")?;
    write_state(text, venue, said, "up")?;
    write_state(text, venue, said, "down")?;
    write_state(text, venue, said, "unreachable")?;
    write_state(text, venue, said, "closed")
}

/// Appends the samples of a venue's legs.
fn write_legs(text: &mut String, venue: &VenueRow) -> Result<(), AllocError>
    ensures { OnOk result (string_bytes text.new ≡ string_bytes text.old ++ legs_samples venue.now) }
{
    let metric = "dispatch_legs";
    let name = &venue.status.venue;
    write_sample(text, metric, name, ",state=\"queued\"", venue.status.unsent)?;
    write_sample(text, metric, name, ",state=\"doubt\"", venue.status.doubt)?;
    write_sample(text, metric, name, ",state=\"settled\"", venue.settled)?;
    write_sample(text, metric, name, ",state=\"accepted\"", venue.accepted())?;
    write_sample(text, metric, name, ",state=\"withdrawn\"", venue.withdrawn)
}

/// Appends the samples of what the book didn't take of a venue.
fn write_unbooked(text: &mut String, venue: &VenueRow) -> Result<(), AllocError>
    ensures { OnOk result (string_bytes text.new ≡ string_bytes text.old ++ unbooked_samples venue.now) }
{
    let metric = "dispatch_unbooked_reports_total";
    let name = &venue.status.venue;
    write_sample(
        text,
        metric,
        name,
        ",kind=\"duplicate\"",
        venue.unbooked.duplicates,
    )?;
    write_sample(
        text,
        metric,
        name,
        ",kind=\"overfill\"",
        venue.unbooked.overfills,
    )?;
    write_sample(text, metric, name, ",kind=\"stray\"", venue.unbooked.strays)?;
    write_sample(
        text,
        metric,
        name,
        ",kind=\"unread\"",
        venue.unbooked.unread,
    )
}

/// Appends the samples of what went both ways.
fn write_ways(
    text: &mut String,
    metric: &str,
    venue: &VenueName,
    sent: u64,
    received: u64,
) -> Result<(), AllocError>
    ensures { OnOk result (string_bytes text.new
        ≡ string_bytes text.old ++ ways_samples metric.now venue.now sent received) }
{
    write_sample(text, metric, venue, ",way=\"sent\"", sent)?;
    write_sample(text, metric, venue, ",way=\"received\"", received)
}

/// Appends how many orders of a venue waited at most so long.
fn write_wait(text: &mut String, venue: &VenueName, wait: &WaitCount) -> Result<(), AllocError>
    ensures { OnOk result (string_bytes text.new ≡ string_bytes text.old ++ wait_sample venue.now wait.now) }
{
    let count = wait.count;
    let most = Seconds { micros: wait.most };
    write!(
        text,
        "dispatch_order_wait_seconds_bucket{{venue=\"{venue}\",le=\"{most}\"}} {count}\n"
    )
}

/// Appends how many orders of a venue waited at most how long.
fn write_within(text: &mut String, venue: &VenueName, waits: &[WaitCount]) -> Result<(), AllocError>
    ensures { OnOk result (string_bytes text.new ≡ string_bytes text.old ++ wait_samples venue.now waits.now) }
{
    for wait in waits {
        write_wait(text, venue, wait)?;
    }
    Ok(())
}

/// Appends how long the orders of a venue waited in all.
fn write_sum(text: &mut String, venue: &VenueName, micros: u64) -> Result<(), AllocError>
    ensures { OnOk result (string_bytes text.new ≡ string_bytes text.old ++ sum_sample venue.now micros) }
{
    let sum = Seconds { micros };
    write!(
        text,
        "dispatch_order_wait_seconds_sum{{venue=\"{venue}\"}} {sum}\n"
    )
}

/// Appends how many orders of a venue waited, and how long in all.
fn write_waits(text: &mut String, venue: &VenueName, waits: &OrderWaits) -> Result<(), AllocError>
    ensures { OnOk result (string_bytes text.new ≡ string_bytes text.old ++ waits_samples venue.now waits.now) }
{
    let (bucket, count) = (
        "dispatch_order_wait_seconds_bucket",
        "dispatch_order_wait_seconds_count",
    );
    write_within(text, venue, waits.within.as_slice())?;
    write_sample(text, bucket, venue, ",le=\"+Inf\"", waits.count)?;
    write_sum(text, venue, waits.micros)?;
    write_sample(text, count, venue, "", waits.count)
}

/// Appends the samples of a metric at a venue.
fn write_samples(text: &mut String, metric: VenueMetric, venue: &VenueRow) -> Result<(), AllocError>
    ensures { OnOk result (string_bytes text.new ≡ string_bytes text.old ++ samples metric venue.now) }
{
    let name = &venue.status.venue;
    match metric {
        VenueMetric::State => write_states(text, name, state_word(&venue.status.state)),
        VenueMetric::Legs => write_legs(text, venue),
        VenueMetric::Unbooked => write_unbooked(text, venue),
        VenueMetric::Contradicted => {
            let metric = "dispatch_contradicted_legs_total";
            write_sample(text, metric, name, "", venue.status.contradicted)
        }
        VenueMetric::LinesLost => {
            let metric = "dispatch_log_lines_lost_total";
            write_sample(text, metric, name, "", venue.status.lost)
        }
        VenueMetric::Connections => {
            let metric = "dispatch_connections_total";
            write_sample(text, metric, name, "", venue.connections)
        }
        VenueMetric::FailedDials => {
            let metric = "dispatch_failed_dials_total";
            write_sample(text, metric, name, "", venue.refused_dials)
        }
        VenueMetric::Messages => {
            let (sent, received) = (venue.messages_sent, venue.messages_received);
            write_ways(text, "dispatch_messages_total", name, sent, received)
        }
        VenueMetric::Bytes => {
            let (sent, received) = (venue.bytes_sent, venue.bytes_received);
            write_ways(text, "dispatch_bytes_total", name, sent, received)
        }
        VenueMetric::Waits => write_waits(text, name, &venue.waits),
    }
}

/// Appends the samples of a metric at each venue.
fn write_at_each(
    text: &mut String,
    metric: VenueMetric,
    venues: &[VenueRow],
) -> Result<(), AllocError>
    ensures { OnOk result (string_bytes text.new ≡ string_bytes text.old ++ samples_at_each metric venues.now) }
{
    for venue in venues {
        write_samples(text, metric, venue)?;
    }
    Ok(())
}

/// Appends a metric of venues: what it is, its type, and its samples.
#[tactic(auto, unfolding(crate::specs::VenueMetric::metric_text))]
fn write_metric(
    text: &mut String,
    metric: VenueMetric,
    venues: &[VenueRow],
) -> Result<(), AllocError>
    ensures { OnOk result (string_bytes text.new ≡ string_bytes text.old ++ metric_text metric venues.now) }
{
    let (name, words) = (venue_name(metric), venue_help(metric));
    write_head(text, name, words, venue_kind(metric))?;
    write_at_each(text, metric, venues)
}

/// Appends each metric of venues.
#[tactic(auto, unfolding(crate::specs::VenueMetric::venues_text))]
pub(crate) fn write_venues(text: &mut String, venues: &[VenueRow]) -> Result<(), AllocError>
    ensures { OnOk result (string_bytes text.new ≡ string_bytes text.old ++ venues_text venues.now) }
{
    write_metric(text, VenueMetric::State, venues)?;
    write_metric(text, VenueMetric::Legs, venues)?;
    write_metric(text, VenueMetric::Unbooked, venues)?;
    write_metric(text, VenueMetric::Contradicted, venues)?;
    write_metric(text, VenueMetric::LinesLost, venues)?;
    write_metric(text, VenueMetric::Connections, venues)?;
    write_metric(text, VenueMetric::FailedDials, venues)?;
    write_metric(text, VenueMetric::Messages, venues)?;
    write_metric(text, VenueMetric::Bytes, venues)?;
    write_metric(text, VenueMetric::Waits, venues)
}
