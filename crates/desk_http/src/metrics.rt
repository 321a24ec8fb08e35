//! The day as Prometheus' text.

ghost use Rattle.std.specs.Prelude.{◌≡◌, [], ◌++◌, IfOk, OnOk, codes, string_bytes};
ghost use Rattle.desk_http.specs.Metrics.{begun_text, build_text, cpu_text, mapped_text, metrics_text, parts_text, placed_text, refusals_text};
ghost use Rattle.desk_http.specs.Metrics.{refused_desk, refused_legs, refused_limits, refused_sample, sample};
ghost use Rattle.desk_http.specs.Metrics.{resident_text, sweeps_text, use_text, wrong_tokens_text};

use crate::day_sums::DaySums;
use crate::metric_text::{Seconds, write_head};
use crate::process_use::ProcessUse;
use crate::refusal_counts::RefusalCounts;
use crate::run::Run;
use crate::venue_metric::write_venues;
use desk_json::VenueRow;
use leg::Totals;
use std::alloc::{AllocError, Global};

/// Appends a sample: its name, with its labels, and its value.
fn write_sample(text: &mut String, name: &str, value: u64) -> Result<(), AllocError>
    ensures { OnOk result (string_bytes text.new ≡ string_bytes text.old ++ sample name.now value) }
{
    write!(text, "{name} {value}\n")
}

/// Appends the program's version.
fn write_build(text: &mut String) -> Result<(), AllocError>
    ensures { OnOk result (string_bytes text.new ≡ string_bytes text.old ++ build_text) }
{
    let words = "The program's version, as the label of a 1.";
    write_head(text, "dispatch_build_info", words, "gauge")?;
    write_sample(text, "dispatch_build_info{version=\"1.0.0\"}", 1)
}

/// Appends when the run began to serve.
fn write_begun(text: &mut String, micros: u64) -> Result<(), AllocError>
    ensures { OnOk result (string_bytes text.new ≡ string_bytes text.old ++ begun_text micros) }
{
    let words = "When the program began to serve, in seconds since 1970-01-01 UTC.";
    write_head(text, "process_start_time_seconds", words, "gauge")?;
    let begun = Seconds { micros };
    write!(text, "process_start_time_seconds {begun}\n")
}

/// Appends the processor time of the program so far.
fn write_cpu(text: &mut String, micros: u64) -> Result<(), AllocError>
    ensures { OnOk result (string_bytes text.new ≡ string_bytes text.old ++ cpu_text micros) }
{
    let words = "Processor time of the program so far, in seconds.";
    write_head(text, "process_cpu_seconds_total", words, "counter")?;
    let time = Seconds { micros };
    write!(text, "process_cpu_seconds_total {time}\n")
}

/// Appends the resident memory of the program.
fn write_resident(text: &mut String, bytes: u64) -> Result<(), AllocError>
    ensures { OnOk result (string_bytes text.new ≡ string_bytes text.old ++ resident_text bytes) }
{
    let words = "Resident memory of the program, in bytes.";
    write_head(text, "process_resident_memory_bytes", words, "gauge")?;
    write_sample(text, "process_resident_memory_bytes", bytes)
}

/// Appends the memory that the program has mapped.
fn write_mapped(text: &mut String, bytes: u64) -> Result<(), AllocError>
    ensures { OnOk result (string_bytes text.new ≡ string_bytes text.old ++ mapped_text bytes) }
{
    let words = "Memory that the program has mapped, in bytes.";
    write_head(text, "process_virtual_memory_bytes", words, "gauge")?;
    write_sample(text, "process_virtual_memory_bytes", bytes)
}

/// Appends what the process uses, if the system says it.
fn write_use(text: &mut String, used: Option<ProcessUse>) -> Result<(), AllocError>
    ensures { OnOk result (string_bytes text.new ≡ string_bytes text.old ++ use_text used) }
{
    let Some(used) = used else {
        return Ok(());
    };
    write_cpu(text, used.cpu)?;
    write_resident(text, used.resident)?;
    write_mapped(text, used.mapped)
}

/// Appends how many sweeps were placed.
fn write_sweeps(text: &mut String, sweeps: u64) -> Result<(), AllocError>
    ensures { OnOk result (string_bytes text.new ≡ string_bytes text.old ++ sweeps_text sweeps) }
{
    let words = "Sweeps that were placed.";
    write_head(text, "dispatch_sweeps_placed_total", words, "counter")?;
    write_sample(text, "dispatch_sweeps_placed_total", sweeps)
}

/// Appends how many sweeps were refused with a code.
fn write_refused(text: &mut String, code: &str, count: u64) -> Result<(), AllocError>
    ensures { OnOk result (string_bytes text.new ≡ string_bytes text.old ++ refused_sample code.now count) }
{
    write!(
        text,
        "dispatch_sweeps_refused_total{{code=\"{code}\"}} {count}\n"
    )
}

/// Appends how many sweeps were refused for their legs and venues.
#[tactic(auto, unfolding(crate::specs::Metrics::refused_legs))]
fn write_refused_legs(text: &mut String, counts: &RefusalCounts) -> Result<(), AllocError>
    ensures { OnOk result (string_bytes text.new ≡ string_bytes text.old ++ refused_legs counts.now) }
{
    write_refused(text, "R01", counts.no_legs)?;
    write_refused(text, "R02", counts.too_many_legs)?;
    write_refused(text, "R03", counts.unknown_venue)?;
    write_refused(text, "R04", counts.gate_down)?;
    write_refused(text, "R05", counts.backlog_full)
}

/// Appends how many sweeps were refused for the desk.
#[tactic(auto, unfolding(crate::specs::Metrics::refused_desk))]
fn write_refused_desk(text: &mut String, counts: &RefusalCounts) -> Result<(), AllocError>
    ensures { OnOk result (string_bytes text.new ≡ string_bytes text.old ++ refused_desk counts.now) }
{
    write_refused(text, "R06", counts.sweeps_spent)?;
    write_refused(text, "R07", counts.out_of_memory)?;
    write_refused(text, "R08", counts.wrong_book)?;
    write_refused(text, "R09", counts.other_legs)?;
    write_refused(text, "R10", counts.no_reference)
}

/// Appends how many sweeps were refused for a limit.
#[tactic(auto, unfolding(crate::specs::Metrics::refused_limits))]
fn write_refused_limits(text: &mut String, counts: &RefusalCounts) -> Result<(), AllocError>
    ensures { OnOk result (string_bytes text.new ≡ string_bytes text.old ++ refused_limits counts.now) }
{
    write_refused(text, "R11", counts.leg_shares)?;
    write_refused(text, "R12", counts.leg_dollars)?;
    write_refused(text, "R13", counts.sweep_dollars)?;
    write_refused(text, "R14", counts.day_dollars)?;
    write_refused(text, "R15", counts.other_symbol)
}

/// Appends how many sweeps were refused, by their codes.
fn write_refusals(text: &mut String, counts: &RefusalCounts) -> Result<(), AllocError>
    ensures { OnOk result (string_bytes text.new ≡ string_bytes text.old ++ refusals_text counts.now) }
{
    let words = "Sweeps that were refused, by the answer's code.";
    write_head(text, "dispatch_sweeps_refused_total", words, "counter")?;
    write_refused_legs(text, counts)?;
    write_refused_desk(text, counts)?;
    write_refused_limits(text, counts)?;
    write_refused(text, "closing", counts.closing)
}

/// Appends the shares of all sweeps that were placed.
#[tactic(auto, unfolding(crate::specs::Metrics::placed_text))]
fn write_placed(text: &mut String, placed: u64) -> Result<(), AllocError>
    ensures { OnOk result (string_bytes text.new ≡ string_bytes text.old ++ placed_text placed) }
{
    let words = "The shares of all sweeps that were placed.";
    write_head(text, "dispatch_shares_placed_total", words, "counter")?;
    write_sample(text, "dispatch_shares_placed_total", placed)
}

/// Appends what became of the shares.
#[tactic(auto, unfolding(crate::specs::Metrics::parts_text))]
fn write_parts(text: &mut String, parts: &Totals) -> Result<(), AllocError>
    ensures { OnOk result (string_bytes text.new ≡ string_bytes text.old ++ parts_text parts.now) }
{
    let words = "What became of the shares that were placed.";
    write_head(text, "dispatch_shares", words, "gauge")?;
    write_sample(text, "dispatch_shares{part=\"filled\"}", parts.filled)?;
    write_sample(text, "dispatch_shares{part=\"busted\"}", parts.busted)?;
    write_sample(text, "dispatch_shares{part=\"cancelled\"}", parts.cancelled)?;
    write_sample(text, "dispatch_shares{part=\"withdrawn\"}", parts.withdrawn)?;
    write_sample(text, "dispatch_shares{part=\"open\"}", parts.still_open)
}

/// Appends how many wrong tokens came.
fn write_wrong_tokens(text: &mut String, count: u64) -> Result<(), AllocError>
    ensures { OnOk result (string_bytes text.new ≡ string_bytes text.old ++ wrong_tokens_text count) }
{
    let words = "Requests with a token that is nobody's.";
    write_head(text, "dispatch_wrong_tokens_total", words, "counter")?;
    write_sample(text, "dispatch_wrong_tokens_total", count)
}

/// The day as Prometheus' text: the run that serves it, what it uses, its sweeps, those that were refused, its shares,
/// the wrong tokens, and what is told of each venue. The only refusal is out of memory.
#[tactic(auto, unfolding(crate::specs::Metrics::metrics_text))]
pub(crate) fn metrics_text(
    alloc: Global,
    run: &Run,
    used: Option<ProcessUse>,
    sums: &DaySums,
    refusals: &RefusalCounts,
    wrong_tokens: u64,
    venues: &[VenueRow],
) -> Result<String, AllocError>
    ensures { IfOk result (λ text. string_bytes text
        ≡ metrics_text run.now used sums.now refusals.now wrong_tokens venues.now) }
{
    let mut text = String::new(alloc);
    write_build(&mut text)?;
    write_begun(&mut text, run.begun)?;
    write_use(&mut text, used)?;
    write_sweeps(&mut text, sums.sweeps)?;
    write_refusals(&mut text, refusals)?;
    write_placed(&mut text, sums.placed)?;
    write_parts(&mut text, &sums.parts)?;
    write_wrong_tokens(&mut text, wrong_tokens)?;
    write_venues(&mut text, venues)?;
    Ok(text)
}
