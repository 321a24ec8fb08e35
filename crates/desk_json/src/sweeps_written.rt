//! Sweeps and the day's sums, written.

ghost use Rattle.std.specs.Prelude.{◌≡◌, [], ◌++◌, IfOk, OnOk, codes, string_bytes};
ghost use Rattle.desk_json.specs.Parted.{parted};
ghost use Rattle.desk_json.specs.Sweeps.{closing_json, day_json, parts_json, shares_json, sweep_json, sweeps_json};

use crate::paid_written::write_paid;
use crate::standing::SweepsPage;
use desk_news::{DayTotals, Paid, PaidSweep};
use leg::Totals;
use std::alloc::{AllocError, Global};

/// Appends the five parts of shares.
fn write_parts(text: &mut String, totals: &Totals) -> Result<(), AllocError>
    ensures { OnOk result (string_bytes text.new ≡ string_bytes text.old ++ parts_json totals.now) }
{
    let Totals {
        filled,
        busted,
        cancelled,
        withdrawn,
        still_open,
    } = *totals;
    write!(text, "\"filled\":{filled},\"busted\":{busted}")?;
    write!(text, ",\"cancelled\":{cancelled},\"withdrawn\":{withdrawn}")?;
    write!(text, ",\"open\":{still_open}")
}

/// Appends the five parts of shares, and what was paid for them.
pub(crate) fn write_shares(
    text: &mut String,
    totals: &Totals,
    paid: &Paid,
) -> Result<(), AllocError>
    ensures { OnOk result (string_bytes text.new ≡ string_bytes text.old ++ shares_json totals.now paid.now) }
{
    write_parts(text, totals)?;
    write_paid(text, paid)
}

/// Appends what became of a sweep's shares and what was paid for them, behind a mark.
fn write_sweep(text: &mut String, mark: &str, sweep: &PaidSweep) -> Result<(), AllocError>
    ensures { OnOk result (string_bytes text.new ≡ string_bytes text.old ++ mark.now ++ sweep_json sweep.now) }
{
    let number = sweep.parts.sweep;
    let shares = sweep.parts.shares;
    write!(text, "{mark}{{\"sweep\":{number},\"legs\":{shares},")?;
    write_shares(text, &sweep.parts.totals, &sweep.paid)?;
    text.push_str("}")
}

/// What became of a sweep's shares, as `{"sweep":12,"legs":150,"filled":60,..}`. The only refusal is out of memory.
pub fn sweep_json(alloc: Global, sweep: &PaidSweep) -> Result<String, AllocError>
    ensures { IfOk result (λ text. string_bytes text ≡ sweep_json sweep.now) }
{
    let mut text = String::new(alloc);
    write_sweep(&mut text, "", sweep)?;
    Ok(text)
}

/// Appends the sums of the day.
fn write_day(text: &mut String, day: &DayTotals) -> Result<(), AllocError>
    ensures { OnOk result (string_bytes text.new ≡ string_bytes text.old ++ day_json day.now) }
{
    let DayTotals {
        placed,
        resolved,
        still_open,
    } = *day;
    write!(
        text,
        "{{\"placed\":{placed},\"resolved\":{resolved},\"open\":{still_open}}}"
    )
}

/// The sums of the day, as `{"placed":300,"resolved":250,"open":50}`. The only refusal is out of memory.
pub fn day_json(alloc: Global, day: &DayTotals) -> Result<String, AllocError>
    ensures { IfOk result (λ text. string_bytes text ≡ day_json day.now) }
{
    let mut text = String::new(alloc);
    write_day(&mut text, day)?;
    Ok(text)
}

/// Appends sweeps, parted by commas.
fn write_sweeps(text: &mut String, sweeps: &[PaidSweep]) -> Result<(), AllocError>
    ensures { OnOk result (string_bytes text.new ≡ string_bytes text.old ++ parted sweep_json [] sweeps.now) }
{
    let mut mark = "";
    for sweep in sweeps {
        write_sweep(text, mark, sweep)?;
        mark = ",";
    }
    Ok(())
}

/// Appends whether the day is closing, and the end of an object.
fn write_closing(text: &mut String, is_closing: bool) -> Result<(), AllocError>
    ensures { OnOk result (string_bytes text.new ≡ string_bytes text.old ++ closing_json is_closing) }
{
    if is_closing {
        text.push_str(",\"closing\":true}")
    } else {
        text.push_str(",\"closing\":false}")
    }
}

/// Some sweeps with the sums of the day, as `{"sweeps":[..],"day":{..},"closing":false}`. The only refusal is want of
/// memory.
pub fn sweeps_json(alloc: Global, page: &SweepsPage) -> Result<String, AllocError>
    ensures { IfOk result (λ text. string_bytes text ≡ sweeps_json page.now) }
{
    let mut text = String::from_str(alloc, "{\"sweeps\":[")?;
    write_sweeps(&mut text, page.sweeps.as_slice())?;
    text.push_str("],\"day\":")?;
    write_day(&mut text, &page.day)?;
    write_closing(&mut text, page.is_closing)?;
    Ok(text)
}
