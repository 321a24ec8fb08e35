//! What was paid, written.

ghost use Rattle.std.specs.Prelude.{◌≡◌, ◌++◌, OnOk, string_bytes};
ghost use Rattle.desk_json.specs.Paid.{average_json, paid_json};
ghost use Rattle.desk_news.specs.Paid.{average_of};

use desk_news::Paid;
use std::alloc::AllocError;

/// Appends the average price, or `null` where none is known.
fn write_average(text: &mut String, paid: &Paid) -> Result<(), AllocError>
    ensures { OnOk result (string_bytes text.new ≡ string_bytes text.old ++ average_json (average_of paid.now)) }
{
    match paid.average() {
        Some(average) => write!(text, ",\"average\":\"{average}\""),
        None => text.push_str(",\"average\":null"),
    }
}

/// Appends what was paid for a sweep or a leg, and what is disputed of it.
pub(crate) fn write_paid(text: &mut String, paid: &Paid) -> Result<(), AllocError>
    ensures { OnOk result (string_bytes text.new ≡ string_bytes text.old ++ paid_json paid.now) }
{
    let value = paid.worth.value;
    let unpriced = paid.worth.unpriced;
    let disputed = paid.disputed;
    write!(text, ",\"paid_e8\":{value}")?;
    write_average(text, paid)?;
    write!(
        text,
        ",\"price_unknown\":{unpriced},\"disputed\":{disputed}"
    )
}
