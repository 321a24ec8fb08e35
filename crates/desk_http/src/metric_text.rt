//! How a metric and a time are written.

ghost use Rattle.std.specs.Prelude.{◌≡◌, ◌++◌, OnOk, Some, string_bytes};
ghost use Rattle.desk_http.specs.MetricText.{metric_head, seconds_text};

use std::alloc::AllocError;
use std::fmt;

/// Appends what a metric is in words, and its type.
pub(crate) fn write_head(
    text: &mut String,
    name: &str,
    words: &str,
    kind: &str,
) -> Result<(), AllocError>
    ensures { OnOk result (string_bytes text.new
        ≡ string_bytes text.old ++ metric_head name.now words.now kind.now) }
{
    write!(text, "# HELP {name} {words}\n# TYPE {name} {kind}\n")
}

/// A time, written in seconds.
#[derive(Clone, Copy, Debug, PartialEq, Eq)]
pub(crate) struct Seconds {
    pub micros: u64,
}

impl fmt::Display for Seconds {
    ghost output = { λ time. Some (seconds_text time.micros) };

    fn fmt<W: fmt::Write>(&self, f: &mut fmt::Formatter<W>) -> fmt::Result {
        let micros = self.micros;
        let (whole, tenths) = (micros / 1_000_000, micros / 100_000 % 10);
        let (hundredths, thousandths) = (micros / 10_000 % 10, micros / 1_000 % 10);
        let (fourth, fifth, sixth) = (micros / 100 % 10, micros / 10 % 10, micros % 10);
        write!(
            f,
            "{whole}.{tenths}{hundredths}{thousandths}{fourth}{fifth}{sixth}"
        )
    }
}
