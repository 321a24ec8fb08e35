//! The numbers of a log's lines.

ghost use Rattle.std.specs.Prelude.{◌≡◌, ◌<◌, length, vec_capacity};
ghost use Rattle.day_rules.specs.Lines.{earlier, first_line, noted_line, noted_moment};

use log_rules::Moment;

/// Notes the line of a number for the last of so many things, unless each has one already. There is room for it.
pub(crate) fn note_line(lines: &mut Vec<u64>, number: u64, count: usize)
    requires { length lines.old.items < vec_capacity lines.old }
    ensures { lines.new.items ≡ noted_line number count lines.old.items }
{
    if lines.len() < count {
        lines.push_reserved(number);
    }
}

/// Notes the moment for the last of so many things, unless each has one already. There is room for it.
pub(crate) fn note_moment(moments: &mut Vec<Moment>, moment: Moment, count: usize)
    requires { length moments.old.items < vec_capacity moments.old }
    ensures { moments.new.items ≡ noted_moment moment count moments.old.items }
{
    if moments.len() < count {
        moments.push_reserved(moment);
    }
}

/// The first line at which something is, behind the line of this number.
pub(crate) fn first_line(is_there: bool, number: u64, line: Option<u64>) -> Option<u64>
    ensures { result ≡ first_line is_there number line }
{
    match line {
        None if is_there => Some(number),
        line => line,
    }
}

/// The first of two lines.
pub(crate) fn earlier(one: Option<u64>, other: Option<u64>) -> Option<u64>
    ensures { result ≡ earlier one other }
{
    match (one, other) {
        (Some(line), Some(other)) => Some(line.min(other)),
        (Some(line), None) => Some(line),
        (None, other) => other,
    }
}
