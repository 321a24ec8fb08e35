//! What exchanges say in words, written.

ghost use Rattle.std.specs.Prelude.{◌≡◌, ◌++◌, IfOk, OnOk, string_bytes};
ghost use Rattle.json.specs.Print.{quoted};
ghost use Rattle.desk_executions.specs.Words.{words_text};
ghost use Rattle.desk_json.specs.Words.{beside_json, fields_json, piece_json, reason_json};

use crate::quoted::quoted;
use desk_executions::WordsText;
use report_words::{FirstWords, ReportWords};
use std::alloc::{AllocError, Global};

/// Words, as a string of JSON.
fn words_json<const N: usize>(alloc: Global, words: &FirstWords<N>) -> Result<String, AllocError>
    ensures { IfOk result (λ text. string_bytes text ≡ quoted (words_text words.now)) }
{
    let shown = WordsText::new(words);
    let text = format!(in alloc; "{shown}")?;
    quoted(alloc, text.as_str())
}

/// Appends words under a key, where there are some.
fn write_piece<const N: usize>(
    alloc: Global,
    text: &mut String,
    key: &str,
    words: &FirstWords<N>,
) -> Result<(), AllocError>
    ensures { OnOk result (string_bytes text.new ≡ string_bytes text.old ++ piece_json key.now words.now) }
{
    if words.as_bytes().is_empty() {
        return Ok(());
    }
    let words = words_json(alloc, words)?;
    write!(text, ",\"{key}\":{words}")
}

/// Appends why an order or its message was refused, with the tag of the field that says it, where one does.
fn write_reason(alloc: Global, text: &mut String, words: &ReportWords) -> Result<(), AllocError>
    ensures { OnOk result (string_bytes text.new ≡ string_bytes text.old ++ reason_json words.now) }
{
    if words.reason.as_bytes().is_empty() {
        return Ok(());
    }
    let tag = words.reason_tag();
    let reason = words_json(alloc, &words.reason)?;
    write!(text, ",\"reason\":{reason},\"reason_tag\":{tag}")
}

/// Appends what an exchange says beside its note.
pub(crate) fn write_beside(
    alloc: Global,
    text: &mut String,
    words: &ReportWords,
) -> Result<(), AllocError>
    ensures { OnOk result (string_bytes text.new ≡ string_bytes text.old ++ beside_json words.now) }
{
    write_piece(alloc, text, "order", &words.order)?;
    write_piece(alloc, text, "time", &words.time)?;
    write_reason(alloc, text, words)?;
    write_piece(alloc, text, "refused", &words.refused)?;
    write_piece(alloc, text, "text", &words.text)
}

/// Appends what a report that can't be read says of its order.
pub(crate) fn write_fields(
    alloc: Global,
    text: &mut String,
    words: &ReportWords,
) -> Result<(), AllocError>
    ensures { OnOk result (string_bytes text.new ≡ string_bytes text.old ++ fields_json words.now) }
{
    write_piece(alloc, text, "tag_11", &words.id)?;
    write_piece(alloc, text, "tag_150", &words.exec_type)?;
    write_piece(alloc, text, "tag_32", &words.shares)?;
    write_piece(alloc, text, "tag_31", &words.price)
}
