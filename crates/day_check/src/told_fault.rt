//! A fault as a line of JSON.
ghost use Rattle.std.specs.Prelude.{◌≡◌, ◌++◌, IfOk, OnOk, option_map};
ghost use Rattle.day_check.specs.ToldFault.{fault_json, number_before, text_before, text_behind, text_member};

use crate::json::{append_number, append_string};
use std::alloc::{AllocError, Global};

/// A fault as it is told: the log and the line that are at fault, where they are known, and what to do, where there is
/// something.
#[derive(Clone, Copy, Debug)]
pub struct ToldFault<'a> {
    pub log: Option<&'a str>,
    pub line: Option<u64>,
    pub text: &'a str,
    pub advice: Option<&'a str>,
}

/// Appends a member of text.
pub(crate) fn append_text_member(
    line: &mut Vec<u8>,
    name: &str,
    said: &str,
) -> Result<(), AllocError>
    ensures { OnOk result (line.new.items ≡ line.old.items ++ text_member name.now said.now) }
{
    append_string(line, name.as_bytes())?;
    line.push(b':')?;
    append_string(line, said.as_bytes())
}

/// Appends a member before others, if it is there.
fn append_text_before(line: &mut Vec<u8>, name: &str, said: Option<&str>) -> Result<(), AllocError>
    ensures { OnOk result (line.new.items
        ≡ line.old.items ++ text_before name.now (option_map (λ text. text.now) said.entry)) }
{
    if let Some(said) = said {
        append_text_member(line, name, said)?;
        line.push(b',')?;
    }
    Ok(())
}

/// Appends a member before others, if it is there.
fn append_number_before(
    line: &mut Vec<u8>,
    name: &str,
    number: Option<u64>,
) -> Result<(), AllocError>
    ensures { OnOk result (line.new.items ≡ line.old.items ++ number_before name.now number) }
{
    if let Some(number) = number {
        append_string(line, name.as_bytes())?;
        line.push(b':')?;
        append_number(line, number)?;
        line.push(b',')?;
    }
    Ok(())
}

/// Appends a member behind others, if it is there.
fn append_text_behind(line: &mut Vec<u8>, name: &str, said: Option<&str>) -> Result<(), AllocError>
    ensures { OnOk result (line.new.items
        ≡ line.old.items ++ text_behind name.now (option_map (λ text. text.now) said.entry)) }
{
    if let Some(said) = said {
        line.push(b',')?;
        append_text_member(line, name, said)?;
    }
    Ok(())
}

/// A fault as an object of JSON, in a line.
pub fn fault_json(alloc: Global, told: &ToldFault<'_>) -> Result<Vec<u8>, AllocError>
    ensures { IfOk result (λ line. line.items ≡ fault_json told.now) }
{
    let mut line = Vec::new(alloc);
    line.push(b'{')?;
    append_text_before(&mut line, "log", told.log)?;
    append_number_before(&mut line, "bad_line", told.line)?;
    append_text_member(&mut line, "fault", told.text)?;
    append_text_behind(&mut line, "advice", told.advice)?;
    line.extend_from_slice(b"}\n")?;
    Ok(line)
}
