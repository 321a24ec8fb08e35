//! Lines of JSON.
ghost use Rattle.std.specs.Prelude.{◌≡◌, ◌++◌, ◌<◌, IfOk, OnOk};
ghost use Rattle.day_check.specs.declared.json.Value.TheVariants.{Number};
ghost use Rattle.day_check.specs.Json.{hex_digit, json_byte, json_line, json_member, json_string, json_text};
ghost use Rattle.day_check.specs.Json.{json_value};

use arrayvec::ArrayVec;
use itoa::Buffer;
use std::alloc::{AllocError, Global};

/// A value of a member.
#[derive(Debug, Drop)]
pub(crate) enum Value<'a> {
    Text(&'a [u8]),
    Number(u64),
}

/// A member of an object.
#[derive(Debug, Drop)]
pub(crate) struct Member<'a> {
    pub name: &'a str,
    pub value: Value<'a>,
}

/// A digit of a byte in lower-case hexadecimal.
fn hex_digit(value: u8) -> u8
    requires { value < 16 }
    ensures { result ≡ hex_digit value }
{
    if value < 10 {
        b'0' + value
    } else {
        b'a' + (value - 10)
    }
}

/// A byte in a string: `\"` and `\\` for a quote and a backslash, `\u00NN` for a control character, else itself.
fn json_byte(byte: u8) -> ArrayVec<u8, 6>
    ensures { result.items ≡ json_byte byte }
{
    let mut text = ArrayVec::new();
    match byte {
        b'"' => text.try_extend_from_slice(br#"\""#).unwrap(),
        b'\\' => text.try_extend_from_slice(br"\\").unwrap(),
        0..=31 => {
            text.try_extend_from_slice(br"\u00").unwrap();
            text.push(hex_digit(byte / 16));
            text.push(hex_digit(byte % 16));
        }
        _ => text.push(byte),
    }
    text
}

fn append_text(line: &mut Vec<u8>, text: &[u8]) -> Result<(), AllocError>
    ensures { OnOk result (line.new.items ≡ line.old.items ++ json_text text.now) }
{
    for byte in text {
        let piece = json_byte(*byte);
        line.extend_from_slice(piece.as_slice())?;
    }
    Ok(())
}

pub(crate) fn append_string(line: &mut Vec<u8>, text: &[u8]) -> Result<(), AllocError>
    ensures { OnOk result (line.new.items ≡ line.old.items ++ json_string text.now) }
{
    line.push(b'"')?;
    append_text(line, text)?;
    line.push(b'"')?;
    Ok(())
}

pub(crate) fn append_number(line: &mut Vec<u8>, number: u64) -> Result<(), AllocError>
    ensures { OnOk result (line.new.items ≡ line.old.items ++ json_value (Number number)) }
{
    let mut digits = Buffer::new();
    line.extend_from_slice(digits.format(number).as_bytes())
}

fn append_value(line: &mut Vec<u8>, value: &Value<'_>) -> Result<(), AllocError>
    ensures { OnOk result (line.new.items ≡ line.old.items ++ json_value value.now) }
{
    match value {
        Value::Text(text) => append_string(line, text),
        Value::Number(number) => append_number(line, *number),
    }
}

fn append_member(line: &mut Vec<u8>, member: &Member<'_>) -> Result<(), AllocError>
    ensures { OnOk result (line.new.items ≡ line.old.items ++ json_member member.now) }
{
    append_string(line, member.name.as_bytes())?;
    line.push(b':')?;
    append_value(line, &member.value)
}

/// An object of these members in a line, with its end. Texts are escaped so that each line is JSON where they are
/// UTF-8.
pub(crate) fn json_line(alloc: Global, members: &[Member<'_>]) -> Result<Vec<u8>, AllocError>
    ensures { IfOk result (λ line. line.items ≡ json_line members.now) }
{
    let mut line = Vec::new(alloc);
    let mut mark = b'{';
    for member in members {
        line.push(mark)?;
        append_member(&mut line, member)?;
        mark = b',';
    }
    line.extend_from_slice(b"}\n")?;
    Ok(line)
}
