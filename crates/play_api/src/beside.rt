//! What an exchange says beside a note, from the fields of a case.

use case_text::PlayFault;
use report_words::{FirstWords, ReportWords};

/// The value of a tag among fields as `35=8|37=O1`; empty where it isn't there.
fn value<'a>(fields: &'a str, tag: &str) -> &'a [u8] {
    for field in fields.split('|') {
        match field.split_once('=') {
            Some((name, value)) if name == tag => return value.as_bytes(),
            _ => {}
        }
    }
    &[]
}

/// The tag of the reason that a message of this kind gives.
fn reason_tag(kind: &[u8]) -> Result<&'static str, PlayFault> {
    match kind {
        b"3" => Ok("373"),
        b"j" => Ok("380"),
        b"8" | b"" => Ok("103"),
        _ => Err(PlayFault::NotUnderstood),
    }
}

/// The words of a message of these fields.
pub fn words_of(fields: &str) -> Result<ReportWords, PlayFault> {
    let reason = reason_tag(value(fields, "35"))?;
    Ok(ReportWords {
        id: FirstWords::new(value(fields, "11")),
        exec_type: FirstWords::new(value(fields, "150")),
        order: FirstWords::new(value(fields, "37")),
        shares: FirstWords::new(value(fields, "32")),
        price: FirstWords::new(value(fields, "31")),
        time: FirstWords::new(value(fields, "60")),
        text: FirstWords::new(value(fields, "58")),
        reason: FirstWords::new(value(fields, reason)),
        refused: FirstWords::new(value(fields, "372")),
        message: FirstWords::new(value(fields, "35")),
    })
}
