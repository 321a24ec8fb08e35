//! A line of a log as it is printed.
ghost use Rattle.std.specs.Prelude.{◌≡◌, IfOk};
ghost use Rattle.day_check.specs.Shown.{line_shown};

use crate::form::Form;
use log_legs::append_logged;
use std::alloc::{AllocError, Global};

/// A line of a log as it is printed: as it stands where it is this program's, else with its bytes as this program's
/// logs have those of a message.
pub(crate) fn line_shown(alloc: Global, form: &Form, line: &[u8]) -> Result<Vec<u8>, AllocError>
    ensures { IfOk result (λ text. text.items ≡ line_shown form.now line.now) }
{
    let mut text = Vec::new(alloc);
    match form {
        Form::Own => text.extend_from_slice(line)?,
        Form::Quickfix { .. } => append_logged(&mut text, line)?,
    }
    Ok(text)
}
