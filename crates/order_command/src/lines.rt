//! What shows an order: its frame, and a leg.
ghost use Rattle.std.specs.Prelude.{◌≡◌, IfOk};
ghost use Rattle.order_command.specs.OrderLines.{leg_line, order_lines, order_output};

use crate::form::OrderForm;
use command_line::shown;
use leg::Leg;
use std::alloc::{AllocError, Global};

/// A line of the frame with `|` for SOH, and a line of the leg.
pub fn order_lines(alloc: Global, frame: &[u8], leg: &Leg) -> Result<Vec<u8>, AllocError>
    ensures { IfOk result (λ text. text.items ≡ order_lines frame.now leg.now) }
{
    let mut text = shown(alloc, frame)?;
    let rest = format!(in alloc; "\n{leg}\n")?;
    text.extend_from_slice(rest.as_bytes())?;
    Ok(text)
}

/// An order's frame and leg in a form.
pub fn order_output(
    alloc: Global,
    form: OrderForm,
    frame: Vec<u8>,
    leg: &Leg,
) -> Result<Vec<u8>, AllocError>
    ensures { IfOk result (λ text. text.items ≡ order_output form frame.items leg.now) }
{
    match form {
        OrderForm::Shown => order_lines(alloc, &frame, leg),
        OrderForm::Raw => Ok(frame),
    }
}

/// A line of a leg.
pub fn leg_line(alloc: Global, leg: &Leg) -> Result<Vec<u8>, AllocError>
    ensures { IfOk result (λ text. text.items ≡ leg_line leg.now) }
{
    Ok(format!(in alloc; "{leg}\n")?.into_bytes())
}
