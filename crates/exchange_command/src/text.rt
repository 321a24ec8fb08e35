//! What `dispatch exchange` prints.
ghost use Rattle.std.specs.Prelude.{◌≡◌, IfOk};
ghost use Rattle.exchange_command.specs.ExchangeText.{accepted_text, listening_text};

use std::alloc::{AllocError, Global};

/// That it listens, and on which port: a line.
pub fn listening_text(alloc: Global, port: u16) -> Result<Vec<u8>, AllocError>
    ensures { IfOk result (λ text. text.items ≡ listening_text port) }
{
    let text = format!(in alloc; "listening on port {port}\n")?;
    Ok(text.into_bytes())
}

/// How many orders it accepted: a line.
pub fn accepted_text(alloc: Global, accepted: usize) -> Result<Vec<u8>, AllocError>
    ensures { IfOk result (λ text. text.items ≡ accepted_text accepted) }
{
    let text = format!(in alloc; "accepted {accepted}\n")?;
    Ok(text.into_bytes())
}
