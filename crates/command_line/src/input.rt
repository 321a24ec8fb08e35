//! An input is read.
ghost use Rattle.std.specs.Prelude.{◌≡◌, IfOk, IfSome, take};

use std::alloc::Global;
use std::io::{ErrorKind, Read};

/// Why an input can't be had.
#[derive(Clone, Copy, Debug, PartialEq, Eq)]
pub enum InputFault {
    ReadFailed,
    OutOfMemory,
}

/// The bytes of an input to its end, but no more than so many.
pub fn read_up_to<R: Read>(alloc: Global, most: u64, input: &mut R) -> Result<Vec<u8>, InputFault>
    ensures { IfOk result (λ text. IfSome (R.remaining input.old) (λ bytes. text.items ≡ take most bytes)) }
{
    let mut text = Vec::new(alloc);
    match input.take(most).read_to_end(&mut text) {
        Ok(_) => Ok(text),
        Err(error) if error.kind() == ErrorKind::OutOfMemory => Err(InputFault::OutOfMemory),
        Err(_) => Err(InputFault::ReadFailed),
    }
}
