//! The first line of a script.
ghost use Rattle.std.specs.Prelude.{IfSome};
ghost use Rattle.script.specs.DayScript.{begun_of};
ghost use Rattle.replay_command.specs.Stream.{Begins};

use crate::fault::CommandFault;
use crate::input::read_line;
use script::{Head, first_line, is_passed_over};
use std::io::BufRead;

/// A script's first line, and the number of the line behind it.
#[derive(Drop)]
pub struct Begun {
    pub head: Head,
    pub number: u64,
}

/// The first line of a script, behind blank lines and remarks. `BadLine`: it isn't of its form, or the input ends
/// before it.
pub fn begin<R: BufRead>(input: &mut R, buffer: &mut Vec<u8>) -> Result<Begun, CommandFault>
    ensures { IfSome (R.remaining input.old) (λ bytes. Begins result (R.remaining input.new) (begun_of bytes)) }
{
    for number in 1..u64::MAX {
        if !read_line(input, buffer)? {
            return Err(CommandFault::BadLine(number));
        }
        let (line, _) = first_line(buffer);
        if is_passed_over(line) {
            continue;
        }
        let Some(head) = Head::read(line) else {
            return Err(CommandFault::BadLine(number));
        };
        return Ok(Begun {
            head,
            number: number + 1,
        });
    }
    Err(CommandFault::ReadFailed)
}
