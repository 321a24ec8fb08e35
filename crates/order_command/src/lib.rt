//! `dispatch order`: a leg becomes an order frame, and a frame is read back.
//!
//! Promises:
//! - `write_order_frame`: in every dialect, what is written is the frame of an order for the leg, with the header's
//!   own moment (`IsOrderFrame`). It refuses nothing: the room that an order takes (`OrderRoom`) is had before, and
//!   `OrderRoom::new` alone may want memory.
//! - `order_run` ends with the status of what it did (`ExitsSo`): its words were refused and nothing is printed, or
//!   what they ask for is printed: the frame and the leg of the request that the options make, or the leg of the
//!   input's first frame; or the first fault is named. What the words match is the command line parser's.
//! - `read_order_frame` is `order_read_from` for any stream: the leg of the first frame, by the reader, the envelope
//!   and the dialect, or the fault. Out of memory is answered only where a frame is there that has more than 64
//!   fields. Its clause `order`: the frame of an order for a leg, in every dialect, is read back as that leg.
//! - What is printed are the lines of the frame of the request and of the leg that was read from that frame
//!   (`order_text`, `print_order`). The request is the one that the options make, or the first bad value in their
//!   order (`request_of`). Its moment is that of `--at`, or else the stamp that the clock told. A fault never ends
//!   in status 0 (`status`).
//! - With `--raw` it prints the bytes of that frame. With `--read` it prints the leg of the first frame of its
//!   input, or tells the fault for which there is none, and then prints nothing (`print_leg`). Of what the input
//!   gives its first 65,536 bytes are read (`read_up_to`).
#![tactic(auto)]

ghost use Rattle.std.specs.Prelude.{IfOk};
ghost use Rattle.command_line.specs.FrameText.{bytes_of};
ghost use Rattle.order_command.specs.OrderFrame.{order_read_from, stream_of};
ghost use Rattle.order_command.specs.OrderLines.{IsOrderText, PrintsText, EndsOrder, EndsReading};
ghost use Rattle.order_command.specs.Request.{request_of};
ghost use Rattle.order_command.specs.Running.{EndsRun, ExitsSo};

mod asked;
mod fault;
mod form;
mod frame;
mod header;
mod lines;
mod option;
mod options;
mod order_fault;
mod request;
mod room;

use crate::lines::{leg_line, order_output};
pub use asked::Asked;
use clock::Clock;
use command_line::{bytes_of, finish, print, read_up_to};
use dialect::Dialect;
pub use fault::CommandFault;
pub use form::OrderForm;
pub use frame::{read_order_frame, stream_of, write_order_frame};
pub use header::Header;
pub use option::OrderOption;
pub use options::{Options, order_command, read_words};
pub use order_fault::OrderFault;
pub use request::Request;
pub use room::OrderRoom;
use std::alloc::{AllocError, Global};
use std::convert::AsStr;
use std::io::{Read, Write};

/// How many bytes of an input are looked at for a frame.
const MAX_INPUT: u64 = 65_536;

/// Runs `dispatch order` on its words, of which the first is the command's own name.
///
/// It writes the frame with `|` for SOH, and then the leg that was read back from it, or with `--raw` the bytes of the
/// frame; and with `--read` the leg of the first frame of `input`. Faults go to `err`. Without `--at` the order is sent
/// at the clock's moment. The answer is the exit status: 0, or that of the fault.
pub fn order_run<S: AsStr, C: Clock, R: Read, W: Write, E: Write>(
    alloc: Global,
    words: &[S],
    clock: &mut C,
    input: &mut R,
    out: &mut W,
    err: &mut E,
) -> u8
    ensures { ExitsSo (C.last clock.new) (R.remaining input.old) (W.contents out.old) (W.contents out.new) result }
{
    finish(order(alloc, words, clock, input, out), err)
}

fn order<S: AsStr, C: Clock, R: Read, W: Write>(
    alloc: Global,
    words: &[S],
    clock: &mut C,
    input: &mut R,
    out: &mut W,
) -> Result<(), CommandFault>
    ensures { EndsRun (C.last clock.new) (R.remaining input.old) (W.contents out.old) (W.contents out.new) result }
{
    match read_words(alloc, words)? {
        Asked::Write(options) => print_order(alloc, &options.dialect, &options, clock, out),
        Asked::Read(dialect) => {
            let text = read_up_to(alloc, MAX_INPUT, input)?;
            print_leg(alloc, &dialect, &text, out)
        }
    }
}

/// Prints the order that the options ask for, in this dialect, at the clock's moment where they name none.
fn print_order<D: Dialect, C: Clock, W: Write>(
    alloc: Global,
    dialect: &D,
    options: &Options<'_>,
    clock: &mut C,
    out: &mut W,
) -> Result<(), CommandFault>
    ensures { EndsOrder (λ request. PrintsText (IsOrderText
        (D.wording dialect.now).encoding (D.wording dialect.now).decoding.order request)
        (W.contents out.old) (W.contents out.new)) (request_of (C.last clock.new) options.now) result }
{
    let request = Request::new(options, clock)?;
    let text = order_text(alloc, dialect, request)?;
    Ok(print(&text, out)?)
}

/// The frame of what is asked for, in this dialect, and the leg that is read back from it, each in a line. The only
/// refusal is out of memory.
fn order_text<D: Dialect>(
    alloc: Global,
    dialect: &D,
    request: Request,
) -> Result<Vec<u8>, AllocError>
    ensures { IfOk result (λ text. IsOrderText
        (D.wording dialect.now).encoding (D.wording dialect.now).decoding.order request text.items) }
{
    let Request { leg, header, form } = request;
    let frame = write_order_frame(alloc, dialect, &leg, header, OrderRoom::new(alloc)?);
    let read = match read_order_frame(dialect, stream_of(alloc, &frame)?) {
        Ok(read) => read,
        // What was written is read back, unless memory runs out.
        Err(_) => return Err(AllocError),
    };
    order_output(alloc, form, frame, &read)
}

/// Prints the leg of the first frame of a text, which has SOH, or shows it, or says why there is none.
fn print_leg<D: Dialect, W: Write>(
    alloc: Global,
    dialect: &D,
    text: &[u8],
    out: &mut W,
) -> Result<(), CommandFault>
    ensures { EndsReading (W.contents out.old) (W.contents out.new) result
        (order_read_from (D.wording dialect.now).decoding.order (stream_of (bytes_of text.now))) }
{
    let bytes = bytes_of(alloc, text)?;
    let leg = read_order_frame(dialect, stream_of(alloc, &bytes)?)?;
    Ok(print(&leg_line(alloc, &leg)?, out)?)
}
