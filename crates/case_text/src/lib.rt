//! What the programs that play case files have in common.
//!
//! A case file is read line by line (`play`). What was wanted, `> ..` and `= ..`, is passed over, and each other line
//! is written again. A `case` begins anew, and a command is carried out by the program's own `Player`, whose answers
//! are written behind it. So the file that is written is the one that was read, if all is as wanted.
//!
//! - `Player` is what a program writes: `begin`, and `command(line, answers)`. `play(alloc, input, out, player)` runs
//! it.
//! - `Answers`: `say(text)` writes `= text`, `send(frame)` writes `> fields` of a whole frame.
//! - `PlayFault::NotUnderstood` from a command writes `! not understood`. `OutOfMemory` ends the program.
//! - `words(line)`, `number(word)` and `flag(word)` take a command apart.
//! - `bytes_of(text)` reads `|` for SOH, `\xNN`, `\\` and `\|`; `shown(bytes)` writes them.
//! - `frame_of(fields)` puts `8=FIX.4.4`, `9=` and `10=` round the bytes of fields, as they are; `fields_of(frame)` is
//!   the shown text between them. `FrameForm` does one or the other, as a case file shows its frames.
#![tactic(auto)]

mod answers;
mod escape;
mod fault;
mod frame;
mod frame_form;
mod line;
mod player;
mod word;

pub use answers::Answers;
pub use escape::{bytes_of, shown};
pub use fault::PlayFault;
pub use frame::{fields_of, frame_of};
pub use frame_form::FrameForm;
pub use line::Line;
pub use player::{Player, play};
pub use word::{flag, number, words};
