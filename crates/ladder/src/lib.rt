//! The picture of a day, as FIX people draw one: time downwards, an arrow for each frame between a session and its
//! exchange.
//!
//! Promises:
//! - It is safe, it ends, and its only refusal is out of memory. `see` takes no memory.
//! - The texts that a picture is made of are exact, each against its definition in `specs/`: a line, a bent line, a
//!   rectangle and a text (`Elements`), what stands at a frame (`Label`), the coordinates of slots and life lines,
//!   whole numbers (`Places`), and text within XML, in which nothing stands but printable ASCII, with `&`, `<`, `>`
//!   and `"` by their names (`Escaped`).
//! - Only tested: which of them are drawn of an event, and where. Each event has slots of its own, and in each slot
//!   stands at most one text at the outer side of a life line; texts are cut to the room that is there.
#![tactic(auto)]

mod arrow;
mod band;
mod counts;
mod crash_seen;
mod direction;
mod elements;
mod escape;
mod label;
mod ladder;
mod lane;
mod lane_picture;
mod mark;
mod picture;
mod places;
mod row;
mod seen;
mod style;

pub use ladder::Ladder;
