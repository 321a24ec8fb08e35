//! A world as text: a line for each venue, and then one for each sweep. What they say is defined in crate `schedule`.
//!
//! Promises:
//! - `print_world` gives exactly the text of the definition, `printed` in `schedule`, for every world: a line for
//!   each venue, and then one for each sweep.
//! - `print_summary` gives exactly its sums, `summed` in `specs/Summary.antt`: how many legs each venue has of each
//!   kind, and what became of the shares of all sweeps.
//! - The only refusal is out of memory. Not said: that memory is wanted only where a growth was refused.
#![tactic(auto)]

mod leg_list;
mod legs_by_state;
mod print;
mod summary;
mod sums;
mod sweep_text;
mod venue_text;

pub use print::print_world;
pub use summary::print_summary;
pub use sweep_text::write_sweep_line;
pub use venue_text::phase_name;
