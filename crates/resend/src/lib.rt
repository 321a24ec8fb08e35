//! The numbers of a session: what each number sent was spent on, and which number is expected.
//!
//! Promises:
//! - `InSeq` keeps the number that is expected and judges what comes.
//! - `OutLog` keeps each number that was sent: every call is one equation with the definition over the whole map of
//!   numbers (`specs/Log.antt`). It keeps the legs in doubt, which `window` lends exactly; the settled ones in runs,
//!   each as long as it can be, which `runs` lends exactly (`specs/Runs.antt`); and the ids of the legs sent, each
//!   with its number. Administrative numbers are those between, and take no memory.
//! - `push_leg` wants memory only where a number was left and then changes nothing; settling and all questions but
//!   `legs_from`, which answers a list, take no memory. What the calls cost is read off the code
//!   (`docs/performance.md`) and not proved.
#![tactic(auto)]

mod gap_fill;
mod in_seq;
mod judged;
pub mod laws;
mod legs;
mod log_fault;
mod numbered_id;
mod out_log;
mod run;
mod runs;
mod sent;

pub use gap_fill::GapFill;
pub use in_seq::InSeq;
pub use judged::Judged;
pub use log_fault::LogFault;
use numbered_id::NumberedId;
pub use out_log::OutLog;
pub use run::Run;
pub use sent::Sent;
