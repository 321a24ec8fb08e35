//! A venue's worker that is killed at any moment and started again from its journal, however often, against any
//! exchange that keeps the rules.
//!
//! Promises:
//! - At each moment of its lives its line is safe; what was accepted stays so; what was withdrawn is never accepted,
//!   and stays withdrawn where no withdrawal is lost; the notes come again, each once and in order. Each worker stands
//!   as its line does: the book took the notes given, and was asked for the legs that are withdrawn, for none of them
//!   twice (`laws::a_worker_started_again_is_safe`).
//! - The shares of an audited day of several lives: what the book has of the venue's legs at the last audit is ruled by
//!   the notes and the withdrawals of all lives (`laws::every_worker_of_an_audited_day_of_several_lives_is_safe`).
//! - The same by bytes, of a worker that began with what was found in its journal and ran to its end
//!   (`laws::every_venue_of_an_audited_day_of_several_lives_is_safe_by_its_bytes`).
//! - It asks that both ends begin at number 1, that each life is begun from the journal of the one before, that what
//!   the worker wrote after the journal's end didn't reach the exchange, and that each leg it took was the next one.
//! - Not said: anything of a disk; that a killed process writes nothing afterwards; and that no two
//!   processes have one journal.
//!
//! See `docs/theorem.md`, "Over restarts".
#![tactic(auto)]

pub mod laws;
