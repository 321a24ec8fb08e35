//! One venue's session and any exchange that keeps the rules, where the dispatcher is killed at any moment and started
//! again from its journal, however often.
//!
//! Promises:
//! - A line with restarts is one that ordinary steps lead to (`every_restart_is_a_line`), so it is safe at every moment
//!   (`every_restart_is_safe`).
//! - What was accepted stays so (`what_is_accepted_stays`). What was withdrawn is never accepted, though its withdrawal
//!   is lost (`what_is_withdrawn_is_never_accepted`), and stays withdrawn where none is lost
//!   (`what_is_withdrawn_stays`, `a_withdrawal_is_written`).
//! - The notes come again, each once and in order (`the_notes_come_again`), on accepted legs
//!   (`the_notes_are_on_accepted_legs`) and on none that is withdrawn before or after
//!   (`the_notes_spare_what_is_withdrawn`).
//! - A worked run (`a_report_is_booked_again`), and for each of the journal's six rules runs that break it and are left
//!   unsafe (`an_order_before_the_journal_is_unsafe` and those below it).
//! - It asks that both ends begin at number 1: the first life's session is new, and its exchange took nothing yet.
//! - Not said: anything of code, bytes or a disk; that a killed process writes nothing afterwards; and that no two
//!   processes have one journal.
//!
//! See `docs/theorem.md`, "Over restarts".
#![tactic(auto)]

pub mod laws;
