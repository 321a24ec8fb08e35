//! The dispatcher's session with an exchange. Its rules are definitions, in `specs/`, and `Session` does what they say.
//!
//! Promises:
//! - `Session` has every call of `docs/session.md`, and each is one equation with its definition: the refusals in
//!   their order, the state after, and what is handed back, whose frames are those of the definition's messages at
//!   the call's moment, in order (`Gives` and `IsStep` in `specs/CallResult.antt`, `AreFramed` of dialect). Out of
//!   memory, S04, comes only where the definition's answer is Ok and writes a frame or withdraws legs; nothing changes.
//! - `confirm`, `malformed`, `broken`, `abandon` and all questions take no memory and are never refused. Every
//!   session keeps its promises (`IsSound`), and whatever was read is in range, so no call asks anything of its
//!   caller.
//! - `trial` makes any list of calls on a new session: the session after them and the steps are those of the
//!   definition's run of these calls, and out of memory is answered only where some call adds a step (clause
//!   `run`). Whatever is called and received, orders have rising numbers and rising ordinals, a leg leaves doubt at
//!   most once and for good, and a session that is closed writes nothing (clause `rules`, `KeepsRules` in
//!   `specs/Trial.antt`). A leg that a message settles is taken only below the number that it tells, of the fence
//!   that it names or as the one that the exchange expects, and withdrawn only from the told number on
//!   (`SettlesAsTold` in `what_is_received_leads_onward`); a gap fill stands for no leg in doubt
//!   (`gap_fills_spare_legs_in_doubt`); and a message is counted, or its note given, under the expected number alone
//!   (`what_is_due_is_counted`).
//! - The rules are functions and relations on plain data, in `specs/`. The worked cases are computed from them by
//!   the checker, each as the contract of an empty function in `src/rows.rt`.
//! - An exchange that expects a number again which it had passed settles nothing (`forgetting_settles_nothing`).
//! - `laws`, each over one call, or over every list of calls where it says so: numbers only rise, a leg leaves doubt
//!   at most once, and only what an exchange says while legs are settled withdraws one. A session keeps its own
//!   promises (`a_session_keeps_its_promises`): fences are above the legs that they are to settle, nothing settled
//!   is in doubt, no leg is in doubt once it is logged out. Whatever it writes can be written.
#![tactic(auto)]

mod calls;
mod commit;
mod decision;
mod ended;
mod fence;
pub mod laws;
mod line;
mod phase;
mod receive;
mod rows;
mod session;
mod session_call;
mod session_fault;
mod session_state;
mod step;
mod trial_run;
mod write;

pub use ended::Ended;
pub use phase::Phase;
pub use rows::{
    asks_for_what_is_missing, counts_what_is_due, ends_when_up, fills_when_logged_out,
    goes_on_when_up, is_told_the_next_number, keeps_alive_and_closes, keeps_doubt,
    logs_on_and_settles, notes_are_confirmed, refuses_calls, settles_nothing_by_what_was_forgotten,
    withdraws_what_is_asked_for_again,
};
pub use session::Session;
pub use session_call::SessionCall;
pub use session_fault::SessionFault;
pub use step::{Frames, LegIds, Step};
pub use trial_run::trial;
