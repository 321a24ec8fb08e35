//! An exchange: which orders it takes, what it answers and what it reports.
//!
//! Promises:
//! - `Exchange::take` does what its definition says of a message in a connection (`TakeGives` in
//!   `specs/Frames.antt`): it gives the frames of what is written, in order, each of that very message at the call's
//!   moment, and the exchange stands as the definition says; or memory ran out, only where something is written, and
//!   nothing changed. It refuses nothing else, and asks nothing of its caller.
//! - `trade`, `cancel_rest`, `reject`, `bust` and `test` are each one equation with the definition (`ActGives`): the
//!   refusal, in order, or the frame of what is written, if anything is, and the state afterwards. Out of memory is
//!   answered only where the act would have used a number, and then nothing changed. What each of the six does is
//!   a step that the rules of `docs/exchange.md` allow (their clauses `allowed`).
//! - `accepted`, `reports`, `expected`, `closed_at` and `drop_connection` take no memory. The reports on an order
//!   are well-formed whatever comes and is done (`reports_follow_one_another`): New first with all of the leg open,
//!   then trades of open shares, each with its CumQty and LeavesQty, or the end of what is open; after a cancel of
//!   the rest busts alone, by which less is filled and nothing is open.
//! - Not said there: that a bust lowers CumQty by exactly the shares of the trade it names.
//! - The rules are functions and relations on plain data, in `specs/`. The worked cases are computed from them by
//!   the checker, each as the contract of an empty function in `src/rows.rt`.
//! - `laws`: each step of our exchange is one that the rules allow (`whatever_comes_keeps_the_rules`,
//!   `acts_keep_the_rules`), it stays sound, and whatever it writes can be written.
#![tactic(auto)]

mod ending;
mod exchange;
mod exchange_fault;
pub mod laws;
mod live_connection;
mod numbered_id;
mod order;
mod order_decision;
mod resend;
pub mod rows;
mod sent_record;
mod to_peer;
mod trade;
mod turn;
mod write;

pub use ending::Ending;
pub use exchange::Exchange;
pub use exchange_fault::ExchangeFault;
pub use live_connection::LiveConnection;
pub use sent_record::SentRecord;
