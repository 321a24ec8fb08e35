//! The notes that the book is given of one venue's session, whatever exchange keeps the rules: each is on a leg that
//! the exchange has accepted.
//!
//! Promises:
//! - Every note that is given is on a leg that the exchange has accepted: `every_note_is_on_an_accepted_leg`.
//! - None is on a leg that is withdrawn, where no two released legs have the same id:
//!   `no_note_is_on_a_withdrawn_leg`.
//! - A worked line, computed: an order is accepted and refused, and the refusal is noted of its leg
//!   (`a_refused_order_is_noted_of_its_leg`).
#![tactic(auto)]

pub mod laws;
