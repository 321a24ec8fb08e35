//! The name of one run.

use std::marker::Brand;
use std::sync::ledger::Ledger;

/// The name of one run. Each type that holds a token of the run has it as parameter, so that no token of one run can be
/// used in another.
pub trait Run: Ledger {
    ghost use Rattle.std.specs.Prelude.{ℕ, List};
    ghost use Rattle.atomic_table.specs.Seated.{TableId};

    /// The rings of the venues, in the order of the venues' numbers.
    ghost queues: { List TableId };

    /// The list of the sweeps released: one for the desk, and one for the book in which they are opened.
    ghost sweeps: { ℕ };

    /// The book that gives a slip for each sweep released: the desk keeps it, and the seats hold its slips.
    ghost slips: { ℕ };
}

impl Run for Brand {
    ghost use Rattle.std.specs.Prelude.{[]};

    ghost queues = { [] };

    ghost sweeps = { 0 };

    ghost slips = { 0 };
}
