//! How many sweeps weren't placed.

/// How many sweeps weren't placed, by why: a count for each refusal, and one for sweeps that came when the day was
/// closing.
#[derive(Clone, Copy, Debug, PartialEq, Eq)]
pub struct RefusalCounts {
    pub no_legs: u64,
    pub too_many_legs: u64,
    pub unknown_venue: u64,
    pub gate_down: u64,
    pub backlog_full: u64,
    pub sweeps_spent: u64,
    pub out_of_memory: u64,
    pub wrong_book: u64,
    pub other_legs: u64,
    pub no_reference: u64,
    pub leg_shares: u64,
    pub leg_dollars: u64,
    pub sweep_dollars: u64,
    pub day_dollars: u64,
    pub other_symbol: u64,
    pub closing: u64,
}
