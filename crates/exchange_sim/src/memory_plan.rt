//! How a link in memory carries bytes.

ghost use Rattle.std.specs.Prelude.{◌≡◌};

use crate::plan::Plan;

/// How a link in memory carries bytes, and what the exchange behind it does.
#[derive(Clone, Copy, Debug)]
pub struct MemoryPlan {
    /// What the exchange does.
    pub exchange: Plan,
    /// The call of the link that fails, of all but `faults`, counted from 1; 0 for none.
    pub fails_at: u64,
    /// How many bytes a write takes at most. It takes one where there is one.
    pub most_written: usize,
    /// How many bytes a read gives at most.
    pub most_read: usize,
    /// The byte of which the reads give as many as they can, for ever, in place of what the exchange answers.
    pub noise: Option<u8>,
}

impl MemoryPlan {
    /// Every call succeeds, and carries all there is.
    pub fn faultless(exchange: Plan) -> MemoryPlan
        ensures plan { result.exchange ≡ exchange }
        ensures fails_at { result.fails_at ≡ 0 }
        ensures most_written { result.most_written ≡ usize.MAX }
        ensures most_read { result.most_read ≡ usize.MAX }
        ensures noise { result.noise ≡ None }
    {
        MemoryPlan {
            exchange,
            fails_at: 0,
            most_written: usize::MAX,
            most_read: usize::MAX,
            noise: None,
        }
    }
}
