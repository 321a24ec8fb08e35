//! A call that may be carried out.

use crate::call::Call;

/// A call that may be carried out.
#[derive(Clone, Copy, Debug, PartialEq, Eq)]
pub struct Admitted {
    pub call: Call,
    /// Who asks for it, by his place among the users; nobody that is known where there are none, or it is everybody's.
    pub by: Option<usize>,
}
