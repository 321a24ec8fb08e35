//! Why a sweep isn't placed.

use order_limits::Excess;
use sweep_release::ReleaseFault;

/// Why a sweep isn't placed: it is over a limit, or the desk refuses it.
#[derive(Debug, PartialEq, Eq, Drop)]
pub enum Declined {
    Over(Excess),
    Fault(ReleaseFault),
}
