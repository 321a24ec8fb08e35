//! Why a call was refused.

use exchange_core::ExchangeFault;
use session_core::SessionFault;
use sweep_release::{GateFault, ReleaseFault};

/// Why a call that an event makes was refused.
#[derive(Clone, Copy, Debug)]
pub enum Refusal {
    /// The desk's release, R01 to R06 and R08.
    Release(ReleaseFault),
    /// The desk's gate, G01 and G02.
    Gate(GateFault),
    /// The session, S01 to S07.
    Session(SessionFault),
    /// The exchange, X01 to X07.
    Exchange(ExchangeFault),
}
