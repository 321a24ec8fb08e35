//! Why bytes aren't an order, or one can't be written.

use dialect::DialectFault;
use fix_tags::TagFault;
use thiserror::Error;

/// Why bytes aren't an order, or one can't be written.
#[derive(Clone, Copy, Debug, PartialEq, Eq, Error)]
pub enum OrderFault {
    #[error("no whole frame")]
    NoFrame,
    #[error("{0}")]
    NoMessage(TagFault),
    #[error("no order")]
    NoOrder,
    #[error("{0}")]
    BadOrder(DialectFault),
    #[error("out of memory")]
    OutOfMemory,
}

impl OrderFault {
    /// What it says of an input's frame.
    pub fn reason(&self) -> &'static str {
        match self {
            OrderFault::NoFrame =>
                "no frame in the first 65536 bytes is whole and has the right sum",
            OrderFault::NoMessage(_) => "the frame has no header of a message",
            OrderFault::NoOrder => "the frame isn't of kind D",
            OrderFault::BadOrder(_) => "the frame is no order in this dialect",
            OrderFault::OutOfMemory => "no memory is left",
        }
    }
}
