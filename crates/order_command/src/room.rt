//! The room that an order takes to be written.
ghost use Rattle.std.specs.Prelude.{◌≡◌, ◌≤◌, [], vec_capacity};

use fix_text::{Field, MAX_FRAME};
use std::alloc::{AllocError, Global};

/// How many fields of room are enough for an order, in every dialect.
const ORDER_FIELDS: usize = 26;

/// All the memory that writing one order takes: so no order is refused once this is had.
#[derive(Debug, Drop)]
pub struct OrderRoom {
    pub(crate) fields: Vec<Field>,
    pub(crate) frame: Vec<u8>,
    ghost no_field: { fields.items ≡ [] },
    ghost fields_room: { 26 ≤ vec_capacity fields },
    ghost no_byte: { frame.items ≡ [] },
    ghost frame_room: { 4120 ≤ vec_capacity frame },
}

impl OrderRoom {
    /// Room for an order of any leg, in any dialect and under any header. The only refusal is out of memory.
    pub fn new(alloc: Global) -> Result<OrderRoom, AllocError> {
        Ok(OrderRoom {
            fields: Vec::with_capacity(alloc, ORDER_FIELDS)?,
            frame: Vec::with_capacity(alloc, MAX_FRAME)?,
        })
    }
}
