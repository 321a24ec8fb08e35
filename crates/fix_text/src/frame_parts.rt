//! The fields of a frame in three parts, so that what lies apart, or is lent, need not be copied.

use crate::field::{Field, FieldRef};

/// Fields that are written one behind the other.
#[derive(Clone, Copy)]
pub struct FrameParts<'a> {
    pub head: &'a [FieldRef<'a>],
    pub body: &'a [FieldRef<'a>],
    pub rest: &'a [Field],
}
