//! Where a field lies in a text.

/// Where a field's value lies in the text that it was read from, with its tag. A reader of frames keeps such places.
#[derive(Clone, Copy, Debug)]
pub struct Place {
    pub(crate) tag: u32,
    pub(crate) start: usize,
    pub(crate) end: usize,
}
