//! What a desk's journal says.

/// What was done at the desk.
#[derive(Clone, Copy, Debug)]
pub enum DeskDeed<'a> {
    /// A sweep was placed under this number, for which its caller wrote this line.
    Place(u64, &'a [u8]),
    /// A person settled a leg in doubt, by this line.
    Settle(&'a [u8]),
    /// A person paused the venue of this name.
    Pause(&'a [u8]),
    /// A person resumed it.
    Resume(&'a [u8]),
    /// A person halted all venues.
    Halt,
    /// The day ended in order.
    End,
}
