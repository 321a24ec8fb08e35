//! What the book did with a note.

/// What the book did with a note. Only a note that moved is kept.
#[derive(Clone, Copy, Debug, PartialEq, Eq)]
pub enum Applied {
    /// It was booked. A first report of an order moves no shares, nor does an end with nothing open.
    Moved,
    /// A report of that id (ExecID, 17) was booked before for that venue.
    Duplicate,
    /// It trades more shares than are open.
    Overfill,
    /// It can't be read, is on no leg of that venue or on a withdrawn one, or busts no trade of the leg.
    Stray,
}
