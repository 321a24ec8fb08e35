//! Why a line is bad.

ghost use Rattle.std.specs.Prelude.{◌≡◌, Some};
ghost use Rattle.sweep_text.specs.Fault.{fault_text};
ghost use Rattle.sweep_text.specs.declared.line_fault.LineFault.TheVariants.{OutOfMemory};

use desk_words::Printable;
use std::alloc::AllocFailed;
use std::fmt;

/// The most bytes of a line.
pub const MAX_LINE: usize = 65_536;

/// A word of a line as it is shown: no more of it than 200 characters.
pub type Word = Printable<200>;

/// What is wrong with a line.
#[derive(Debug, PartialEq, Eq, Drop)]
pub enum LineFault {
    /// It has more than 65,536 bytes.
    TooLong,
    /// It has a byte that isn't printable ASCII text.
    NotText,
    /// Its first word is no command.
    Unknown(Word),
    /// A word stands where the line has to be at its end, or where `+` and another leg may follow.
    Extra(Word),
    /// A leg has fewer than five words.
    Short,
    /// No venue of the desk has this name.
    NoVenue(Word),
    BadSymbol(Word),
    BadSide(Word),
    BadShares(Word),
    BadPrice(Word),
    /// Behind `ref=` is no reference.
    BadReference(Word),
    /// No memory is left for the legs.
    OutOfMemory,
}

impl fmt::Display for LineFault {
    ghost output = { λ fault. Some (fault_text fault) };

    fn fmt<W: fmt::Write>(&self, f: &mut fmt::Formatter<W>) -> fmt::Result {
        match self {
            LineFault::TooLong => write!(f, "more than 65536 bytes"),
            LineFault::NotText => write!(f, "a byte that isn't printable text"),
            LineFault::Unknown(word) => write!(f, "no command {word}"),
            LineFault::Extra(word) => write!(f, "a word too many, {word}"),
            LineFault::Short => write!(f, "a leg is VENUE SYMBOL buy|sell SHARES PRICE"),
            LineFault::NoVenue(word) => write!(f, "no venue {word}"),
            LineFault::BadSymbol(word) => write!(f, "bad symbol {word}"),
            LineFault::BadSide(word) => write!(f, "bad side {word}"),
            LineFault::BadShares(word) => write!(f, "bad shares {word}"),
            LineFault::BadPrice(word) => write!(f, "bad price {word}"),
            LineFault::BadReference(word) => write!(f, "bad reference {word}"),
            LineFault::OutOfMemory => write!(f, "out of memory"),
        }
    }
}

impl<T: Drop> From<AllocFailed<T>> for LineFault {
    ghost from_gives = { λ _ fault. fault ≡ OutOfMemory };

    fn from(_: AllocFailed<T>) -> LineFault {
        LineFault::OutOfMemory
    }
}
