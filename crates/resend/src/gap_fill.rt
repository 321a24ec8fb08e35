//! What a resend request is answered with.

use std::marker::Model;

/// A gap fill (FIX 4.4 Volume 2, "Sequence Reset"): it is sent under the first number that it stands for, and says
/// which number comes after the last.
#[derive(Clone, Copy, Debug, PartialEq, Eq)]
pub struct GapFill {
    /// The first number that isn't sent again, from 1.
    pub first: u64,
    /// The number of the next message behind the gap, above `first`.
    pub new_number: u64,
}

impl Model for GapFill {
    ghost use Rattle.resend.specs.Log.{GapFillParts};

    ghost Value = { GapFillParts };

    ghost view = { λ fill. record { first = fill.first; new_number = fill.new_number } };

    ghost inverse = { λ parts. record { first = parts.first; new_number = parts.new_number } };
}
