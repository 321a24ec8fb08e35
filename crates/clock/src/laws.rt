//! What the stamp of an instant is: the law is the contract of a function that does nothing.

ghost use Rattle.std.specs.Prelude.{◌≡◌, ℤ, Option};
ghost use Rattle.fix_tags.specs.Stamp.{StampParts};
ghost use Rattle.clock.specs.StampAt.{IsStampAt};

/// An instant has one stamp or none: what `stamp_at` answers no other answer is.
pub fn instants_have_one_stamp()
    ensures { (nanos : ℤ) (s t : Option StampParts) → IsStampAt nanos s → IsStampAt nanos t → s ≡ t }
{}
