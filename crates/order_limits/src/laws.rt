//! What the definitions say, in the words of the limits.

ghost use Rattle.std.specs.Prelude.{◌≡◌, List, Ok};
ghost use Rattle.leg.specs.declared.sweep.Routed.{Routed as ARouted};
ghost use Rattle.order_limits.specs.declared.dollars.Dollars.{Dollars as TheDollars};
ghost use Rattle.order_limits.specs.Day.{judged};
ghost use Rattle.order_limits.specs.Limits.{LimitParts};
ghost use Rattle.order_limits.specs.Within.{IsWithin};

/// A sweep that is over none of them is within each: its legs in shares and dollars, by the desk's limits and the
/// venue's; itself and the day with it, in dollars; and its symbols.
pub fn what_is_over_none_is_within_each()
    ensures { (limits : LimitParts) (placed : TheDollars) (legs : List ARouted) (day : TheDollars)
        → judged limits placed legs ≡ Ok day → IsWithin limits placed legs }
{}
