//! Worked cases, which are computed when this crate is proved.

ghost use Rattle.order_limits.specs.Worked.{DayCases, LegCases, SweepCases, SymbolCases, TextCases};

/// Each leg at a limit of shares or dollars, and one above it; and which limit comes first.
pub fn legs_are_judged()
    ensures { LegCases }
{}

/// Sweeps at the limit of their dollars, and a ten-thousandth above it.
pub fn sweeps_are_judged()
    ensures { SweepCases }
{}

/// A day that comes to its limit by several sweeps.
pub fn days_are_judged()
    ensures { DayCases }
{}

/// Symbols that the desk may order, and one that it may not.
pub fn symbols_are_judged()
    ensures { SymbolCases }
{}

/// What is told.
pub fn excesses_are_told()
    ensures { TextCases }
{}
