//! Worked cases of what lines leave: each law is the contract of a function that does nothing.

ghost use Rattle.day_restart.specs.Example.{ANewSessionIsDown, ANumberIsMissing, NoneGoesOnBehindTheEnd, NoneIsPlaced, TwoArePlacedAgain, WhatWasGivenUpStaysOver};

/// Two sweeps are placed again, the second under its reference.
pub fn two_sweeps_are_placed_again()
    ensures { TwoArePlacedAgain }
{}

/// Of a new day none is.
pub fn no_sweep_is_placed()
    ensures { NoneIsPlaced }
{}

/// Nothing is placed again where a number is missing.
pub fn a_number_is_missing()
    ensures { ANumberIsMissing }
{}

/// A day that ended isn't gone on with.
pub fn no_day_goes_on_behind_its_end()
    ensures { NoneGoesOnBehindTheEnd }
{}

/// A venue without a line has a new session.
pub fn a_new_session_is_down()
    ensures { ANewSessionIsDown }
{}

/// A session that was given up stays over.
pub fn what_was_given_up_stays_over()
    ensures { WhatWasGivenUpStaysOver }
{}
