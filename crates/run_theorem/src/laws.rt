//! What holds of each run of `dispatch run` that prints a day.

ghost use Rattle.run_theorem.specs.RunTheorem.{TheRunTheorem};

/// The sweep theorem of `dispatch run`, by its exit status. The premise is the contract of `run_run`. At 0 what the run
/// says of a file is printed, or a day of the configuration that the bytes of a file spell. At 7 and 9 such a day is
/// printed too: it was audited, and leaves legs in doubt, a session given up, or a report that the book didn't take. Of
/// each venue of the file, at its place, orders, gaps, close, settled legs, reports and shares are safe over all its
/// lives, by the bytes on its link, with the legs that the audited desk released to it, in the book whose sweeps are
/// printed. No premise asks that the file's terms are a session's.
pub fn what_run_prints_is_safe()
    ensures { TheRunTheorem }
{}
