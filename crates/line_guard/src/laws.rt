//! What an exchange that keeps the rules never tells.

ghost use Rattle.line_guard.specs.Guard.{TheGuardCostsNothing, TheGuardOverRestarts};
ghost use Rattle.line_guard.specs.Late.{IsAskedWhenUp};

/// Whatever exchange keeps the rules, and whatever is delivered, lost, repeated or broken: no message that may come
/// tells a number again that the exchange had passed, and at none does the session end its connection so.
pub fn the_guard_costs_nothing()
    ensures { TheGuardCostsNothing }
{}

/// The same, whenever the dispatcher is killed and started again from its journal.
pub fn the_guard_costs_nothing_over_restarts()
    ensures { TheGuardOverRestarts }
{}

/// Once a session is up, a request for the settled number may still come of an exchange that keeps the rules: a worked
/// run, computed.
pub fn a_request_for_what_was_passed_may_be_late()
    ensures { IsAskedWhenUp }
{}
