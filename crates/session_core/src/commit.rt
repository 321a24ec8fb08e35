//! What was decided is put in place.

ghost use Rattle.std.specs.Prelude.{◌≡◌, ◌≤◌, ◌+◌, length, vec_len, vec_capacity};
ghost use Rattle.session_core.specs.Receiving.{above};
ghost use Rattle.session_core.specs.Decision.{settled_log, fences_left, logged, with_fences};

use crate::decision::Settling;
use crate::line::Line;
use resend::OutLog;

/// The legs in doubt are settled.
pub(crate) fn settle(log: &mut OutLog, settling: Settling)
    ensures { log.new ≡ record log.old { entries = settled_log settling log.old.entries } }
{
    match settling {
        Settling::Nothing => {}
        Settling::Passed(fence) => log.take_below(fence),
        Settling::At(number) => {
            log.take_below(number);
            log.give_up_from(number);
        }
    }
}

/// The fences above one that was answered are kept.
fn keep_above(fences: &mut Vec<u64>, answered: u64)
    ensures items { fences.new.items ≡ above answered fences.old.items }
    ensures len { vec_len fences.new ≤ vec_len fences.old }
    ensures capacity { vec_capacity fences.new ≡ vec_capacity fences.old }
{
    fences.retain(|fence| answered < *fence);
}

/// The fences that are done with are let go.
pub(crate) fn let_go(fences: &mut Vec<u64>, settling: Settling)
    ensures items { fences.new.items ≡ fences_left settling fences.old.items }
    ensures len { vec_len fences.new ≤ vec_len fences.old }
    ensures capacity { vec_capacity fences.new ≡ vec_capacity fences.old }
{
    match settling {
        Settling::Nothing => {}
        Settling::Passed(fence) => keep_above(fences, fence),
        Settling::At(_) => {}
    }
}

/// A number is spent on each message that is written for the first time.
pub(crate) fn spend(log: &mut OutLog, lines: &[Line<'_>])
    requires { length (logged log.old.entries lines.now) + 1 ≤ log.old.max_number }
    ensures { log.new ≡ record log.old { entries = logged log.old.entries lines.now } }
{
    for line in lines {
        if !line.poss_dup {
            let _ = log.push_admin();
        }
    }
}

/// The fences among the messages are kept, for which there is room.
pub(crate) fn keep(fences: &mut Vec<u64>, lines: &[Line<'_>])
    requires { vec_len fences.old + length lines.now ≤ vec_capacity fences.old }
    ensures { fences.new.items ≡ with_fences fences.old.items lines.now }
{
    for line in lines {
        if line.says.is_fence() {
            fences.push_reserved(line.number);
        }
    }
}
