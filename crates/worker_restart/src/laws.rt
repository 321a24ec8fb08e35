//! What holds of a worker that may be killed and started again.

ghost use Rattle.worker_restart.specs.LivesByBytes.{TheDayByBytesOverLives};
ghost use Rattle.worker_restart.specs.WorkerRestartTheorem.{TheWorkerRestartTheorem, TheDayOverLives};

use dialect::Dialect;

/// Whenever a venue's worker is killed, and however often: at each moment of its lives the line is safe, and what is
/// settled on it stays so. At the start of each life, at the end of its journal and when it was killed, the worker has
/// the line's session; the book took of it the notes given on the line, and was asked for the legs that are withdrawn
/// on it. None of these was asked for twice, and no note given is on one, where the legs that left have ids of their
/// own.
pub fn a_worker_started_again_is_safe()
    ensures { TheWorkerRestartTheorem }
{}

/// Of each worker of a day of several lives, whose last audit found nothing wrong: so it is, and the shares of its
/// venue's legs in the book are ruled by the notes given and the withdrawals asked for, over all lives. It asks that
/// the last worker ended with the seat at its venue's place, and that the legs released to it are those that the desk
/// released.
pub fn every_worker_of_an_audited_day_of_several_lives_is_safe()
    ensures { TheDayOverLives }
{}

/// The sweep theorem of a running dispatcher over lives: of each worker of a day of several lives, whose last audit
/// found nothing wrong, over a link that tells its traffic. Each life began with what was found of those before. Where
/// the exchange keeps the rules, and what comes to either end in the last life came by the bytes on its link, or was
/// written in a life before, its orders, gaps, close, settled legs, reports and shares are safe over all lives. Of the
/// lives before it asks what no contract says of a process that was killed (`IsPastLife`): that its worker did what
/// stands in the life, that what it received was of its exchange and in range, that what it wrote after the journal's
/// end didn't reach the exchange, and that it took the first legs released.
pub fn every_venue_of_an_audited_day_of_several_lives_is_safe_by_its_bytes<D: Dialect>(dialect: &D)
    ensures { TheDayByBytesOverLives (D.wording dialect.now) }
{}
