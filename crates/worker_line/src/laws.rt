//! What holds between a running worker and any exchange that keeps the rules.

ghost use Rattle.dialect.specs.Wording.{Decoding};
ghost use Rattle.worker_line.specs.Coming.{TheWireTheorem};
ghost use Rattle.worker_line.specs.DayByBytes.{TheDayByBytes};
ghost use Rattle.worker_line.specs.Example.{IsFilledOver};
ghost use Rattle.worker_line.specs.Wire.{TheFramesTheorem, TheWritingTheorem};
ghost use Rattle.worker_line.specs.WorkerTheorem.{TheDayTheorem, TheRunTheorem, TheWorkerTheorem};

use dialect::Dialect;

/// Of each worker of a day whose audit found nothing wrong, with the legs that the desk released to its venue: its
/// session is that of a line, so that at each moment what is safe on a line holds between it and its exchange, and what
/// is settled stays settled. And the notes that it gave the book, and the legs that it asked it to withdraw, which are
/// those that its session withdrew or didn't send, rule the shares of its venue's legs there: each was answered by the
/// book's rule, what the history has of the venue are just the notes that moved and the legs that the book withdrew,
/// and each leg's five parts are what the share rule makes of those on it, and add up to its shares. No leg is asked
/// for twice, and no note given is on one that is; so the book refused none of the venue's legs but one that it didn't
/// have yet. It asks that the exchange keeps the rules, and wrote what came in the present connection; and that the
/// worker began with the new seat of its venue, and that seat is the one at the venue's place.
pub fn every_worker_of_an_audited_day_is_a_line<D: Dialect>(dialect: &D)
    ensures { TheDayTheorem (D.wording dialect.now) }
{}

/// The same of every run of a worker that began with a new session, where the legs that it took are the first of those
/// released.
pub fn a_running_worker_is_a_line<D: Dialect>(dialect: &D)
    ensures { TheRunTheorem (D.wording dialect.now) }
{}

/// The same of whatever a worker has done till now, where legs are released meanwhile, and each is taken after it was
/// released.
pub fn a_worker_at_work_is_a_line()
    ensures { TheWorkerTheorem }
{}

/// A worked history: of two legs that were sent before a break the exchange has taken only the first. The premises of
/// the laws above hold of it, and it ends with the first leg taken and the second withdrawn, its number filled over.
/// The book is asked to withdraw the second leg alone.
pub fn a_lost_leg_is_withdrawn_and_filled_over()
    ensures { (read : Decoding) → IsFilledOver read }
{}

/// Whatever a reader reads of the first bytes of the frames of some messages is the first of these messages, in order,
/// each as it was written: nothing else is read, and no frame that is no message. It asks that the messages can be
/// written.
pub fn what_is_read_was_written<D: Dialect>(dialect: &D)
    ensures { TheFramesTheorem (D.wording dialect.now) }
{}

/// At each moment of a session the bytes that its link tells as written on the connection that was dialled last are
/// the first bytes of the frames of what the session wrote since its last Connect, in order. It asks that the session
/// had no connection at the start, and speaks of the moments from its first one on. What a run says of its link (field
/// `bytes` of `Runs`) is what it asks of the calls.
pub fn what_is_written_is_on_the_wire<D: Dialect>(dialect: &D)
    ensures { TheWritingTheorem (D.wording dialect.now) }
{}

/// Of every run of a worker that began with a new session, over a link that tells its traffic: what the theorems above
/// ask of each message follows from what the bytes on the link say. It is enough that each message which the exchange
/// takes is one that a reader reads of the bytes which the link told, after some call before, as written on the
/// session's connection; that what the worker read on its connection are the first bytes of the frames of messages
/// that the exchange wrote in it and that can be written; and that the exchange keeps the rules. The legs that were
/// taken are to be in range, as is the configuration.
pub fn what_comes_over_the_link_was_written<D: Dialect>(dialect: &D)
    ensures { TheWireTheorem (D.wording dialect.now) }
{}

/// The sweep theorem of a running dispatcher: of each worker of a day whose audit found nothing wrong, over a link that
/// tells its traffic, whatever exchange is at the other end. Where the exchange keeps the rules, and what comes to
/// either end came by the bytes on the link, its orders, gaps, close, settled legs and reports are safe at each moment,
/// what is settled stays so, and the shares of the venue's legs in the book are ruled by what the session confirmed,
/// and by what the book withdrew of the legs that the session withdrew or didn't send. Of the venue's legs it refused
/// none but one that it didn't have yet.
pub fn every_venue_of_an_audited_day_is_safe_by_its_bytes<D: Dialect>(dialect: &D)
    ensures { TheDayByBytes (D.wording dialect.now) }
{}
