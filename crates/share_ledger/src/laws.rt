//! What follows from the book's rules: each law is the contract of a function that does nothing.

ghost use Rattle.std.specs.Prelude.{◌≡◌, ◌≢◌, ◌+◌, ℕ, false, List, Ok, OnOk, OnErr, IsOk};
ghost use Rattle.leg.specs.LegId.{LegIdParts};
ghost use Rattle.leg.specs.Numbered.{numbered};
ghost use Rattle.leg.specs.Split.{all_open, leg_shares, split_withdraw};
ghost use Rattle.leg.specs.declared.sweep.Routed.{Routed};
ghost use Rattle.dialect.specs.Fill.{FillParts};
ghost use Rattle.dialect.specs.declared.note.Note.{Note as ANote};
ghost use Rattle.dialect.specs.declared.report.Report.{Report as AReport};
ghost use Rattle.share_ledger.specs.declared.book_entry.BookEntry.{BookEntry as AnEntry};
ghost use Rattle.share_ledger.specs.Entries.{sweep_shares, opened, order_of, is_same_leg, is_about, leg_of_note};
ghost use Rattle.share_ledger.specs.Shares.{move_of};
ghost use Rattle.share_ledger.specs.Steps.{split_step};
ghost use Rattle.share_ledger.specs.Book.{BookParts, new_book, written, moves_on, leg_parts, open_sweep, withdraw, apply, replay, totals, totals_shares, venue_resolved};

use crate::{Applied, BookEntry};
use dialect::{Note, ReportKind};

/// Whatever the calls were, the five parts of each leg add up to its shares.
pub fn the_parts_of_a_leg_add_up()
    ensures { (venues : ℕ) (entries : List AnEntry) (id : LegIdParts) (routed : Routed) →
        order_of id (replay (new_book venues) entries).entries ≡ Some routed →
        leg_shares (leg_parts id routed.terms.shares (replay (new_book venues) entries)) ≡ routed.terms.shares }
{}

/// Whatever the calls were, the totals of each sweep add up to the shares of its legs.
pub fn the_totals_of_a_sweep_add_up()
    ensures { (venues : ℕ) (entries : List AnEntry) (number : ℕ) (legs : List Routed) →
        numbered number (opened (replay (new_book venues) entries).entries) ≡ Some legs →
        totals_shares (totals (replay (new_book venues) entries) number) ≡ Some (sweep_shares legs) }
{}

/// The book's own history leads to it from the opening book.
pub fn the_history_leads_to_the_book()
    ensures { (venues : ℕ) (entries : List AnEntry) →
        replay (new_book venues) (replay (new_book venues) entries).entries ≡ replay (new_book venues) entries }
{}

/// A refused call, or a note that didn't move, leaves the book as it was.
pub fn what_is_refused_changes_nothing()
    ensures open_sweep { (book : BookParts) (number : ℕ) (legs : List Routed) →
        OnErr (open_sweep book number legs).0 ((open_sweep book number legs).1 ≡ book) }
    ensures withdraw { (book : BookParts) (id : LegIdParts) →
        OnErr (withdraw book id).0 ((withdraw book id).1 ≡ book) }
    ensures apply { (book : BookParts) (venue : ℕ) (note : ANote) →
        (apply book venue note).0 ≢ Ok Applied.Moved → (apply book venue note).1 ≡ book }
{}

/// Every other call writes its one entry behind the others.
pub fn what_is_done_is_written()
    ensures open_sweep { (book : BookParts) (number : ℕ) (legs : List Routed) →
        OnOk (open_sweep book number legs).0
        ((open_sweep book number legs).1 ≡ written (BookEntry.Opened (record { legs = legs })) book) }
    ensures withdraw { (book : BookParts) (id : LegIdParts) →
        OnOk (withdraw book id).0 ((withdraw book id).1 ≡ written (BookEntry.Withdrawn id) book) }
    ensures apply { (book : BookParts) (venue : ℕ) (note : ANote) →
        (apply book venue note).0 ≡ Ok Applied.Moved →
        (apply book venue note).1 ≡ written (BookEntry.Moved venue note) book }
{}

/// A call changes the shares of its own leg alone, and a new sweep changes no leg's.
pub fn other_legs_keep_their_shares()
    ensures open_sweep { (book : BookParts) (number : ℕ) (legs : List Routed) (id : LegIdParts) (shares : ℕ) →
        leg_parts id shares (open_sweep book number legs).1 ≡ leg_parts id shares book }
    ensures withdraw { (book : BookParts) (id other : LegIdParts) (shares : ℕ) →
        is_same_leg id other ≡ false →
        leg_parts other shares (withdraw book id).1 ≡ leg_parts other shares book }
    ensures apply { (book : BookParts) (venue : ℕ) (note : ANote) (other : LegIdParts) (shares : ℕ) →
        is_about other note ≡ false →
        leg_parts other shares (apply book venue note).1 ≡ leg_parts other shares book }
{}

/// A report that moved, and comes again, is a duplicate.
pub fn a_report_counts_once()
    ensures { (book : BookParts) (venue : ℕ) (report : AReport) →
        (apply book venue (Note.Report report)).0 ≡ Ok Applied.Moved →
        (apply (apply book venue (Note.Report report)).1 venue (Note.Report report)).0 ≡ Ok Applied.Duplicate }
{}

/// Whatever the calls were, each leg's five parts go as a split's: all open at first, and from there as its calls
/// leave them, which never refuse what the book let in.
pub fn each_leg_goes_as_a_split()
    ensures opened { (venues : ℕ) (entries : List AnEntry) (id : LegIdParts) (shares : ℕ) →
        order_of id (replay (new_book venues) entries).entries ≡ None →
        leg_parts id shares (replay (new_book venues) entries) ≡ all_open shares }
    ensures apply { (venues : ℕ) (entries : List AnEntry) (venue : ℕ) (note : ANote) (id : LegIdParts) (routed : Routed)
        →
        leg_of_note note ≡ Some id →
        order_of id (replay (new_book venues) entries).entries ≡ Some routed →
        (apply (replay (new_book venues) entries) venue note).0 ≡ Ok Applied.Moved →
        split_step (moves_on id (replay (new_book venues) entries)) (move_of note)
        (leg_parts id routed.terms.shares (replay (new_book venues) entries))
        ≡ (Ok tt, leg_parts id routed.terms.shares (apply (replay (new_book venues) entries) venue note).1) }
    ensures withdraw { (venues : ℕ) (entries : List AnEntry) (id : LegIdParts) (routed : Routed) →
        order_of id (replay (new_book venues) entries).entries ≡ Some routed →
        IsOk (withdraw (replay (new_book venues) entries) id).0 →
        split_withdraw (leg_parts id routed.terms.shares (replay (new_book venues) entries))
        ≡ (Ok tt, leg_parts id routed.terms.shares (withdraw (replay (new_book venues) entries) id).1) }
{}

/// Whatever the calls were, the resolved shares of a venue rise by exactly those of a trade that moves, and by none at
/// a bust or a first report.
pub fn a_venue_gains_what_is_traded()
    ensures trade { (venues : ℕ) (entries : List AnEntry) (venue : ℕ) (id : LegIdParts) (exec : List ℕ)
        (fill : FillParts) →
        (apply (replay (new_book venues) entries) venue
        (Note.Report (record { id = id; exec = exec; kind = ReportKind.Trade fill }))).0 ≡ Ok Applied.Moved →
        venue_resolved (apply (replay (new_book venues) entries) venue
        (Note.Report (record { id = id; exec = exec; kind = ReportKind.Trade fill }))).1 venue
        ≡ venue_resolved (replay (new_book venues) entries) venue + fill.shares }
    ensures bust { (venues : ℕ) (entries : List AnEntry) (venue : ℕ) (id : LegIdParts) (exec cancelled_id : List ℕ) →
        (apply (replay (new_book venues) entries) venue
        (Note.Report (record { id = id; exec = exec; kind = ReportKind.Bust cancelled_id }))).0 ≡ Ok Applied.Moved →
        venue_resolved (apply (replay (new_book venues) entries) venue
        (Note.Report (record { id = id; exec = exec; kind = ReportKind.Bust cancelled_id }))).1 venue
        ≡ venue_resolved (replay (new_book venues) entries) venue }
    ensures first { (venues : ℕ) (entries : List AnEntry) (venue : ℕ) (id : LegIdParts) (exec : List ℕ) →
        (apply (replay (new_book venues) entries) venue
        (Note.Report (record { id = id; exec = exec; kind = ReportKind.New }))).0 ≡ Ok Applied.Moved →
        venue_resolved (apply (replay (new_book venues) entries) venue
        (Note.Report (record { id = id; exec = exec; kind = ReportKind.New }))).1 venue
        ≡ venue_resolved (replay (new_book venues) entries) venue }
{}
