//! What holds of a day that is printed, and of any exchanges that keep the rules.

ghost use Rattle.desk_theorem.specs.DeskOverLives.{TheDeskTheoremOverLives};
ghost use Rattle.desk_theorem.specs.DeskTheorem.{TheDeskTheorem};

/// The sweep theorem of a desk's day, as it is printed: of each of its venues, by the bytes on the venue's link.
/// Whatever its exchange did meanwhile, and whenever legs were released: where the exchange keeps the rules, and what
/// comes to either end came by the bytes on the link, the venue's orders, gaps, close, settled legs, reports and shares
/// are safe, with the legs that the desk of the audit released to it, and in the book whose sweeps are printed. It asks
/// that the venue's terms are a session's, and that the legs which its worker took are in range.
pub fn every_venue_of_a_desk_day_is_safe_by_its_bytes()
    ensures { TheDeskTheorem }
{}

/// The same of a day that may have had lives before, whose last process began with what it found in its journals.
/// Whatever lives a venue had, if what was found is what their journals have of them: its orders, gaps, close, settled
/// legs, reports and shares are safe over all lives, by the bytes on its link in the last one. Of the lives before it
/// asks what no contract says of a process that was killed (`IsPastLife` of `worker_restart`).
pub fn every_venue_of_a_desk_day_of_several_lives_is_safe_by_its_bytes()
    ensures { TheDeskTheoremOverLives }
{}
