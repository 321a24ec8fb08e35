//! What follows from the definitions: each law is the contract of a function that does nothing.

ghost use Rattle.std.specs.Prelude.{◌≡◌, ◌<◌, ◌↔◌, ℕ, Bool, false, List, [], IfSome};
ghost use Rattle.leg.specs.Growing.{Grew};
ghost use Rattle.resend.specs.declared.judged.Judged.TheVariants as judged_as;
ghost use Rattle.resend.specs.Judging.{judged};
ghost use Rattle.resend.specs.Log.{Entry as AnEntry, spend, take_below, give_up_from, doubt_from, in_doubt, fill_for};
ghost use Rattle.resend.specs.Later.{IsLater, WithdrawsNone, IsFillFor, withdrawn_since};

/// A log is later than itself, and what is later than a later log is later.
pub fn later_logs_follow_one_another()
    ensures reflexive { (log : List AnEntry) → IsLater log log }
    ensures transitive { (a b c : List AnEntry) → IsLater a b → IsLater b c → IsLater a c }
{}

/// A number that is spent, and legs that are taken or withdrawn, lead to a later log.
pub fn what_is_done_to_a_log_makes_it_later()
    ensures spend { (max_number : ℕ) (entry : AnEntry) (log : List AnEntry) →
        IsLater log (spend max_number entry log).1 }
    ensures added { (old new : List AnEntry) → Grew old new → IsLater old new }
    ensures take_below { (number : ℕ) (log : List AnEntry) → IsLater log (take_below number log) }
    ensures give_up_from { (number : ℕ) (log : List AnEntry) → IsLater log (give_up_from number log) }
{}

/// Legs that are taken are not withdrawn.
pub fn what_is_taken_is_not_withdrawn()
    ensures stays { (number : ℕ) (log : List AnEntry) → WithdrawsNone log (take_below number log) }
    ensures names_none { (number : ℕ) (log : List AnEntry) → withdrawn_since log (take_below number log) ≡ [] }
{}

/// Where the legs in doubt below a number are taken and the others withdrawn, none is in doubt any more, and those that
/// are now withdrawn are the ones that were in doubt from the number on.
pub fn settling_leaves_no_doubt()
    ensures none_in_doubt { (number : ℕ) (log : List AnEntry) →
        in_doubt (give_up_from number (take_below number log)) ≡ false }
    ensures withdrawn { (number : ℕ) (log : List AnEntry) →
        withdrawn_since log (give_up_from number (take_below number log)) ≡ doubt_from number log }
{}

/// A resend request is answered only for numbers that were sent, from the one that it begins at, and no further than
/// it asks for and than the top that it is cut at.
pub fn what_was_sent_is_filled_and_no_more()
    ensures { (begin last top : ℕ) (log : List AnEntry) →
        IfSome (fill_for begin last top log) (IsFillFor begin last top log) }
{}

/// A number is due exactly where it is the expected one, and ahead exactly where it is above.
pub fn a_number_is_due_where_it_is_expected()
    ensures due { (expected number : ℕ) (poss_dup : Bool) →
        judged expected number poss_dup ≡ judged_as.Due ↔ number ≡ expected }
    ensures ahead { (expected number : ℕ) (poss_dup : Bool) →
        judged expected number poss_dup ≡ judged_as.Ahead ↔ expected < number }
{}
