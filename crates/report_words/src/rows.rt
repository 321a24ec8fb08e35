//! Examples, which are computed when this crate is proved.

ghost use Rattle.std.specs.Prelude.{◌≡◌, codes, true};
ghost use Rattle.report_words.specs.Rows.{whole, refused_order, rejected_message, rejected_business};
ghost use Rattle.report_words.specs.Said.{words_of};
ghost use Rattle.report_words.specs.Words.{first_of};

/// Of a refused order the reason is OrdRejReason (103).
pub fn words_of_a_refused_order()
    ensures order { (words_of refused_order).order ≡ whole (codes "NONE") }
    ensures exec_type { (words_of refused_order).exec_type ≡ whole (codes "8") }
    ensures text { (words_of refused_order).text ≡ whole (codes "no such symbol") }
    ensures reason { (words_of refused_order).reason ≡ whole (codes "1") }
    ensures none { (words_of refused_order).time ≡ whole (codes "") }
{}

/// Of a Reject it is SessionRejectReason (373), and of a BusinessMessageReject BusinessRejectReason (380); which of
/// these it is says the message's kind.
pub fn words_of_rejects()
    ensures reason { (words_of rejected_message).reason ≡ whole (codes "5") }
    ensures refused { (words_of rejected_message).refused ≡ whole (codes "D") }
    ensures message { (words_of rejected_message).message ≡ whole (codes "3") }
    ensures business { (words_of rejected_business).reason ≡ whole (codes "4") }
{}

/// A longer text is cut, and says so.
pub fn words_that_are_cut()
    ensures whole { first_of 4 (codes "ABCD") ≡ whole (codes "ABCD") }
    ensures cut { first_of 4 (codes "ABCDE") ≡ record { text = codes "ABCD"; is_cut = true } }
{}
