//! A running worker and any exchange that keeps the rules, whichever it is: its session is that of a line, with all
//! that is safe there.
//!
//! Promises:
//! - The sweep theorem of a running worker, whoever wrote the exchange at the other end:
//!   `laws::a_running_worker_is_a_line`, `laws::a_worker_at_work_is_a_line`, and for each worker of a day that
//!   `audit` answered with Ok `laws::every_worker_of_an_audited_day_is_a_line`. If the exchange keeps the rules and
//!   wrote each message in the connection in which the worker receives it, everything of the line theorem holds at
//!   each moment, what is settled stays settled, and the line's session at the end is the worker's (`IsSafeLine`). The
//!   notes given to the book are just those that it took on the worker's seat (field `booked`), and the legs that it
//!   was asked to withdraw there are just those that the worker's events withdraw (field `asked`): the legs that are
//!   withdrawn on the line (field `gone`).
//! - The shares of an audited day, in the last of these laws (`AreShares`): the book answered each of these notes and
//!   withdrawals by its rule, its history has of the venue just the notes that moved and the legs that it withdrew, and
//!   the five parts of each of the venue's legs are what the share rule makes of those on it, and add up to the leg's
//!   shares. No leg is asked for twice, and no note given is on one that is. So the book refused to withdraw none of
//!   the venue's legs but one that it didn't have yet (field `refused`).
//! - A worked history, computed: of two legs that were sent before a break the exchange has taken one, the other is
//!   withdrawn, its number filled over, and it alone is asked to be withdrawn in the book
//!   (`laws::a_lost_leg_is_withdrawn_and_filled_over`).
//! - What the bytes on its link have to do with these messages, over a link that tells its traffic: what a reader reads
//!   of the first bytes of frames are the first of their messages (`laws::what_is_read_was_written`); what the session
//!   writes in a connection is on the wire (`laws::what_is_written_is_on_the_wire`); and where the messages come to
//!   either end by the bytes, what the theorem asks of each message holds
//!   (`laws::what_comes_over_the_link_was_written`). With the day's theorem it is one law,
//!   `laws::every_venue_of_an_audited_day_is_safe_by_its_bytes`.
//! - Not said: that the book had each leg when it was asked to withdraw it. And that a network hands on the bytes as
//!   they are: that is what the last of these laws asks.
//!
//! See `docs/theorem.md`, "Of a running worker".
#![tactic(auto)]

pub mod laws;
