//! The worked cases of a session, computed from its definitions: each is the contract of a function that does nothing.

ghost use Rattle.std.specs.Prelude.{◌≡◌, ◌∷◌, [], codes, Some, None, Ok, Err, true, false};
ghost use Rattle.dialect.specs.declared.fault.DialectFault.TheVariants.{NotMarked};
ghost use Rattle.dialect.specs.declared.note.Note.TheVariants as note;
ghost use Rattle.dialect.specs.declared.content.Content.TheVariants.{Session, Order, ExecutionReport, Other};
ghost use Rattle.fix_tags.specs.declared.session_body.SessionBody.TheVariants.{Logon, Heartbeat, TestRequest, ResendRequest, Reject, GapFill, Reset, Logout, BusinessReject};
ghost use Rattle.leg.specs.declared.leg_state.LegState.TheVariants.{Doubt, Taken, Withdrawn};
ghost use Rattle.session_core.specs.declared.ended.Ended.TheVariants as ended;
ghost use Rattle.session_core.specs.declared.phase.Phase.TheVariants as phase;
ghost use Rattle.session_core.specs.declared.session_fault.SessionFault.TheVariants as fault;
ghost use Rattle.session_core.specs.Session.{new_session, leg_state, has_doubt, next_out};
ghost use Rattle.session_core.specs.Turn.{no_step, quietly};
ghost use Rattle.session_core.specs.Receiving.{receive, confirm};
ghost use Rattle.session_core.specs.Calling.{connect, send_leg, quiet, silent, close, malformed, broken, abandon};
ghost use Rattle.session_core.specs.Example.{config, told_config, few_config, from_b, again, connected, heard, settling, up, up_of, leg, report, sent, settling_again, logging_on_again, written_of, written_by, ended_by, ended_in, closing, logged_out};

/// A Logon, and once the exchange's came, a fence; once that is answered, the session is up.
pub fn logs_on_and_settles()
    ensures logon { connect (new_session config) ≡ (Ok (record { from = codes "A"; to = codes "B"; number = 1; poss_dup = false; content = Session (Logon 30 false None) }), connected (new_session config)) }
    ensures fence { written_of (receive (connected (new_session config)) (from_b 1 (Session (Logon 30 false None)))) ≡ (2, Session (TestRequest (codes "F2"))) ∷ [] }
    ensures phase { up.phase ≡ phase.Up }
    ensures settled { up.settled ≡ 2 }
    ensures passed { up.current.fences ≡ [] }
    ensures expected { up.expected ≡ 3 }
{}

/// Each message that ends a session which is up, alone.
pub fn ends_when_up()
    ensures resend_from_none { (receive up (from_b 3 (Session (ResendRequest 0 0)))).step.ended ≡ Some ended.BadResend }
    ensures resend_from_unsent { (receive up (from_b 3 (Session (ResendRequest 3 0)))).step.ended ≡ Some ended.BadResend }
    ensures resend_backwards { (receive up (from_b 3 (Session (ResendRequest 2 1)))).step.ended ≡ Some ended.BadResend }
    ensures reset { (receive up (from_b 3 (Session (Reset 9)))).step.ended ≡ Some ended.ResetRefused }
    ensures too_low { (receive up (from_b 2 (Session (Heartbeat None)))).step.ended ≡ Some ended.TooLow }
    ensures logon_again { (receive up (from_b 3 (Session (Logon 30 false None)))).step.ended ≡ Some ended.LogonAgain }
    ensures gap_fill_to_itself { (receive up (from_b 3 (Session (GapFill 3)))).step.ended ≡ Some ended.BadGapFill }
    ensures wrong_comp { (receive up (record (from_b 3 (Session (Heartbeat None))) { from = codes "C" })).step.ended ≡ Some ended.WrongComp }
    ensures peer_logout { (receive up (from_b 3 (Session Logout))).step.ended ≡ Some ended.PeerLogout }
    ensures peer_logout_answered { written_of (receive up (from_b 3 (Session Logout))) ≡ (3, (Session Logout)) ∷ [] }
    ensures peer_logout_is_last { (receive up (from_b 3 (Session Logout))).session.phase ≡ phase.Closed }
    ensures malformed { (malformed up).0 ≡ Some ended.Malformed }
    ensures first_no_logon { (receive (connected (new_session config)) (from_b 1 (Session (Heartbeat None)))).step.ended ≡ Some ended.FirstNotLogon }
{}

/// What a session that is up goes on after.
pub fn goes_on_when_up()
    ensures repeat { receive up (again (from_b 2 (Session (Heartbeat None)))) ≡ record { session = up; step = record { written = []; note = None; withdrawn = []; ended = None } } }
    ensures resend_of_settled { written_of (receive up (from_b 3 (Session (ResendRequest 1 1)))) ≡ (1, Session (GapFill 2)) ∷ [] }
    ensures counted { (receive up (from_b 3 (Session (ResendRequest 1 1)))).session.expected ≡ 4 }
    ensures gap_ahead { written_of (receive up (from_b 5 (Session (TestRequest (codes "X"))))) ≡ (3, Session (ResendRequest 3 0)) ∷ [] }
    ensures gap_asked_once { written_of (receive (receive up (from_b 5 (Session (TestRequest (codes "X"))))).session (from_b 6 (Session (TestRequest (codes "X"))))) ≡ [] }
{}

/// A leg that an exchange which breaks the rules asks for again although it took it: the session withdraws it.
pub fn withdraws_what_is_asked_for_again()
    ensures ends { (receive (sent up 1) (from_b 3 (Session (ResendRequest 3 0)))).step.ended ≡ Some ended.ResendInDoubt }
    ensures withdrawn { leg_state (heard (connected (broken (sent up 1))) (from_b 3 (Session (Logon 30 false None)) ∷ from_b 4 (Session (ResendRequest 3 0)) ∷ [])) 1 ≡ Some Withdrawn }
    ensures filled { written_of (receive (heard (connected (broken (sent up 1))) (from_b 3 (Session (Logon 30 false None)) ∷ [])) (from_b 4 (Session (ResendRequest 3 0)))) ≡ (3, Session (GapFill 6)) ∷ (6, Session (TestRequest (codes "F6"))) ∷ [] }
{}

/// An exchange that expects a number again that it had passed, up to the settled one: its connection ends while legs are
/// settled, and a leg in doubt stays so.
pub fn settles_nothing_by_what_was_forgotten()
    ensures resend { ended_by (receive settling_again (from_b 4 (Session (ResendRequest 1 0)))) ≡ Some ended.PeerForgot }
    ensures resend_of_settled { ended_by (receive settling_again (from_b 4 (Session (ResendRequest 2 2)))) ≡ Some ended.PeerForgot }
    ensures resend_above { ended_by (receive settling_again (from_b 4 (Session (ResendRequest 3 0)))) ≡ None }
    ensures ahead { ended_by (receive settling_again (from_b 9 (Session (ResendRequest 1 0)))) ≡ Some ended.PeerForgot }
    ensures doubt { leg_state (receive settling_again (from_b 4 (Session (ResendRequest 1 0)))).session 1 ≡ Some Doubt }
    ensures silence { written_of (receive settling_again (from_b 4 (Session (ResendRequest 1 0)))) ≡ [] }
    ensures down { (receive settling_again (from_b 4 (Session (ResendRequest 1 0)))).session.phase ≡ phase.Down }
    ensures told { ended_by (receive logging_on_again (from_b 3 (Session (Logon 30 false (Some 1))))) ≡ Some ended.PeerForgot }
    ensures told_settled { ended_by (receive logging_on_again (from_b 3 (Session (Logon 30 false (Some 2))))) ≡ Some ended.PeerForgot }
    ensures told_above { ended_by (receive logging_on_again (from_b 3 (Session (Logon 30 false (Some 3))))) ≡ None }
    ensures told_doubt { leg_state (receive logging_on_again (from_b 3 (Session (Logon 30 false (Some 2))))).session 1 ≡ Some Doubt }
    ensures not_chosen { ended_by (receive (connected (broken (sent up 1))) (from_b 3 (Session (Logon 30 false (Some 1))))) ≡ None }
{}

/// A note is counted when it is confirmed, and given up at the next message.
pub fn notes_are_confirmed()
    ensures report { (receive up (from_b 3 (ExecutionReport (Ok report)))).step.note ≡ Some (note.Report report) }
    ensures unread { (receive up (from_b 3 (ExecutionReport (Err NotMarked)))).step.note ≡ Some (note.Unread NotMarked) }
    ensures refused { (receive (sent up 1) (from_b 3 (Session (Reject 3)))).step.note ≡ Some (note.Refused leg.id) }
    ensures refused_by_business { (receive (sent up 1) (from_b 3 (Session (BusinessReject (Some 3))))).step.note ≡ Some (note.Refused leg.id) }
    ensures refused_when_taken { (receive (heard (silent (sent up 1)).1 (from_b 3 (Session (Heartbeat (Some (codes "F4")))) ∷ [])) (from_b 4 (Session (Reject 3)))).step.note ≡ Some (note.Refused leg.id) }
    ensures no_leg_refused { (receive up (from_b 3 (Session (Reject 1)))).step.note ≡ None }
    ensures no_number_refused { (receive up (from_b 3 (Session (BusinessReject None)))).session.expected ≡ 4 }
    ensures not_counted { (receive up (from_b 3 (ExecutionReport (Ok report)))).session.expected ≡ 3 }
    ensures counted { (confirm (receive up (from_b 3 (ExecutionReport (Ok report)))).session).expected ≡ 4 }
    ensures given_up { (confirm (receive (receive up (from_b 3 (ExecutionReport (Ok report)))).session (again (from_b 2 (Session (Heartbeat None))))).session).expected ≡ 3 }
    ensures none_pending { confirm up ≡ up }
{}

/// Messages that are due and change no more than the number that is expected.
pub fn counts_what_is_due()
    ensures gap_filled { (receive up (from_b 3 (Session (GapFill 7)))).session.expected ≡ 7 }
    ensures test { written_of (receive up (from_b 3 (Session (TestRequest (codes "T"))))) ≡ (3, Session (Heartbeat (Some (codes "T")))) ∷ [] }
    ensures order { (receive up (from_b 3 (Order (Ok leg)))).session.expected ≡ 4 }
    ensures other { (receive up (from_b 3 Other)).session.expected ≡ 4 }
    ensures heartbeat { (receive up (from_b 3 (Session (Heartbeat (Some (codes "F02")))))).session.settled ≡ 2 }
{}

/// What comes ahead is asked for once, and done only where it needs no order.
pub fn asks_for_what_is_missing()
    ensures gap_fill { written_of (receive up (from_b 5 (Session (GapFill 9)))) ≡ (3, Session (ResendRequest 3 0)) ∷ [] }
    ensures reject { written_of (receive (sent up 1) (from_b 5 (Session (Reject 3)))) ≡ (4, Session (ResendRequest 3 0)) ∷ [] }
    ensures business_reject { (receive (sent up 1) (from_b 5 (Session (BusinessReject (Some 3))))).step.note ≡ None }
    ensures report { (receive up (from_b 5 (ExecutionReport (Ok report)))).step.note ≡ None }
    ensures order { (receive up (from_b 5 (Order (Ok leg)))).session.expected ≡ 3 }
    ensures other { (receive up (from_b 5 Other)).session.expected ≡ 3 }
    ensures resend { written_of (receive up (from_b 5 (Session (ResendRequest 1 0)))) ≡ (1, Session (GapFill 3)) ∷ (3, Session (ResendRequest 3 0)) ∷ [] }
    ensures logout { ended_by (receive up (from_b 5 (Session Logout))) ≡ Some ended.PeerLogout }
    ensures reset { ended_by (receive up (from_b 5 (Session (Reset 9)))) ≡ Some ended.ResetRefused }
    ensures reset_by_logon { ended_by (receive (connected (new_session config)) (from_b 1 (Session (Logon 30 true None)))) ≡ Some ended.ResetRefused }
    ensures logon { written_of (receive (connected (new_session config)) (from_b 4 (Session (Logon 30 false None)))) ≡ (2, Session (ResendRequest 1 0)) ∷ (3, Session (TestRequest (codes "F3"))) ∷ [] }
    ensures fence { (receive (silent (sent up 1)).1 (from_b 9 (Session (Heartbeat (Some (codes "F4")))))).session.settled ≡ 4 }
    ensures taken { leg_state (receive (silent (sent up 1)).1 (from_b 9 (Session (Heartbeat (Some (codes "F4")))))).session 1 ≡ Some Taken }
{}

/// The number that a Logon says its exchange expects next, where the venue chose to be told it.
pub fn is_told_the_next_number()
    ensures told { connect (new_session told_config) ≡ (Ok (record { from = codes "A"; to = codes "B"; number = 1; poss_dup = false; content = Session (Logon 30 false (Some 1)) }), connected (new_session told_config)) }
    ensures too_high { ended_by (receive (connected (new_session told_config)) (from_b 1 (Session (Logon 30 false (Some 3))))) ≡ Some ended.BadNextExpected }
    ensures settled { leg_state (receive (connected (broken (sent (up_of told_config) 1))) (from_b 3 (Session (Logon 30 false (Some 3))))).session 1 ≡ Some Withdrawn }
    ensures filled { written_of (receive (connected (broken (sent (up_of told_config) 1))) (from_b 3 (Session (Logon 30 false (Some 3))))) ≡ (3, Session (GapFill 5)) ∷ (5, Session (TestRequest (codes "F5"))) ∷ [] }
    ensures taken { leg_state (receive (connected (broken (sent (up_of told_config) 1))) (from_b 3 (Session (Logon 30 false (Some 5))))).session 1 ≡ Some Taken }
    ensures not_chosen { leg_state (receive (connected (broken (sent up 1))) (from_b 3 (Session (Logon 30 false (Some 3))))).session 1 ≡ Some Doubt }
{}

/// What each call is refused for.
pub fn refuses_calls()
    ensures connect_when_up { connect up ≡ (Err fault.NotDown, up) }
    ensures connect_when_closed { connect (abandon up) ≡ (Err fault.Closed, abandon up) }
    ensures connect_with_no_number { connect (broken (up_of few_config)) ≡ (Err fault.NumbersSpent, broken (up_of few_config)) }
    ensures send_when_settling { send_leg settling 1 leg ≡ (Err fault.NotUp, settling) }
    ensures send_when_down { send_leg (broken up) 1 leg ≡ (Err fault.NotUp, broken up) }
    ensures send_again { send_leg (sent up 1) 1 leg ≡ (Err fault.OrdinalNotGreater, sent up 1) }
    ensures send_with_no_number { send_leg (up_of few_config) 1 leg ≡ (Err fault.NumbersSpent, up_of few_config) }
    ensures quiet_when_down { quiet (broken up) ≡ (Err fault.NotConnected, broken up) }
    ensures quiet_with_no_number { quiet (up_of few_config) ≡ (Err fault.NumbersSpent, up_of few_config) }
    ensures silent_when_down { silent (broken up) ≡ (Err fault.NotConnected, broken up) }
    ensures silent_with_no_number { silent (up_of few_config) ≡ (Err fault.NumbersSpent, up_of few_config) }
    ensures close_when_down { close (broken up) ≡ (Err fault.NotConnected, broken up) }
    ensures close_with_no_number { close (up_of few_config) ≡ (Err fault.NumbersSpent, up_of few_config) }
{}

/// Heartbeats, silences and closes.
pub fn keeps_alive_and_closes()
    ensures quiet { written_by (quiet up) ≡ (3, Session (Heartbeat None)) ∷ [] }
    ensures still { quiet (connected (new_session config)) ≡ (Ok no_step, connected (new_session config)) }
    ensures silent { written_by (silent up) ≡ (3, Session (TestRequest (codes "F3"))) ∷ [] }
    ensures silent_again { ended_in (silent (silent up).1) ≡ Some ended.Silent }
    ensures silent_is_over { (silent (silent up).1).1.phase ≡ phase.Down }
    ensures silent_while_logging_on { written_by (silent (connected (new_session config))) ≡ [] }
    ensures closing { written_by (close up) ≡ (3, Session (TestRequest (codes "F3"))) ∷ [] }
    ensures asked_again { close closing ≡ (Ok no_step, closing) }
    ensures logged_out { written_of (receive closing (from_b 3 (Session (Heartbeat (Some (codes "F3")))))) ≡ (4, (Session Logout)) ∷ [] }
    ensures asked_before { (heard (close (connected (new_session config))).1 (from_b 1 (Session (Logon 30 false None)) ∷ from_b 2 (Session (Heartbeat (Some (codes "F2")))) ∷ [])).phase ≡ phase.LoggedOut }
    ensures asked_while_settling { (close settling).1.close_asked ≡ true }
    ensures asked_when_logged_out { close logged_out ≡ (Ok no_step, logged_out) }
{}

/// A session that has logged out writes nothing but gap fills.
pub fn fills_when_logged_out()
    ensures phase { logged_out.phase ≡ phase.LoggedOut }
    ensures test { written_of (receive logged_out (from_b 4 (Session (TestRequest (codes "T"))))) ≡ [] }
    ensures ahead { written_of (receive logged_out (from_b 9 Other)) ≡ [] }
    ensures resend { written_of (receive logged_out (from_b 4 (Session (ResendRequest 3 0)))) ≡ (3, Session (GapFill 4)) ∷ [] }
    ensures quiet { written_by (quiet logged_out) ≡ [] }
    ensures silent { written_by (silent logged_out) ≡ [] }
    ensures done { ended_by (receive logged_out (from_b 4 (Session Logout))) ≡ Some ended.LogoutDone }
    ensures broken { (broken logged_out).phase ≡ phase.Closed }
    ensures no_more { receive (broken logged_out) (from_b 4 (Session Logout)) ≡ quietly (broken logged_out) }
{}

/// A connection that is gone, and a session that is given up: a leg in doubt stays so.
pub fn keeps_doubt()
    ensures broken { leg_state (broken (sent up 1)) 1 ≡ Some Doubt }
    ensures numbers_go_on { next_out (connected (broken (sent up 1))) ≡ 5 }
    ensures old_fence { (receive (heard (connected (broken (silent (sent up 1)).1)) (from_b 3 (Session (Logon 30 false None)) ∷ [])) (from_b 4 (Session (Heartbeat (Some (codes "F4")))))).session.phase ≡ phase.Settling }
    ensures abandoned { has_doubt (abandon (sent up 1)) ≡ true }
    ensures unsent { leg_state up 1 ≡ None }
    ensures broken_when_down { broken (broken up) ≡ broken up }
    ensures malformed_when_down { malformed (broken up) ≡ (None, broken up) }
{}
