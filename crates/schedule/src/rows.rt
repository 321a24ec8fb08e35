//! The worked scripts, computed from the definitions of the world: each is the contract of a function that does
//! nothing.

ghost use Rattle.std.specs.Prelude.{◌≡◌, ◌∷◌, ◌++◌, [], codes, true, false};
ghost use Rattle.std.specs.Prelude.{None, Some, Ok};
ghost use Rattle.dialect.specs.declared.report.ReportKind.TheVariants.{Bust};
ghost use Rattle.dialect.specs.declared.content.Content.TheVariants.{Session, ExecutionReport};
ghost use Rattle.fix_tags.specs.declared.session_body.SessionBody.TheVariants.{Logon, Heartbeat, TestRequest, ResendRequest, GapFill};
ghost use Rattle.leg.specs.declared.sweep.Routed.{Routed};
ghost use Rattle.schedule.specs.declared.event.Event.TheVariants as event;
ghost use Rattle.std.specs.Prelude.{Err};
ghost use Rattle.dialect.specs.declared.any_dialect.AnyDialect.TheVariants.{Plain, Split4, Coded};
ghost use Rattle.schedule.specs.Script.{script_of};
ghost use Rattle.schedule.specs.Printed.{printed};
ghost use Rattle.schedule.specs.Example.{script, line, buys, written_to, written_by, after_two, after, after_told, after_few, one_leg, three_legs, broken, broken_late, times, to_all, buy, brk_b, ibm, release, up, down, drop, take, connect, to, from, break, close, quiet, silent, trade, cancel, reject, bust, test};

/// A leg is filled in part, and the rest cancelled.
pub fn a_fill_and_a_cancel()
    ensures { printed (after (one_leg ∷ take ∷ to 3 ∷ from 3 ∷ trade 1 60 (codes "10.25") ∷ cancel 1 ∷ from 4 ∷ from 5 ∷ [])) ≡ line (codes "venue 0 accepted [S1L1] withdrawn [] doubt [S1L1] phase up closed no") ++ line (codes "sweep 1 legs 100 filled 60 busted 0 cancelled 40 withdrawn 0 open 0") }
{}

/// A break with two legs in doubt: the one that came late is taken, the other withdrawn.
pub fn a_break_with_doubt()
    ensures { printed (after broken) ≡ line (codes "venue 0 accepted [S1L1] withdrawn [S1L2 S1L3] doubt [] phase settling closed no") ++ line (codes "sweep 1 legs 600 filled 0 busted 0 cancelled 0 withdrawn 500 open 100") }
{}

/// A break with two legs in doubt, both of which came.
pub fn a_break_with_none_lost()
    ensures { printed (after (broken_late ++ to 6 ∷ to 7 ∷ from 9 ∷ from 6 ∷ from 7 ∷ from 8 ∷ [])) ≡ line (codes "venue 0 accepted [S1L1 S1L2] withdrawn [S1L3] doubt [] phase up closed no") ++ line (codes "sweep 1 legs 600 filled 0 busted 0 cancelled 0 withdrawn 300 open 300") }
{}

/// The same resend request again, after new legs: it is filled no further than the settled number.
pub fn a_resend_request_again()
    ensures { printed (after (broken ++ to 8 ∷ to 9 ∷ from 6 ∷ up ∷ release (buy 0 ibm 50 100000 ∷ []) ∷ take ∷ from 5 ∷ to 10 ∷ to 11 ∷ [])) ≡ line (codes "venue 0 accepted [S1L1 S2L1] withdrawn [S1L2 S1L3] doubt [S2L1] phase up closed no") ++ line (codes "sweep 1 legs 600 filled 0 busted 0 cancelled 0 withdrawn 500 open 100") ++ line (codes "sweep 2 legs 50 filled 0 busted 0 cancelled 0 withdrawn 0 open 50") }
{}

/// A resend request above the settled number ends the connection; in the next one all is withdrawn.
pub fn a_resend_request_in_doubt()
    ensures { printed (after (release (buy 0 ibm 10 100000 ∷ buy 0 ibm 20 100000 ∷ []) ∷ take ∷ take ∷ to 4 ∷ from 3 ∷ down ∷ connect ∷ to 5 ∷ from 4 ∷ from 5 ∷ [])) ≡ line (codes "venue 0 accepted [] withdrawn [S1L1 S1L2] doubt [] phase settling closed no") ++ line (codes "sweep 1 legs 30 filled 0 busted 0 cancelled 0 withdrawn 30 open 0") }
{}

/// A close: the fence before it is answered, and no leg is in doubt.
pub fn a_close()
    ensures { printed (after (release (buy 0 ibm 10 100000 ∷ []) ∷ take ∷ close ∷ to 3 ∷ to 4 ∷ from 3 ∷ from 4 ∷ [])) ≡ line (codes "venue 0 accepted [S1L1] withdrawn [] doubt [] phase logout closed no") ++ line (codes "sweep 1 legs 10 filled 0 busted 0 cancelled 0 withdrawn 0 open 10") }
{}

/// The Logout is answered: the session is over, and a release to its venue is refused.
pub fn a_close_answered()
    ensures { printed (after (release (buy 0 ibm 10 100000 ∷ []) ∷ take ∷ close ∷ to 3 ∷ to 4 ∷ from 3 ∷ from 4 ∷ to 5 ∷ from 5 ∷ release (buy 0 ibm 10 100000 ∷ []) ∷ connect ∷ [])) ≡ line (codes "venue 0 accepted [S1L1] withdrawn [] doubt [] phase closed closed yes") ++ line (codes "sweep 1 legs 10 filled 0 busted 0 cancelled 0 withdrawn 0 open 10") }
{}

/// Fourteen legs and thirteen numbers: the last leg is withdrawn.
pub fn few_numbers()
    ensures { printed (after_few (release (buys 14) ∷ times 14 take ++ to_all 3 13)) ≡ line (codes "venue 0 accepted [S1L1 S1L2 S1L3 S1L4 S1L5 S1L6 S1L7 S1L8 S1L9 S1L10 S1L11 S1L12 S1L13] withdrawn [S1L14] doubt [S1L1 S1L2 S1L3 S1L4 S1L5 S1L6 S1L7 S1L8 S1L9 S1L10 S1L11 S1L12 S1L13] phase up closed no") ++ line (codes "sweep 1 legs 14 filled 0 busted 0 cancelled 0 withdrawn 1 open 13") }
{}

/// A heartbeat, a test request and its answer, and a silence that ends the connection.
pub fn quiet_test_silent()
    ensures { printed (after (quiet ∷ test ∷ from 3 ∷ silent ∷ silent ∷ [])) ≡ line (codes "venue 0 accepted [] withdrawn [] doubt [] phase down closed no") }
{}

/// An order that was reported as new is refused after all.
pub fn a_reject_after_a_new()
    ensures { printed (after (release (buy 0 ibm 100 100000 ∷ []) ∷ take ∷ to 3 ∷ reject 1 ∷ from 3 ∷ from 4 ∷ [])) ≡ line (codes "venue 0 accepted [S1L1] withdrawn [] doubt [S1L1] phase up closed no") ++ line (codes "sweep 1 legs 100 filled 0 busted 0 cancelled 100 withdrawn 0 open 0") }
{}

/// A trade is undone, but not before the rest is cancelled, and not twice.
pub fn a_bust()
    ensures { printed (after (one_leg ∷ take ∷ to 3 ∷ from 3 ∷ trade 1 60 (codes "10.25") ∷ from 4 ∷ bust 1 1 ∷ cancel 1 ∷ from 5 ∷ bust 1 1 ∷ from 6 ∷ bust 1 1 ∷ [])) ≡ line (codes "venue 0 accepted [S1L1] withdrawn [] doubt [S1L1] phase up closed no") ++ line (codes "sweep 1 legs 100 filled 0 busted 60 cancelled 40 withdrawn 0 open 0") }
{}

/// A Logon that says which number the exchange expects next settles the legs in doubt.
pub fn told_the_next_number()
    ensures { printed (after_told (three_legs ∷ take ∷ take ∷ break ∷ down ∷ drop ∷ to 3 ∷ connect ∷ to 5 ∷ to 4 ∷ from 4 ∷ [])) ≡ line (codes "venue 0 accepted [S1L1] withdrawn [S1L2 S1L3] doubt [] phase settling closed no") ++ line (codes "sweep 1 legs 600 filled 0 busted 0 cancelled 0 withdrawn 500 open 100") }
{}

/// What was told is filled, and the new fence settles the rest.
pub fn told_and_settled()
    ensures { printed (after_told (three_legs ∷ take ∷ take ∷ break ∷ down ∷ drop ∷ to 3 ∷ connect ∷ to 5 ∷ to 4 ∷ from 4 ∷ to 6 ∷ to 7 ∷ to 8 ∷ from 5 ∷ from 6 ∷ from 7 ∷ [])) ≡ line (codes "venue 0 accepted [S1L1] withdrawn [S1L2 S1L3] doubt [] phase up closed no") ++ line (codes "sweep 1 legs 600 filled 0 busted 0 cancelled 0 withdrawn 500 open 100") }
{}

/// A Logon that expects the number after the session's own says that nothing was lost.
pub fn told_that_none_is_lost()
    ensures { printed (after_told broken_late) ≡ line (codes "venue 0 accepted [S1L1 S1L2] withdrawn [S1L3] doubt [] phase settling closed no") ++ line (codes "sweep 1 legs 600 filled 0 busted 0 cancelled 0 withdrawn 300 open 300") }
{}

/// The frames of the first connection.
pub fn first_frames()
    ensures first { written_to 1 (after []) ≡ (1, Session (Logon 30 false None)) ∷ (2, Session (TestRequest (codes "F2"))) ∷ [] }
    ensures told { written_to 1 (after_told []) ≡ (1, Session (Logon 30 false (Some 1))) ∷ (2, Session (TestRequest (codes "F2"))) ∷ [] }
{}

/// The frames after a break: the missing report is asked for, the fence, and once the exchange asks, the gap fill and a
/// new fence.
pub fn frames_after_a_break()
    ensures { written_to 5 (after broken) ≡ (5, Session (Logon 30 false None)) ∷ (6, Session (ResendRequest 3 0)) ∷ (7, Session (TestRequest (codes "F7"))) ∷ (4, Session (GapFill 8)) ∷ (8, Session (TestRequest (codes "F8"))) ∷ [] }
{}

/// The same resend request again is filled up to the settled number, below the new leg's.
pub fn frames_of_a_resend_request_again()
    ensures { written_to 11 (after (broken ++ to 8 ∷ to 9 ∷ from 6 ∷ up ∷ release (buy 0 ibm 50 100000 ∷ []) ∷ take ∷ from 5 ∷ [])) ≡ (4, Session (GapFill 9)) ∷ [] }
{}

/// The frames where the exchange's Logon says which number it expects next.
pub fn frames_when_told()
    ensures { written_to 5 (after_told (three_legs ∷ take ∷ take ∷ break ∷ down ∷ drop ∷ to 3 ∷ connect ∷ to 5 ∷ to 4 ∷ from 4 ∷ [])) ≡ (5, Session (Logon 30 false (Some 3))) ∷ (4, Session (GapFill 6)) ∷ (6, Session (ResendRequest 3 0)) ∷ (7, Session (TestRequest (codes "F7"))) ∷ [] }
{}

/// The frames of a quiet session, of its exchange's test, and of a silence.
pub fn frames_of_a_quiet_session()
    ensures { written_to 3 (after (quiet ∷ test ∷ from 3 ∷ silent ∷ silent ∷ [])) ≡ (3, Session (Heartbeat None)) ∷ (4, Session (Heartbeat (Some (codes "X3")))) ∷ (5, Session (TestRequest (codes "F5"))) ∷ [] }
{}

/// The report of a bust.
pub fn frame_of_a_bust()
    ensures { written_by 6 (after (one_leg ∷ take ∷ to 3 ∷ from 3 ∷ trade 1 60 (codes "10.25") ∷ from 4 ∷ cancel 1 ∷ from 5 ∷ bust 1 1 ∷ [])) ≡ (6, ExecutionReport (Ok (record { id = record { sweep = 1; place = 1 }; exec = codes "E4"; kind = Bust (codes "E2") }))) ∷ [] }
{}

/// A sweep of one leg for each of two venues.
pub fn two_venues()
    ensures { printed (after_two (release (buy 0 brk_b 100 102500 ∷ buy 1 ibm 50 100000 ∷ []) ∷ take ∷ to 3 ∷ from 3 ∷ event.Take 1 ∷ event.ToExchange 1 3 ∷ event.ToDispatcher 1 3 ∷ cancel 1 ∷ from 4 ∷ [])) ≡ line (codes "venue 0 accepted [S1L1] withdrawn [] doubt [S1L1] phase up closed no") ++ line (codes "venue 1 accepted [S1L2] withdrawn [] doubt [S1L2] phase up closed no") ++ line (codes "sweep 1 legs 150 filled 0 busted 0 cancelled 100 withdrawn 0 open 50") }
{}

/// The text of a script: what its lines say, with remarks and blank lines between them.
pub fn a_script_is_read()
    ensures one_leg { script_of (script (codes "venues 1000 plain" ∷ codes "connect 0" ∷ codes "to 0 1" ∷ codes "from 0 1" ∷ codes "release 0 BRK.B buy 100 102500" ∷ codes "trade 0 1 60 10.25" ∷ codes "cancel 0 1" ∷ [])) ≡ Ok (record { max_number = 1000; dialects = Plain ∷ []; next = false ∷ []; events = connect ∷ to 1 ∷ from 1 ∷ one_leg ∷ trade 1 60 (codes "10.25") ∷ cancel 1 ∷ [] }) }
    ensures two_legs { script_of (script (codes "# a remark" ∷ [] ∷ codes "venues 016 split+789 coded" ∷ codes "release 0 BRK.B buy 100 102500 + 1 IBM buy 50 100000" ∷ codes "release" ∷ codes "up 00" ∷ codes "bust 0 1 1" ∷ [])) ≡ Ok (record { max_number = 16; dialects = Split4 ∷ Coded ∷ []; next = true ∷ false ∷ []; events = release (buy 0 brk_b 100 102500 ∷ buy 1 ibm 50 100000 ∷ []) ∷ release [] ∷ up ∷ bust 1 1 ∷ [] }) }
    ensures no_line_end { script_of (codes "venues 1000 coded") ≡ Ok (record { max_number = 1000; dialects = Coded ∷ []; next = false ∷ []; events = [] }) }
    ensures each_event { script_of (script (codes "venues 1000 plain" ∷ codes "down 0" ∷ codes "drop 0" ∷ codes "take 0" ∷ codes "break 0" ∷ codes "xbreak 0" ∷ codes "reject 0 2" ∷ codes "test 0" ∷ codes "quiet 0" ∷ codes "silent 0" ∷ codes "close 0" ∷ codes "abandon 0" ∷ [])) ≡ Ok (record { max_number = 1000; dialects = Plain ∷ []; next = false ∷ []; events = down ∷ drop ∷ take ∷ break ∷ event.ExchangeBreak 0 ∷ reject 2 ∷ test ∷ quiet ∷ silent ∷ close ∷ event.Abandon 0 ∷ [] }) }
{}

/// The number of the first line that isn't of the form, counted over all lines.
pub fn bad_lines_are_named()
    ensures empty { script_of [] ≡ Err 1 }
    ensures remarks_alone { script_of (script (codes "# one" ∷ codes "# two" ∷ [])) ≡ Err 3 }
    ensures no_venues { script_of (script (codes "connect 0" ∷ [])) ≡ Err 1 }
    ensures no_dialect { script_of (script (codes "venues 1000" ∷ [])) ≡ Err 1 }
    ensures few_numbers { script_of (script (codes "venues 15 plain" ∷ [])) ≡ Err 1 }
    ensures venues_again { script_of (script (codes "venues 16 plain" ∷ codes "venues 16 plain" ∷ [])) ≡ Err 2 }
    ensures no_such_venue { script_of (script (codes "venues 16 plain" ∷ codes "up 0" ∷ codes "up 1" ∷ codes "junk" ∷ [])) ≡ Err 3 }
    ensures space_at_the_end { script_of (script (codes "venues 16 plain" ∷ codes "up 0 " ∷ [])) ≡ Err 2 }
    ensures two_spaces { script_of (script (codes "venues 16 plain" ∷ codes "up  0" ∷ [])) ≡ Err 2 }
    ensures a_space { script_of (script (codes "venues 16 plain" ∷ codes " " ∷ [])) ≡ Err 2 }
    ensures no_frame { script_of (script (codes "venues 16 plain" ∷ codes "to 0 0" ∷ [])) ≡ Err 2 }
    ensures no_shares { script_of (script (codes "venues 16 plain" ∷ codes "release 0 IBM buy 0 100000" ∷ [])) ≡ Err 2 }
    ensures bad_symbol { script_of (script (codes "venues 16 plain" ∷ codes "release 0 IBM. buy 1 100000" ∷ [])) ≡ Err 2 }
    ensures bad_side { script_of (script (codes "venues 16 plain" ∷ codes "release 0 IBM short 1 100000" ∷ [])) ≡ Err 2 }
    ensures no_plus { script_of (script (codes "venues 16 plain" ∷ codes "release 0 IBM buy 1 100000 0 IBM buy 1 100000" ∷ [])) ≡ Err 2 }
    ensures venue_16 { script_of (script (codes "venues 16 plain" ∷ codes "release 16 IBM buy 1 100000" ∷ [])) ≡ Err 2 }
    ensures trade_of_none { script_of (script (codes "venues 16 plain" ∷ codes "trade 0 1 0 10" ∷ [])) ≡ Err 2 }
{}

/// A break at the exchange's end alone, a report that it keeps, and a session that is given up: its leg stays in doubt,
/// and its gate is shut.
pub fn a_session_given_up()
    ensures { printed (after (one_leg ∷ take ∷ to 3 ∷ event.ExchangeBreak 0 ∷ trade 1 60 (codes "10.25") ∷ from 4 ∷ event.Abandon 0 ∷ one_leg ∷ [])) ≡ line (codes "venue 0 accepted [S1L1] withdrawn [] doubt [S1L1] phase closed closed no") ++ line (codes "sweep 1 legs 100 filled 0 busted 0 cancelled 0 withdrawn 0 open 100") }
{}

/// What isn't possible changes nothing: a gate that goes up or a leg that is taken while the session is down, a
/// connection with the gate up, a frame that was never written, and one of an older connection.
pub fn what_is_not_possible()
    ensures { printed (after (connect ∷ to 9 ∷ from 9 ∷ one_leg ∷ break ∷ take ∷ connect ∷ down ∷ up ∷ drop ∷ connect ∷ from 1 ∷ from 2 ∷ [])) ≡ line (codes "venue 0 accepted [] withdrawn [S1L1] doubt [] phase logon closed no") ++ line (codes "sweep 1 legs 100 filled 0 busted 0 cancelled 0 withdrawn 100 open 0") }
{}
