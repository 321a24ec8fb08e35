//! Worked rows: each is the contract of a function that does nothing, and is proved by computing it.

ghost use Rattle.std.specs.Prelude.{◌≡◌, false, [], ◌∷◌, ◌++◌, codes, Some, None, Ok, Err, map, length};
ghost use Rattle.dialect.specs.declared.content.Content.TheVariants.{Session, Order};
ghost use Rattle.fix_tags.specs.declared.session_body.SessionBody.TheVariants.{Logon, Heartbeat, TestRequest, ResendRequest, Reject, GapFill, Logout};
ghost use Rattle.dialect.specs.declared.fault.DialectFault.TheVariants.{NotMarked};
ghost use Rattle.dialect.specs.declared.report.ReportKind.TheVariants.{New, Trade, Canceled, Rejected, Bust};
ghost use Rattle.exchange_core.specs.declared.exchange_fault.ExchangeFault.TheVariants.{NoSuchOrder, TooManyShares, Done, NumbersSpent, NoSuchTrade, NotCancelled};
ghost use Rattle.exchange_core.specs.Acts as acts;
ghost use Rattle.exchange_core.specs.Exchange.{drop_connection, live_connection};
ghost use Rattle.exchange_core.specs.Order.{order_id, view_of};
ghost use Rattle.exchange_core.specs.SentRecord.{exec_id};
ghost use Rattle.exchange_core.specs.Rows.{exchange_to, to_peer, to_peer_again, reports, reports_again, view, begun, coming, ◌then◌, logon, leg, fenced, ordered, half_traded, cancelled, busted, trade, cancel_rest, reject, bust, tests, limited};

/// The ids of orders, reports and tests are a letter and a number.
pub fn ids_are_spelled()
    ensures order { order_id 1 ≡ codes "O1" }
    ensures report { exec_id 1 ≡ codes "E1" }
    ensures test { acts.test_id 3 ≡ codes "X3" }
{}

/// A Logon is answered by a Logon, and the fence by a Heartbeat with its id.
pub fn a_fence_is_answered()
    ensures { fenced.0 ≡ to_peer 1 logon ∷ to_peer 2 (Session (Heartbeat (Some (codes "F2")))) ∷ [] }
{}

/// An order is accepted, and reported as new under the next number.
pub fn an_order_is_accepted()
    ensures accepted { map (λ order. order.leg) ordered.1.orders ≡ leg ∷ [] }
    ensures reported { (coming 1 3 (Order (Ok leg)) fenced.1).0 ≡
        reports 3 (exec_id 1) New (view 0 100) ∷ [] }
    ensures expected { ordered.1.expected ≡ 4 }
{}

/// A trade of 60 shares is reported, and 40 are left open.
pub fn a_trade_is_reported()
    ensures reported { (trade 60 ordered.1).0 ≡
        reports 4 (exec_id 2) (Trade (record { shares = 60; px = codes "10.25" })) (view 60 40) ∷ [] }
    ensures view { map (view_of 1) half_traded.1.orders ≡
        view 60 40 ∷ [] }
{}

/// What a trade left is cancelled.
pub fn the_rest_is_cancelled()
    ensures reported { (cancel_rest half_traded.1).0 ≡
        reports 5 (exec_id 3) Canceled (view 60 0) ∷ [] }
    ensures view { map (view_of 1) cancelled.1.orders ≡
        view 60 0 ∷ [] }
{}

/// An order is rejected after it was reported as new.
pub fn an_order_is_rejected()
    ensures reported { (reject ordered.1).0 ≡ reports 4 (exec_id 2) Rejected (view 0 0) ∷ [] }
    ensures view { map (view_of 1) (reject ordered.1).1.orders ≡
        view 0 0 ∷ [] }
    ensures no_bust { acts.bust (reject ordered.1).1 1 1 ≡ (Err NotCancelled, (reject ordered.1).1) }
{}

/// A trade is refused for want of the order, for want of open shares, or after the order's end.
pub fn a_trade_is_refused()
    ensures order { acts.trade ordered.1 2 1 (codes "10.25") ≡ (Err NoSuchOrder, ordered.1) }
    ensures none { acts.trade ordered.1 0 1 (codes "10.25") ≡ (Err NoSuchOrder, ordered.1) }
    ensures shares { acts.trade ordered.1 1 101 (codes "10.25") ≡ (Err TooManyShares, ordered.1) }
    ensures no_shares { acts.trade ordered.1 1 0 (codes "10.25") ≡ (Err TooManyShares, ordered.1) }
    ensures ended { acts.trade cancelled.1 1 1 (codes "10.25") ≡ (Err Done, cancelled.1) }
    ensures ended_first { acts.trade cancelled.1 1 101 (codes "10.25") ≡ (Err Done, cancelled.1) }
    ensures ended_twice { acts.cancel_rest cancelled.1 1 ≡ (Err Done, cancelled.1) }
{}

/// A trade is busted after the order's rest was cancelled, and once alone.
pub fn a_trade_is_busted()
    ensures too_early { acts.bust half_traded.1 1 1 ≡ (Err NotCancelled, half_traded.1) }
    ensures reported { (bust cancelled.1).0 ≡
        reports 6 (exec_id 4) (Bust (exec_id 2)) (view 0 0) ∷ [] }
    ensures view { map (view_of 1) busted.1.orders ≡
        view 0 0 ∷ [] }
    ensures again { acts.bust busted.1 1 1 ≡ (Err NoSuchTrade, busted.1) }
    ensures other { acts.bust busted.1 1 2 ≡ (Err NoSuchTrade, busted.1) }
{}

/// An exchange with numbers below 16 tests 13 times after a Logon and an order, and then has none left.
pub fn numbers_are_spent()
    ensures tests { length (limited then tests 13).0 ≡ 15 }
    ensures test { (acts.test (limited then tests 13).1).0 ≡ Err NumbersSpent }
    ensures trade { (acts.trade (limited then tests 13).1 1 1 (codes "10.25")).0 ≡ Err NumbersSpent }
    ensures one_is_left { length (limited then tests 12 then tests 1).0 ≡ 15 }
    ensures nothing_is_taken { (coming 1 3 (Session Logout) (limited then tests 12).1).1.expected ≡ 3 }
    ensures nothing_is_written { (coming 1 3 (Session Logout) (limited then tests 12).1).0 ≡ [] }
    ensures not_live { (acts.test (drop_connection (limited then tests 13).1)).0 ≡ Ok [] }
{}

/// A newer Logon above the expected number is taken, and the missing messages are asked for.
pub fn a_logon_ahead_asks()
    ensures written { (coming 2 4 logon fenced.1).0 ≡
        to_peer 3 logon ∷ to_peer 4 (Session (ResendRequest 3 0)) ∷ [] }
    ensures counts { (coming 2 4 logon fenced.1).1.live ≡ Some (record { connection = 2; asked = Some 3 }) }
    ensures connection { live_connection (coming 2 4 logon fenced.1).1 ≡ Some 2 }
    ensures once { (coming 2 5 (Session (TestRequest (codes "F5"))) (coming 2 4 logon fenced.1).1).0 ≡ [] }
{}

/// One that says which number its sender expects next is told the expected number in place of that.
pub fn a_logon_is_told()
    ensures ahead { (coming 2 4 (Session (Logon 30 false (Some 1))) fenced.1).0 ≡
        to_peer 3 (Session (Logon 30 false (Some 3))) ∷ [] }
    ensures due { (coming 2 3 (Session (Logon 30 false (Some 1))) fenced.1).0 ≡
        to_peer 3 (Session (Logon 30 false (Some 4))) ∷ [] }
    ensures not_asked { (coming 2 4 (Session (Logon 30 false (Some 1))) fenced.1).1.live ≡
        Some (record { connection = 2; asked = None }) }
{}

/// A number above the expected one asks for what is missing, once in a connection.
pub fn a_gap_is_asked_for_once()
    ensures written { (fenced then coming 1 5 (Order (Ok leg)) then coming 1 6 (Order (Ok leg))).0 ≡
        fenced.0 ++ to_peer 3 (Session (ResendRequest 3 0)) ∷ [] }
    ensures nothing_taken { (coming 1 5 (Order (Ok leg)) fenced.1).1.orders ≡ [] }
{}

/// An order that comes twice under one number is accepted once.
pub fn a_repeat_is_not_accepted()
    ensures { coming 1 3 (Order (Ok leg)) ordered.1 ≡ ([], ordered.1) }
{}

/// An order that can't be read is refused by its number, and passed.
pub fn an_unread_order_is_refused()
    ensures written { (coming 1 3 (Order (Err NotMarked)) fenced.1).0 ≡ to_peer 3 (Session (Reject 3)) ∷ [] }
    ensures passed { (coming 1 3 (Order (Err NotMarked)) fenced.1).1.expected ≡ 4 }
    ensures not_accepted { (coming 1 3 (Order (Err NotMarked)) fenced.1).1.orders ≡ [] }
{}

/// A Logon of an older connection, or of the live one, does nothing; nor does anything else of an older one.
pub fn an_older_connection_is_not_heard()
    ensures older { coming 1 3 logon (coming 2 3 logon fenced.1).1 ≡
        ([], (coming 2 3 logon fenced.1).1) }
    ensures live { coming 1 3 logon fenced.1 ≡ ([], fenced.1) }
    ensures order { coming 1 4 (Order (Ok leg)) (coming 2 3 logon fenced.1).1 ≡
        ([], (coming 2 3 logon fenced.1).1) }
{}

/// A gap fill moves the expected number forward, and never back.
pub fn a_fill_moves_forward()
    ensures forward { (coming 1 3 (Session (GapFill 7)) fenced.1).1 ≡ record fenced.1 { expected = 7 } }
    ensures never_back { coming 1 3 (Session (GapFill 2)) fenced.1 ≡ ([], fenced.1) }
{}

/// A Logout is answered, ends the connection, and marks how many orders were accepted.
pub fn a_logout_closes()
    ensures written { (coming 1 4 (Session Logout) ordered.1).0 ≡ to_peer 4 (Session Logout) ∷ [] }
    ensures mark { (coming 1 4 (Session Logout) ordered.1).1.closed_at ≡ Some 1 }
    ensures live { (coming 1 4 (Session Logout) ordered.1).1.live ≡ None }
    ensures nothing_more { coming 1 5 (Order (Ok leg)) (coming 1 4 (Session Logout) ordered.1).1 ≡
        ([], (coming 1 4 (Session Logout) ordered.1).1) }
{}

/// What was sent is asked for again: reports again under their numbers, and each run of the rest by one gap fill.
pub fn reports_are_sent_again()
    ensures all { (coming 1 4 (Session (ResendRequest 1 0)) ordered.1).0 ≡
        to_peer_again 1 (Session (GapFill 3)) ∷ reports_again 3 (exec_id 1) New (view 0 100) ∷ [] }
    ensures taken { (coming 1 4 (Session (ResendRequest 1 0)) ordered.1).1.expected ≡ 5 }
    ensures cut { (coming 1 4 (Session (ResendRequest 2 2)) ordered.1).0 ≡ to_peer_again 2 (Session (GapFill 3)) ∷ [] }
    ensures to_the_last { (coming 1 4 (Session (ResendRequest 3 99)) ordered.1).0 ≡
        reports_again 3 (exec_id 1) New (view 0 100) ∷ [] }
    ensures ahead { (coming 1 6 (Session (ResendRequest 3 0)) ordered.1).0 ≡
        reports_again 3 (exec_id 1) New (view 0 100) ∷ to_peer 4 (Session (ResendRequest 4 0)) ∷ [] }
    ensures not_sent { (coming 1 4 (Session (ResendRequest 4 0)) ordered.1).0 ≡ [] }
{}

/// A report that is sent again carries the order as it was when it was made.
pub fn a_report_is_as_it_was()
    ensures written { (coming 1 4 (Session (ResendRequest 3 0)) half_traded.1).0 ≡
        reports_again 3 (exec_id 1) New (view 0 100)
        ∷ reports_again 4 (exec_id 2) (Trade (record { shares = 60; px = codes "10.25" })) (view 60 40) ∷ [] }
{}

/// While no connection is live a report is kept and not written; it is sent again when it is asked for.
pub fn a_report_is_kept()
    ensures not_written { (trade 60 (drop_connection ordered.1)).0 ≡ [] }
    ensures sent_later { (coming 2 5 (Session (ResendRequest 4 0)) (coming 2 4 logon (trade 60 (drop_connection ordered.1)).1).1).0 ≡
        reports_again 4 (exec_id 2) (Trade (record { shares = 60; px = codes "10.25" })) (view 60 40)
        ∷ to_peer_again 5 (Session (GapFill 6)) ∷ [] }
{}
