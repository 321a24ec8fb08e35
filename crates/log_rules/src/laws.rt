//! What a log shows where no rule is broken: each law is the contract of a function that does nothing.

ghost use Rattle.std.specs.Prelude.{List, []};
ghost use Rattle.log_rules.specs.declared.entry.Entry.{Entry};
ghost use Rattle.log_rules.specs.Checker.{new_checker};
ghost use Rattle.log_rules.specs.Runs.{AreApart, FollowOrders, ReportKnown, SendOnce, sent_ids};

/// Where no message of a log breaks the rule that an order is sent once, no two orders of the log have one ClOrdID
/// (11).
pub fn orders_are_sent_once()
    ensures { (entries : List Entry) → SendOnce new_checker entries → AreApart (sent_ids entries) }
{}

/// Where no message of a log breaks the rule that a report is on an order that was sent, each report is on an order
/// whose ClOrdID (11) was sent before it.
pub fn reports_follow_orders()
    ensures { (entries : List Entry) → ReportKnown new_checker entries → FollowOrders [] entries }
{}
