//! The rules.

/// A rule of a session between the two ends, as far as a log shows whether it was kept.
#[derive(Clone, Copy, Debug, PartialEq, Eq)]
pub enum Rule {
    Readable,
    SentNumbers,
    SentOnce,
    GapFills,
    LogonFirst,
    Heartbeats,
    LogonAnswered,
    LogoutLast,
    ResendAsked,
    FenceAnswered,
    OneUse,
    KnownOrder,
    NotWithdrawn,
    SumsAddUp,
    NumbersRise,
    ResendAnswered,
    ExecOnce,
    KnownKind,
    OpenOrder,
    LimitKept,
    SameTerms,
    StatusFits,
}

/// All rules: of both ends, of the session, and of the exchange, of its reports last.
pub const RULES: [Rule; 22] = [
    Rule::Readable,
    Rule::SentNumbers,
    Rule::SentOnce,
    Rule::GapFills,
    Rule::LogonFirst,
    Rule::Heartbeats,
    Rule::LogonAnswered,
    Rule::LogoutLast,
    Rule::ResendAsked,
    Rule::FenceAnswered,
    Rule::OneUse,
    Rule::KnownOrder,
    Rule::NotWithdrawn,
    Rule::SumsAddUp,
    Rule::NumbersRise,
    Rule::ResendAnswered,
    Rule::ExecOnce,
    Rule::KnownKind,
    Rule::OpenOrder,
    Rule::LimitKept,
    Rule::SameTerms,
    Rule::StatusFits,
];

impl Rule {
    /// The rule in a word, as a summary names it.
    pub fn name(self) -> &'static str {
        match self {
            Rule::Readable => "readable",
            Rule::SentNumbers => "sent-numbers",
            Rule::SentOnce => "sent-once",
            Rule::GapFills => "gap-fills",
            Rule::LogonFirst => "logon-first",
            Rule::Heartbeats => "heartbeats",
            Rule::LogonAnswered => "logon-answered",
            Rule::LogoutLast => "logout-last",
            Rule::ResendAsked => "resend-asked",
            Rule::FenceAnswered => "fence-answered",
            Rule::OneUse => "one-use",
            Rule::KnownOrder => "known-order",
            Rule::NotWithdrawn => "not-withdrawn",
            Rule::SumsAddUp => "sums-add-up",
            Rule::NumbersRise => "numbers-rise",
            Rule::ResendAnswered => "resend-answered",
            Rule::ExecOnce => "exec-once",
            Rule::KnownKind => "known-kind",
            Rule::OpenOrder => "open-order",
            Rule::LimitKept => "limit-kept",
            Rule::SameTerms => "same-terms",
            Rule::StatusFits => "status-fits",
        }
    }

    /// What the rule asks for.
    pub fn text(self) -> &'static str {
        match self {
            Rule::Readable => "a message is a valid frame with the fields that its kind must have",
            Rule::SentNumbers =>
                "the session's new messages have numbers one after the other, and a Logon one above them",
            Rule::SentOnce => "an order's ClOrdID (11) is sent once",
            Rule::GapFills => "a gap fill of the session stands for settled numbers alone",
            Rule::LogonFirst => "the session sends nothing before its Logon is answered",
            Rule::Heartbeats => "the session is never silent for longer than HeartBtInt (108)",
            Rule::LogonAnswered => "the exchange's first message of a connection is its one Logon",
            Rule::LogoutLast => "the exchange sends nothing new behind its Logout",
            Rule::ResendAsked => {
                "a resend request begins with a number that was sent and that the exchange has not passed"
            }
            Rule::FenceAnswered => {
                "a test request is answered once it was sent and nothing below it is asked for again"
            }
            Rule::OneUse =>
                "a number of the exchange carries one report for good, with its shares, or none",
            Rule::KnownOrder => "a report is on an order that was sent",
            Rule::NotWithdrawn =>
                "no report is on an order that the exchange asked to be sent again",
            Rule::SumsAddUp =>
                "CumQty (14) and LeavesQty (151) are what the reports on the order add up to",
            Rule::NumbersRise => {
                "a message of the exchange that isn't sent again (43=Y) has a number above those before it"
            }
            Rule::ResendAnswered => "the exchange answers a resend request before it logs out",
            Rule::ExecOnce =>
                "a new report has an ExecID (17) of its own, or with 97=Y the shares of its first one",
            Rule::KnownKind => {
                "ExecType (150) is one of FIX 4.4's, with a trade's LastQty (32) and LastPx (31) or a bust's ExecRefID (19)"
            }
            Rule::OpenOrder => "nothing but a bust happens to an order that has no open shares",
            Rule::LimitKept => "a trade's LastPx (31) is no worse than the order's Price (44)",
            Rule::SameTerms => "a report has the Symbol (55) and the Side (54) of its order",
            Rule::StatusFits => "OrdStatus (39) is what CumQty (14) and LeavesQty (151) say",
        }
    }

    /// What to do where it is broken.
    pub fn advice(self) -> &'static str {
        match self {
            Rule::Readable =>
                "if the venue sent it so, send the venue this line; else find what changed the log",
            Rule::SentNumbers =>
                "look for a lost line; if there is none, the engine lost count: settle the day's numbers",
            Rule::SentOnce =>
                "ask the venue whether both were taken, and stop the engine's resends of orders",
            Rule::GapFills =>
                "ask the venue which of the orders it took that the gap fill passes over",
            Rule::LogonFirst =>
                "look for the Logon's answer: a lost line, or an engine that sends too early",
            Rule::Heartbeats =>
                "look for what held the engine up; the venue may have ended the connection",
            Rule::LogonAnswered =>
                "look for a lost line; if there is none, show the venue the connection's first messages",
            Rule::LogoutLast => "ask the venue whether what it sent behind its Logout holds",
            Rule::ResendAsked =>
                "settle with the venue which numbers it has: it asks for what it passed or was never sent",
            Rule::FenceAnswered =>
                "take no order below the fence for taken until the venue confirms it",
            Rule::OneUse =>
                "ask the venue which of the two holds, and compare the day's fills with it",
            Rule::KnownOrder =>
                "look for the order's line; if there is none, refuse the fill at the venue",
            Rule::NotWithdrawn =>
                "ask the venue whether it took the order: the desk holds it for withdrawn",
            Rule::SumsAddUp => "compare the order's fills with the venue before the day is settled",
            Rule::NumbersRise =>
                "the session ends the connection for it: settle the day's numbers with the venue",
            Rule::ResendAnswered => "ask the venue for the reports from that number on",
            Rule::ExecOnce => "ask the venue whether it is one trade or two: the desk counts one",
            Rule::KnownKind =>
                "ask the venue for its reports' layout: the desk counts no such report",
            Rule::OpenOrder => "ask the venue when the order ended, and compare its fills",
            Rule::LimitKept =>
                "claim the difference at the venue: the trade is worse than the order allows",
            Rule::SameTerms => "ask the venue which order the report is on",
            Rule::StatusFits => "go by the sums, and show the venue the report",
        }
    }

    /// Where the standard has it.
    pub fn section(self) -> &'static str {
        match self {
            Rule::Readable => "FIX 4.4 Volume 2, Standard Message Header and Trailer",
            Rule::SentNumbers | Rule::NumbersRise => "FIX 4.4 Volume 2, Sequence Numbers",
            Rule::SentOnce => "FIX 4.4 Volume 4, New Order - Single",
            Rule::GapFills => "FIX 4.4 Volume 2, Sequence Reset (Gap Fill)",
            Rule::LogonFirst | Rule::LogonAnswered => "FIX 4.4 Volume 2, Logon",
            Rule::Heartbeats => "FIX 4.4 Volume 2, Heartbeat",
            Rule::LogoutLast => "FIX 4.4 Volume 2, Logout",
            Rule::ResendAsked | Rule::ResendAnswered => "FIX 4.4 Volume 2, Resend Request",
            Rule::FenceAnswered => "FIX 4.4 Volume 2, Test Request",
            Rule::OneUse => "FIX 4.4 Volume 2, Possible Duplicates",
            Rule::KnownOrder
            | Rule::NotWithdrawn
            | Rule::SumsAddUp
            | Rule::ExecOnce
            | Rule::KnownKind
            | Rule::OpenOrder
            | Rule::LimitKept
            | Rule::SameTerms
            | Rule::StatusFits => "FIX 4.4 Volume 4, Execution Report",
        }
    }
}
