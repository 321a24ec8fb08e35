//! The sentences of the sweep theorem, as far as the logs of a day show them.

ghost use Rattle.std.specs.Prelude.{◌≡◌};
ghost use Rattle.day_rules.specs.Sentence.{sentence_advice, sentence_name, sentence_text};

/// A sentence of the sweep theorem, and before them that the desk's answers fit its lines.
#[derive(Clone, Copy, Debug, PartialEq, Eq)]
pub enum Sentence {
    Placed,
    Order,
    Gaps,
    Close,
    Settled,
    Reports,
    Shares,
}

/// All of them, in the order in which they are told.
pub const SENTENCES: [Sentence; 7] = [
    Sentence::Placed,
    Sentence::Order,
    Sentence::Gaps,
    Sentence::Close,
    Sentence::Settled,
    Sentence::Reports,
    Sentence::Shares,
];

impl Sentence {
    /// The sentence in a word.
    pub fn name(self) -> &'static str
        ensures { result.now ≡ sentence_name self }
    {
        match self {
            Sentence::Placed => "placed",
            Sentence::Order => "order",
            Sentence::Gaps => "gaps",
            Sentence::Close => "close",
            Sentence::Settled => "settled",
            Sentence::Reports => "reports",
            Sentence::Shares => "shares",
        }
    }

    /// What it says.
    pub fn text(self) -> &'static str
        ensures { result.now ≡ sentence_text self }
    {
        match self {
            Sentence::Placed => {
                "a sweep is placed under the next number, with the shares of the line before it"
            }
            Sentence::Order => {
                "the orders are legs released to the venue, in release order, and none twice"
            }
            Sentence::Gaps => {
                "a leg before the last one taken is taken or withdrawn, and no withdrawn one is taken"
            }
            Sentence::Close => "no order is sent once the session logged out",
            Sentence::Settled => "once both sides logged out no leg is in doubt",
            Sentence::Reports => {
                "each report is on an order that was sent, once, under a number of its own"
            }
            Sentence::Shares => {
                "the five parts of each sweep's shares add up to its legs, and the reports to the orders"
            }
        }
    }

    /// What to do where it is broken.
    pub fn advice(self) -> &'static str
        ensures { result.now ≡ sentence_advice self }
    {
        match self {
            Sentence::Placed => "see that sweeps.log is whole and that no venue's log is left out",
            Sentence::Order => {
                "see that these are logs of one day, then stop the desk: it sent an order that it didn't release"
            }
            Sentence::Gaps => {
                "ask the venue which of these orders it took, and compare its fills with the legs"
            }
            Sentence::Close => "stop the desk: its session sent an order behind its Logout",
            Sentence::Settled => "ask the venue whether it took this order",
            Sentence::Reports => {
                "ask the venue which order this report is on, and compare its fills with the legs"
            }
            Sentence::Shares => "compare the venue's fills of this order with its leg",
        }
    }
}
