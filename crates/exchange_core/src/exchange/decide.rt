//! What is to be done with a message: decided before anything changes. None of this takes memory.

ghost use Rattle.std.specs.Prelude.{◌≡◌, ◌&&◌, false, Some, None, [], nat_lt, nat_le, if◌then◌else◌};
ghost use Rattle.dialect.specs.Addressed.{is_for};
ghost use Rattle.dialect.specs.declared.content.Content.TheVariants.{Session};
ghost use Rattle.fix_tags.specs.declared.session_body.SessionBody.TheVariants.{Logon};
ghost use Rattle.exchange_core.specs.Exchange.{ExchangeParts, passed_by, logon_taken, due_taken, has_asked, by_number, resends, heard, take};
ghost use Rattle.exchange_core.specs.declared.turn.Action.TheVariants.{Nothing, Turn as Turned};
ghost use Rattle.exchange_core.specs.Sound.{IsSound};
ghost use Rattle.exchange_core.specs.Turn.{turn_answer, action_answer, asked_answer, decided};

use super::Exchange;
use crate::live_connection::LiveConnection;
use crate::turn::{Action, Asked, Decision, Says, Turn};
use dialect::{Content, Message};
use fix_tags::SessionBody;

impl Exchange {
    /// What is to be done with a message in a connection. With fewer than two own numbers left nothing is.
    #[tactic(auto, using(crate::proofs::Deciding::comes_heard))]
    pub(super) fn decide<'a>(&self, connection: u64, message: Message<'a>) -> Decision<'a>
        ensures answer { take self.now connection message.entry ≡ decided self.now result }
        ensures sound { IsSound self.now }
    {
        if !self.is_from_peer(&message) || !self.has_numbers(2) {
            return ignored();
        }
        match message.content {
            Content::Session(SessionBody::Logon { heart, next, .. }) => {
                self.decide_logon(connection, message.number, heart, next)
            }
            content => self.hear(connection, message.number, content),
        }
    }

    /// Whether a message is from the peer to this end.
    fn is_from_peer(&self, message: &Message<'_>) -> bool
        ensures value { result ≡ is_for self.now.config message.now }
        ensures sound { IsSound self.now }
    {
        message.from.as_bytes() == self.config.peer().as_bytes()
            && message.to.as_bytes() == self.config.me().as_bytes()
    }

    /// A Logon counts in a newer connection alone, with a number that isn't below the expected one.
    fn decide_logon<'a>(
        &self,
        connection: u64,
        number: u64,
        heart: u64,
        next: Option<u64>,
    ) -> Decision<'a>
        ensures { (if nat_lt self.now.last connection && nat_le self.now.expected number
            then logon_taken self.now connection number heart next else ([], self.now)) ≡ decided self.now result }
    {
        if connection <= self.last || number < self.expected {
            return ignored();
        }
        Decision {
            asked: None,
            action: Action::Turn(self.logon_turn(connection, number, heart, next)),
        }
    }

    /// A Logon that is taken makes its connection the live one.
    fn logon_turn<'a>(
        &self,
        connection: u64,
        number: u64,
        heart: u64,
        next: Option<u64>,
    ) -> Turn<'a>
        ensures { logon_taken self.now connection number heart next ≡ turn_answer self.now result }
    {
        let expected = self.expected_after(number);
        match next {
            Some(_) => self.live_turn(
                connection,
                expected,
                None,
                Says::One(logon(heart, Some(expected))),
            ),
            None => {
                if number == self.expected {
                    self.live_turn(connection, expected, None, Says::One(logon(heart, None)))
                } else {
                    let says = Says::OneAndRequest(logon(heart, None));
                    self.live_turn(connection, expected, Some(expected), says)
                }
            }
        }
    }

    /// The number expected after a Logon of this number: one at the expected number is passed.
    fn expected_after(&self, number: u64) -> u64
        ensures { result ≡ passed_by self.now number }
    {
        if number == self.expected {
            self.expected + 1
        } else {
            self.expected
        }
    }

    /// This connection is live, and begins anew.
    fn live_turn<'a>(
        &self,
        connection: u64,
        expected: u64,
        asked: Option<u64>,
        says: Says<'a>,
    ) -> Turn<'a>
        ensures { result ≡ record {
          expected = expected;
          live = Some (record { connection = connection; asked = asked });
          last = connection;
          closed_at = self.now.closed_at;
          says = says.entry;
        } }
    {
        Turn {
            expected,
            live: Some(LiveConnection { connection, asked }),
            last: connection,
            closed_at: self.closed_at,
            says,
        }
    }

    /// A message that is no Logon is heard in the live connection alone.
    fn hear<'a>(&self, connection: u64, number: u64, content: Content<'a>) -> Decision<'a>
        ensures { heard self.now self.now.live connection number content.entry ≡ decided self.now result }
    {
        match self.live {
            None => ignored(),
            Some(live) => {
                if live.connection == connection {
                    Decision {
                        asked: asked_by(&content),
                        action: self.action_by_number(live, number, content),
                    }
                } else {
                    ignored()
                }
            }
        }
    }

    /// A message by its number: what is missing is asked for once in a connection for an expected number, and one below
    /// the expected number is not looked at.
    fn action_by_number<'a>(
        &self,
        live: LiveConnection,
        number: u64,
        content: Content<'a>,
    ) -> Action<'a>
        ensures { by_number self.now live number content.entry ≡ action_answer self.now result }
    {
        if number == self.expected {
            return self.action_when_due(content);
        }
        if number < self.expected || was_asked(live, self.expected) {
            return Action::Nothing;
        }
        let request = Content::Session(SessionBody::ResendRequest {
            begin: self.expected,
            last: 0,
        });
        Action::Turn(Turn {
            expected: self.expected,
            live: Some(LiveConnection {
                connection: live.connection,
                asked: Some(self.expected),
            }),
            last: self.last,
            closed_at: self.closed_at,
            says: Says::One(request),
        })
    }

    /// The message of the expected number.
    fn action_when_due<'a>(&self, content: Content<'a>) -> Action<'a>
        ensures { due_taken self.now content.entry ≡ action_answer self.now result }
    {
        let next = self.expected + 1;
        match content {
            Content::Order(Ok(leg)) => Action::Accept(leg),
            Content::Order(Err(_)) => {
                let number = self.expected;
                self.expects(next, says(SessionBody::Reject { number }))
            }
            Content::Session(SessionBody::GapFill { new_number }) => {
                self.expects(self.expected.max(new_number), Says::Nothing)
            }
            Content::Session(SessionBody::Logout) => Action::Turn(Turn {
                expected: next,
                live: None,
                last: self.last,
                closed_at: Some(self.orders.len()),
                says: says(SessionBody::Logout),
            }),
            Content::Session(SessionBody::TestRequest { id }) => {
                self.expects(next, says(SessionBody::Heartbeat { id: Some(id) }))
            }
            _ => self.expects(next, Says::Nothing),
        }
    }

    /// Another number is expected, and the connection stays.
    fn expects<'a>(&self, expected: u64, says: Says<'a>) -> Action<'a>
        ensures { result ≡ Turned (record {
          expected = expected;
          live = self.now.live;
          last = self.now.last;
          closed_at = self.now.closed_at;
          says = says.entry;
        }) }
    {
        Action::Turn(Turn {
            expected,
            live: self.live,
            last: self.last,
            closed_at: self.closed_at,
            says,
        })
    }
}

/// One message of the session.
fn says<'a>(body: SessionBody<'a>) -> Says<'a>
    ensures { result ≡ Says.One (Session body.entry) }
{
    Says::One(Content::Session(body))
}

/// Nothing is done.
fn ignored<'a>() -> Decision<'a>
    ensures { result ≡ record { asked = None; action = Nothing } }
{
    Decision {
        asked: None,
        action: Action::Nothing,
    }
}

/// A Logon that answers one: the interval is echoed, and numbers aren't reset.
fn logon<'a>(heart: u64, next: Option<u64>) -> Content<'a>
    ensures { result ≡ Session (Logon heart false next) }
{
    Content::Session(SessionBody::Logon {
        heart,
        reset: false,
        next,
    })
}

/// Whether the missing messages were asked for from a number on.
fn was_asked(live: LiveConnection, number: u64) -> bool
    ensures { result ≡ has_asked live number }
{
    match live.asked {
        None => false,
        Some(asked) => asked == number,
    }
}

/// The numbers that a resend request asks for.
#[tactic(auto, using(crate::proofs::Deciding::resends_none))]
fn asked_by(content: &Content<'_>) -> Option<Asked>
    ensures { (x : ExchangeParts) → resends x content.now ≡ asked_answer x result }
{
    match content {
        Content::Session(SessionBody::ResendRequest { begin, last }) => Some(Asked {
            begin: *begin,
            last: *last,
        }),
        _ => None,
    }
}
