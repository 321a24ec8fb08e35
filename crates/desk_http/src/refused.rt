//! Why a request isn't carried out.

ghost use Rattle.std.specs.Prelude.{◌≡◌};
ghost use Rattle.desk_http.specs.Refused.{may_not, refused_status, refused_words};

use crate::status::{Allow, Status};
use crate::user::Right;

/// Why a request isn't carried out. The desk was asked nothing.
#[derive(Clone, Copy, Debug, PartialEq, Eq)]
pub enum Refused {
    /// What came is no HTTP request, or has two lengths, or `Host`, `Origin`, `Content-Type`, `Authorization`,
    /// `Last-Event-ID` or `Idempotency-Key` twice, or the last of them without a value.
    Unreadable,
    /// No whole request came in time.
    TooSlow,
    /// Too many clients are connected.
    Crowded,
    /// The request line is longer than the limit of a head.
    TargetTooLong,
    /// The head has more than 8 KiB, or more than 64 fields.
    HeadTooLarge,
    /// The body has more than 64 KiB.
    BodyTooLarge,
    /// `Host` isn't the address that is served.
    ForeignHost,
    /// Nothing is served at this path.
    NoPlace,
    /// What is served there isn't asked for by this method.
    NoMethod(Allow),
    /// The query is none of the place.
    BadQuery,
    /// `Origin` is another site's.
    ForeignOrigin,
    /// `Content-Type` isn't `application/json`.
    NotJson,
    /// The token is missing.
    NoToken,
    /// The token is nobody's.
    WrongToken,
    /// The user at this place may not ask for this.
    MayNot { user: usize, right: Right },
}

/// What a user may not, behind his name.
fn may_not(right: Right) -> &'static str
    ensures { result.now ≡ may_not right }
{
    match right {
        Right::Read => " may not read",
        Right::Trade => " may not trade",
        Right::Close => " may not close",
        Right::Halt => " may not halt",
    }
}

impl Refused {
    pub fn status(self) -> Status
        ensures { result ≡ refused_status self }
    {
        match self {
            Refused::Unreadable => Status::BadRequest,
            Refused::TooSlow => Status::TooSlow,
            Refused::Crowded => Status::Unavailable,
            Refused::TargetTooLong => Status::TargetTooLong,
            Refused::HeadTooLarge => Status::HeadTooLarge,
            Refused::BodyTooLarge => Status::BodyTooLarge,
            Refused::ForeignHost => Status::Forbidden,
            Refused::NoPlace => Status::NotFound,
            Refused::NoMethod(allow) => Status::NoMethod(allow),
            Refused::BadQuery => Status::BadRequest,
            Refused::ForeignOrigin => Status::Forbidden,
            Refused::NotJson => Status::NotJson,
            Refused::NoToken => Status::Unauthorized,
            Refused::WrongToken => Status::Unauthorized,
            Refused::MayNot { .. } => Status::Forbidden,
        }
    }

    /// Why, in words; where a user may not, behind his name.
    pub fn words(self) -> &'static str
        ensures { result.now ≡ refused_words self }
    {
        match self {
            Refused::Unreadable => "no HTTP request",
            Refused::TooSlow => "no whole request in time",
            Refused::Crowded => "too many connections",
            Refused::TargetTooLong => "the request line is too long",
            Refused::HeadTooLarge => "the head has more than 8 KiB",
            Refused::BodyTooLarge => "the body has more than 64 KiB",
            Refused::ForeignHost => "a foreign host",
            Refused::NoPlace => "no such place",
            Refused::NoMethod(_) => "no such method here",
            Refused::BadQuery => "the query is after=N and most=N",
            Refused::ForeignOrigin => "a foreign origin",
            Refused::NotJson => "another content type than application/json",
            Refused::NoToken => "no token, or another one",
            Refused::WrongToken => "no token, or another one",
            Refused::MayNot { right, .. } => may_not(right),
        }
    }
}
