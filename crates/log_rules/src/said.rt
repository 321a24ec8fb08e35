//! What a body says.

ghost use Rattle.std.specs.Prelude.{◌≡◌};
ghost use Rattle.fix_text.specs.Tagged.{value_of};
ghost use Rattle.log_rules.specs.Said.{application_said, bust_of, fence_number, happening_of, heartbeat_said};
ghost use Rattle.log_rules.specs.Said.{is_priced, order_said, price_at, refusal_of, report_of, report_said, said_by};
ghost use Rattle.log_rules.specs.Said.{session_said, shares_at, side_at, trade_of};

use crate::order_said::OrderSaid;
use crate::report_said::{Happening, ReportSaid};
use crate::says::Says;
use fix_tags::{
    AppFields, Body, BodyRef, SessionBody, TextRef, read_number, read_price, read_shares,
};
use leg::Side;

const CL_ORD_ID: u32 = 11;

const CUM_QTY: u32 = 14;

const EXEC_ID: u32 = 17;

const EXEC_REF_ID: u32 = 19;

const LAST_PX: u32 = 31;

const LAST_QTY: u32 = 32;

const ORDER_QTY: u32 = 38;

const ORD_STATUS: u32 = 39;

const PRICE: u32 = 44;

const SIDE: u32 = 54;

const SYMBOL: u32 = 55;

const SYMBOL_SFX: u32 = 65;

const EXEC_TYPE: u32 = 150;

const LEAVES_QTY: u32 = 151;

/// The most bytes of a trade's price.
const MAX_PRICE: usize = 20;

/// The number of the fence that an id names: `F` and a number with no leading zero.
fn fence_number(id: &[u8]) -> Option<u64>
    ensures { result ≡ fence_number id.now }
{
    match id {
        [b'F', b'0', ..] => None,
        [b'F', digits @ ..] => read_number(digits),
        _ => None,
    }
}

/// A Heartbeat, with the id that it answers.
fn heartbeat_said<'a>(id: &Option<TextRef<'a>>) -> Says<'a>
    ensures { result ≡ heartbeat_said id.now }
{
    let Some(id) = id else {
        return Says::Other;
    };
    match fence_number(id.as_bytes()) {
        Some(fence) => Says::Answer { fence },
        None => Says::Other,
    }
}

/// A refusal of the message under a number, where one is named.
fn refusal_of<'a>(number: Option<u64>) -> Says<'a>
    ensures { result ≡ refusal_of number }
{
    match number {
        Some(number) => Says::Refused { number },
        None => Says::Other,
    }
}

fn session_said<'a>(body: &SessionBody<'a>) -> Says<'a>
    ensures { result ≡ session_said body.now }
{
    match body {
        SessionBody::Logon { heart, reset, next } => Says::Logon {
            heart: *heart,
            reset: *reset,
            next: *next,
        },
        SessionBody::Heartbeat { id } => heartbeat_said(id),
        SessionBody::ResendRequest { begin, last } => Says::ResendRequest {
            begin: *begin,
            last: *last,
        },
        SessionBody::GapFill { new_number } => Says::GapFill {
            new_number: *new_number,
        },
        SessionBody::Reset { new_number } => Says::Reset {
            new_number: *new_number,
        },
        SessionBody::Logout => Says::Logout,
        SessionBody::Reject { number } => Says::Refused { number: *number },
        SessionBody::BusinessReject { number } => refusal_of(*number),
        SessionBody::TestRequest { .. } => Says::Other,
    }
}

fn shares_at(fields: &AppFields<'_>, tag: u32) -> Option<u64>
    ensures { result ≡ shares_at fields.now tag }
{
    read_shares(fields.get(tag)?)
}

fn price_at(fields: &AppFields<'_>, tag: u32) -> Option<u64>
    ensures { result ≡ price_at fields.now tag }
{
    read_price(fields.get(tag)?)
}

fn side_at(fields: &AppFields<'_>) -> Option<Side>
    ensures { result ≡ side_at fields.now }
{
    match fields.get(SIDE)? {
        b"1" => Some(Side::Buy),
        b"2" => Some(Side::Sell),
        _ => None,
    }
}

fn text_at<'a>(fields: &AppFields<'a>, tag: u32) -> Option<TextRef<'a>>
    ensures { result ≡ value_of fields.now tag }
{
    Some(TextRef::new(fields.get(tag)?))
}

fn order_said<'a>(fields: &AppFields<'a>) -> Says<'a>
    ensures { result ≡ order_said fields.now }
{
    let Some(id) = fields.get(CL_ORD_ID) else {
        return Says::Other;
    };
    Says::Order(OrderSaid {
        id: TextRef::new(id),
        shares: shares_at(fields, ORDER_QTY).unwrap_or(0),
        symbol: text_at(fields, SYMBOL),
        suffix: text_at(fields, SYMBOL_SFX),
        side: side_at(fields),
        price: price_at(fields, PRICE),
    })
}

/// Whether a trade's price is there, of at most 20 bytes.
fn is_priced(fields: &AppFields<'_>) -> bool
    ensures { result ≡ is_priced (value_of fields.now 31) }
{
    match fields.get(LAST_PX) {
        Some(text) => text.len() <= MAX_PRICE,
        None => false,
    }
}

fn trade_of<'a>(fields: &AppFields<'a>) -> Happening<'a>
    ensures { result ≡ trade_of fields.now }
{
    if !is_priced(fields) {
        return Happening::Unknown;
    }
    match shares_at(fields, LAST_QTY) {
        Some(shares) => Happening::Trade { shares },
        None => Happening::Unknown,
    }
}

fn bust_of<'a>(fields: &AppFields<'a>) -> Happening<'a>
    ensures { result ≡ bust_of fields.now }
{
    match fields.get(EXEC_REF_ID) {
        Some(undone) => Happening::Bust {
            undone: TextRef::new(undone),
        },
        None => Happening::Unknown,
    }
}

/// What happened, by the byte of ExecType (150).
fn happening_of<'a>(fields: &AppFields<'a>) -> Happening<'a>
    ensures { result ≡ happening_of fields.now }
{
    match fields.get(EXEC_TYPE) {
        Some([b'0']) => Happening::New,
        Some([b'F']) => trade_of(fields),
        Some([b'3' | b'4' | b'8' | b'C']) => Happening::Ended,
        Some([b'H']) => bust_of(fields),
        Some([b'5' | b'6' | b'7' | b'9' | b'A' | b'B' | b'D' | b'E' | b'G' | b'I']) =>
            Happening::Other,
        _ => Happening::Unknown,
    }
}

fn report_of<'a>(fields: &AppFields<'a>) -> Option<ReportSaid<'a>>
    ensures { result ≡ report_of fields.now }
{
    let id = fields.get(CL_ORD_ID)?;
    let exec = fields.get(EXEC_ID)?;
    Some(ReportSaid {
        id: TextRef::new(id),
        exec: TextRef::new(exec),
        happened: happening_of(fields),
        cum: shares_at(fields, CUM_QTY),
        leaves: shares_at(fields, LEAVES_QTY),
        price: price_at(fields, LAST_PX),
        symbol: text_at(fields, SYMBOL),
        side: side_at(fields),
        status: text_at(fields, ORD_STATUS),
    })
}

fn application_said<'a>(kind: &[u8], fields: &AppFields<'a>) -> Says<'a>
    ensures { result ≡ application_said kind.now fields.now }
{
    match kind {
        [b'D'] => order_said(fields),
        [b'8'] => match report_of(fields) {
            Some(report) => Says::Report(report),
            None => Says::Other,
        },
        _ => Says::Other,
    }
}

/// What a body says, as far as the rules look at it.
pub(crate) fn said_by<'a>(body: &BodyRef<'a>) -> Says<'a>
    ensures { result ≡ said_by body.now }
{
    match body {
        Body::Session(says) => session_said(says),
        Body::App { kind, fields } => application_said(kind.as_bytes(), fields),
    }
}
