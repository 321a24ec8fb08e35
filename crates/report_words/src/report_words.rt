//! The words of a message, as they are read.

ghost use Rattle.std.specs.Prelude.{◌≡◌};
ghost use Rattle.fix_text.specs.FrameFields.{fields_in};
ghost use Rattle.report_words.specs.Said.{words_of};
ghost use Rattle.report_words.specs.Words.{said, reason_tag};

use crate::first_words::FirstWords;
use fix_text::Frame;

/// ClOrdID: the leg that a report is on.
const CL_ORD_ID: u32 = 11;

/// LastPx: the price of a trade.
const LAST_PX: u32 = 31;

/// LastQty: how many shares were traded.
const LAST_QTY: u32 = 32;

/// MsgType: the kind of a message.
const MSG_TYPE: u32 = 35;

/// OrderID: which order it is at the exchange.
const ORDER_ID: u32 = 37;

/// Text: what the exchange says of it.
const TEXT: u32 = 58;

/// TransactTime: when the exchange did it.
const TRANSACT_TIME: u32 = 60;

/// OrdRejReason: why an order was refused.
const ORD_REJ_REASON: u32 = 103;

/// ExecType: what happened.
const EXEC_TYPE: u32 = 150;

/// RefMsgType: the kind of the message that was refused.
const REF_MSG_TYPE: u32 = 372;

/// SessionRejectReason: why a session refused a message.
const SESSION_REJECT_REASON: u32 = 373;

/// BusinessRejectReason: why an application refused a message.
const BUSINESS_REJECT_REASON: u32 = 380;

/// What a message says in words beside its note, each as it came and cut where it is longer than stated. Where a
/// message doesn't say one it is empty. They own nothing.
#[derive(Debug, Drop)]
pub struct ReportWords {
    /// ClOrdID (11).
    pub id: FirstWords<64>,
    /// ExecType (150).
    pub exec_type: FirstWords<8>,
    /// OrderID (37).
    pub order: FirstWords<64>,
    /// LastQty (32).
    pub shares: FirstWords<24>,
    /// LastPx (31).
    pub price: FirstWords<32>,
    /// TransactTime (60).
    pub time: FirstWords<32>,
    /// Text (58).
    pub text: FirstWords<200>,
    /// Why an order or a message was refused: OrdRejReason (103) of an ExecutionReport, SessionRejectReason (373) of a
    /// Reject, BusinessRejectReason (380) of a BusinessMessageReject.
    pub reason: FirstWords<16>,
    /// RefMsgType (372): the kind of the message that was refused.
    pub refused: FirstWords<8>,
    /// MsgType (35): the kind of the message that says all this, and so whose reason it is.
    pub message: FirstWords<8>,
}

impl ReportWords {
    ghost use Rattle.report_words.specs.Said.{no_words};

    /// Those of a message that says nothing.
    pub fn none() -> ReportWords
        ensures { result ≡ no_words }
    {
        ReportWords {
            id: FirstWords::new(&[]),
            exec_type: FirstWords::new(&[]),
            order: FirstWords::new(&[]),
            shares: FirstWords::new(&[]),
            price: FirstWords::new(&[]),
            time: FirstWords::new(&[]),
            text: FirstWords::new(&[]),
            reason: FirstWords::new(&[]),
            refused: FirstWords::new(&[]),
            message: FirstWords::new(&[]),
        }
    }

    /// The tag of the field that has the reason: 103, 373 or 380.
    pub fn reason_tag(&self) -> u32
        ensures { result ≡ reason_tag self.now.message.text }
    {
        reason_tag(self.message.as_bytes())
    }
}

/// What a frame says under a tag; nothing where it has no such field.
fn said<'a>(frame: &Frame<'a>, tag: u32) -> &'a [u8]
    ensures { result.now ≡ said (fields_in frame.now) tag }
{
    match frame.get(tag) {
        Some(value) => value,
        None => &[],
    }
}

/// The tag of the reason that a message of this kind gives.
fn reason_tag(kind: &[u8]) -> u32
    ensures { result ≡ reason_tag kind.now }
{
    match kind {
        [b'3'] => SESSION_REJECT_REASON,
        [b'j'] => BUSINESS_REJECT_REASON,
        _ => ORD_REJ_REASON,
    }
}

/// The words of a message, by the fields of its frame. It takes no memory.
pub fn read_words(frame: &Frame<'_>) -> ReportWords
    ensures { result ≡ words_of (fields_in frame.now) }
{
    let message = said(frame, MSG_TYPE);
    ReportWords {
        id: FirstWords::new(said(frame, CL_ORD_ID)),
        exec_type: FirstWords::new(said(frame, EXEC_TYPE)),
        order: FirstWords::new(said(frame, ORDER_ID)),
        shares: FirstWords::new(said(frame, LAST_QTY)),
        price: FirstWords::new(said(frame, LAST_PX)),
        time: FirstWords::new(said(frame, TRANSACT_TIME)),
        text: FirstWords::new(said(frame, TEXT)),
        reason: FirstWords::new(said(frame, reason_tag(message))),
        refused: FirstWords::new(said(frame, REF_MSG_TYPE)),
        message: FirstWords::new(message),
    }
}
