//! A report as a desk reads it, in whatever spelling its order's id is.

ghost use Rattle.std.specs.Prelude.{◌≡◌};
ghost use Rattle.dialect.specs.Fields.{required_as};
ghost use Rattle.report_words.specs.Words.{said};
ghost use Rattle.log_legs.specs.Execution.{is_named, named_id, report_in, words_in};

use crate::sweep_sums::leg_id_in;
use dialect::{DialectFault, ExecId, ReportKind, exec_id_in, kind_in, required};
use fix_tags::{AppFields, TextRef};
use log_rules::Checker;
use report_words::FirstWords;

const CL_ORD_ID: u32 = 11;

const EXEC_ID: u32 = 17;

const LAST_PX: u32 = 31;

const LAST_QTY: u32 = 32;

const EXEC_TYPE: u32 = 150;

/// A report that a desk can read.
#[derive(Debug, Drop)]
pub struct ReportNote<'a> {
    /// ClOrdID (11).
    pub id: TextRef<'a>,
    /// ExecID (17).
    pub exec: ExecId,
    /// What happened.
    pub kind: ReportKind,
}

/// What a report that a desk can't read says of its order.
#[derive(Debug, Drop)]
pub struct FieldWords {
    /// ClOrdID (11).
    pub id: FirstWords<64>,
    /// ExecType (150).
    pub kind: FirstWords<8>,
    /// LastQty (32).
    pub shares: FirstWords<24>,
    /// LastPx (31).
    pub price: FirstWords<32>,
}

/// What a field says; nothing where it isn't there.
fn said<'a>(fields: &AppFields<'a>, tag: u32) -> &'a [u8]
    ensures { result.now ≡ said fields.now tag }
{
    match fields.get(tag) {
        Some(text) => text,
        None => &[],
    }
}

impl FieldWords {
    /// What these fields say.
    pub(crate) fn new(fields: &AppFields<'_>) -> FieldWords
        ensures { result ≡ words_in fields.now }
    {
        FieldWords {
            id: FirstWords::new(said(fields, CL_ORD_ID)),
            kind: FirstWords::new(said(fields, EXEC_TYPE)),
            shares: FirstWords::new(said(fields, LAST_QTY)),
            price: FirstWords::new(said(fields, LAST_PX)),
        }
    }
}

/// Whether an order of this id was sent, or it is a leg's number in the spelling of a dialect.
fn is_named(checker: &Checker, id: &[u8]) -> bool
    ensures { result ≡ is_named checker.now.ledger.orders id.now }
{
    checker.place_of(id).is_some() || leg_id_in(id).is_some()
}

fn id_in<'a>(checker: &Checker, fields: &AppFields<'a>) -> Result<TextRef<'a>, DialectFault>
    ensures { result ≡ required_as (named_id checker.now.ledger.orders) fields.now 11 }
{
    let id = required(fields, CL_ORD_ID)?;
    if is_named(checker, id) {
        return Ok(TextRef::new(id));
    }
    Err(DialectFault::Bad(CL_ORD_ID))
}

/// Reads a report as a desk does, or gives its first fault: 11, 17, 150, and then 32 and 31 of a trade or 19 of a bust.
#[tactic(auto, unfolding(crate::specs::Execution::report_in))]
pub(crate) fn read_report<'a>(
    checker: &Checker,
    fields: &AppFields<'a>,
) -> Result<ReportNote<'a>, DialectFault>
    ensures { result ≡ report_in checker.now.ledger.orders fields.now }
{
    let id = id_in(checker, fields)?;
    let exec = exec_id_in(fields, EXEC_ID)?;
    let kind = kind_in(fields)?;
    Ok(ReportNote { id, exec, kind })
}
