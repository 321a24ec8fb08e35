//! What own numbers were used for is sent again.

ghost use Rattle.std.specs.Prelude.{◌≡◌, ◌+◌, ◌<◌, ◌≤◌, None, OnOk, OnErr, IfOk, All, length};
ghost use Rattle.dialect.specs.Writable.{IsWritable};
ghost use Rattle.exchange_core.specs.Frames.{Writes};
ghost use Rattle.exchange_core.specs.SentRecord.{closing_fill, resent};
ghost use Rattle.exchange_core.specs.Resending.{resent_one, run_after};

use crate::sent_record::SentRecord;
use crate::to_peer::{report_to_peer, to_peer};
use crate::write::write;
use dialect::{Content, Dialect};
use fix_tags::{Config, SessionBody, Stamp};
use std::alloc::{AllocError, Global};

/// Sends again what these own numbers were used for, of which the first is this one: each report and refusal under its
/// number, and each run of the others by one gap fill.
pub(crate) fn resend<D: Dialect>(
    alloc: Global,
    dialect: &D,
    config: &Config,
    begin: u64,
    own: &[SentRecord],
    stamp: &Stamp,
    frames: &mut Vec<Vec<u8>>,
) -> Result<(), AllocError>
    requires writable { All IsWritable (resent config.now None begin own.now) }
    requires small { begin + length own.now ≤ 1000000000 }
    ensures written { OnOk result (Writes (D.wording dialect.now).encoding
        stamp.now (resent config.now None begin own.now) frames.old.items frames.new.items) }
    ensures some { OnErr result (0 < length (resent config.now None begin own.now)) }
{
    let mut run = None;
    let mut number = begin;
    for entry in own {
        run = resend_one(alloc, dialect, config, run, number, entry, stamp, frames)?;
        number += 1;
    }
    close_run(alloc, dialect, config, run, number, stamp, frames)
}

/// Sends again what one own number was used for, and gives the first number of the run that is open behind it.
#[tactic(auto, using(crate::proofs::Writing::writes_none, crate::proofs::Writing::writes_both, crate::proofs::Writing::writable_front, crate::proofs::Writing::writable_back, crate::proofs::Writing::writable_first))]
fn resend_one<D: Dialect>(
    alloc: Global,
    dialect: &D,
    config: &Config,
    run: Option<u64>,
    number: u64,
    entry: &SentRecord,
    stamp: &Stamp,
    frames: &mut Vec<Vec<u8>>,
) -> Result<Option<u64>, AllocError>
    requires { All IsWritable (resent_one config.now run number entry.now) }
    ensures written { OnOk result (Writes
        (D.wording dialect.now).encoding stamp.now
        (resent_one config.now run number entry.now) frames.old.items frames.new.items) }
    ensures run { IfOk result (λ after. after ≡ run_after run number entry.now) }
    ensures some { OnErr result (0 < length (resent_one config.now run number entry.now)) }
{
    match entry {
        SentRecord::Admin => match run {
            None => Ok(Some(number)),
            Some(first) => Ok(Some(first)),
        },
        SentRecord::Reported { report, view } => {
            close_run(alloc, dialect, config, run, number, stamp, frames)?;
            let outgoing = report_to_peer(config, number, true, report, view);
            write(alloc, dialect, stamp, &outgoing, frames)?;
            Ok(None)
        }
        SentRecord::Refused { number: refused } => {
            close_run(alloc, dialect, config, run, number, stamp, frames)?;
            let content = Content::Session(SessionBody::Reject { number: *refused });
            let outgoing = to_peer(config, number, true, content);
            write(alloc, dialect, stamp, &outgoing, frames)?;
            Ok(None)
        }
    }
}

/// Closes an open run of numbers that aren't sent again, by a gap fill to this number.
#[tactic(auto, using(crate::proofs::Writing::writes_none, crate::proofs::Writing::writable_first))]
fn close_run<D: Dialect>(
    alloc: Global,
    dialect: &D,
    config: &Config,
    run: Option<u64>,
    number: u64,
    stamp: &Stamp,
    frames: &mut Vec<Vec<u8>>,
) -> Result<(), AllocError>
    requires { All IsWritable (closing_fill config.now run number) }
    ensures written { OnOk result (Writes (D.wording dialect.now).encoding
        stamp.now (closing_fill config.now run number) frames.old.items frames.new.items) }
    ensures some { OnErr result (0 < length (closing_fill config.now run number)) }
{
    match run {
        None => Ok(()),
        Some(first) => {
            let content = Content::Session(SessionBody::GapFill { new_number: number });
            let outgoing = to_peer(config, first, true, content);
            write(alloc, dialect, stamp, &outgoing, frames)
        }
    }
}
