//! A message is read from its frame's bytes.

use dialect::{Dialect, ORDER_KIND, Plain, REPORT_KIND, Report};
use fix_tags::Body;
use fix_text::FrameReader;
use leg::Leg;
use trial::{TrialFault, envelope_in};

/// The leg of an order's frame.
#[inline(always)]
pub fn read_leg(reader: &mut FrameReader, bytes: &[u8]) -> Result<Leg, TrialFault> {
    let message = envelope_in(reader, bytes)?;
    match message.body() {
        Body::App { kind, fields } if kind.as_bytes() == ORDER_KIND => Ok(Plain.read_order(
            fields,
        )?),
        _ => Err(TrialFault::Missing),
    }
}

/// The report of a report's frame.
#[inline(always)]
pub fn read_report(reader: &mut FrameReader, bytes: &[u8]) -> Result<Report, TrialFault> {
    let message = envelope_in(reader, bytes)?;
    match message.body() {
        Body::App { kind, fields } if kind.as_bytes() == REPORT_KIND => Ok(Plain.read_report(
            fields,
        )?),
        _ => Err(TrialFault::Missing),
    }
}
