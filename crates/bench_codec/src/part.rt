//! What a message costs: the worked messages are written and read as often as is asked for.

use crate::order_writer::OrderWriter;
use crate::reading::{read_leg, read_report};
use crate::stream::read_stream;
use crate::worked::TRADE_REPORT;
use dialect::{Report, ReportKind};
use fix_tags::read_number;
use fix_text::FrameReader;
use std::alloc::Global;
use std::io::Write;
use trial::TrialFault;

/// What is done as often as there are messages, or all of it.
#[derive(Clone, Copy, Debug, PartialEq, Eq)]
pub enum Part {
    Write,
    Read,
    Report,
    Stream1,
    Stream64,
    Stream4096,
    All,
}

impl Part {
    /// The part of this name.
    pub fn named(name: &str) -> Option<Part> {
        match name {
            "write" => Some(Part::Write),
            "read" => Some(Part::Read),
            "report" => Some(Part::Report),
            "stream1" => Some(Part::Stream1),
            "stream64" => Some(Part::Stream64),
            "stream4096" => Some(Part::Stream4096),
            "all" => Some(Part::All),
            _ => None,
        }
    }

    /// Whether the other part runs where this one is asked for.
    fn has(self, other: Part) -> bool {
        self == Part::All || self == other
    }
}

/// The parts that read a stream, each with the length of its pieces.
const STREAMS: [(Part, usize); 3] = [
    (Part::Stream1, 1),
    (Part::Stream64, 64),
    (Part::Stream4096, 4096),
];

/// CheckSum (10) of a written frame.
fn check_sum(frame: &[u8]) -> u64 {
    match frame {
        [.., hundreds, tens, ones, _] => read_number(&[*hundreds, *tens, *ones]).unwrap_or(0),
        _ => 0,
    }
}

/// Writes the worked order under rising numbers.
fn write_orders<W: Write>(alloc: Global, count: u64, out: &mut W) -> Result<(), TrialFault> {
    let mut writer = OrderWriter::new(alloc)?;
    let mut sum = 0u64;
    for _ in 0..count {
        sum = sum.saturating_add(check_sum(writer.write()?));
    }
    writeln!(out, "write: {count} frames, check sums {sum}")?;
    Ok(())
}

/// Reads the first order that was written, again and again.
fn read_orders<W: Write>(alloc: Global, count: u64, out: &mut W) -> Result<(), TrialFault> {
    let mut writer = OrderWriter::new(alloc)?;
    let frame = writer.write()?;
    let mut reader = FrameReader::new(alloc);
    let mut shares = 0u64;
    for _ in 0..count {
        let leg = read_leg(&mut reader, frame)?;
        shares = shares.saturating_add(leg.terms.shares());
    }
    writeln!(out, "read: {count} legs, {shares} shares")?;
    Ok(())
}

/// The shares that a report says were traded.
fn traded(report: &Report) -> u64 {
    match &report.kind {
        ReportKind::Trade(fill) => fill.shares(),
        _ => 0,
    }
}

/// Reads the worked report, again and again.
fn read_reports<W: Write>(alloc: Global, count: u64, out: &mut W) -> Result<(), TrialFault> {
    let mut reader = FrameReader::new(alloc);
    let mut shares = 0u64;
    for _ in 0..count {
        let report = read_report(&mut reader, TRADE_REPORT)?;
        shares = shares.saturating_add(traded(&report));
    }
    writeln!(out, "report: {count} reports, {shares} shares")?;
    Ok(())
}

/// Reads a stream of the first order that was written, in pieces.
fn read_pieces<W: Write>(
    alloc: Global,
    count: u64,
    piece_len: usize,
    out: &mut W,
) -> Result<(), TrialFault> {
    let mut writer = OrderWriter::new(alloc)?;
    let found = read_stream(alloc, writer.write()?, count, piece_len)?;
    let frames = found.frames;
    let fields = found.fields;
    let skipped = found.skipped;
    let garbled = found.garbled;
    writeln!(
        out,
        "stream{piece_len}: {frames} frames, {fields} fields, {skipped} skipped, {garbled} garbled"
    )?;
    Ok(())
}

/// Works on so many messages, and writes a line for each part of the work.
pub fn run_codec<W: Write>(
    alloc: Global,
    count: u64,
    part: Part,
    out: &mut W,
) -> Result<(), TrialFault> {
    if part.has(Part::Write) {
        write_orders(alloc, count, out)?;
    }
    if part.has(Part::Read) {
        read_orders(alloc, count, out)?;
    }
    if part.has(Part::Report) {
        read_reports(alloc, count, out)?;
    }
    for (stream, piece_len) in STREAMS {
        if part.has(stream) {
            read_pieces(alloc, count, piece_len, out)?;
        }
    }
    Ok(())
}
