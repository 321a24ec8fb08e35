//! The picture of a day as an SVG text.

use crate::elements::{Point, add_line, add_rect, add_text};
use crate::ladder::Ladder;
use crate::lane_picture::{add_lane, names_y};
use crate::places::{exchange_x, y_of};
use crate::row::Row;
use crate::style::{LEGEND, STYLE};
use std::alloc::{AllocError, Global};

/// The most characters of an event's line, also where nothing else is in its row, and of a line below the picture.
const ROW_TEXT: usize = 46;

const WIDE_TEXT: usize = 90;

const LEGEND_TEXT: usize = 140;

/// The room to the right of the last exchange's line, and below the last row.
const RIGHT: u64 = 340;

const BELOW: u64 = 80;

/// What a picture shows, as a screen reader says it.
fn head(
    alloc: Global,
    width: u64,
    height: u64,
    events: usize,
    venues: usize,
) -> Result<String, AllocError> {
    format!(in alloc;
        "<svg xmlns=\"http://www.w3.org/2000/svg\" width=\"{width}\" height=\"{height}\" \
viewBox=\"0 0 {width} {height}\" role=\"img\" aria-labelledby=\"title about\">\n\
<title id=\"title\">The frames of a day, between the session and the exchange of each venue</title>\n\
<desc id=\"about\">Time runs downwards, a row for each event. Events: {events}. Venues: {venues}. An arrow is a frame \
that was sent, with its number and kind, to where it was delivered; a band is a connection; and a mark tells of a leg \
or an end.</desc>\n"
    )
}

/// Appends the line of an event, with its number.
fn add_row(alloc: Global, svg: &mut Vec<u8>, width: u64, row: &Row) -> Result<(), AllocError> {
    let y = y_of(row.slot);
    let top = y - 10;
    add_line(
        alloc,
        svg,
        "rule",
        Point { x: 16, y: top },
        Point { x: width, y: top },
    )?;
    let line = row.line;
    let number = format!(in alloc; "{line}")?;
    let base = y + 4;
    add_text(
        alloc,
        svg,
        "number",
        Point { x: 50, y: base },
        20,
        number.as_bytes(),
    )?;
    let class = if row.is_idle { "idle" } else { "line" };
    let most = if row.is_wide { WIDE_TEXT } else { ROW_TEXT };
    add_text(alloc, svg, class, Point { x: 60, y: base }, most, &row.text)
}

/// Appends what the kinds of arrows mean.
fn add_legend(alloc: Global, svg: &mut Vec<u8>, bottom: u64) -> Result<(), AllocError> {
    let mut y = bottom;
    for line in LEGEND {
        y = y.saturating_add(16);
        add_text(alloc, svg, "legend", Point { x: 16, y }, LEGEND_TEXT, line)?;
    }
    Ok(())
}

impl Ladder {
    /// The picture as a text of SVG 1.1, in ASCII.
    pub fn svg(&self, alloc: Global) -> Result<Vec<u8>, AllocError> {
        let venues = self.lanes.len();
        let bottom = y_of(self.slots);
        let width = exchange_x((venues as u64).saturating_sub(1)) + RIGHT;
        let height = bottom + BELOW;
        let mut svg = head(alloc, width, height, self.rows.len(), venues)?.into_bytes();
        svg.extend_from_slice(STYLE)?;
        add_rect(
            alloc,
            &mut svg,
            "ground",
            Point { x: 0, y: 0 },
            width,
            height,
        )?;
        let at = Point {
            x: 16,
            y: names_y(),
        };
        add_text(alloc, &mut svg, "title", at, 40, b"What the script says")?;
        for row in &self.rows {
            add_row(alloc, &mut svg, width, row)?;
        }
        for (place, lane) in self.lanes.iter().enumerate() {
            add_lane(alloc, &mut svg, place as u64, lane, self.slots)?;
        }
        add_legend(alloc, &mut svg, bottom)?;
        svg.extend_from_slice(b"</svg>\n")?;
        Ok(svg)
    }
}
