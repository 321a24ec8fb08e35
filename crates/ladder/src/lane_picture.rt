//! A venue in the picture.

use crate::arrow::{Arrow, Landing};
use crate::band::Band;
use crate::elements::{Point, add_bent, add_line, add_rect, add_text};
use crate::lane::{Lane, is_lost};
use crate::mark::{End, Mark, Tone};
use crate::places::{exchange_x, session_x, y_of};
use std::alloc::{AllocError, Global};

/// The most characters at a frame or a mark.
const LABEL_TEXT: usize = 46;

/// Where the names of the life lines stand, and where the lines begin.
const NAMES: u64 = 50;

const TOP: u64 = 60;

/// Where the names of the life lines stand.
pub(crate) fn names_y() -> u64 {
    NAMES
}

/// The life line of an end.
fn x_of(end: End, venue: u64) -> u64 {
    match end {
        End::Session => session_x(venue),
        End::Exchange => exchange_x(venue),
    }
}

/// A place within the picture that is so far from a life line, towards the other.
fn inward(end: End, venue: u64, far: u64) -> u64 {
    match end {
        End::Session => session_x(venue).saturating_add(far),
        End::Exchange => exchange_x(venue).saturating_sub(far),
    }
}

fn other(end: End) -> End {
    match end {
        End::Session => End::Exchange,
        End::Exchange => End::Session,
    }
}

/// The class of an arrow that came to its end, for the first time or again.
fn class_of(landing: &Landing, is_first: bool) -> &'static str {
    match (landing.is_taken, is_first) {
        (true, true) => "arrow",
        (true, false) => "arrow again",
        (false, true) => "arrow vain",
        (false, false) => "arrow vain again",
    }
}

/// Appends a text at a life line, on its outer side.
fn add_label(
    alloc: Global,
    svg: &mut Vec<u8>,
    end: End,
    venue: u64,
    slot: u64,
    tone: Option<Tone>,
    text: &[u8],
) -> Result<(), AllocError> {
    let y = y_of(slot) + 4;
    let class = match (end, tone) {
        (End::Session, Some(Tone::Good)) => "left good",
        (End::Session, Some(Tone::Bad)) => "left bad",
        (End::Session, _) => "left",
        (End::Exchange, Some(Tone::Good)) => "good",
        (End::Exchange, Some(Tone::Bad)) => "bad",
        (End::Exchange, _) => "right",
    };
    let x = match end {
        End::Session => session_x(venue) - 14,
        End::Exchange => exchange_x(venue) + 14,
    };
    add_text(alloc, svg, class, Point { x, y }, LABEL_TEXT, text)
}

/// Appends the arrow of a frame that came to its other end.
fn add_landing(
    alloc: Global,
    svg: &mut Vec<u8>,
    end: End,
    venue: u64,
    sent: u64,
    landing: &Landing,
    is_first: bool,
) -> Result<(), AllocError> {
    let class = class_of(landing, is_first);
    let y = y_of(landing.slot);
    let begin = Point {
        x: x_of(end, venue),
        y: y_of(sent),
    };
    let head = Point {
        x: x_of(other(end), venue),
        y,
    };
    if landing.is_late {
        let knee = Point {
            x: inward(end, venue, 40),
            y: y - 6,
        };
        return add_bent(alloc, svg, class, begin, knee, head);
    }
    add_line(alloc, svg, class, begin, head)
}

/// Appends the arrow of a frame that never came.
fn add_broken(
    alloc: Global,
    svg: &mut Vec<u8>,
    end: End,
    venue: u64,
    sent: u64,
    is_lost: bool,
) -> Result<(), AllocError> {
    let y = y_of(sent);
    let class = if is_lost { "arrow lost" } else { "arrow open" };
    let begin = Point {
        x: x_of(end, venue),
        y,
    };
    let head = Point {
        x: inward(end, venue, 110),
        y: y + 11,
    };
    add_line(alloc, svg, class, begin, head)
}

/// Appends a frame, with its label and each time that it came.
fn add_arrow(
    alloc: Global,
    svg: &mut Vec<u8>,
    end: End,
    venue: u64,
    bands: &[Band],
    arrow: &Arrow,
) -> Result<(), AllocError> {
    add_label(alloc, svg, end, venue, arrow.slot, None, &arrow.label)?;
    if arrow.landings.is_empty() {
        return add_broken(alloc, svg, end, venue, arrow.slot, is_lost(bands, arrow));
    }
    for (place, landing) in arrow.landings.iter().enumerate() {
        add_landing(alloc, svg, end, venue, arrow.slot, landing, place == 0)?;
    }
    Ok(())
}

/// Appends a connection.
fn add_band(
    alloc: Global,
    svg: &mut Vec<u8>,
    venue: u64,
    band: &Band,
    slots: u64,
) -> Result<(), AllocError> {
    let y = y_of(band.first);
    let end = match band.last {
        Some(slot) => y_of(slot),
        None => y_of(slots),
    };
    let at = Point {
        x: session_x(venue),
        y,
    };
    add_rect(alloc, svg, "band", at, 200, end.saturating_sub(y))?;
    let connection = band.connection;
    let name = format!(in alloc; "connection {connection}")?;
    let at = Point {
        x: exchange_x(venue) - 6,
        y: y + 2,
    };
    add_text(alloc, svg, "in", at, 30, name.as_bytes())
}

/// Appends a mark.
fn add_mark(alloc: Global, svg: &mut Vec<u8>, venue: u64, mark: &Mark) -> Result<(), AllocError> {
    let class = match mark.tone {
        Tone::Good => "good",
        Tone::Bad => "bad",
        Tone::Plain => "plain",
    };
    let at = Point {
        x: x_of(mark.end, venue).saturating_sub(4),
        y: y_of(mark.slot) - 4,
    };
    add_rect(alloc, svg, class, at, 8, 8)?;
    add_label(
        alloc,
        svg,
        mark.end,
        venue,
        mark.slot,
        Some(mark.tone),
        &mark.text,
    )
}

/// Appends the bar of a crash, across the session's life line.
fn add_bar(alloc: Global, svg: &mut Vec<u8>, venue: u64, slot: u64) -> Result<(), AllocError> {
    let at = Point {
        x: session_x(venue).saturating_sub(12),
        y: y_of(slot) - 3,
    };
    add_rect(alloc, svg, "bad", at, 60, 6)
}

/// Appends the life line of an end, with its name.
fn add_life(
    alloc: Global,
    svg: &mut Vec<u8>,
    end: End,
    venue: u64,
    slots: u64,
) -> Result<(), AllocError> {
    let x = x_of(end, venue);
    let name = match end {
        End::Session => format!(in alloc; "session {venue}")?,
        End::Exchange => format!(in alloc; "exchange {venue}")?,
    };
    add_text(
        alloc,
        svg,
        "name",
        Point { x, y: NAMES },
        30,
        name.as_bytes(),
    )?;
    let bottom = Point { x, y: y_of(slots) };
    add_line(alloc, svg, "life", Point { x, y: TOP }, bottom)
}

/// Appends a venue, of so many slots: its connections, its two life lines, its frames and its marks.
pub(crate) fn add_lane(
    alloc: Global,
    svg: &mut Vec<u8>,
    venue: u64,
    lane: &Lane,
    slots: u64,
) -> Result<(), AllocError> {
    for band in &lane.bands {
        add_band(alloc, svg, venue, band, slots)?;
    }
    add_life(alloc, svg, End::Session, venue, slots)?;
    add_life(alloc, svg, End::Exchange, venue, slots)?;
    for arrow in &lane.to.arrows {
        add_arrow(alloc, svg, End::Session, venue, &lane.bands, arrow)?;
    }
    for arrow in &lane.to.gone {
        add_label(
            alloc,
            svg,
            End::Session,
            venue,
            arrow.slot,
            None,
            &arrow.label,
        )?;
        add_broken(alloc, svg, End::Session, venue, arrow.slot, true)?;
    }
    for arrow in &lane.from.arrows {
        add_arrow(alloc, svg, End::Exchange, venue, &lane.bands, arrow)?;
    }
    for slot in &lane.bars {
        add_bar(alloc, svg, venue, *slot)?;
    }
    for mark in &lane.marks {
        add_mark(alloc, svg, venue, mark)?;
    }
    Ok(())
}
