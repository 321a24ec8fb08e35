//! The elements of a picture (SVG 1.1), each a line of its text.

ghost use Rattle.std.specs.Prelude.{◌≡◌, ◌++◌, IfOk, OnOk, string_bytes, take};
ghost use Rattle.ladder.specs.Elements.{bent_text, line_text, point_text, rect_text, text_head, text_text};
ghost use Rattle.ladder.specs.Escaped.{escaped};

use crate::escape::escaped_to;
use std::alloc::{AllocError, Global};

/// A point of a picture.
#[derive(Clone, Copy, Debug)]
pub(crate) struct Point {
    pub(crate) x: u64,
    pub(crate) y: u64,
}

/// A line of a class between two points.
fn line(alloc: Global, class: &str, a: Point, b: Point) -> Result<String, AllocError>
    ensures { IfOk result (λ text. string_bytes text ≡ line_text class.now a.x a.y b.x b.y) }
{
    let Point { x: x1, y: y1 } = a;
    let Point { x: x2, y: y2 } = b;
    format!(in alloc; "<line class=\"{class}\" x1=\"{x1}\" y1=\"{y1}\" x2=\"{x2}\" y2=\"{y2}\"/>\n")
}

/// A point, as a line names it.
fn place(alloc: Global, at: Point) -> Result<String, AllocError>
    ensures { IfOk result (λ text. string_bytes text ≡ point_text at.x at.y) }
{
    let Point { x, y } = at;
    format!(in alloc; "{x},{y}")
}

/// A line of a class by way of these points.
fn bent(alloc: Global, class: &str, a: &str, b: &str, c: &str) -> Result<String, AllocError>
    ensures { IfOk result (λ text. string_bytes text ≡ bent_text class.now a.now b.now c.now) }
{
    format!(in alloc; "<polyline class=\"{class}\" points=\"{a} {b} {c}\"/>\n")
}

/// A rectangle of a class.
fn rect(
    alloc: Global,
    class: &str,
    at: Point,
    width: u64,
    height: u64,
) -> Result<String, AllocError>
    ensures { IfOk result (λ text. string_bytes text ≡ rect_text class.now at.x at.y width height) }
{
    let Point { x, y } = at;
    format!(in alloc;
        "<rect class=\"{class}\" x=\"{x}\" y=\"{y}\" width=\"{width}\" height=\"{height}\"/>\n"
    )
}

/// The beginning of a text of a class at a point.
fn text_head(alloc: Global, class: &str, at: Point) -> Result<String, AllocError>
    ensures { IfOk result (λ text. string_bytes text ≡ text_head class.now at.x at.y) }
{
    let Point { x, y } = at;
    format!(in alloc; "<text class=\"{class}\" x=\"{x}\" y=\"{y}\">")
}

/// Appends a line of a class between two points.
pub(crate) fn add_line(
    alloc: Global,
    svg: &mut Vec<u8>,
    class: &str,
    a: Point,
    b: Point,
) -> Result<(), AllocError>
    ensures { OnOk result (svg.new.items ≡ svg.old.items ++ line_text class.now a.x a.y b.x b.y) }
{
    svg.extend_from_slice(line(alloc, class, a, b)?.as_bytes())
}

/// Appends a line of a class between two points, by way of a third.
pub(crate) fn add_bent(
    alloc: Global,
    svg: &mut Vec<u8>,
    class: &str,
    a: Point,
    b: Point,
    c: Point,
) -> Result<(), AllocError>
    ensures { OnOk result (svg.new.items ≡ svg.old.items ++ bent_text class.now (point_text a.x a.y)
        (point_text b.x b.y) (point_text c.x c.y)) }
{
    let a = place(alloc, a)?;
    let b = place(alloc, b)?;
    let c = place(alloc, c)?;
    svg.extend_from_slice(bent(alloc, class, &a, &b, &c)?.as_bytes())
}

/// Appends a rectangle of a class.
pub(crate) fn add_rect(
    alloc: Global,
    svg: &mut Vec<u8>,
    class: &str,
    at: Point,
    width: u64,
    height: u64,
) -> Result<(), AllocError>
    ensures { OnOk result (svg.new.items ≡ svg.old.items ++ rect_text class.now at.x at.y width height) }
{
    svg.extend_from_slice(rect(alloc, class, at, width, height)?.as_bytes())
}

/// Appends a text of a class at a point, its first bytes, no more than so many.
pub(crate) fn add_text(
    alloc: Global,
    svg: &mut Vec<u8>,
    class: &str,
    at: Point,
    most: usize,
    raw: &[u8],
) -> Result<(), AllocError>
    ensures { OnOk result (svg.new.items
        ≡ svg.old.items ++ text_text class.now at.x at.y (escaped (take most raw.now))) }
{
    svg.extend_from_slice(text_head(alloc, class, at)?.as_bytes())?;
    svg.extend_from_slice(&escaped_to(alloc, most, raw)?)?;
    svg.extend_from_slice(b"</text>\n")
}
