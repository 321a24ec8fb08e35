//! Which tables are taken.

ghost use Rattle.std.specs.Prelude.{◌≡◌, ◌≤◌, ◌∷◌, [], map, length};
ghost use Rattle.std.specs.List.{list_all};
ghost use Rattle.dialect.specs.Fields.{has_no, has_each_once};
ghost use Rattle.dialect.specs.Spelling.{shared_tags};
ghost use Rattle.dialect.specs.Words.{left_of, is_base, is_width, is_part_byte, is_id_shape, is_symbol_shape, is_price_shape, is_mark, is_extra_field, extra_field, are_extra};

use crate::mark::is_among;
use crate::words::{Extra, IdShape, PriceShape, SymbolShape};
use fix_tags::is_header_tag;
use fix_text::{FieldRef, can_write_tag, can_write_value};
use leg::{MAX_PLACE, MAX_SWEEP};

fn left_of(base: u64, width: usize, n: u64) -> u64
    requires { 1 ≤ base }
    ensures { result ≡ left_of base width n }
{
    if width == 0 {
        n
    } else {
        left_of(base, width - 1, n / base)
    }
}

fn is_base(base: u64) -> bool
    ensures { result ≡ is_base base }
{
    base >= 2 && base <= 16 && left_of(base, 2, u64::from(MAX_PLACE)) == 0
}

fn is_width(base: u64, width: usize) -> bool
    requires { 1 ≤ base }
    ensures { result ≡ is_width base width }
{
    width <= 21 && left_of(base, width, MAX_SWEEP) == 0
}

fn is_part_byte(c: u8) -> bool
    ensures { result ≡ is_part_byte c }
{
    c > 32 && c < 48
}

#[tactic(auto, unfolding(crate::specs::Words::is_id_shape))]
pub(crate) fn is_id_shape(shape: &IdShape) -> bool
    ensures { result ≡ is_id_shape shape.now }
{
    match shape {
        IdShape::Short => true,
        IdShape::Parted {
            base,
            width,
            separator,
        } => is_base(*base) && is_width(*base, *width) && is_part_byte(*separator),
        IdShape::Joined { base, width } => is_base(*base) && is_width(*base, *width),
    }
}

#[tactic(auto, unfolding(crate::specs::Words::is_price_shape))]
pub(crate) fn is_price_shape(shape: PriceShape) -> bool
    ensures { result ≡ is_price_shape shape }
{
    match shape {
        PriceShape::Short | PriceShape::Four => true,
        PriceShape::Least { more } => more <= 3,
    }
}

#[tactic(auto, unfolding(crate::specs::Words::is_symbol_shape))]
pub(crate) fn is_symbol_shape(shape: &SymbolShape) -> bool
    ensures { result ≡ is_symbol_shape shape.now }
{
    match shape {
        SymbolShape::Joined { separator } => is_part_byte(*separator),
        SymbolShape::Parted => true,
    }
}

/// A tag that all dialects share.
fn is_apart(mark: &FieldRef<'_>) -> bool
    ensures { result ≡ list_all (λ tag. has_no tag (mark.now ∷ [])) shared_tags }
{
    !matches!(mark.tag(), 11 | 38 | 40 | 44 | 54 | 55 | 65 | 59 | 60)
}

#[tactic(auto, unfolding(crate::specs::Words::is_mark))]
pub(crate) fn is_mark(mark: &FieldRef<'_>) -> bool
    ensures { result ≡ is_mark mark.now }
{
    can_write_tag(mark.tag())
        && !is_header_tag(mark.tag())
        && is_apart(mark)
        && can_write_value(mark.value())
        && mark.value().len() <= 24
        && is_among(mark.value(), mark.value())
}

fn has_no(tag: u32, extra: &[Extra]) -> bool
    ensures { result ≡ has_no tag (map extra_field extra.now) }
{
    match extra {
        [] => true,
        [first, rest @ ..] => tag != first.tag && has_no(tag, rest),
    }
}

fn is_extra(extra: &Extra) -> bool
    ensures { result ≡ is_extra_field (extra_field extra.now) }
{
    can_write_tag(extra.tag)
        && !is_header_tag(extra.tag)
        && can_write_value(extra.value.as_slice())
        && extra.value.len() <= 24
}

fn are_each_extra(extra: &[Extra]) -> bool
    ensures { result ≡ list_all is_extra_field (map extra_field extra.now) }
{
    match extra {
        [] => true,
        [first, rest @ ..] => is_extra(first) && are_each_extra(rest),
    }
}

fn has_each_once(extra: &[Extra]) -> bool
    ensures { result ≡ has_each_once (map extra_field extra.now) }
{
    match extra {
        [] => true,
        [first, rest @ ..] => has_no(first.tag, rest) && has_each_once(rest),
    }
}

fn has_no_shared(extra: &[Extra]) -> bool
    ensures { result ≡ list_all (λ tag. has_no tag (map extra_field extra.now)) shared_tags }
{
    has_no(11, extra)
        && has_no(38, extra)
        && has_no(40, extra)
        && has_no(44, extra)
        && has_no(54, extra)
        && has_no(55, extra)
        && has_no(65, extra)
        && has_no(59, extra)
        && has_no(60, extra)
}

#[tactic(auto, unfolding(crate::specs::Words::are_extra))]
pub(crate) fn are_extra(mark: u32, extra: &[Extra]) -> bool
    ensures { result ≡ are_extra mark (map extra_field extra.now) }
{
    extra.len() <= 16
        && are_each_extra(extra)
        && has_no_shared(extra)
        && has_no(mark, extra)
        && has_each_once(extra)
}
