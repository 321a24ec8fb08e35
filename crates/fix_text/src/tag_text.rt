//! Tags as constant text.
ghost use Rattle.std.specs.Prelude.{◌≡◌, ◌++◌, ◌∷◌, [], decimal, IfSome};

/// The text of a tag with the `=` behind it, of the tags that stand in most orders and reports and their headers (FIX
/// 4.4 Volumes 2 and 4).
pub(crate) fn tag_text(tag: u32) -> Option<&'static [u8]>
    ensures { IfSome result (λ text. text.now ≡ decimal tag ++ 61 ∷ []) }
{
    match tag {
        6 => Some(b"6="),
        11 => Some(b"11="),
        14 => Some(b"14="),
        17 => Some(b"17="),
        18 => Some(b"18="),
        31 => Some(b"31="),
        32 => Some(b"32="),
        34 => Some(b"34="),
        35 => Some(b"35="),
        37 => Some(b"37="),
        38 => Some(b"38="),
        39 => Some(b"39="),
        40 => Some(b"40="),
        43 => Some(b"43="),
        44 => Some(b"44="),
        49 => Some(b"49="),
        52 => Some(b"52="),
        54 => Some(b"54="),
        55 => Some(b"55="),
        56 => Some(b"56="),
        59 => Some(b"59="),
        60 => Some(b"60="),
        97 => Some(b"97="),
        122 => Some(b"122="),
        150 => Some(b"150="),
        151 => Some(b"151="),
        _ => None,
    }
}
