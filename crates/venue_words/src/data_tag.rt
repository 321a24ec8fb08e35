//! Tags that no table may write.

ghost use Rattle.std.specs.Prelude.{◌≡◌};
ghost use Rattle.venue_words.specs.Field.{is_session_tag, is_data_tag};

use fix_tags::is_header_tag;

/// Whether the session writes the tag itself: it is one of the frame, the header or the trailer.
pub(crate) fn is_session_tag(tag: u32) -> bool
    ensures { result ≡ is_session_tag tag }
{
    is_header_tag(tag)
        || matches!(
            tag,
            8 | 9 | 10 | 89 | 90 | 91 | 93 | 212 | 213 | 627 | 628 | 629 | 630
        )
}

/// Whether a field of the tag may hold any byte, or says how long such a field is.
pub(crate) fn is_data_tag(tag: u32) -> bool
    ensures { result ≡ is_data_tag tag }
{
    348 <= tag && tag <= 365 || matches!(tag, 95 | 96 | 445 | 446 | 618 | 619 | 621 | 622)
}
