//! A price as it is written.

ghost use Rattle.std.specs.Prelude.{◌≡◌, ◌<◌, ◌^◌};
ghost use Rattle.std.specs.Str.{IsUtf8};
ghost use Rattle.fix_tags.specs.Price.{price_short};

use fix_tags::PriceText;
use std::str;

fn text_of(bytes: &[u8]) -> &str
    requires { IsUtf8 bytes.now }
    ensures { result.now ≡ bytes.now }
{
    str::from_utf8(bytes).unwrap()
}

/// A price as text, which is digits and a point.
pub(crate) fn price_text(text: &PriceText, price: u64) -> &str
    requires { text.now.items ≡ price_short price }
    ensures { result.now ≡ price_short price }
{
    text_of(text.as_slice())
}
