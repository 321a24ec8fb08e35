//! The fields of an application message.
ghost use Rattle.std.specs.Prelude.{◌≡◌, false, filter, IfSome};
ghost use Rattle.std.specs.Option.{option_map};
ghost use Rattle.fix_text.specs.FrameFields.{fields_in};
ghost use Rattle.fix_text.specs.Tagged.{value_of};
ghost use Rattle.fix_text.specs.Text.{holds_soh};
ghost use Rattle.fix_tags.specs.App.{is_app_tag};

use crate::tag::{BEGIN_STRING, BODY_LENGTH, CHECK_SUM};
use crate::writable::is_header_tag;
use fix_text::Frame;
use std::marker::Model;

/// The fields of a frame that aren't the header's nor the frame's own, in order. They lie where the frame has them, and
/// are lent for as long as the frame's own lender lends them. Contracts see the list of them.
#[derive(Debug, Drop)]
pub struct AppFields<'a> {
    frame: Frame<'a>,
}

impl<'a> Model for AppFields<'a> {
    ghost use Rattle.std.specs.Prelude.{List, filter};
    ghost use Rattle.fix_text.specs.FrameFields.{fields_in};
    ghost use Rattle.fix_text.specs.Tagged.{Tagged};
    ghost use Rattle.fix_tags.specs.App.{is_app_tag};

    ghost Value = { List Tagged };

    ghost view = { λ fields. filter (λ f. is_app_tag f.tag) (fields_in fields.frame) };
}

impl<'a> AppFields<'a> {
    /// Those of this frame. It takes no memory.
    pub fn new(frame: Frame<'a>) -> AppFields<'a>
        ensures { result ≡ filter (λ f. is_app_tag f.tag) (fields_in frame.entry) }
    {
        AppFields { frame }
    }

    /// The value of the first field of this tag, lent for as long as the frame's own lender lends it.
    #[inline]
    #[tactic(auto, using(crate::proofs::Behind::app_value, crate::proofs::Behind::no_app_value))]
    pub fn get(&self, tag: u32) -> Option<&'a [u8]>
        ensures value { option_map (λ value. value.now) result ≡ value_of self.now tag }
        ensures no_soh { IfSome result (λ value. holds_soh value.now ≡ false) }
    {
        if is_application_tag(tag) {
            self.frame.get(tag)
        } else {
            None
        }
    }
}

#[inline]
fn is_application_tag(tag: u32) -> bool
    ensures { result ≡ is_app_tag tag }
{
    !is_header_tag(tag) && !matches!(tag, BEGIN_STRING | BODY_LENGTH | CHECK_SUM)
}
