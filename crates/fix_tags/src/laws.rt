//! What is written is read back: each law is the contract of a function that does nothing.

ghost use Rattle.std.specs.List.{list_all};
ghost use Rattle.fix_tags.specs.Dress.{is_header_extra, is_logon_extra};
ghost use Rattle.std.specs.Prelude.{◌≡◌, ◌≤◌, ◌++◌, ℕ, List, length, true, None, Some, Ok, decimal, codes};
ghost use Rattle.fix_text.specs.Frame.{frame_text};
ghost use Rattle.fix_text.specs.Tagged.{Tagged, value_of};
ghost use Rattle.fix_text.specs.Text.{fields_text};
ghost use Rattle.fix_tags.specs.App.{are_app_fields};
ghost use Rattle.fix_tags.specs.CompId.{IsCompId, comp_id_of};
ghost use Rattle.fix_tags.specs.declared.body.Body.TheVariants.{App};
ghost use Rattle.fix_tags.specs.declared.envelope.Envelope.{Envelope};
ghost use Rattle.fix_tags.specs.Message.{is_app_kind, is_message_number, envelope_fields, envelope_refusal};
ghost use Rattle.fix_tags.specs.Flag.{flag_of, flag_text};
ghost use Rattle.fix_tags.specs.Number.{number_of};
ghost use Rattle.fix_tags.specs.Price.{price_of, price_short, price_four};
ghost use Rattle.fix_tags.specs.Readable.{IsReadable};
ghost use Rattle.fix_tags.specs.Reading.{envelope_read};
ghost use Rattle.fix_tags.specs.ReadsBack.{ReadsBackAs};
ghost use Rattle.fix_tags.specs.Says.{IsReadingOf};
ghost use Rattle.fix_tags.specs.Shares.{shares_of};
ghost use Rattle.fix_tags.specs.Stamp.{StampParts, IsStamp, stamp_text, stamp_read};

use crate::comp_id::CompId;
use crate::stamp::Stamp;
use fix_text::MAX_FRAME;

/// Fields of the header that a venue wants beside are passed over, wherever they stand: what is read is the message
/// without them.
pub fn header_extras_are_passed_over()
    ensures { (front beside back : List Tagged) → list_all is_header_extra beside ≡ true →
        envelope_read (front ++ (beside ++ back)) ≡ envelope_read (front ++ back) }
{}

/// Fields that stand behind those of a Logon are passed over too.
pub fn logon_extras_are_passed_over()
    ensures { (front extra : List Tagged) → list_all is_logon_extra extra ≡ true → value_of front 35 ≡ Some (codes "A")
        → envelope_read (front ++ extra) ≡ envelope_read front }
{}

/// A number up to 999,999,999,999 that was written is read back.
pub fn number_reads_back(number: u64)
    requires { number ≤ 999_999_999_999 }
    ensures { number_of (decimal number) ≡ Some number }
{}

/// Shares up to 999,999,999 that were written as a number are read back.
pub fn shares_read_back(shares: u64)
    requires { shares ≤ 999_999_999 }
    ensures { shares_of (decimal shares) ≡ Some shares }
{}

/// A price of 1 to 9,999,999,999 ten-thousandths that was written short or with four decimals is read back.
pub fn price_reads_back(price: u64)
    requires least { 1 ≤ price }
    requires greatest { price ≤ 9_999_999_999 }
    ensures short { price_of (price_short price) ≡ Some price }
    ensures four { price_of (price_four price) ≡ Some price }
{}

/// A flag that was written is read back.
pub fn flag_reads_back(flag: bool)
    ensures { flag_of (flag_text flag) ≡ Some flag }
{}

/// A stamp that was written is read back.
pub fn stamp_reads_back(stamp: &Stamp)
    ensures range { IsStamp stamp.now }
    ensures same { stamp_read (stamp_text stamp.now) ≡ Some stamp.now }
{
    let _year = stamp.year();
}

/// The text of a name is read as that name.
pub fn comp_id_reads_back(id: &CompId)
    ensures { comp_id_of id.now ≡ Some id.now }
{
    let _text = id.as_bytes();
}

/// An application message with at most 3,000 bytes of fields that can be written is refused under no
/// header, whatever the time: only memory can keep it from being written.
pub fn application_messages_fit()
    ensures { (e : Envelope) (s : StampParts) (kind : List ℕ) (fields : List Tagged) → e.body ≡ App kind fields →
        is_app_kind kind ≡ true → are_app_fields fields ≡ true → length (fields_text fields) ≤ 3000 →
        IsCompId e.sender → IsCompId e.target → is_message_number e.number ≡ true → envelope_refusal e s ≡ None }
{}

/// A message that isn't refused takes at most `MAX_FRAME` bytes, so a buffer with that much room left takes any.
pub fn written_messages_are_short()
    ensures { (e : Envelope) (s : StampParts) → envelope_refusal e s ≡ None →
        length (frame_text (envelope_fields e s)) ≤ MAX_FRAME }
{}

/// A message that isn't refused is read back from its frame, whatever follows the frame.
pub fn written_messages_read_back()
    ensures { (e : Envelope) (s : StampParts) → envelope_refusal e s ≡ None → IsCompId e.sender → IsCompId e.target →
        ReadsBackAs e (frame_text (envelope_fields e s)) }
{}

/// A message in range that the fields say is the one that is read from them, and no other is.
pub fn what_fields_say_is_read()
    ensures { (e : Envelope) (fields : List Tagged) → IsReadable e → IsReadingOf e fields →
        envelope_read fields ≡ Ok e }
{}
