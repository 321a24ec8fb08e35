//! What holds of dressed frames: each law is the contract of a function that does nothing.

ghost use Rattle.std.specs.Prelude.{◌≡◌, ◌≤◌, ◌++◌, ℕ, List, length, true, None, Some};
ghost use Rattle.std.specs.List.{list_all};
ghost use Rattle.fix_text.specs.Frame.{frame_text, frame_refusal};
ghost use Rattle.fix_text.specs.Tagged.{Tagged};
ghost use Rattle.fix_text.specs.Text.{fields_text};
ghost use Rattle.fix_tags.specs.Dress.{Dress, is_header_extra, is_logon_extra};
ghost use Rattle.fix_tags.specs.Reading.{envelope_read};
ghost use Rattle.dressed_link.specs.Dressing.{dressed_fields, dressed_frame, is_bare};
ghost use Rattle.dressed_link.specs.Fronts.{Dressed, dressed_front};
ghost use Rattle.dressed_link.specs.Laws.{ArePutBetween, IsValidAgain, can_be_put_on};

/// A dressed frame is a valid frame, of the fields of the valid frame that it was, dressed: BodyLength (9) and CheckSum
/// (10) are those of what it holds.
pub fn dressed_frames_are_valid()
    ensures { (d : Dress) (bytes : List ℕ) (dressed : Dressed) → dressed_front d bytes ≡ Some dressed →
        IsValidAgain d bytes dressed }
{}

/// A frame that was written is taken and dressed, whatever follows it, if its fields then take 4,096 bytes at most.
pub fn written_frames_are_taken()
    ensures { (d : Dress) (fields : List Tagged) (rest : List ℕ) → can_be_put_on d ≡ true → frame_refusal fields ≡ None
        → length (fields_text (dressed_fields d fields)) ≤ 4096
        → dressed_front d (frame_text fields ++ rest) ≡ Some (record { text = dressed_frame d fields; rest = rest }) }
{}

/// The fields of a dressed frame are those that it had, in order, with the dress behind the header and behind the last
/// one.
pub fn fields_are_put_between()
    ensures { (d : Dress) (fields : List Tagged) → ArePutBetween d fields }
{}

/// A bare dress changes no field, and so no byte of a frame that was written.
pub fn bare_dresses_change_nothing()
    ensures fields { (d : Dress) (fields : List Tagged) → is_bare d ≡ true → dressed_fields d fields ≡ fields }
    ensures frame { (d : Dress) (fields : List Tagged) → is_bare d ≡ true → dressed_frame d fields ≡ frame_text fields }
{}

/// A reader of messages passes over what was put on: it reads the message as it was.
pub fn dressed_messages_read_the_same()
    ensures { (d : Dress) (fields : List Tagged) → list_all is_header_extra d.header ≡ true →
        list_all is_logon_extra d.logon ≡ true → envelope_read (dressed_fields d fields) ≡ envelope_read fields }
{}
