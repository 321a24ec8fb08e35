//! How far the field is read that is under way.

ghost use Rattle.std.specs.Prelude.{◌≡◌};
ghost use Rattle.day_log.specs.Messages.{field_after, is_end};

const SOH: u8 = 1;

/// What is read of the field that is under way, behind the last SOH: whether it may be CheckSum (10), with which a
/// message ends.
#[derive(Clone, Copy)]
pub(crate) enum Field {
    /// Nothing.
    Empty,
    /// `1`.
    One,
    /// `10`.
    Ten,
    /// `10=`, and bytes of its value.
    CheckSum,
    /// The beginning of another field.
    Other,
}

impl Field {
    /// Whether the message ends with this byte.
    pub(crate) fn is_end(self, byte: u8) -> bool
        ensures { result ≡ is_end self byte }
    {
        match self {
            Field::CheckSum => byte == SOH,
            Field::Empty => false,
            Field::One => false,
            Field::Ten => false,
            Field::Other => false,
        }
    }

    /// What is read of the field once this byte is read too.
    pub(crate) fn after(self, byte: u8) -> Field
        ensures { result ≡ field_after self byte }
    {
        if byte == SOH {
            return Field::Empty;
        }
        match self {
            Field::Empty => {
                if byte == b'1' {
                    Field::One
                } else {
                    Field::Other
                }
            }
            Field::One => {
                if byte == b'0' {
                    Field::Ten
                } else {
                    Field::Other
                }
            }
            Field::Ten => {
                if byte == b'=' {
                    Field::CheckSum
                } else {
                    Field::Other
                }
            }
            Field::CheckSum => Field::CheckSum,
            Field::Other => Field::Other,
        }
    }
}
