//! A list of fields. Contracts see a list of `Tagged`.
ghost use Rattle.std.specs.Prelude.{◌≡◌};

use crate::field::Field;
use std::marker::Model;

/// A list of fields that owns them.
#[derive(Debug, Drop)]
pub struct Fields {
    fields: Vec<Field>,
}

impl Model for Fields {
    ghost use Rattle.std.specs.Prelude.{List};
    ghost use Rattle.fix_text.specs.Tagged.{Tagged};

    ghost Value = { List Tagged };

    ghost view = { λ list. list.fields.items };
}

impl Fields {
    /// The list of these fields. It takes no memory.
    pub fn new(fields: Vec<Field>) -> Fields
        ensures { result ≡ fields.items }
    {
        Fields { fields }
    }

    /// The fields, lent.
    pub fn as_slice(&self) -> &[Field]
        ensures { result.now ≡ self.now }
    {
        self.fields.as_slice()
    }

    /// The fields. It takes no memory.
    pub fn into_vec(self) -> Vec<Field>
        ensures { result.items ≡ self }
    {
        self.fields
    }
}
