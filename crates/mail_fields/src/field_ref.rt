//! A field of a message's header, as it lies in the text.
ghost use Rattle.std.specs.Prelude.{◌≡◌};
ghost use Rattle.mail_fields.specs.Lying.{value_bytes};

use std::marker::Model;
use tap_base::Text;

// What follows a field's colon: as it lies in the text, or joined from the lines of a field that is
// folded.
#[derive(Drop)]
pub(crate) enum FieldValue<'a> {
    Lying(&'a [u8]),
    Joined(Text),
}

// A field of a header. Its name lies in the text.
#[derive(Drop)]
pub(crate) struct FieldRef<'a> {
    pub(crate) name: &'a [u8],
    pub(crate) value: FieldValue<'a>,
}

impl<'a> Model for FieldRef<'a> {
    ghost use Rattle.tap_rows.specs.Headers.{HeaderField};
    ghost use Rattle.mail_fields.specs.Lying.{value_bytes};

    ghost Value = { HeaderField };

    ghost view = { λ field. record { name = field.name.now; unfolded = value_bytes field.value } };
}

impl<'a> FieldValue<'a> {
    // Returns the bytes.
    pub(crate) fn as_slice(&self) -> &[u8]
        ensures { result.now ≡ value_bytes self.now }
    {
        match self {
            FieldValue::Lying(bytes) => bytes,
            FieldValue::Joined(text) => text.as_slice(),
        }
    }
}

impl<'a> FieldRef<'a> {
    pub(crate) fn new(name: &'a [u8], value: FieldValue<'a>) -> FieldRef<'a>
        ensures { result ≡ record { name = name.now; unfolded = value_bytes value.entry } }
    {
        FieldRef { name, value }
    }

    pub(crate) fn name(&self) -> &[u8]
        ensures { result.now ≡ self.now.name }
    {
        self.name
    }

    // Returns what follows the colon, unfolded.
    pub(crate) fn unfolded(&self) -> &[u8]
        ensures { result.now ≡ self.now.unfolded }
    {
        self.value.as_slice()
    }
}
