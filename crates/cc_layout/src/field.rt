// Fields of a layout, and where bytes leave it.
ghost use Rattle.std.specs.Prelude.{◌≡◌};
ghost use Rattle.cc_layout.specs.Layout.{number};

/// A little-endian number in a layout: its width in bytes, from 1 to 8, and its value, `None` where any value will do.
#[derive(Clone, Copy, Debug, PartialEq, Eq)]
pub struct Field {
    pub width: u8,
    pub value: Option<u64>,
}

impl Field {
    /// A field with this value.
    pub fn number(width: u8, value: u64) -> Field
        ensures { result ≡ number width value }
    {
        Field {
            width,
            value: Some(value),
        }
    }
}

/// Why bytes do not begin with a layout, with the first place that shows it.
#[derive(Clone, Copy, Debug, PartialEq, Eq)]
pub enum FieldFault {
    /// The bytes end inside a field or before it, at this place.
    Missing(u32),
    /// The field at this place has another value.
    Differs(u32),
}
