//! A field in bytes: a tag, the length of its value in two bytes, and the value.
ghost use Rattle.std.specs.Prelude.{◌≡◌};
ghost use Rattle.register.specs.Parts.{taken_of};
ghost use Rattle.register.specs.Reading.{take_field as take_field_of};

// The tags of the fields of an order.

pub(crate) const IDENTIFIER: u8 = 1;

pub(crate) const CODES: u8 = 2;

pub(crate) const SHARES: u8 = 3;

pub(crate) const LIMIT: u8 = 4;

pub(crate) const OFFSET: u8 = 5;

pub(crate) const SHORT_NAME: u8 = 6;

/// How many bytes stand before a value.
pub(crate) const HEAD_BYTES: usize = 3;

/// A field taken off the front of some bytes; value and rest are parts of them.
#[derive(Clone, Copy, Drop)]
pub(crate) struct Field<'a> {
    pub tag: u8,
    pub value: &'a [u8],
    pub rest: &'a [u8],
}

pub(crate) fn take_field(bytes: &[u8]) -> Option<Field<'_>>
    ensures { taken_of result ≡ take_field_of bytes.now }
{
    let [tag, high, low, rest @ ..] = bytes else {
        return None;
    };
    let len = usize::from(u16::from_be_bytes([*high, *low]));
    let (value, rest) = rest.split_at_checked(len)?;
    Some(Field {
        tag: *tag,
        value,
        rest,
    })
}
