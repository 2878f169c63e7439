//! Reading an order, field by field.
ghost use Rattle.std.specs.Prelude.{IfOk, length, ◌+◌, ◌<◌, ◌≡◌, ◌≤◌};
ghost use Rattle.std.specs.Str.{bytes_eq};
ghost use Rattle.register.specs.Layout.{blank, head_size, named, offset_field, short_name as short_name_of, short_name_field, ticket_layout};
ghost use Rattle.register.specs.Numbers.{number_from};
ghost use Rattle.register.specs.Parts.{order_past, order_read, order_with_draft, order_with_offset, read_of, tagged_of};
ghost use Rattle.register.specs.Reading.{next_byte_is, read_field, read_fields, read_four, read_order as read_order_of, read_tagged};
ghost use Rattle.register.specs.Tails.{StandsAt};

use crate::fault::Fault;
use crate::field::{CODES, IDENTIFIER, LIMIT, OFFSET, SHARES, SHORT_NAME, take_field};
use terms::Draft;

// The order that begins at `start`, in a register of `total` bytes. Its methods take what they read off the front of `rest`.
#[derive(Clone, Copy, Drop)]
struct Place {
    total: usize,
    start: usize,
}

const SHORT_NAME_BYTES: usize = 12;

// The identifier cut to 12 bytes, or padded to 12 with blanks.
fn short_name(identifier: &[u8]) -> [u8; SHORT_NAME_BYTES]
    ensures { result ≡ short_name_of identifier.now }
{
    let mut name = [b' '; SHORT_NAME_BYTES];
    let n = identifier.len().min(SHORT_NAME_BYTES);
    name[0..n].copy_from_slice(&identifier[0..n]);
    name
}

fn is_short_name(identifier: &[u8], value: &[u8]) -> bool
    ensures { result ≡ bytes_eq value.now (short_name_of identifier.now) }
{
    let name = short_name(identifier);
    value == name.as_slice()
}

fn next_is(rest: &[u8], tag: u8) -> bool
    ensures { result ≡ next_byte_is tag rest.now }
{
    rest.first() == Some(&tag)
}

impl Place {
    // The value of the field at the front, which must have this tag.
    fn value<'a>(&self, rest: &mut &'a [u8], tag: u8) -> Result<&'a [u8], Fault>
        ensures { tagged_of tag result rest.new.now ≡ read_tagged self.now.total self.now.start rest.old.now tag }
    {
        let Some(field) = take_field(*rest) else {
            return Err(Fault::CutShort(self.total.saturating_sub(rest.len())));
        };
        if field.tag != tag {
            return Err(Fault::Malformed(self.start));
        }
        *rest = field.rest;
        Ok(field.value)
    }

    // Past the short name, if there is one; it must be that of the identifier.
    fn short_name(&self, rest: &mut &[u8], identifier: &[u8]) -> Result<(), Fault>
        ensures { order_past (named identifier.now) result rest.new.now ≡ read_field self.now.total self.now.start short_name_field (record { order = named identifier.now; rest = rest.old.now }) }
    {
        if !next_is(*rest, SHORT_NAME) {
            return Ok(());
        }
        let value = self.value(rest, SHORT_NAME)?;
        if !is_short_name(identifier, value) {
            return Err(Fault::Malformed(self.start));
        }
        Ok(())
    }

    // The offset, 0 where it is missing.
    fn offset(&self, rest: &mut &[u8]) -> Result<i32, Fault>
        ensures { order_with_offset blank result rest.new.now ≡ read_field self.now.total self.now.start offset_field (record { order = blank; rest = rest.old.now }) }
    {
        if !next_is(*rest, OFFSET) {
            return Ok(0);
        }
        let [high, low] = self.value(rest, OFFSET)? else {
            return Err(Fault::Malformed(self.start));
        };
        let offset = i16::from_be_bytes([*high, *low]);
        if offset == 0 {
            return Err(Fault::Malformed(self.start));
        }
        Ok(i32::from(offset))
    }

    fn four_bytes(&self, rest: &mut &[u8], tag: u8) -> Result<[u8; 4], Fault>
        ensures { read_of result rest.new.now ≡ read_four (λ v. v) self.now.total self.now.start rest.old.now tag }
    {
        let [a, b, c, d] = self.value(rest, tag)? else {
            return Err(Fault::Malformed(self.start));
        };
        Ok([*a, *b, *c, *d])
    }

    fn number(&self, rest: &mut &[u8], tag: u8) -> Result<u32, Fault>
        ensures { read_of result rest.new.now ≡ read_four number_from self.now.total self.now.start rest.old.now tag }
    {
        Ok(u32::from_be_bytes(self.four_bytes(rest, tag)?))
    }

    // The ticket, in numbers.
    fn draft(&self, rest: &mut &[u8]) -> Result<Draft, Fault>
        ensures { order_with_draft blank result rest.new.now ≡ read_fields self.now.total self.now.start ticket_layout (record { order = blank; rest = rest.old.now }) }
    {
        let [side, kind, time_in_force, qdp] = self.four_bytes(rest, CODES)?;
        let shares = self.number(rest, SHARES)?;
        let limit = self.number(rest, LIMIT)?;
        let offset = self.offset(rest)?;
        Ok(Draft {
            side,
            kind,
            time_in_force,
            qdp,
            shares,
            limit,
            offset,
        })
    }
}

/// The order at the front of `rest`, which ends a register of `total` bytes: identifier, ticket, and what follows.
pub(crate) fn read_order(total: usize, rest: &[u8]) -> Result<(&[u8], Draft, &[u8]), Fault>
    ensures order { order_read result ≡ read_order_of total rest.now }
    ensures part { IfOk result (λ x. StandsAt rest.now head_size x.0.now × (head_size + length x.0.now ≤ length rest.now)) }
    ensures shorter { IfOk result (λ x. length x.2.now < length rest.now) }
{
    let start = total.saturating_sub(rest.len());
    let order = Place { total, start };
    let mut rest = rest;
    let identifier = order.value(&mut rest, IDENTIFIER)?;
    order.short_name(&mut rest, identifier)?;
    let draft = order.draft(&mut rest)?;
    Ok((identifier, draft, rest))
}
