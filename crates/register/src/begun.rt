//! How far a buffer is written, and an order that is begun in it: unless it is finished, the mark goes back to where it began.
ghost use Rattle.std.specs.Prelude.{◌-◌, ◌≡◌};
ghost use Rattle.register.specs.Filling.{fits, room, with_field};
ghost use Rattle.register.specs.Refusal.{done_if};
ghost use Rattle.register.specs.Writers.{SameGuard, begun_page};

use crate::field::HEAD_BYTES;
use crate::writer::NoRoom;

/// The bytes below the mark are written.
#[derive(Clone, Copy, PartialEq, Eq, Debug, Drop)]
pub(crate) struct Fill {
    pub mark: usize,
}

pub(crate) struct Begun<'a, 'b> {
    buffer: &'a mut [u8],
    fill: &'b mut Fill,
    start: Fill,
}

impl Drop for Begun<'_, '_> {
    fn drop(self)
        ensures buffer { self.exit.0.now ≡ self.entry.buffer.now }
        ensures fill { self.exit.1.0.now ≡ self.entry.start }
    {
        *self.fill = self.start;
        let Begun {
            buffer: _,
            fill: _,
            start: _,
        } = self;
    }
}

impl<'a, 'b> Begun<'a, 'b> {
    pub fn new(buffer: &'a mut [u8], fill: &'b mut Fill) -> Begun<'a, 'b>
        ensures buffer { (result.buffer.ghost_name ≡ buffer.entry.ghost_name) × (result.buffer.now ≡ buffer.old) }
        ensures fill { (result.fill.ghost_name ≡ fill.entry.ghost_name) × (result.fill.now ≡ fill.old) }
        ensures start { result.start ≡ fill.old }
    {
        let start = *fill;
        Begun {
            buffer,
            fill,
            start,
        }
    }

    /// The mark stays where it has come to.
    pub fn finish(self)
        ensures buffer { self.exit.0.now ≡ self.entry.buffer.now }
        ensures fill { self.exit.1.0.now ≡ self.entry.fill.now }
    {
        let Begun {
            buffer: _,
            fill: _,
            start: _,
        } = self;
    }

    /// Puts a field at the mark, or nothing where it does not fit whole.
    pub fn put(&mut self, tag: u8, value: &[u8]) -> Result<(), NoRoom>
        ensures page { begun_page self.new ≡ with_field (begun_page self.old) (record { tag = tag; value = value.now }) }
        ensures outcome { result ≡ done_if (fits (room (begun_page self.old)) (record { tag = tag; value = value.now })) self.old.start.mark }
        ensures guard { SameGuard self.old self.new }
    {
        let no_room = NoRoom {
            place: self.start.mark,
        };
        let buffer = &mut *self.buffer;
        let mark = self.fill.mark;
        let size = value.len();
        let [high, low] = u16::try_from(size).map_err(|_| no_room)?.to_be_bytes();
        if buffer.len().saturating_sub(mark) < HEAD_BYTES + size {
            return Err(no_room);
        }
        buffer[mark..mark + HEAD_BYTES].copy_from_slice(&[tag, high, low]);
        buffer[mark + HEAD_BYTES..mark + HEAD_BYTES + size].copy_from_slice(value);
        self.fill.mark = mark + HEAD_BYTES + size;
        Ok(())
    }
}
