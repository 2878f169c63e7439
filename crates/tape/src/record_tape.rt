ghost use Rattle.std.specs.Prelude.{[], length, ◌≡◌};

use crate::line::Line;
use crate::tape::{Full, Tape};
use roll::Roll;
use std::marker::Model;

/// A tape of whole lines on a roll.
#[derive(Drop)]
pub struct RecordTape<'a> {
    roll: Roll<'a, Line>,
}

impl<'a> Model for RecordTape<'a> {
    ghost use Rattle.roll.specs.Rolls.{records, room_left};
    ghost use Rattle.tape.specs.Records.{Lines};

    ghost Value = { Lines };

    ghost view = { λ t. record { lines = records t.roll; free = room_left t.roll } };
}

impl<'a> RecordTape<'a> {
    /// An empty tape with as many free lines as the slice has places.
    pub fn new(room: &'a mut [Line]) -> RecordTape<'a>
        ensures empty { result.lines ≡ [] }
        ensures free { result.free ≡ length room.old }
    {
        RecordTape {
            roll: Roll::new(room),
        }
    }
}

impl<'a> Tape for RecordTape<'a> {
    ghost lines = { λ s. s.lines };

    ghost free = { λ s. s.free };

    fn free_lines(&self) -> usize {
        self.roll.free()
    }

    fn len(&self) -> usize {
        self.roll.len()
    }

    fn write(&mut self, line: Line) -> Result<(), Full> {
        self.roll.push(line).map_err(|_| Full)
    }

    fn read(&self, place: usize) -> Option<Line> {
        self.roll.get(place)
    }
}
