ghost use Rattle.std.specs.Prelude.{drop, length, min, take, ◌*◌, ◌++◌, ◌+◌, ◌/◌, ◌≡◌, ◌≤◌};
ghost use Rattle.tape.specs.Layout.{line_length, lines_in, tape_bytes};

use crate::layout::{LINE_BYTES, line_at, put_line};
use crate::line::Line;
use crate::tape::{Full, Tape};

/// A tape over lent bytes, 43 to a line. What is left past the last whole line is never touched.
#[derive(Drop)]
pub struct ByteTape<'a> {
    bytes: &'a mut [u8],
    used: usize,
    ghost within: { used * line_length ≤ length bytes.now },
    ghost spelled_out: { take (used * line_length) bytes.now ≡ tape_bytes (lines_in bytes.now used) },
}

/// Writes lines into bytes, as many as fit whole, and tells how many; the bytes after them stay as they are.
pub fn write_lines(bytes: &mut [u8], lines: &[Line]) -> usize
    ensures count { result ≡ min (length lines.now) (length bytes.old / line_length) }
    ensures bytes { bytes.new ≡ tape_bytes (take result lines.now) ++ drop (result * line_length) bytes.old }
{
    let count = lines.len().min(bytes.len() / LINE_BYTES);
    let mut tape = ByteTape::new(bytes);
    for line in &lines[..count] {
        tape.write(*line).unwrap();
    }
    count
}

impl<'a> ByteTape<'a> {
    ghost use Rattle.std.specs.Prelude.{[]};
    ghost use Rattle.tape.specs.Bytes.{byte_free, byte_lines, byte_row, lender, lent_bytes};

    /// An empty tape; what the bytes held counts for nothing.
    pub fn new(bytes: &'a mut [u8]) -> ByteTape<'a>
        ensures empty { byte_lines result ≡ [] }
        ensures free { byte_free result ≡ length bytes.old / line_length }
        ensures lent { (lender result ≡ bytes.entry.ghost_name) × (lent_bytes result ≡ bytes.old) }
    {
        ByteTape { bytes, used: 0 }
    }

    /// The bytes of the lines so far, to be kept or sent; `line_in` reads them back.
    pub fn written(&self) -> &[u8]
        ensures bytes { result.now ≡ byte_row self.now }
        ensures lines { result.now ≡ tape_bytes (byte_lines self.now) }
    {
        &self.bytes[..self.used * LINE_BYTES]
    }
}

impl<'a> Tape for ByteTape<'a> {
    ghost use Rattle.std.specs.Prelude.{MatchResult, [], ◌∷◌};
    ghost use Rattle.tape.specs.Layout.{line_bytes};
    ghost use Rattle.tape.specs.Bytes.{byte_free, byte_lines, byte_rest, byte_row, lender, lent_bytes};

    ghost lines = { λ s. byte_lines s };

    ghost free = { λ s. byte_free s };

    fn free_lines(&self) -> usize {
        self.bytes.len() / LINE_BYTES - self.used
    }

    fn len(&self) -> usize {
        self.used
    }

    fn write(&mut self, line: Line) -> Result<(), Full>
        ensures line { MatchResult result
            (λ _. (byte_lines self.new ≡ byte_lines self.old ++ line ∷ []) × (byte_free self.new + 1 ≡ byte_free self.old))
            (λ _. (byte_free self.old ≡ 0) × (byte_lines self.new ≡ byte_lines self.old) × (byte_free self.new ≡ 0)) }
        ensures lent { (lender self.new ≡ lender self.old) × MatchResult result
            (λ _. lent_bytes self.new ≡ byte_row self.old ++ (line_bytes line ++ drop line_length (byte_rest self.old)))
            (λ _. self.new ≡ self.old) }
    {
        if self.free_lines() == 0 {
            return Err(Full);
        }
        let at = self.used * LINE_BYTES;
        put_line(self.bytes, at, line);
        self.used += 1;
        Ok(())
    }

    fn read(&self, place: usize) -> Option<Line> {
        let i = place.checked_sub(1)?;
        if i >= self.used {
            return None;
        }
        Some(line_at(self.bytes, i * LINE_BYTES))
    }
}
