ghost use Rattle.std.specs.Fmt.{padded};
ghost use Rattle.std.specs.Prelude.{List, MatchResult, Some, [], length, ℕ, ◌++◌, ◌+◌, ◌∷◌, ◌≡◌};
ghost use Rattle.roll.specs.Rolls.{at_place};
ghost use Rattle.tape.specs.Words.{full_words};
ghost use Rattle.tape.specs.declared.line.Line.{Line as TradeLine};

use crate::line::Line;
use std::error::Error;
use std::fmt;

/// The tape has no free line.
#[derive(Clone, Copy, PartialEq, Eq, Debug, Drop)]
pub struct Full;

impl fmt::Display for Full {
    ghost output = { λ _. Some full_words };

    ghost styled_output = { λ _ spec. Some (padded spec full_words) };

    fn fmt<W: fmt::Write>(&self, f: &mut fmt::Formatter<W>) -> fmt::Result {
        f.pad("no free line on the tape")
    }
}

impl Error for Full {}

/// All that a user sees of a tape, whatever its make: the lines written, from oldest to newest, and how many more it can take.
pub trait Tape {
    ghost lines: { Self → List TradeLine };

    ghost free: { Self → ℕ };

    /// How many more lines can be written.
    fn free_lines(&self) -> usize
        ensures { result ≡ free self.now };

    /// How many lines stand on it.
    fn len(&self) -> usize
        ensures { result ≡ length (lines self.now) };

    /// Adds a line at the end; refused exactly where no line is free, and then nothing changes.
    fn write(&mut self, line: Line) -> Result<(), Full>
        ensures { MatchResult result
            (λ _. (lines self.new ≡ lines self.old ++ line ∷ []) × (free self.new + 1 ≡ free self.old))
            (λ _. (free self.old ≡ 0) × (lines self.new ≡ lines self.old) × (free self.new ≡ 0)) };

    /// The line at a place, the oldest at 1; none at place 0 or past the last.
    fn read(&self, place: usize) -> Option<Line>
        ensures { result ≡ at_place (lines self.now) place };
}
