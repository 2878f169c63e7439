ghost use Rattle.std.specs.Prelude.{List, MatchOption, MatchResult, Option as Maybe, ℕ, ◌≡◌};
ghost use Rattle.directory.specs.Pairs.{Added, Emptied, HasPairs, Kept, RefusedPut, Removed};

use std::error::Error;
use std::fmt;

/// How many pairs a directory holds at most.
pub const CAPACITY: usize = 64;

/// Why a pair is not put: an unlawful identifier, one that has a pair, or 64 pairs already. The first that holds is told.
#[derive(Clone, Copy, PartialEq, Eq, Debug, Drop)]
pub enum PutRefusal {
    Unlawful,
    Held,
    Full,
}

impl fmt::Display for PutRefusal {
    ghost use Rattle.std.specs.Fmt.{padded};
    ghost use Rattle.std.specs.Prelude.{Some};
    ghost use Rattle.directory.specs.Words.{put_refusal_words};

    ghost output = { λ why. Some (put_refusal_words why) };

    ghost styled_output = { λ why spec. Some (padded spec (put_refusal_words why)) };

    fn fmt<W: fmt::Write>(&self, f: &mut fmt::Formatter<W>) -> fmt::Result {
        f.pad(match self {
            PutRefusal::Unlawful => "identifier not lawful",
            PutRefusal::Held => "identifier already held",
            PutRefusal::Full => "directory full",
        })
    }
}

impl Error for PutRefusal {}

/// A directory is a list of at most 64 pairs, a whole lawful identifier and an entry number, no identifier in two of them.
/// `number` is the entry number of an identifier, if it is held, and `count` is how many pairs there are.
pub trait Directory {
    ghost number: { Self → List ℕ → Maybe ℕ };

    ghost count: { Self → ℕ };

    /// How many pairs there are.
    fn len(&self) -> usize
        ensures told { result ≡ count self.now }
        ensures means { HasPairs (number self.now) (count self.now) };

    /// The entry number of an identifier, or none.
    fn find(&self, id: &[u8]) -> Option<u32>
        ensures { result ≡ number self.now id.now };

    /// Adds a pair, unless a PutRefusal holds; then the directory stays as it was.
    fn put(&mut self, id: &[u8], entry: u32) -> Result<(), PutRefusal>
        ensures { MatchResult result
            (λ _. Added id.now entry (number self.old) (count self.old) (number self.new) (count self.new))
            (λ why. RefusedPut why id.now (number self.old) (count self.old) (number self.new) (count self.new)) };

    /// Drops the pair of an identifier and tells its number; where there is none, nothing changes.
    fn remove(&mut self, id: &[u8]) -> Option<u32>
        ensures told { result ≡ number self.old id.now }
        ensures left { MatchOption result
            (Kept (number self.old) (count self.old) (number self.new) (count self.new))
            (λ _. Removed id.now (number self.old) (count self.old) (number self.new) (count self.new)) };

    /// Drops every pair.
    fn clear(&mut self)
        ensures { Emptied (number self.new) (count self.new) };
}
