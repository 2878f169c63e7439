//! An append-only log over memory lent by the caller, for any kind of record.
#![tactic(auto)]

ghost use Rattle.std.specs.Prelude.{length, slice_set, ◌≡◌, ◌≤◌};

use std::error::Error;
use std::fmt;

/// A roll keeps records, the oldest first, in a slice that its maker lends it.
#[derive(Drop)]
pub struct Roll<'a, T> {
    room: &'a mut [T],
    used: usize,
    ghost within: { used ≤ length room.now },
}

/// A record that found no free place.
#[derive(Clone, Copy, PartialEq, Eq, Debug, Drop)]
pub struct Full<T> {
    pub item: T,
}

impl<'a, T: Copy> Roll<'a, T> {
    ghost use Rattle.std.specs.Prelude.{MatchResult, [], ◌++◌, ◌+◌, ◌∷◌};
    ghost use Rattle.roll.specs.Rolls.{records, room_left, places, lender, at_place};

    /// An empty roll; what the slice held counts for nothing.
    pub fn new(room: &'a mut [T]) -> Roll<'a, T>
        ensures empty { records result ≡ [] }
        ensures free { room_left result ≡ length room.old }
        ensures lent { (lender result ≡ room.entry.ghost_name) × (places result ≡ room.old) }
    {
        Roll { room, used: 0 }
    }

    /// How many records stand on the roll.
    pub fn len(&self) -> usize
        ensures { result ≡ length (records self.now) }
    {
        self.as_slice().len()
    }

    /// How many more it has room for.
    pub fn free(&self) -> usize
        ensures { result ≡ room_left self.now }
    {
        self.room.len() - self.used
    }

    /// Adds a record at the end. A full roll hands it back and stays as it is.
    pub fn push(&mut self, item: T) -> Result<(), Full<T>>
        ensures pushed { MatchResult result
            (λ _. (records self.new ≡ records self.old ++ item ∷ []) × (room_left self.new + 1 ≡ room_left self.old))
            (λ e. (room_left self.old ≡ 0) × (e.item ≡ item) × (records self.new ≡ records self.old) × (room_left self.new ≡ 0)) }
        ensures lent { (lender self.new ≡ lender self.old) × MatchResult result
            (λ _. places self.new ≡ slice_set (places self.old) (length (records self.old)) item)
            (λ _. self.new ≡ self.old) }
    {
        if self.used == self.room.len() {
            return Err(Full { item });
        }
        self.room[self.used] = item;
        self.used += 1;
        Ok(())
    }

    /// The records, oldest first.
    pub fn as_slice(&self) -> &[T]
        ensures { result.now ≡ records self.now }
    {
        &self.room[..self.used]
    }

    /// The record at a place; the oldest stands at place 1.
    pub fn get(&self, place: usize) -> Option<T>
        ensures { result ≡ at_place (records self.now) place }
    {
        self.as_slice().get(place.checked_sub(1)?).copied()
    }
}

impl<T> fmt::Display for Full<T> {
    ghost use Rattle.std.specs.Fmt.{padded};
    ghost use Rattle.std.specs.Prelude.{Some};
    ghost use Rattle.roll.specs.Words.{full_words};

    ghost output = { λ _. Some full_words };

    ghost styled_output = { λ _ spec. Some (padded spec full_words) };

    fn fmt<W: fmt::Write>(&self, f: &mut fmt::Formatter<W>) -> fmt::Result {
        f.pad("no free place on the roll")
    }
}

impl<T: fmt::Debug + Drop> Error for Full<T> {}
