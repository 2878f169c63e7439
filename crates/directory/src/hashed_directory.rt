ghost use Rattle.std.specs.Prelude.{length, true, vec_len, ◌≡◌, ◌≤◌};
ghost use Rattle.directory.specs.Entries.{distinct};
ghost use Rattle.directory.specs.Pairs.{most_pairs};
ghost use Rattle.directory.specs.Table.{Chained, entries_in, place_count};

use crate::directory::{CAPACITY, Directory, PutRefusal};
use crate::entry::{Entry, is_of};
use crate::probing::{close_gap, home_place};
use std::alloc::{AllocError, Global};
use terms::Identifier;

pub(crate) const PLACES: usize = 128;

/// What a look for an identifier comes to: the place and the number of its pair, or the free place where the look ends.
#[derive(Clone, Copy)]
pub(crate) enum Spot {
    Taken { place: usize, number: u32 },
    Free { place: usize },
}

/// A directory in a hashed table: open addressing by linear probing, with backward shift when a pair is removed.
/// The table has twice the places that can be taken, and is had at making. Not a map,
/// since no call may allocate.
#[derive(Drop)]
pub struct HashedDirectory {
    pub(crate) places: Vec<Option<Entry>>,
    pub(crate) held: usize,
    ghost whole: { vec_len places ≡ place_count },
    ghost counted: { held ≡ length (entries_in places.items) },
    ghost few: { held ≤ most_pairs },
    ghost apart: { distinct (entries_in places.items) ≡ true },
    ghost chained: { Chained places.items },
}

impl HashedDirectory {
    ghost use Rattle.std.specs.Prelude.{IfOk};
    ghost use Rattle.directory.specs.Hashed.{hashed_count, hashed_number};
    ghost use Rattle.directory.specs.Pairs.{Emptied};
    ghost use Rattle.directory.specs.Table.{Looked};

    /// A directory with no pair. Fails only for want of memory.
    pub fn new(heap: Global) -> Result<HashedDirectory, AllocError>
        ensures { IfOk result (λ d. Emptied (hashed_number d) (hashed_count d)) }
    {
        let places: Vec<Option<Entry>> = vec![in heap; None; PLACES]?;
        Ok(HashedDirectory { places, held: 0 })
    }

    // Looks from the identifier's home on, round the ring of places. Places are counted by their steps from home, as the
    // chains are (`steps`).
    fn look(&self, id: &[u8]) -> Spot
        ensures { Looked self.now.places.items id.now result }
    {
        let home = home_place(id);
        for step in 0..PLACES {
            let place = (home + step) % PLACES;
            let Some(entry) = self.places[place] else {
                return Spot::Free { place };
            };
            if is_of(&entry, id) {
                return Spot::Taken {
                    place,
                    number: entry.number,
                };
            }
        }
        // at most 64 of the 128 places are taken
        unreachable()
    }
}

impl Directory for HashedDirectory {
    ghost use Rattle.directory.specs.Hashed.{hashed_count, hashed_number};

    ghost number = { λ d. hashed_number d };

    ghost count = { λ d. hashed_count d };

    fn len(&self) -> usize {
        self.held
    }

    fn find(&self, id: &[u8]) -> Option<u32> {
        match self.look(id) {
            Spot::Taken { number, .. } => Some(number),
            Spot::Free { .. } => None,
        }
    }

    // The trait fixes the tests and their order; each make tests in its own way.
    fn put(&mut self, id: &[u8], entry: u32) -> Result<(), PutRefusal> {
        let Some(identifier) = Identifier::new(id) else {
            return Err(PutRefusal::Unlawful);
        };
        let Spot::Free { place } = self.look(id) else {
            return Err(PutRefusal::Held);
        };
        if self.held >= CAPACITY {
            return Err(PutRefusal::Full);
        }
        self.places[place] = Some(Entry {
            id: identifier,
            number: entry,
        });
        self.held += 1;
        Ok(())
    }

    fn remove(&mut self, id: &[u8]) -> Option<u32> {
        let Spot::Taken { place, number } = self.look(id) else {
            return None;
        };
        self.places[place] = None;
        close_gap(&mut self.places, place);
        self.held -= 1;
        Some(number)
    }

    fn clear(&mut self) {
        self.places.fill(None);
        self.held = 0;
    }
}
