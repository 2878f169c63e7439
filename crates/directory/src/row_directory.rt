ghost use Rattle.std.specs.Prelude.{IfOk, [], length, position, ◌≡◌};
ghost use Rattle.std.specs.Str.{bytes_eq};
ghost use Rattle.directory.specs.Entries.{entry_id, number_in};

use crate::directory::{CAPACITY, Directory, PutRefusal};
use crate::entry::{Entry, is_of};
use std::alloc::{AllocError, Global};
use std::marker::Model;
use terms::Identifier;

/// A directory of rows, one pair each, the newest last; room for 64 is had at making. Not a map, since no call may
/// allocate. It is seen as its pairs.
#[derive(Drop)]
pub struct RowDirectory {
    pub(crate) rows: Vec<Entry>,
}

impl RowDirectory {
    /// A directory with no pair. Fails only for want of memory.
    pub fn new(heap: Global) -> Result<RowDirectory, AllocError>
        ensures { IfOk result (λ d. d ≡ []) }
    {
        let rows = Vec::with_capacity(heap, CAPACITY)?;
        Ok(RowDirectory { rows })
    }

    // The row of an identifier, if there is one.
    fn row_of(&self, id: &[u8]) -> Option<usize>
        ensures { result ≡ position (λ e. bytes_eq id.now (entry_id e)) self.now }
    {
        self.rows.iter().position(|entry| is_of(entry, id))
    }
}

impl Directory for RowDirectory {
    ghost number = { λ d. number_in d };

    ghost count = { λ d. length d };

    fn len(&self) -> usize {
        self.rows.len()
    }

    fn find(&self, id: &[u8]) -> Option<u32> {
        let i = self.row_of(id)?;
        Some(self.rows[i].number)
    }

    fn put(&mut self, id: &[u8], entry: u32) -> Result<(), PutRefusal> {
        let Some(identifier) = Identifier::new(id) else {
            return Err(PutRefusal::Unlawful);
        };
        if self.find(id).is_some() {
            return Err(PutRefusal::Held);
        }
        if self.rows.len() >= CAPACITY {
            return Err(PutRefusal::Full);
        }
        self.rows.push_reserved(Entry {
            id: identifier,
            number: entry,
        });
        Ok(())
    }

    fn remove(&mut self, id: &[u8]) -> Option<u32> {
        let i = self.row_of(id)?;
        Some(self.rows.remove(i).number)
    }

    fn clear(&mut self) {
        self.rows.clear();
    }
}

impl Model for RowDirectory {
    ghost use Rattle.std.specs.Prelude.{◌≡◌, ◌≤◌, List, true, vec_len, vec_capacity};
    ghost use Rattle.directory.specs.declared.entry.Entry.{Entry as Pair};
    ghost use Rattle.directory.specs.Entries.{distinct};
    ghost use Rattle.directory.specs.Pairs.{most_pairs};

    ghost Value = { List Pair };

    ghost view = { λ d. d.rows.items };

    ghost invariant = { λ d. (most_pairs ≤ vec_capacity d.rows) × (vec_len d.rows ≤ most_pairs) × (distinct d.rows.items ≡ true) };
}
