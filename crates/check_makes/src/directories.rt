//! The makes of the directory under the same calls.
ghost use Rattle.std.specs.Prelude.{◌≡◌, Some, None};
ghost use Rattle.directory.specs.Pairs.{put_refusal};

use crate::{Agreement, Random};
use directory::{Directory, PutRefusal, home_place};
use std::alloc::{AllocError, Global};
use std::fmt;

fn numbered(heap: Global, front: &str, n: u32) -> Result<Vec<u8>, AllocError> {
    Ok(format!(in heap; "{front}{n:03}")?.into_bytes())
}

/// Identifiers for the schedule: short ones, ones that share their first twelve bytes, ones of twenty bytes, ones that have one
/// home in the hashed table, and ones that are not lawful.
pub fn pool(heap: Global) -> Result<Vec<Vec<u8>>, AllocError> {
    let mut names = Vec::new(heap);
    for n in 0..20u32 {
        names.push(numbered(heap, "A", n)?)?;
        names.push(numbered(heap, "TWELVE-BYTES", n)?)?;
        names.push(numbered(heap, "TWENTY-BYTES-LONG", n)?)?;
    }
    for n in 0..999u32 {
        let name = numbered(heap, "C", n)?;
        if home_place(&name) == 126 {
            names.push(name)?;
        }
    }
    names.push(b"".to_vec(heap)?)?;
    names.push(b"A BLANK".to_vec(heap)?)?;
    names.push(b"TWENTY-ONE-BYTES-LONG".to_vec(heap)?)?;
    for n in 0..40u32 {
        names.push(numbered(heap, "Z", n)?)?;
    }
    Ok(names)
}

// How often a number was told, and how often none.
#[derive(Clone, Copy, Default, Drop)]
struct Told {
    some: u32,
    none: u32,
}

impl Told {
    fn count(&mut self, told: Option<u32>) {
        let count = match told {
            Some(_) => &mut self.some,
            None => &mut self.none,
        };
        *count = count.saturating_add(1);
    }
}

/// What a schedule of calls came to.
#[derive(Clone, Copy, Default, Drop)]
pub struct Tally {
    put: u32,
    unlawful: u32,
    held: u32,
    full: u32,
    finds: Told,
    removes: Told,
    agreement: Agreement,
}

impl fmt::Display for Tally {
    fn fmt<W: fmt::Write>(&self, f: &mut fmt::Formatter<W>) -> fmt::Result {
        let Tally {
            put,
            unlawful,
            held,
            full,
            finds,
            removes,
            agreement,
        } = *self;
        write!(
            f,
            "put {put}, unlawful {unlawful}, held {held}, full {full}, "
        )?;
        write!(
            f,
            "found {}, missed {}, removed {}, absent {}, {agreement}",
            finds.some, finds.none, removes.some, removes.none
        )
    }
}

impl Tally {
    pub fn agree(&self) -> bool {
        self.agreement.holds()
    }

    fn count_put(&mut self, one: Result<(), PutRefusal>, other: Result<(), PutRefusal>) {
        self.agreement.compare(&one, &other);
        let count = match one {
            Ok(()) => &mut self.put,
            Err(PutRefusal::Unlawful) => &mut self.unlawful,
            Err(PutRefusal::Held) => &mut self.held,
            Err(PutRefusal::Full) => &mut self.full,
        };
        *count = count.saturating_add(1);
    }

    // What the two tell goes into the checksum.
    fn compare_told(&mut self, one: Option<u32>, other: Option<u32>) {
        self.agreement.compare(&one, &other);
        self.agreement.add(u64::from(one.unwrap_or(0)));
    }

    fn count_find(&mut self, one: Option<u32>, other: Option<u32>) {
        self.compare_told(one, other);
        self.finds.count(one);
    }

    fn count_remove(&mut self, one: Option<u32>, other: Option<u32>) {
        self.compare_told(one, other);
        self.removes.count(one);
    }

    // Both hold as many pairs.
    fn compare_len<A: Directory, B: Directory>(&mut self, one: &A, other: &B) {
        self.agreement.compare(&one.len(), &other.len());
    }
}

/// Written against the trait alone: what is put is found, with any make.
pub fn put_then_find<D: Directory>(directory: &mut D, id: &[u8], entry: u32) -> Option<u32>
    ensures { put_refusal id.now (D.number directory.old id.now) (D.count directory.old) ≡ None → result ≡ Some entry }
{
    directory.put(id, entry).ok()?;
    directory.find(id)
}

/// Every identifier once, so that 64 are held and the rest find no room.
pub fn fill<A: Directory, B: Directory>(one: &mut A, other: &mut B, names: &[Vec<u8>]) -> Tally {
    let mut tally = Tally::default();
    one.clear();
    other.clear();
    for (name, number) in names.iter().zip(1u32..) {
        tally.count_put(one.put(name, number), other.put(name, number));
        tally.count_find(one.find(name), other.find(name));
        tally.compare_len(one, other);
    }
    tally
}

/// Puts, finds and removes at random.
pub fn compare<A: Directory, B: Directory>(
    one: &mut A,
    other: &mut B,
    names: &[Vec<u8>],
    random: &mut Random,
    turns: u32,
) -> Tally {
    let mut tally = Tally::default();
    let count = names.len();
    if count == 0 {
        return tally;
    }
    for turn in 0..turns {
        let name = &names[random.next() as usize % count];
        match random.next() % 8 {
            0..=3 => tally.count_put(one.put(name, turn), other.put(name, turn)),
            4 => tally.count_find(one.find(name), other.find(name)),
            _ => tally.count_remove(one.remove(name), other.remove(name)),
        }
        tally.compare_len(one, other);
    }
    tally
}
