ghost use Rattle.std.specs.Prelude.{◌<◌, ◌≡◌};
ghost use Rattle.directory.specs.Entries.{entry_id};
ghost use Rattle.directory.specs.Table.{Closed, Gapped, home_place as home_place_of, place_count, steps};

use crate::entry::Entry;
use crate::hashed_directory::PLACES;

/// The place where a look for an identifier begins, from 0 to 127. Every byte counts.
pub fn home_place(id: &[u8]) -> usize
    ensures value { result ≡ home_place_of id.now }
    ensures within { result < place_count }
{
    let hash = id.iter().fold(
        0,
        |hash: u16, byte| ((u32::from(hash) * 31 + u32::from(*byte)) % 65521) as u16,
    );
    usize::from(hash) % PLACES
}

fn home_of(entry: &Entry) -> usize
    ensures value { result ≡ home_place_of (entry_id entry.now) }
    ensures within { result < place_count }
{
    home_place(entry.id.as_bytes())
}

// How many places on from one place another lies, going round.
fn steps_between(from: usize, to: usize) -> usize
    requires { (from < place_count) × (to < place_count) }
    ensures { result ≡ steps from to }
{
    (to + PLACES - from) % PLACES
}

/// Shifts back the pairs after a place that was freed, as far as one of them would no longer be found.
pub(crate) fn close_gap(places: &mut Vec<Option<Entry>>, gap: usize)
    requires { Gapped places.old.items gap }
    ensures { Closed places.old.items places.new.items }
{
    let mut hole = gap;
    // Places are counted by their steps on from the gap, since the walk goes round the ring.
    for step in 1..PLACES {
        let place = (gap + step) % PLACES;
        let Some(entry) = places[place] else {
            return;
        };
        let home = home_of(&entry);
        if steps_between(home, hole) < steps_between(home, place) {
            places[hole] = Some(entry);
            places[place] = None;
            hole = place;
        }
    }
}
