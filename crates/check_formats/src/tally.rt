//! What became of many loads, each of a register into a new book on each of two pairs of makes.
use anyhow::Context;
use book::Book;
use book_register::{LoadFault, Loaded, Slip, load_register};
use directory::{Directory, HashedDirectory, RowDirectory};
use roll::Roll;
use std::alloc::Global;
use std::fmt;
use tape::{ByteTape, LINE_BYTES, Line, RecordTape, Tape};
use terms::Quote;

// What a tape has room for, and what a roll has at most.
const LINES: usize = 8;

const PLACES: usize = 4;

/// `stops` and `slips` count by the fault's number.
#[derive(Clone, Copy, Default, Drop)]
pub(crate) struct Tally {
    loads: u32,
    finished: u32,
    entered: u64,
    stops: [u32; 17],
    slips: [u32; 17],
    /// loads that other makes answer otherwise
    differ: u32,
}

fn load<D: Directory + Drop, T: Tape + Drop>(
    heap: Global,
    quote: Quote,
    directory: D,
    tape: T,
    register: &[u8],
    slips: &mut Roll<'_, Slip>,
) -> anyhow::Result<Result<Loaded, LoadFault>> {
    let mut book = Book::open(heap, quote, directory, tape)
        .ok()
        .context("no memory")?;
    Ok(load_register(&mut book, 0, register, slips))
}

fn count_one(counts: &mut [u32], number: u8) {
    if let Some(count) = counts.get_mut(usize::from(number)) {
        *count = count.saturating_add(1);
    }
}

impl Tally {
    fn count_load(&mut self, answer: Result<Loaded, LoadFault>) {
        self.loads = self.loads.saturating_add(1);
        match answer {
            Ok(loaded) => {
                self.finished = self.finished.saturating_add(1);
                self.entered = self.entered.saturating_add(loaded.entered as u64);
            }
            Err(fault) => count_one(&mut self.stops, fault.number()),
        }
    }

    fn count_slips(&mut self, slips: &[Slip]) {
        for slip in slips {
            count_one(&mut self.slips, slip.number);
        }
    }

    fn compare(&mut self, alike: bool) {
        self.differ = self.differ.saturating_add(u32::from(!alike));
    }

    /// The answer and the slips are counted, and whether the other makes give others. The rolls have so many places.
    pub(crate) fn try_register(
        &mut self,
        heap: Global,
        quote: Quote,
        register: &[u8],
        places: usize,
    ) -> anyhow::Result<()> {
        let places = places.min(PLACES);
        let mut room = [Slip::default(); PLACES];
        let mut slips = Roll::new(&mut room[..places]);
        let mut lines = [Line::default(); LINES];
        let rows = RowDirectory::new(heap).context("no memory")?;
        let records = RecordTape::new(&mut lines);
        let answer = load(heap, quote, rows, records, register, &mut slips)?;
        let mut other_room = [Slip::default(); PLACES];
        let mut other_slips = Roll::new(&mut other_room[..places]);
        let mut other_lines = [0u8; LINES * LINE_BYTES];
        let hashed = HashedDirectory::new(heap).context("no memory")?;
        let bytes = ByteTape::new(&mut other_lines);
        let other = load(heap, quote, hashed, bytes, register, &mut other_slips)?;
        self.count_load(answer);
        self.count_slips(slips.as_slice());
        self.compare(answer == other && slips.as_slice() == other_slips.as_slice());
        Ok(())
    }

    pub(crate) fn alike(&self) -> bool {
        self.differ == 0
    }
}

// Those that came up, by number.
fn write_counts<W: fmt::Write>(counts: &[u32], f: &mut fmt::Formatter<W>) -> fmt::Result {
    for (number, count) in counts.iter().enumerate() {
        if *count > 0 {
            write!(f, " {number}: {count}")?;
        }
    }
    Ok(())
}

impl fmt::Display for Tally {
    fn fmt<W: fmt::Write>(&self, f: &mut fmt::Formatter<W>) -> fmt::Result {
        let loads = self.loads;
        let finished = self.finished;
        let entered = self.entered;
        write!(
            f,
            "{loads} loads, {finished} finished with {entered} orders entered; stopped by"
        )?;
        write_counts(&self.stops, f)?;
        write!(f, "; slips")?;
        write_counts(&self.slips, f)?;
        let differ = self.differ;
        write!(f, "; {differ} otherwise on other makes")
    }
}
