//! The makes of the tape under the same calls.
use crate::{Agreement, Random};
use std::fmt;
use tape::{ByteTape, Full, LINE_BYTES, Line, Mark, RecordTape, Tape, line_in, write_lines};

// Lines that each tape has room for.
const LINES: usize = 40;
// The byte tape's bytes: seventeen more than its lines take.
const ROOM: usize = LINES * LINE_BYTES + 17;
// Places read: some past the last line.
const PLACES: usize = 62;

/// What two tapes came to.
#[derive(Clone, Copy, Default, Drop)]
pub struct TapeTally {
    written: u32,
    refused: u32,
    read: u32,
    agreement: Agreement,
}

impl fmt::Display for TapeTally {
    fn fmt<W: fmt::Write>(&self, f: &mut fmt::Formatter<W>) -> fmt::Result {
        let TapeTally {
            written,
            refused,
            read,
            agreement,
        } = *self;
        write!(
            f,
            "written {written}, refused {refused}, read {read}, {agreement}"
        )
    }
}

impl TapeTally {
    pub fn agree(&self) -> bool {
        self.agreement.holds()
    }
}

fn line_from(random: &mut Random) -> Line {
    let time = u64::from(random.next()) * 20;
    let partner = random.next();
    let taker = random.next();
    let shares = random.next();
    let price = random.next();
    let mark = Mark::from((random.next() % 3) as u8);
    Line {
        time,
        partner,
        taker,
        shares,
        price,
        mark,
    }
}

// Written against the trait alone.
fn write_both<A: Tape, B: Tape>(one: &mut A, other: &mut B, random: &mut Random) -> TapeTally {
    let mut tally = TapeTally::default();
    for _ in 0..60u32 {
        let line = line_from(random);
        tally
            .agreement
            .compare(&one.free_lines(), &other.free_lines());
        let written = one.write(line);
        tally.agreement.compare(&written, &other.write(line));
        match written {
            Ok(()) => tally.written = tally.written.saturating_add(1),
            Err(Full) => tally.refused = tally.refused.saturating_add(1),
        }
    }
    tally
}

fn read_both<A: Tape, B: Tape>(one: &A, other: &B, tally: &mut TapeTally) {
    for place in 0..PLACES {
        let line = one.read(place);
        tally.agreement.compare(&line, &other.read(place));
        if let Some(line) = line {
            tally.read = tally.read.saturating_add(1);
            tally.agreement.add(line.time ^ u64::from(line.price));
        }
    }
}

// The bytes, read by their layout alone.
fn read_bytes<A: Tape>(one: &A, bytes: &[u8], tally: &mut TapeTally) {
    for place in 0..PLACES {
        tally
            .agreement
            .compare(&one.read(place), &line_in(bytes, place));
    }
    for byte in bytes {
        tally.agreement.add(u64::from(*byte));
    }
}

/// The bytes past the lines stay as they are.
pub fn compare_tapes(random: &mut Random) -> TapeTally {
    let mut room = [Line::default(); LINES];
    let mut bytes = [7u8; ROOM];
    let mut records = RecordTape::new(&mut room);
    let mut tape = ByteTape::new(&mut bytes);
    let mut tally = write_both(&mut records, &mut tape, random);
    read_both(&records, &tape, &mut tally);
    read_bytes(&records, tape.written(), &mut tally);
    // the records in a row are the byte tape's bytes, and the rest is as it was
    let mut row = [7u8; ROOM];
    let count = write_lines(&mut row, &room);
    tally.agreement.compare(&count, &LINES);
    tally.agreement.compare(&bytes, &row);
    tally
}
