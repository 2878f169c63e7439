use crate::day::{Day, Load};
use anyhow::bail;
use book::{Answer, Book, Call, Played, rerun};
use day_file::{byte_room, record_room};
use directory::{Directory, HashedDirectory, RowDirectory};
use rules::{MOST_RESTING, PROTECTION_PERIOD, Refusal};
use std::alloc::{AllocError, Global};
use std::fmt;
use std::process::ExitCode;
use tape::{ByteTape, Mark, RecordTape, Tape};

/// What comes of holding two runs against each other.
#[derive(Drop)]
pub struct Verdict {
    /// the ends of the protection periods that began in the first run
    pub ends: Vec<u64>,
    pub finding: Finding,
}

/// Of two, the later one here tells more.
#[derive(Clone, Copy, PartialEq, Eq, PartialOrd, Ord, Debug, Drop)]
pub enum Finding {
    Alike(Alike),
    Silent(Silence),
    Differ(Difference),
}

/// How many calls that are no ticks were answered alike, and how many trades are on both tapes.
#[derive(Clone, Copy, PartialEq, Eq, PartialOrd, Ord, Debug, Drop)]
pub struct Alike {
    pub calls: usize,
    pub trades: usize,
}

/// In the order in which they are looked for; the places count calls that are no ticks, or lines of the tape, from 1.
#[derive(Clone, Copy, PartialEq, Eq, PartialOrd, Ord, Debug, Drop)]
pub enum Difference {
    Answer(usize),
    Line(usize),
    Books,
}

/// Why the law does not speak of a day.
#[derive(Clone, Copy, PartialEq, Eq, PartialOrd, Ord, Debug, Drop)]
pub enum Silence {
    LateTick(u64),
    SlipsFull,
    ShortTape,
}

fn shared_answers(
    heap: Global,
    calls: &[Call],
    answers: &[Answer],
) -> Result<Vec<Answer>, AllocError> {
    calls
        .iter()
        .zip(answers)
        .filter(|(call, _)| !call.is_tick())
        .map(|(_, answer)| *answer)
        .collect(heap)
}

// How many answers there are, where both lists are the same, or the first that differs.
fn answered_alike(answers: &[Answer], others: &[Answer]) -> Result<usize, Difference> {
    let shorter = answers.len().min(others.len());
    if answers.len() != others.len() {
        return Err(Difference::Answer(shorter.saturating_add(1)));
    }
    match answers.iter().zip(others).position(|(a, b)| a != b) {
        Some(i) => Err(Difference::Answer(i.saturating_add(1))),
        None => Ok(shorter),
    }
}

// How many lines there are, where both tapes are the same, or the first place where they differ.
fn traded_alike<D: Directory, T: Tape, E: Directory, U: Tape>(
    book: &Book<D, T>,
    other: &Book<E, U>,
) -> Result<usize, Difference> {
    let lines = book.lines();
    let longer = lines.max(other.lines());
    match (1..=longer).find(|place| book.line(*place) != other.line(*place)) {
        Some(place) => Err(Difference::Line(place)),
        None => Ok(lines),
    }
}

// Both sides of both books, place by place, and their figures by way of them.
fn stand_differently<D: Directory, T: Tape, E: Directory, U: Tape>(
    book: &Book<D, T>,
    other: &Book<E, U>,
) -> bool {
    (1..=2u8).any(|side| {
        (1..=MOST_RESTING).any(|place| book.ask(side, place) != other.ask(side, place))
    })
}

// The ends of the protection periods that began before the tapes differ.
fn ends<D: Directory, T: Tape, E: Directory, U: Tape>(
    heap: Global,
    book: &Book<D, T>,
    other: &Book<E, U>,
) -> Result<Vec<u64>, AllocError> {
    (1..=book.lines())
        .map_while(|place| {
            book.line(place)
                .filter(|line| other.line(place) == Some(*line))
        })
        .filter(|line| line.mark != Mark::Nothing)
        .map(|line| line.time.saturating_add(PROTECTION_PERIOD))
        .collect(heap)
}

fn held<D: Directory, T: Tape, E: Directory, U: Tape>(
    first: &Played<D, T>,
    second: &Played<E, U>,
    answers: &[Answer],
    others: &[Answer],
) -> Result<Alike, Difference> {
    let calls = answered_alike(answers, others)?;
    let trades = traded_alike(&first.book, &second.book)?;
    if stand_differently(&first.book, &second.book) {
        return Err(Difference::Books);
    }
    Ok(Alike { calls, trades })
}

fn tape_short<D: Directory, T: Tape>(run: &Played<D, T>) -> bool {
    run.answers.contains(&Answer::Refused(Refusal::TapeShort))
}

impl Silence {
    // A load counts first: behind a slip that found no place, the list has calls that the day does not make.
    fn of<D: Directory, T: Tape, E: Directory, U: Tape>(
        loads: &[Load],
        first: &Played<D, T>,
        second: &Played<E, U>,
    ) -> Option<Silence> {
        let answers = first.answers.as_slice();
        if loads.iter().any(|load| load.runs_out(answers)) {
            return Some(Silence::SlipsFull);
        }
        (tape_short(first) || tape_short(second)).then_some(Silence::ShortTape)
    }
}

impl Finding {
    // Where the law does not speak of the day, nothing is compared.
    fn of<D: Directory, T: Tape, E: Directory, U: Tape>(
        loads: &[Load],
        first: &Played<D, T>,
        second: &Played<E, U>,
        answers: &[Answer],
        others: &[Answer],
    ) -> Finding {
        match Silence::of(loads, first, second) {
            Some(silence) => Finding::Silent(silence),
            None => held(first, second, answers, others).into(),
        }
    }
}

impl Verdict {
    /// The day as it is on rows and records, the other list on a hashed directory and bytes. The rooms stand here, where the tapes
    /// that borrow them are made.
    pub fn of(heap: Global, day: &Day, other_calls: &[Call]) -> anyhow::Result<Verdict> {
        let calls = day.calls.as_slice();
        let mut bytes = byte_room(heap, day.lines)?;
        let mut records = record_room(heap, day.lines)?;
        let Ok((first, second)) = rerun(
            heap,
            day.quote,
            RowDirectory::new(heap)?,
            RecordTape::new(records.as_mut_slice()),
            calls,
            HashedDirectory::new(heap)?,
            ByteTape::new(bytes.as_mut_slice()),
            other_calls,
        ) else {
            bail!("no memory for the books");
        };
        let answers = shared_answers(heap, calls, first.answers.as_slice())?;
        let others = shared_answers(heap, other_calls, second.answers.as_slice())?;
        let answers = answers.as_slice();
        let others = others.as_slice();
        Ok(Verdict {
            ends: ends(heap, &first.book, &second.book)?,
            finding: Finding::of(day.loads.as_slice(), &first, &second, answers, others),
        })
    }
}

impl From<Result<Alike, Difference>> for Finding {
    fn from(held: Result<Alike, Difference>) -> Finding {
        match held {
            Ok(alike) => Finding::Alike(alike),
            Err(difference) => Finding::Differ(difference),
        }
    }
}

// The status that tells it.
impl From<Finding> for ExitCode {
    fn from(finding: Finding) -> ExitCode {
        let status = match finding {
            Finding::Alike(_) => 0,
            Finding::Differ(_) => 1,
            Finding::Silent(_) => 3,
        };
        ExitCode::from(status)
    }
}

impl fmt::Display for Finding {
    fn fmt<W: fmt::Write>(&self, f: &mut fmt::Formatter<W>) -> fmt::Result {
        match self {
            Finding::Alike(alike) => write!(f, "{alike}"),
            Finding::Differ(difference) => write!(f, "DIFFERS: {difference}"),
            Finding::Silent(silence) => write!(f, "{silence}"),
        }
    }
}

impl fmt::Display for Alike {
    fn fmt<W: fmt::Write>(&self, f: &mut fmt::Formatter<W>) -> fmt::Result {
        let Alike { calls, trades } = *self;
        write!(
            f,
            "{calls} calls answered alike, {trades} trades on both tapes, books equal"
        )
    }
}

impl fmt::Display for Difference {
    fn fmt<W: fmt::Write>(&self, f: &mut fmt::Formatter<W>) -> fmt::Result {
        match self {
            Difference::Answer(place) => write!(f, "the answer to call {place}, ticks not counted"),
            Difference::Line(place) => write!(f, "line {place} of the tape"),
            Difference::Books => write!(f, "what stands in the books at the end"),
        }
    }
}

impl fmt::Display for Silence {
    fn fmt<W: fmt::Write>(&self, f: &mut fmt::Formatter<W>) -> fmt::Result {
        match self {
            Silence::LateTick(time) => {
                write!(f, "the tick at {time} is later than a call after it")?
            }
            Silence::SlipsFull => write!(f, "a load had no place left for a slip")?,
            Silence::ShortTape => write!(f, "the tape was too short for a call")?,
        }
        write!(f, ", so that the law does not speak of this day")
    }
}
