//! What is served on a book of any makes: a day file, and entries until no more are accepted.
use anyhow::Context;
use day_file::{Command, Desk, Frame, Makes, Output, Serve};
use directory::Directory;
use rules::MOST_ENTRIES;
use std::alloc::Global;
use tape::Tape;
use terms::{Draft, Quote};

// The lines of a day file that come after its opening.
#[derive(Drop)]
struct Day<'a> {
    frame: Frame,
    text: &'a [u8],
    out: &'a mut Output,
}

impl Serve for Day<'_> {
    type Served = anyhow::Result<()>;

    fn serve<D: Directory + Drop, T: Tape + Drop>(
        self,
        mut desk: Desk<D, T>,
    ) -> anyhow::Result<()> {
        let Day {
            mut frame,
            text,
            out,
        } = self;
        out.line("opened", &[])?;
        let taken = frame.line() as usize;
        for line in text.split(|byte| *byte == b'\n').skip(taken) {
            match frame.command(line)? {
                None => {}
                Some(Command::Close) => break,
                Some(asked) => desk
                    .answer(&asked, out)?
                    .context("only calls and questions stand in these days")?,
            }
        }
        Ok(desk.close(out)?)
    }
}

pub fn play(heap: Global, makes: Makes, text: &[u8], out: &mut Output) -> anyhow::Result<()> {
    let mut frame = Frame::default();
    let opening = frame
        .open(text)?
        .context("a day file opens its book first")?;
    let quote = opening.quote.ok().context("the quote is not lawful")?;
    makes.serve(heap, quote, opening.lines, Day { frame, text, out })?
}

// An order that trades with nobody and never rests.
const AGAIN: Command<'static> = Command::Entry {
    time: 0,
    id: b"AGAIN",
    draft: Draft {
        side: 2,
        kind: 1,
        time_in_force: 2,
        qdp: 0,
        shares: 1,
        limit: 2_000_000,
        offset: 0,
    },
};

// The order is entered a million times, of which the last answer is told, and once more.
#[derive(Drop)]
struct Spending<'a> {
    heap: Global,
    out: &'a mut Output,
}

impl Serve for Spending<'_> {
    type Served = anyhow::Result<()>;

    fn serve<D: Directory + Drop, T: Tape + Drop>(
        self,
        mut desk: Desk<D, T>,
    ) -> anyhow::Result<()> {
        let Spending { heap, out } = self;
        let mut last = Output::new(heap);
        for _ in 0..MOST_ENTRIES {
            last.clear();
            let _ = desk.answer(&AGAIN, &mut last)?;
        }
        out.append(&last)?;
        let _ = desk.answer(&AGAIN, out)?;
        Ok(desk.close(out)?)
    }
}

/// Where nothing ever rests, a tape needs no room.
pub fn spend_entries(heap: Global, makes: Makes, out: &mut Output) -> anyhow::Result<()> {
    let quote = Quote::new(1000, 1001)
        .ok()
        .context("the quote is not lawful")?;
    makes.serve(heap, quote, 0, Spending { heap, out })?
}
