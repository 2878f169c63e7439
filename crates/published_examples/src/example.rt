//! A worked example that was published: what it says, the calls that it makes, and what came of them here.
ghost use Rattle.std.specs.Prelude.{◌≡◌, string_bytes, Decides};

use anyhow::{Context, bail};
use day_file::{
    BadLine, Command, Desk, DirectoryMake, Makes, Output, Serve, TapeMake, read_command,
};
use directory::Directory;
use std::alloc::Global;
use std::io;
use tape::Tape;
use terms::Quote;

pub const LEGEND: &str =
    "> what is asked, = the answer, as expected; where it is another: - what was expected, + what came";

// How many lines the tape has room for.
const LINES: usize = 64;

const MAKES: Makes = Makes {
    directory: DirectoryMake::Hashed,
    tape: TapeMake::Bytes,
};

/// An example, as its file has it: `says` is what is published of it, `differs` what our rules give in its place.
#[derive(Drop)]
pub struct Example<'a> {
    pub name: &'a str,
    pub says: Vec<&'a str>,
    pub differs: Vec<&'a str>,
    pub quote: Quote,
    pub calls: Vec<Call<'a>>,
}

/// A call on the book, the number of its line, and the lines expected in answer, each with its line feed.
#[derive(Drop)]
pub struct Call<'a> {
    pub line: u64,
    pub asked: &'a str,
    pub expected: String,
}

fn print_lines(rt: &HostRuntime, mark: &str, text: &str) -> io::Result<()> {
    for line in text.lines() {
        println!(rt; "  {mark} {line}")?;
    }
    Ok(())
}

fn print_words(rt: &HostRuntime, whose: &str, words: &[&str]) -> io::Result<()> {
    for line in words {
        println!(rt; "  {whose}: {line}")?;
    }
    Ok(())
}

impl<'a> Call<'a> {
    pub fn answered_by(&self, came: &str) -> bool
        ensures { Decides result (came.now ≡ string_bytes self.now.expected) }
    {
        came == self.expected.as_str()
    }

    fn command(&self) -> anyhow::Result<Command<'a>> {
        let number = self.line;
        read_command(self.asked.as_bytes())
            .map_err(|expected| BadLine { number, expected })?
            .context(format_args!("line {number}: expected a call"))
    }

    // True where what came was expected.
    fn print(&self, rt: &HostRuntime, came: &str) -> io::Result<bool> {
        let asked = self.asked;
        println!(rt; "  > {asked}")?;
        if self.answered_by(came) {
            print_lines(rt, "=", came)?;
            return Ok(true);
        }
        print_lines(rt, "-", self.expected.as_str())?;
        print_lines(rt, "+", came)?;
        Ok(false)
    }
}

#[derive(Drop)]
struct Playing<'a> {
    heap: Global,
    example: &'a Example<'a>,
}

impl Serve for Playing<'_> {
    type Served = anyhow::Result<Vec<Output>>;

    // What is answered to each call, of which the last closes the book.
    fn serve<D: Directory + Drop, T: Tape + Drop>(
        self,
        mut desk: Desk<D, T>,
    ) -> anyhow::Result<Vec<Output>> {
        let Playing { heap, example } = self;
        let name = example.name;
        let (last, calls) = example
            .calls
            .split_last()
            .context(format_args!("no call stands in the example '{name}'"))?;
        let mut came = Vec::new(heap);
        for call in calls {
            let line = call.line;
            let mut out = Output::new(heap);
            desk.answer(&call.command()?, &mut out)?.context(format_args!(
                "line {line}: expected entry, cancel, quote, tick, ask or why"
            ))?;
            came.push(out)?;
        }
        let Command::Close = last.command()? else {
            let line = last.line;
            bail!("line {line}: expected close");
        };
        let mut out = Output::new(heap);
        desk.close(&mut out)?;
        came.push(out)?;
        Ok(came)
    }
}

impl Example<'_> {
    /// Makes the calls on a new book: what comes of each.
    pub fn play(&self, heap: Global) -> anyhow::Result<Vec<Output>> {
        MAKES.serve(
            heap,
            self.quote,
            LINES,
            Playing {
                heap,
                example: self,
            },
        )?
    }

    /// Prints what is published, what our rules give in its place, and of each call what was expected and what came. True where all
    /// that came was expected, and nothing else.
    pub fn print(&self, rt: &HostRuntime, came: &[Output]) -> anyhow::Result<bool> {
        let name = self.name;
        println!(rt; "\n{name}")?;
        print_words(rt, "published", self.says.as_slice())?;
        print_words(rt, "our rules", self.differs.as_slice())?;
        let mut agrees = self.calls.len() == came.len();
        for (call, answer) in self.calls.iter().zip(came) {
            let answer = std::str::from_utf8(answer.as_bytes())?;
            agrees &= call.print(rt, answer)?;
        }
        println!(rt; "  {}", if agrees { "agrees" } else { "DIFFERS" })?;
        Ok(agrees)
    }
}
