//! The day file on standard input, and a book of any makes that answers it.
use crate::files::{load, write};
use day_file::{Command, Desk, Frame, Opening, Output, Serve};
use directory::Directory;
use std::error::Error;
use std::io::{BufRead, BufReader, Stdin, Write};
use std::ops::ControlFlow;
use std::{fmt, io};
use tape::Tape;

// So much is gathered before it is printed, where more input is at hand.
const GATHERED: usize = 65536;

// Why standard input is not read on. A small error of its own: a general one would be carried along with each line that is read.
#[derive(Debug, Drop)]
struct NotRead(io::Error);

impl fmt::Display for NotRead {
    fn fmt<W: fmt::Write>(&self, f: &mut fmt::Formatter<W>) -> fmt::Result {
        write!(f, "cannot read standard input: {}", self.0)
    }
}

impl Error for NotRead {}

/// The lines of standard input.
#[derive(Drop)]
pub struct Input {
    reader: BufReader<Stdin>,
    text: Vec<u8>,
}

impl Input {
    pub fn new(rt: &HostRuntime) -> io::Result<Input> {
        Ok(Input {
            reader: BufReader::new(rt.alloc(), rt.stdin())?,
            text: Vec::new(rt.alloc()),
        })
    }

    // Reads the next line; None at the end.
    fn next_line(&mut self) -> Result<Option<&[u8]>, NotRead> {
        self.text.clear();
        let count = self
            .reader
            .read_until(b'\n', &mut self.text)
            .map_err(NotRead)?;
        Ok((count > 0).then_some(self.text.as_slice()))
    }

    // Nothing more has come yet, so that reading on may have to wait.
    fn may_wait(&self) -> bool {
        self.reader.buffer().is_empty()
    }

    /// Reads up to the command that opens the book; None where the input ends before.
    pub fn opening(&mut self, frame: &mut Frame) -> anyhow::Result<Option<Opening>> {
        // Nothing grows smaller while input is waited for: the lines are counted, so that the loop ends.
        for _ in 0..u64::MAX {
            let Some(line) = self.next_line()? else {
                break;
            };
            let opening = frame.opening(line)?;
            if opening.is_some() {
                return Ok(opening);
            }
        }
        Ok(None)
    }
}

/// The commands after the first.
#[derive(Drop)]
pub struct Serving<'a> {
    pub rt: &'a HostRuntime,
    pub input: Input,
    pub frame: Frame,
}

fn print(rt: &HostRuntime, out: &mut Output) -> io::Result<()> {
    rt.stdout().write_all(out.as_bytes())?;
    out.clear();
    Ok(())
}

// Breaks where the book is to be closed.
fn serve_line<D: Directory, T: Tape>(
    rt: &HostRuntime,
    frame: &mut Frame,
    line: &[u8],
    desk: &mut Desk<D, T>,
    out: &mut Output,
) -> anyhow::Result<ControlFlow<()>> {
    let Some(command) = frame.command(line)? else {
        return Ok(ControlFlow::Continue(()));
    };
    match command {
        Command::Close => return Ok(ControlFlow::Break(())),
        Command::Load { time, file } => load(rt, frame.line(), desk, time, file, out)?,
        Command::Write { file } => write(rt, frame.line(), desk, file, out)?,
        _ => {
            desk.answer(&command, out)?;
        }
    }
    Ok(ControlFlow::Continue(()))
}

impl Serving<'_> {
    // Breaks where the book is to be closed, goes on where the input ends. Answers are printed before reading may have to wait.
    fn serve_lines<D: Directory, T: Tape>(
        &mut self,
        desk: &mut Desk<D, T>,
        out: &mut Output,
    ) -> anyhow::Result<ControlFlow<()>> {
        // Nothing grows smaller while input is waited for: the lines are counted, so that the loop ends.
        for _ in 0..u64::MAX {
            if out.len() >= GATHERED || self.input.may_wait() {
                print(self.rt, out)?;
            }
            let Some(line) = self.input.next_line()? else {
                break;
            };
            if serve_line(self.rt, &mut self.frame, line, desk, out)?.is_break() {
                return Ok(ControlFlow::Break(()));
            }
        }
        Ok(ControlFlow::Continue(()))
    }
}

impl Serve for Serving<'_> {
    type Served = anyhow::Result<()>;

    fn serve<D: Directory + Drop, T: Tape + Drop>(
        mut self,
        mut desk: Desk<D, T>,
    ) -> anyhow::Result<()> {
        let mut out = Output::new(self.rt.alloc());
        out.line("opened", &[])?;
        let served = self.serve_lines(&mut desk, &mut out);
        if let Ok(ControlFlow::Break(())) = served {
            desk.close(&mut out)?;
        }
        print(self.rt, &mut out)?;
        served.map(|_| ())
    }
}
