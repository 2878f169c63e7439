//! What the arguments ask for.
use anyhow::bail;
use day_file::{DirectoryMake, Makes, TapeMake};

pub const HELP: &str = "\
usage: day [--directory rows|hashed] [--tape records|bytes] < DAYFILE

Answers a day file line by line, on one book. Its commands are told in
docs/RULES.md, section 22.

  --directory rows|hashed  the make of the directory; rows if left out
  --tape records|bytes     the make of the tape; records if left out
  -h, --help               prints this
  --version                prints the version

Answers are the same on all makes. Reads commands from standard input, and the
files that `load` names. Prints answers on standard output, and on standard
error why a day ends early. `write FILE` writes a new file beside, and renames it
to FILE.

Exit status:
  0  the day ends at its close, at the end of its input, or at `refused 6`
  1  a bad line, a file that cannot be read or written, or no memory
  2  unknown arguments";

#[derive(Clone, Copy, PartialEq, Eq, Debug, Drop)]
pub enum Request {
    Help,
    Version,
    Answer(Makes),
}

fn set(makes: &mut Makes, name: &str, value: &str) -> anyhow::Result<()> {
    match (name, DirectoryMake::named(value), TapeMake::named(value)) {
        ("--directory", Some(make), _) => makes.directory = make,
        ("--tape", _, Some(make)) => makes.tape = make,
        _ => bail!(
            "usage: day [--directory rows|hashed] [--tape records|bytes] < DAYFILE; not '{name} {value}'"
        ),
    }
    Ok(())
}

// Names and values in turn.
fn read_makes(args: &[String]) -> anyhow::Result<Makes> {
    let mut makes = Makes::default();
    for pair in args.chunks(2) {
        match pair {
            [name, value] => set(&mut makes, name.as_str(), value.as_str())?,
            [name] => set(&mut makes, name.as_str(), "")?,
            _ => {}
        }
    }
    Ok(makes)
}

impl Request {
    pub fn read(args: &[String]) -> anyhow::Result<Request> {
        for arg in args {
            match arg.as_str() {
                "-h" | "--help" => return Ok(Request::Help),
                "--version" => return Ok(Request::Version),
                _ => {}
            }
        }
        read_makes(args).map(Request::Answer)
    }
}
