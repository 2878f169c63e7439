//! What the arguments ask for.
use anyhow::bail;

pub const HELP: &str = "\
usage: rerun_day < DAYFILE

Replays a day file through the function that carries the law of whole days: as
it is against the same calls without ticks, and against the same calls with a
tick at the end of every protection period, on other makes.

  -h, --help  prints this
  --version   prints the version

Reads the day file from standard input, and registers from the files that its
lines load. Prints on standard output what agrees, what differs, or why the law
does not speak of the day; on standard error what is wrong. Writes no file.

Exit status:
  0  all that is compared agrees, or the quote is unlawful and no book is opened
  1  an answer, a trade or a book differs
  2  unknown arguments, a bad line, a file that cannot be read, or no memory
  3  the law does not speak of the day: a tick is later than a call after it, a
     load had no place left for a slip, or the tape was too short for a call";

#[derive(Clone, Copy, PartialEq, Eq, Debug, Drop)]
pub enum Request {
    Help,
    Version,
    Rerun,
}

impl Request {
    pub fn read(args: &[String]) -> anyhow::Result<Request> {
        let Some(arg) = args.first() else {
            return Ok(Request::Rerun);
        };
        match arg.as_str() {
            "-h" | "--help" => Ok(Request::Help),
            "--version" => Ok(Request::Version),
            _ => bail!("usage: rerun_day < DAYFILE; not '{arg}'"),
        }
    }
}
