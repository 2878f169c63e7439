//! Runs the published worked examples, read from standard input, each on a new book, and compares what comes with what is
//! expected. The status is 0 where all agree, 1 where one does not, and 2 where the input is bad.
#![tactic(auto)]

ghost use Rattle.std.specs.Prelude.{◌≡◌, ◌≤◌, Decides};

mod example;
mod reader;

use crate::example::LEGEND;
use crate::reader::Reader;
use anyhow::bail;
use std::process::ExitCode;
use std::{env, io};

/// How many examples were run, how many agree, and in how many our rules give something else than what is published.
#[derive(Clone, Copy, Default, Drop)]
pub struct Count {
    pub run: u64,
    pub agree: u64,
    pub differ: u64,
}

impl Count {
    /// No more agree than were run.
    pub fn add(&mut self, agrees: bool, differs: bool)
        ensures { self.old.agree ≤ self.old.run → self.new.agree ≤ self.new.run }
    {
        self.run = self.run.saturating_add(1);
        self.agree = self.agree.saturating_add(u64::from(agrees));
        self.differ = self.differ.saturating_add(u64::from(differs));
    }

    pub fn all_agree(self) -> bool
        ensures { Decides result (self.agree ≡ self.run) }
    {
        self.agree == self.run
    }
}

fn run(rt: &HostRuntime) -> anyhow::Result<Count> {
    let heap = rt.alloc();
    if env::args(rt)?.skip(1).next().is_some() {
        bail!("usage: published_examples < EXAMPLES");
    }
    let text = io::read_to_string(heap, rt.stdin())?;
    if !text.is_empty() && !text.as_str().ends_with('\n') {
        bail!("the last line has no line feed");
    }
    let mut reader = Reader::new(text.as_str());
    let mut count = Count::default();
    println!(rt; "{LEGEND}")?;
    while let Some(example) = reader.example(heap)? {
        let came = example.play(heap)?;
        let agrees = example.print(rt, came.as_slice())?;
        count.add(agrees, !example.differs.is_empty());
    }
    let Count { run, agree, differ } = count;
    if run == 0 {
        bail!("no example is given");
    }
    println!(rt; "\nin {differ} examples our rules differ from what is published, as told there")?;
    println!(rt; "{agree} of {run} examples agree")?;
    Ok(count)
}

// An Err from `main` would end with 1, which says that an example differs.
fn main(rt: HostRuntime) -> io::Result<ExitCode> {
    match run(&rt) {
        Ok(count) if count.all_agree() => Ok(ExitCode::SUCCESS),
        Ok(_) => Ok(ExitCode::FAILURE),
        Err(e) => {
            eprintln!(rt; "published_examples: {e}")?;
            Ok(ExitCode::from(2))
        }
    }
}
