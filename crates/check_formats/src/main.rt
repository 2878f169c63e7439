//! Answers what a format holds: each argument names a format, and they are answered in turn. The status is 0, 1 where something
//! differs, and 2 where arguments or input are bad or there is no memory.
#![tactic(auto)]

mod prefixes;
mod registers;
mod tally;

use anyhow::{Context, ensure};
use std::env;
use std::process::ExitCode;

const USAGE: &str = "usage: check_formats registers|prefixes.. < REGISTERS";

#[derive(Clone, Copy, Drop)]
enum Format {
    // registers in hexadecimal on standard input
    Registers,
    // every prefix and every one-byte change of a stored register, loaded
    Prefixes,
}

impl Format {
    fn named(word: &str) -> Option<Format> {
        match word {
            "registers" => Some(Format::Registers),
            "prefixes" => Some(Format::Prefixes),
            _ => None,
        }
    }

    // True where nothing differs.
    fn answer(self, rt: &HostRuntime) -> anyhow::Result<bool> {
        match self {
            Format::Registers => registers::answer(rt),
            Format::Prefixes => prefixes::answer(rt),
        }
    }
}

// True where nothing differs. All arguments are judged before a format is answered.
fn run(rt: &HostRuntime) -> anyhow::Result<bool> {
    let mut formats = Vec::new(rt.alloc());
    for word in env::args(rt)?.skip(1) {
        formats.push(Format::named(word.as_str()).context(USAGE)?)?;
    }
    ensure!(!formats.is_empty(), "{USAGE}");
    let mut alike = true;
    for format in formats {
        alike &= format.answer(rt)?;
    }
    Ok(alike)
}

fn main(rt: HostRuntime) -> ExitCode {
    match run(&rt) {
        Ok(true) => ExitCode::SUCCESS,
        Ok(false) => ExitCode::FAILURE,
        Err(e) => {
            let _ = eprintln!(rt; "check_formats: {e:#}");
            ExitCode::from(2)
        }
    }
}
