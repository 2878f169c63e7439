//! Runs long schedules over both makes of the directory and of the tape, and compares their answers call by call.
#![tactic(auto)]

mod directories;
mod tapes;

use crate::directories::{compare, fill, pool};
use crate::tapes::compare_tapes;
use anyhow::ensure;
use directory::{HashedDirectory, RowDirectory};
use std::process::ExitCode;
use std::{env, fmt};

/// A small generator of numbers, the same on every run.
#[derive(Drop)]
pub struct Random {
    state: u64,
}

impl Random {
    pub fn new(seed: u64) -> Random {
        Random { state: seed }
    }

    /// The next number, below 2 to the 32nd.
    pub fn next(&mut self) -> u32 {
        self.state = self
            .state
            .wrapping_mul(6364136223846793005)
            .wrapping_add(1442695040888963407);
        ((self.state >> 32) & 0xffff_ffff) as u32
    }
}

/// Whether two makes answered alike, and a checksum of what they told.
#[derive(Clone, Copy, Default, Drop)]
pub struct Agreement {
    sum: u64,
    differ: bool,
}

impl fmt::Display for Agreement {
    fn fmt<W: fmt::Write>(&self, f: &mut fmt::Formatter<W>) -> fmt::Result {
        let sum = self.sum;
        let word = if self.differ { "DIFFER" } else { "agree" };
        write!(f, "checksum {sum}, {word}")
    }
}

impl Agreement {
    pub fn compare<T: PartialEq>(&mut self, one: &T, other: &T) {
        if one != other {
            self.differ = true;
        }
    }

    pub fn holds(self) -> bool {
        !self.differ
    }

    pub fn add(&mut self, told: u64) {
        self.sum = self.sum.wrapping_mul(31).wrapping_add(told);
    }
}

// True where the makes agree.
fn run(rt: &HostRuntime) -> anyhow::Result<bool> {
    ensure!(env::args(rt)?.len() <= 1, "usage: check_makes");
    let heap = rt.alloc();
    let names = pool(heap)?;
    let mut random = Random::new(20241);
    let mut rows = RowDirectory::new(heap)?;
    let mut hashed = HashedDirectory::new(heap)?;
    let count = names.len();
    println!(rt; "{count} identifiers")?;
    let filled = fill(&mut rows, &mut hashed, &names);
    println!(rt; "filled: {filled}")?;
    let tally = compare(&mut rows, &mut hashed, &names, &mut random, 200000);
    println!(rt; "schedule: {tally}")?;
    let tape = compare_tapes(&mut random);
    println!(rt; "tapes: {tape}")?;
    Ok(filled.agree() && tally.agree() && tape.agree())
}

fn main(rt: HostRuntime) -> ExitCode {
    match run(&rt) {
        Ok(true) => ExitCode::SUCCESS,
        Ok(false) => ExitCode::FAILURE,
        Err(e) => {
            let _ = eprintln!(rt; "check_makes: {e:#}");
            ExitCode::from(2)
        }
    }
}
