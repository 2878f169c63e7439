//! The day files that are named, on each of the four pairs of makes; then entries until no more are accepted.
#![tactic(auto)]

mod days;

use crate::days::{play, spend_entries};
use anyhow::Context;
use day_file::{Makes, Output};
use std::alloc::Global;
use std::io::Write;
use std::process::ExitCode;
use std::{env, fs};

fn answers(heap: Global, days: &[Vec<u8>], makes: Makes) -> anyhow::Result<Output> {
    let mut out = Output::new(heap);
    for day in days {
        play(heap, makes, day.as_slice(), &mut out)?;
    }
    spend_entries(heap, makes, &mut out)?;
    Ok(out)
}

// True where all makes answer alike.
fn run(rt: &HostRuntime) -> anyhow::Result<bool> {
    let heap = rt.alloc();
    let mut days = Vec::new(heap);
    for file in env::args(rt)?.skip(1) {
        let file = file.as_str();
        let day = fs::read(rt, file).context(format_args!("cannot read {file}"))?;
        days.push(day)?;
    }
    let days = days.as_slice();
    let first = answers(heap, days, Makes::default())?;
    rt.stdout().write_all(first.as_bytes())?;
    let mut alike = true;
    for makes in Makes::ALL.into_iter().skip(1) {
        let same = answers(heap, days, makes)?.as_bytes() == first.as_bytes();
        println!(rt; "the same on {makes}: {same}")?;
        alike &= same;
    }
    Ok(alike)
}

fn main(rt: HostRuntime) -> ExitCode {
    match run(&rt) {
        Ok(true) => ExitCode::SUCCESS,
        Ok(false) => ExitCode::FAILURE,
        Err(e) => {
            let _ = eprintln!(rt; "check_days: {e:#}");
            ExitCode::from(2)
        }
    }
}
