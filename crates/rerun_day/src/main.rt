//! Replays a day file from standard input twice: as it is against the same calls without ticks, and against the same calls with
//! ticks at every protection period's end, on other makes.
#![tactic(auto)]

mod day;
mod lists;
mod request;
mod verdict;

use crate::day::{Day, read_day};
use crate::lists::{latest, tick_too_late, with_ticks};
use crate::request::{HELP, Request};
use crate::verdict::{Finding, Silence, Verdict};
use anyhow::Context;
use book::Call;
use day_file::VERSION;
use std::env;
use std::io::Read;
use std::process::ExitCode;

fn rerun(rt: &HostRuntime, mut day: Day) -> anyhow::Result<ExitCode> {
    let heap = rt.alloc();
    let last = latest(day.calls.as_slice());
    day.calls.push(Call::Tick { time: last })?;
    let quiet = with_ticks(heap, day.calls.as_slice(), &[], last)?;
    let on_quiet = Verdict::of(heap, &day, quiet.as_slice())?;
    println!(rt; "without ticks: {}", on_quiet.finding)?;
    let ends = on_quiet.ends.as_slice();
    println!(rt; "protection periods that began: {}", ends.len())?;
    let ticked = with_ticks(heap, day.calls.as_slice(), ends, last)?;
    let on_ticked = Verdict::of(heap, &day, ticked.as_slice())?;
    println!(rt; "with ticks at their ends: {}", on_ticked.finding)?;
    Ok(ExitCode::from(on_quiet.finding.max(on_ticked.finding)))
}

fn read_and_rerun(rt: &HostRuntime) -> anyhow::Result<ExitCode> {
    let heap = rt.alloc();
    let mut text = Vec::new(heap);
    rt.stdin()
        .read_to_end(&mut text)
        .context("cannot read standard input")?;
    let Some(day) = read_day(rt, text.as_slice())? else {
        println!(rt; "no book is opened")?;
        return Ok(ExitCode::SUCCESS);
    };
    if let Some(time) = tick_too_late(heap, day.calls.as_slice())? {
        let finding = Finding::Silent(Silence::LateTick(time));
        println!(rt; "{finding}")?;
        return Ok(ExitCode::from(finding));
    }
    rerun(rt, day)
}

fn run(rt: &HostRuntime) -> anyhow::Result<ExitCode> {
    let args: Vec<String> = env::args(rt)?.skip(1).collect(rt.alloc())?;
    match Request::read(args.as_slice())? {
        Request::Help => rt.println(HELP)?,
        Request::Version => println!(rt; "rerun_day (Foszkelad) {VERSION}")?,
        Request::Rerun => return read_and_rerun(rt),
    }
    Ok(ExitCode::SUCCESS)
}

fn main(rt: HostRuntime) -> ExitCode {
    match run(&rt) {
        Ok(status) => status,
        Err(e) => {
            let _ = eprintln!(rt; "rerun_day: {e:#}");
            ExitCode::from(2)
        }
    }
}
