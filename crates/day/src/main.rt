//! Answers a day file from standard input, line by line.
#![tactic(auto)]

mod files;
mod request;
mod serving;

use crate::request::{HELP, Request};
use crate::serving::{Input, Serving};
use day_file::{Frame, Makes, VERSION};
use std::process::ExitCode;
use std::{env, io};

// Why the program ends with another status than 0.
#[derive(Drop)]
enum Failure {
    // the day ends before its close
    Ended(anyhow::Error),
    // the arguments are none that the program knows
    Usage(anyhow::Error),
}

fn arguments(rt: &HostRuntime) -> io::Result<Vec<String>> {
    Ok(env::args(rt)?.skip(1).collect(rt.alloc())?)
}

fn answer(rt: &HostRuntime, makes: Makes) -> anyhow::Result<()> {
    let mut input = Input::new(rt)?;
    let mut frame = Frame::default();
    let Some(opening) = input.opening(&mut frame)? else {
        return Ok(());
    };
    match opening.quote {
        Ok(quote) => {
            let serving = Serving { rt, input, frame };
            makes.serve(rt.alloc(), quote, opening.lines, serving)?
        }
        Err(why) => Ok(println!(rt; "refused {}", why.number())?),
    }
}

fn serve(rt: &HostRuntime, request: Request) -> anyhow::Result<()> {
    match request {
        Request::Help => Ok(rt.println(HELP)?),
        Request::Version => Ok(println!(rt; "day (Foszkelad) {VERSION}")?),
        Request::Answer(makes) => answer(rt, makes),
    }
}

fn run(rt: &HostRuntime) -> Result<(), Failure> {
    let args = arguments(rt).map_err(|e| Failure::Ended(e.into()))?;
    let request = Request::read(args.as_slice()).map_err(Failure::Usage)?;
    serve(rt, request).map_err(Failure::Ended)
}

fn main(rt: HostRuntime) -> ExitCode {
    let (status, why) = match run(&rt) {
        Ok(()) => return ExitCode::SUCCESS,
        Err(Failure::Ended(why)) => (1, why),
        Err(Failure::Usage(why)) => (2, why),
    };
    let _ = eprintln!(rt; "day: {why:#}");
    ExitCode::from(status)
}
