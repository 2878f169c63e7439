//! The morning sheet: the orders of a register, with the price each ranks at and the price it reaches to at a quote.
#![tactic(auto)]

mod request;
mod sheet;

use crate::request::{HELP, Request, VERSION};
use crate::sheet::print_sheet;
use std::process::ExitCode;
use std::{env, io};

// Why the program ends with another status than 0.
#[derive(Drop)]
enum Failure {
    NoSheet(anyhow::Error),
    // the arguments are none that the program knows
    Usage(anyhow::Error),
}

fn arguments(rt: &HostRuntime) -> io::Result<Vec<String>> {
    Ok(env::args(rt)?.skip(1).collect(rt.alloc())?)
}

fn answer(rt: &HostRuntime, request: Request<'_>) -> anyhow::Result<()> {
    match request {
        Request::Help => Ok(rt.println(HELP)?),
        Request::Version => Ok(println!(rt; "sheet (Foszkelad) {VERSION}")?),
        Request::Sheet { bid, offer, path } => print_sheet(rt, bid, offer, path),
    }
}

fn run(rt: &HostRuntime) -> Result<(), Failure> {
    let args = arguments(rt).map_err(|e| Failure::NoSheet(e.into()))?;
    let request = Request::read(args.as_slice()).map_err(Failure::Usage)?;
    answer(rt, request).map_err(Failure::NoSheet)
}

fn main(rt: HostRuntime) -> ExitCode {
    let (status, why) = match run(&rt) {
        Ok(()) => return ExitCode::SUCCESS,
        Err(Failure::NoSheet(why)) => (1, why),
        Err(Failure::Usage(why)) => (2, why),
    };
    let _ = eprintln!(rt; "sheet: {why:#}");
    ExitCode::from(status)
}
