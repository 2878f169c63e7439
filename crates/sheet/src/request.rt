//! What the arguments ask for.
use anyhow::{anyhow, bail};

/// The same as in the library days, which a sheet does not need.
pub(crate) const VERSION: &str = "1.0";

pub(crate) const HELP: &str = "\
usage: sheet BID OFFER REGISTER

Tells the orders of a register, each with the price that it ranks at, the price
that it reaches to, and its reach while its side's protection period runs.

  BID, OFFER  the quote, in whole cents
  REGISTER    the file of the register
  -h, --help  prints this
  --version   prints the version

Reads the register, prints the sheet on standard output and what is wrong on
standard error, and writes no file.

Exit status:
  0  the sheet is printed, up to the register's first fault where it has one
  1  the quote is unlawful, the file cannot be read, or there is no memory
  2  other arguments than these, or a bid or an offer that is no whole number";

#[derive(Clone, Copy, Drop)]
pub(crate) enum Request<'a> {
    Help,
    Version,
    Sheet { bid: u32, offer: u32, path: &'a str },
}

fn cents(name: &str, text: &str) -> anyhow::Result<u32> {
    text.parse::<u32>().map_err(|_| anyhow!(
        "the {name} must be a whole number of cents, not '{text}'"
    ))
}

impl<'a> Request<'a> {
    pub(crate) fn read(args: &'a [String]) -> anyhow::Result<Request<'a>> {
        for arg in args {
            match arg.as_str() {
                "-h" | "--help" => return Ok(Request::Help),
                "--version" => return Ok(Request::Version),
                _ => {}
            }
        }
        let [bid, offer, path] = args else {
            bail!("usage: sheet BID OFFER REGISTER, bid and offer in whole cents");
        };
        Ok(Request::Sheet {
            bid: cents("bid", bid.as_str())?,
            offer: cents("offer", offer.as_str())?,
            path: path.as_str(),
        })
    }
}
