//! The sheet: the quote, a line for each order of the register, and a count.
ghost use Rattle.std.specs.Prelude.{◌≡◌, true, false};
ghost use Rattle.terms.specs.Prices.{ranked as ranked_of, reach as reach_of};
ghost use Rattle.terms.specs.Made.{terms_of};

use anyhow::{Context, anyhow};
use register::{Listed, Reader};
use std::alloc::{AllocError, Global};
use std::{fs, io};
use terms::{HalfCents, Quote, Terms, ranked_price, reach};

/// The three prices of an order, in half-cents: where it ranks, and how far it reaches while its side's protection period does
/// not run and while it does.
#[derive(Clone, Copy, Drop)]
pub struct Prices {
    pub ranked: u32,
    pub reach: u32,
    pub protected: u32,
}

impl Prices {
    pub fn at(terms: Terms, quote: Quote) -> Prices
        ensures ranked { result.ranked ≡ ranked_of (terms_of terms) quote.bid quote.offer }
        ensures reach { result.reach ≡ reach_of (terms_of terms) false quote.bid quote.offer }
        ensures protected { result.protected ≡ reach_of (terms_of terms) true quote.bid quote.offer }
    {
        Prices {
            ranked: ranked_price(terms, quote),
            reach: reach(terms, false, quote),
            protected: reach(terms, true, quote),
        }
    }
}

// Bytes as text; what cannot be printed, and a backslash, by two hexadecimal digits.
fn text(heap: Global, bytes: &[u8]) -> Result<String, AllocError> {
    let mut all = String::new(heap);
    for b in bytes {
        match *b {
            b'\\' | 0..=32 | 127..=255 => {
                let escape = format!(in heap; "\\x{:02x}", *b)?;
                all.push_str(escape.as_str())?;
            }
            plain => all.push(char::from(plain))?,
        }
    }
    Ok(all)
}

fn offset(heap: Global, cents: i32) -> Result<String, AllocError> {
    let size = HalfCents(cents.unsigned_abs().saturating_mul(2));
    match cents {
        0 => format!(in heap; "-"),
        1.. => format!(in heap; "+{size}"),
        _ => format!(in heap; "-{size}"),
    }
}

fn heading(heap: Global) -> Result<String, AllocError> {
    format!(in heap;
        "{:<20}  {:<4}  {:<15}  {:>7}  {:>9}  {:>6}  {:>9}  {:>9}  {:>9}",
        "identifier", "side", "kind", "shares", "limit", "offset", "ranked", "reach", "protected"
    )
}

fn row(heap: Global, order: Listed<'_>, terms: Terms, quote: Quote) -> Result<String, AllocError> {
    let identifier = text(heap, order.identifier.bytes)?;
    let prices = Prices::at(terms, quote);
    let limit = format!(in heap; "{}", HalfCents(2 * terms.limit))?;
    let offset = offset(heap, terms.offset)?;
    let ranked = format!(in heap; "{}", HalfCents(prices.ranked))?;
    let reach = format!(in heap; "{}", HalfCents(prices.reach))?;
    let protected = format!(in heap; "{}", HalfCents(prices.protected))?;
    let Terms {
        side,
        kind,
        shares,
        ..
    } = terms;
    format!(in heap;
        "{identifier:<20}  {side:<4}  {kind:<15}  {shares:>7}  {limit:>9}  {offset:>6}  {ranked:>9}  {reach:>9}  {protected:>9}"
    )
}

// How many orders have been printed, and how many tickets were refused.
#[derive(Clone, Copy, Default, Drop)]
struct Counts {
    orders: usize,
    refused: usize,
}

impl Counts {
    fn print_order(&mut self, rt: &HostRuntime, order: Listed<'_>, quote: Quote) -> io::Result<()> {
        let heap = rt.alloc();
        match order.ticket() {
            Ok(ticket) => {
                self.orders = self.orders.saturating_add(1);
                rt.println(row(heap, order, ticket.terms(), quote)?)
            }
            Err(fault) => {
                self.refused = self.refused.saturating_add(1);
                let identifier = text(heap, order.identifier.bytes)?;
                println!(rt; "{identifier:<20}  refused {fault}")
            }
        }
    }
}

fn print_register(rt: &HostRuntime, quote: Quote, register: &[u8]) -> io::Result<()> {
    let bid = HalfCents(2 * quote.bid);
    let offer = HalfCents(2 * quote.offer);
    let midpoint = HalfCents(quote.bid + quote.offer);
    println!(rt; "quote {bid} by {offer}, midpoint {midpoint}")?;
    rt.println(heading(rt.alloc())?)?;
    let mut counts = Counts::default();
    for next in Reader::new(register) {
        match next {
            Ok(order) => counts.print_order(rt, order, quote)?,
            Err(fault) => println!(rt; "fault {fault}; the sheet ends here")?,
        }
    }
    let Counts { orders, refused } = counts;
    println!(rt; "{orders} orders, {refused} tickets refused")
}

fn lawful_quote(bid: u32, offer: u32) -> anyhow::Result<Quote> {
    Quote::new(bid, offer).map_err(|refusal| {
        let number = refusal.number();
        anyhow!("refused {number}: a quote needs 1 <= bid < offer <= 2000000, not {bid} by {offer}")
    })
}

/// The orders of the register that stands in the file.
pub(crate) fn print_sheet(
    rt: &HostRuntime,
    bid: u32,
    offer: u32,
    path: &str,
) -> anyhow::Result<()> {
    let quote = lawful_quote(bid, offer)?;
    let register = fs::read(rt, path).context(format_args!("cannot read {path}"))?;
    Ok(print_register(rt, quote, register.as_slice())?)
}
