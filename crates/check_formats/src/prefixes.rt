//! Every prefix and every one-byte change of a stored register, each loaded into new books, and what became of them.
use crate::tally::Tally;
use anyhow::Context;
use std::alloc::Global;
use terms::Quote;

// Four orders, one field to a line: A1, with an offset; BROKER7-20261117-001, with a short name; BAD, whose ticket is refused,
// since it is for no shares; and A1 again, which the book refuses, since that identifier rests already.
const REGISTER: &[u8; 143] = b"\
\x01\x00\x02A1\
\x02\x00\x04\x01\x04\x01\x01\
\x03\x00\x04\x00\x00\x00\xc8\
\x04\x00\x04\x00\x00\x03\xe9\
\x05\x00\x02\xff\xff\
\x01\x00\x14BROKER7-20261117-001\
\x06\x00\x0cBROKER7-2026\
\x02\x00\x04\x01\x01\x01\x00\
\x03\x00\x04\x00\x00\x00\x64\
\x04\x00\x04\x00\x00\x03\xe8\
\x01\x00\x03BAD\
\x02\x00\x04\x02\x02\x01\x00\
\x03\x00\x04\x00\x00\x00\x00\
\x04\x00\x04\x00\x00\x03\xe9\
\x01\x00\x02A1\
\x02\x00\x04\x02\x02\x01\x00\
\x03\x00\x04\x00\x00\x00\x64\
\x04\x00\x04\x00\x00\x03\xea";

fn prefixes(heap: Global, quote: Quote, places: usize) -> anyhow::Result<Tally> {
    let mut tally = Tally::default();
    let register = *REGISTER;
    for end in 0..=register.len() {
        tally.try_register(heap, quote, &register[0..end], places)?;
    }
    Ok(tally)
}

fn changes(heap: Global, quote: Quote, places: usize) -> anyhow::Result<Tally> {
    let mut tally = Tally::default();
    // by place, since the byte of a copy is changed there
    for place in 0..REGISTER.len() {
        for by in 1..=255u8 {
            let mut register = *REGISTER;
            register[place] = register[place].wrapping_add(by);
            tally.try_register(heap, quote, &register, places)?;
        }
    }
    Ok(tally)
}

/// True where the makes agree on every load.
pub(crate) fn answer(rt: &HostRuntime) -> anyhow::Result<bool> {
    let heap = rt.alloc();
    let quote = Quote::new(1000, 1001).ok().context("no quote")?;
    let mut alike = true;
    for places in [4, 1] {
        let cut = prefixes(heap, quote, places)?;
        let changed = changes(heap, quote, places)?;
        println!(rt; "places for slips: {places}")?;
        println!(rt; "  prefixes: {cut}")?;
        println!(rt; "  one byte changed: {changed}")?;
        alike = alike && cut.alike() && changed.alike();
    }
    Ok(alike)
}
