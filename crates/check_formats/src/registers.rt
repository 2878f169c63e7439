//! Registers in hexadecimal on standard input, one a line: for each the orders that a reader finds, and its fault.
use anyhow::Context;
use register::{Listed, Reader};
use std::alloc::{AllocError, Global};
use std::io;
use std::io::{BufRead, BufReader};

fn byte_in(pair: &[u8]) -> Option<u8> {
    let [high, low] = pair else {
        return None;
    };
    let high = char::from(*high).to_digit(16)?;
    let low = char::from(*low).to_digit(16)?;
    Some((16 * high + low) as u8)
}

// The bytes that are written as pairs of hexadecimal digits, parted by blanks; nothing where the text is not of that form.
fn bytes_in(heap: Global, text: &str) -> Result<Option<Vec<u8>>, AllocError> {
    let mut all = Vec::new(heap);
    for pair in text.split_whitespace() {
        let Some(b) = byte_in(pair.as_bytes()) else {
            return Ok(None);
        };
        all.push(b)?;
    }
    Ok(Some(all))
}

fn print_order(rt: &HostRuntime, order: Listed<'_>) -> io::Result<()> {
    let place = order.place;
    let at = order.identifier.place;
    let bytes = order.identifier.bytes.len();
    let d = order.draft;
    print!(rt;
        "  order at {place}, identifier at {at} of {bytes} bytes, codes {} {} {} {}",
        d.side, d.kind, d.time_in_force, d.qdp
    )?;
    println!(rt;
        ", shares {}, limit {}, offset {}",
        d.shares, d.limit, d.offset
    )?;
    if let Err(fault) = order.ticket() {
        println!(rt; "  ticket refused {fault}")?;
    }
    Ok(())
}

fn print_register(rt: &HostRuntime, register: &[u8]) -> io::Result<()> {
    let size = register.len();
    println!(rt; "{size} bytes")?;
    for next in Reader::new(register) {
        match next {
            Ok(order) => print_order(rt, order)?,
            Err(fault) => println!(rt; "  fault {fault}")?,
        }
    }
    Ok(())
}

/// Nothing is compared, so that nothing differs.
pub(crate) fn answer(rt: &HostRuntime) -> anyhow::Result<bool> {
    let heap = rt.alloc();
    for line in BufReader::new(heap, rt.stdin())?.lines(heap) {
        let line = line.context("cannot read standard input")?;
        if line.as_str().starts_with('#') {
            rt.println(line)?;
        } else {
            match bytes_in(heap, line.as_str())? {
                Some(register) => print_register(rt, register.as_slice())?,
                None => rt.println("not pairs of hexadecimal digits")?,
            }
        }
    }
    Ok(true)
}
