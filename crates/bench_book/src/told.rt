//! An answer in numbers.
ghost use Rattle.std.specs.Prelude.{Ok, [], ◌∷◌, ◌≡◌};
ghost use Rattle.book.specs.Running.{after, told_of};
ghost use Rattle.rules.specs.Calls.{cancel as cancel_of, entry as entry_of, quote as quote_of, tick as tick_of};
ghost use Rattle.terms.specs.Made.{ticket_terms};
ghost use Rattle.terms.specs.Judging.{quote_from, ticket_from};
ghost use Rattle.bench_book.specs.Numbers.{call_from, draft_of, entry_from, identifier_of, in_numbers, left_by, quoted_from, refused_by, told_by};

use crate::asked::Asked;
use book::Book;
use directory::Directory;
use tape::Tape;
use terms::{Quote, Ticket};

/// The refusal's number, or 0 and the values of what was done.
#[repr(C)]
#[derive(Clone, Copy, Drop)]
pub struct Told {
    pub number: u32,
    pub values: [u32; 3],
}

// The refusal of numbers that are no kind of call; no refusal of the book has it.
const UNKNOWN: u32 = 255;

fn done(first: u32, second: u32, third: u32) -> Told
    ensures { result ≡ record { number = 0; values = first ∷ second ∷ third ∷ [] } }
{
    Told {
        number: 0,
        values: [first, second, third],
    }
}

fn refused(number: u32) -> Told
    ensures { result ≡ refused_by number }
{
    Told {
        number,
        values: [0, 0, 0],
    }
}

fn enter<D: Directory, T: Tape>(book: &mut Book<D, T>, time: u64, id: &[u8], ticket: Ticket) -> Told
    ensures told { result ≡ in_numbers (told_of book.old (entry_of time id.now (ticket_terms ticket))) }
    ensures book { book.new ≡ after book.old (entry_of time id.now (ticket_terms ticket)) }
{
    match book.enter(time, id, ticket) {
        Ok((number, traded, lapsed)) => done(number, traded, lapsed),
        Err(rejected) => refused(u32::from(rejected.why.number())),
    }
}

fn cancel<D: Directory, T: Tape>(book: &mut Book<D, T>, time: u64, id: &[u8]) -> Told
    ensures told { result ≡ in_numbers (told_of book.old (cancel_of time id.now)) }
    ensures book { book.new ≡ after book.old (cancel_of time id.now) }
{
    match book.cancel(time, id) {
        Ok(left) => done(left, 0, 0),
        Err(why) => refused(u32::from(why.number())),
    }
}

fn quote<D: Directory, T: Tape>(book: &mut Book<D, T>, time: u64, quote: Quote) -> Told
    ensures told { result ≡ in_numbers (told_of book.old (quote_of time quote.bid quote.offer)) }
    ensures book { book.new ≡ after book.old (quote_of time quote.bid quote.offer) }
{
    match book.quote(time, quote) {
        Ok(()) => done(0, 0, 0),
        Err(why) => refused(u32::from(why.number())),
    }
}

fn tick<D: Directory, T: Tape>(book: &mut Book<D, T>, time: u64) -> Told
    ensures told { result ≡ in_numbers (told_of book.old (tick_of time)) }
    ensures book { book.new ≡ after book.old (tick_of time) }
{
    match book.tick(time) {
        Ok(()) => done(0, 0, 0),
        Err(why) => refused(u32::from(why.number())),
    }
}

// An entry, if the numbers make a ticket.
fn enter_asked<D: Directory, T: Tape>(book: &mut Book<D, T>, call: &Asked) -> Told
    ensures told { result ≡ told_by book.old (entry_from call.now.time (identifier_of call.now) (ticket_from (draft_of call.now))) }
    ensures book { book.new ≡ left_by book.old (entry_from call.now.time (identifier_of call.now) (ticket_from (draft_of call.now))) }
{
    match Ticket::new(call.draft()) {
        Ok(ticket) => enter(book, call.time, call.identifier(), ticket),
        Err(why) => refused(u32::from(why.number())),
    }
}

// A quote, if the numbers make one.
fn quote_asked<D: Directory, T: Tape>(book: &mut Book<D, T>, call: &Asked) -> Told
    ensures told { result ≡ told_by book.old (quoted_from call.now.time (quote_from call.now.bid call.now.offer)) }
    ensures book { book.new ≡ left_by book.old (quoted_from call.now.time (quote_from call.now.bid call.now.offer)) }
{
    match Quote::new(call.bid, call.offer) {
        Ok(prices) => quote(book, call.time, prices),
        Err(why) => refused(u32::from(why.number())),
    }
}

/// What the book answers to the call.
pub(crate) fn answer<D: Directory, T: Tape>(book: &mut Book<D, T>, call: &Asked) -> Told
    ensures told { result ≡ told_by book.old (call_from call.now) }
    ensures book { book.new ≡ left_by book.old (call_from call.now) }
{
    match call.what {
        1 => enter_asked(book, call),
        2 => cancel(book, call.time, call.identifier()),
        3 => quote_asked(book, call),
        4 => tick(book, call.time),
        _ => refused(UNKNOWN),
    }
}
