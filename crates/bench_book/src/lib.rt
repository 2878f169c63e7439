//! A whole list of calls on a new book, for callers that measure how fast it is.
#![tactic(auto)]

ghost use Rattle.std.specs.Prelude.{IfSome, length, ◌*◌, ◌/◌, ◌≡◌, ◌≤◌, ◌⊎◌};
ghost use Rattle.tape.specs.Layout.{line_length};
ghost use Rattle.bench_book.specs.Numbers.{MadeFirst, Ran, no_book};

mod asked;
mod told;

use asked::Asked;
use book::Book;
use directory::{Directory, RowDirectory};
use std::alloc::Global;
use tape::{ByteTape, Tape};
use terms::Quote;
use told::{Told, answer};

// Told in the place of a count of lines where no book is opened.
const NO_BOOK: usize = usize::MAX;

// Each call is made, and its answer written at the same place.
fn make_all<D: Directory, T: Tape>(book: &mut Book<D, T>, calls: &[Asked], answers: &mut [Told])
    requires { length calls.now ≤ length answers.old }
    ensures { MadeFirst (length calls.now) book.old book.new calls.now answers.new }
{
    for index in 0..calls.len() {
        answers[index] = answer(book, &calls[index]);
    }
}

// How many lines are written; None where memory is wanting, or the tape has lines.
fn run_on<T: Tape + Drop>(
    heap: Global,
    quote: Quote,
    tape: T,
    calls: &[Asked],
    answers: &mut [Told],
) -> Option<usize>
    requires { length calls.now ≤ length answers.old }
    ensures { IfSome result (λ lines. Ran (T.Tape.free tape) quote.bid quote.offer calls.now answers.new lines) }
{
    let directory = RowDirectory::new(heap).ok()?;
    let mut book = Book::open(heap, quote, directory, tape).ok()?;
    make_all(&mut book, calls, answers);
    Some(book.lines())
}

/// A book is opened on a tape over the lent bytes, 43 to a line, and the calls are made on it. Told is how many lines are
/// written; the highest number where no book is opened, as the quote is refused, memory is wanting, or there are fewer places
/// for answers than calls.
#[unsafe(no_mangle)]
pub extern "C" fn bench_book_run(
    heap: Global,
    bid: u32,
    offer: u32,
    calls: &[Asked],
    answers: &mut [Told],
    room: &mut [u8],
) -> usize
    ensures { (result ≡ no_book) ⊎ Ran (length room.old / line_length) bid offer calls.now answers.new result }
{
    let Ok(quote) = Quote::new(bid, offer) else {
        return NO_BOOK;
    };
    if answers.len() < calls.len() {
        return NO_BOOK;
    }
    let tape = ByteTape::new(room);
    run_on(heap, quote, tape, calls, answers).unwrap_or(NO_BOOK)
}
