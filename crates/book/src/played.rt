ghost use Rattle.std.specs.Prelude.{MatchResult, [], length, vec_capacity, ◌≡◌, ◌≤◌};
ghost use Rattle.book.specs.Opening.{HandedBack};
ghost use Rattle.book.specs.Replayed.{Followed};
ghost use Rattle.book.specs.Reran.{PlayedThrough, StagedFor};
ghost use Rattle.book.specs.Running.{after, answer_to};
ghost use Rattle.book.specs.Told.{answer_of, call_of, told_of};
ghost use Rattle.market.specs.Seen.{quote_of};

use crate::book::Book;
use crate::call::{Answer, Call};
use crate::prepared::Prepared;
use crate::refusal::{NotOpened, OpenRefusal};
use directory::Directory;
use rules::Refusal;
use std::alloc::{AllocError, Global};
use tape::Tape;
use terms::Quote;

/// The answers, in the calls' order, and the book after them.
#[derive(Drop)]
pub struct Played<D: Directory, T: Tape> {
    pub answers: Vec<Answer>,
    pub book: Book<D, T>,
}

/// A book about to be opened, with room for the answers to a list of calls: all memory that opening the book and playing the calls takes has been had.
#[derive(Drop)]
pub(crate) struct Stage<D: Directory, T: Tape> {
    pub(crate) book: Prepared<D, T>,
    pub(crate) answers: Vec<Answer>,
}

impl<D: Directory, T: Tape> Stage<D, T> {
    /// A tape that has lines is refused before memory is asked for.
    pub(crate) fn new(
        heap: Global,
        quote: Quote,
        directory: D,
        tape: T,
        calls: &[Call],
    ) -> Result<Stage<D, T>, NotOpened<D, T>>
        ensures { MatchResult result
            (λ s. StagedFor quote directory tape calls.now s)
            (λ e. HandedBack T.Tape directory tape e) }
    {
        let book = Prepared::new(heap, quote, directory, tape)?;
        let Ok(answers) = Vec::with_capacity(heap, calls.len()) else {
            let (directory, tape) = book.hand_back();
            return Err(NotOpened {
                directory,
                tape,
                why: OpenRefusal::NoMemory,
            });
        };
        Ok(Stage { book, answers })
    }

    /// Opens the book and plays the calls on it, which cannot fail.
    pub(crate) fn play(self, calls: &[Call]) -> Played<D, T>
        requires none { self.answers.items ≡ [] }
        requires room { length calls.now ≤ vec_capacity self.answers }
        ensures { PlayedThrough T.Tape (quote_of self.book.table).bid (quote_of self.book.table).offer self.book.tape calls.now result }
    {
        let Stage { book, mut answers } = self;
        let mut book = book.open();
        answer_each(&mut book, calls, &mut answers);
        Played { answers, book }
    }
}

// What the book answers to the call, or why it refuses it. An entry is made by a second ticket, so that the first stays where
// it is.
fn answer_or_refuse<D: Directory, T: Tape>(
    book: &mut Book<D, T>,
    call: &Call,
) -> Result<Answer, Refusal>
    ensures answer { told_of result ≡ answer_to book.old (call_of call.now) }
    ensures book { book.new ≡ after book.old (call_of call.now) }
{
    Ok(match call {
        Call::Entry { time, id, ticket } => {
            let (number, traded, lapsed) = book.enter(*time, id, ticket.again())?;
            Answer::Entered {
                number,
                traded,
                lapsed,
            }
        }
        Call::Cancel { time, id } => Answer::Cancelled(book.cancel(*time, id)?),
        Call::Quote { time, quote } => {
            book.quote(*time, *quote)?;
            Answer::Quoted
        }
        Call::Tick { time } => {
            book.tick(*time)?;
            Answer::Ticked
        }
    })
}

/// The call is made, and its answer told; the list of calls stays as it is.
pub fn carry_out<D: Directory, T: Tape>(book: &mut Book<D, T>, call: &Call) -> Answer
    ensures answer { answer_of result ≡ answer_to book.old (call_of call.now) }
    ensures book { book.new ≡ after book.old (call_of call.now) }
{
    answer_or_refuse(book, call).unwrap_or_else(Answer::Refused)
}

/// Opens a book and plays the calls on it. Where memory is wanting or the tape has lines, directory and tape come back as they
/// were, and no call has been made: all memory is had before the book is opened.
pub fn play<D: Directory, T: Tape>(
    heap: Global,
    quote: Quote,
    directory: D,
    tape: T,
    calls: &[Call],
) -> Result<Played<D, T>, NotOpened<D, T>>
    ensures { MatchResult result
        (λ p. PlayedThrough T.Tape quote.bid quote.offer tape calls.now p)
        (λ e. HandedBack T.Tape directory tape e) }
{
    Ok(Stage::new(heap, quote, directory, tape, calls)?.play(calls))
}

/// The answers, in the calls' order, where there is room for all of them.
pub(crate) fn answer_each<D: Directory, T: Tape>(
    book: &mut Book<D, T>,
    calls: &[Call],
    answers: &mut Vec<Answer>,
)
    requires none { answers.old.items ≡ [] }
    requires room { length calls.now ≤ vec_capacity answers.old }
    ensures { Followed book.old book.new calls.now answers.new.items }
{
    for call in calls {
        answers.push_reserved(carry_out(book, call));
    }
}

/// The answers, in the calls' order. Room for all of them is had first; without it no call is made.
pub fn replay<D: Directory, T: Tape>(
    heap: Global,
    book: &mut Book<D, T>,
    calls: &[Call],
) -> Result<Vec<Answer>, AllocError>
    ensures { MatchResult result
        (λ v. Followed book.old book.new calls.now v.items)
        (λ _. book.new ≡ book.old) }
{
    let mut answers = Vec::with_capacity(heap, calls.len())?;
    answer_each(book, calls, &mut answers);
    Ok(answers)
}
