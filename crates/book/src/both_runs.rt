ghost use Rattle.std.specs.Prelude.{IfErr, IfOk};
ghost use Rattle.rules.specs.WholeDay.{Law};
ghost use Rattle.book.specs.Replayed.{run_of};
ghost use Rattle.book.specs.Reran.{AllHandedBack, PlayedThrough};
ghost use Rattle.book.specs.Told.{calls_of};

use crate::call::Call;
use crate::played::{Played, Stage};
use crate::refusal::OpenRefusal;
use directory::Directory;
use std::alloc::Global;
use std::error::Error;
use std::fmt;
use tape::Tape;
use terms::Quote;

/// Two lists that were not played: both directories and both tapes, as they were.
#[derive(Drop)]
#[derive_where(Debug)]
pub struct NotRerun<D, T, E, U> {
    #[derive_where(skip)]
    pub directory: D,
    #[derive_where(skip)]
    pub tape: T,
    #[derive_where(skip)]
    pub other_directory: E,
    #[derive_where(skip)]
    pub other_tape: U,
    pub why: OpenRefusal,
}

impl<D, T, E, U> fmt::Display for NotRerun<D, T, E, U> {
    ghost use Rattle.std.specs.Fmt.{padded};
    ghost use Rattle.std.specs.Prelude.{Some};
    ghost use Rattle.book.specs.Words.{open_refusal_words};

    ghost output = { λ e. Some (open_refusal_words e.why) };

    ghost styled_output = { λ e spec. Some (padded spec (open_refusal_words e.why)) };

    fn fmt<W: fmt::Write>(&self, f: &mut fmt::Formatter<W>) -> fmt::Result {
        fmt::Display::fmt(&self.why, f)
    }
}

impl<D: Drop, T: Drop, E: Drop, U: Drop> Error for NotRerun<D, T, E, U> {}

/// Two lists of calls, each on a new book at the quote, with directories and tapes of any makes. The law of whole days holds of
/// whatever comes out: ticks cannot change who trades, the tape explains discretion, and neither book stands crossed.
/// It fails for want of memory or at a tape that has lines. All memory is had before either book is opened, so that all four
/// come back as they were.
pub fn rerun<D: Directory, T: Tape, E: Directory, U: Tape>(
    heap: Global,
    quote: Quote,
    directory: D,
    tape: T,
    calls: &[Call],
    other_directory: E,
    other_tape: U,
    other_calls: &[Call],
) -> Result<(Played<D, T>, Played<E, U>), NotRerun<D, T, E, U>>
    ensures first { IfOk result (λ p. PlayedThrough T.Tape quote.bid quote.offer tape calls.now p.0) }
    ensures second { IfOk result (λ p. PlayedThrough U.Tape quote.bid quote.offer other_tape other_calls.now p.1) }
    ensures law { IfOk result (λ p. Law (calls_of calls.now) (run_of p.0.answers.items p.0.book) (calls_of other_calls.now) (run_of p.1.answers.items p.1.book)) }
    ensures handed_back { IfErr result (λ e. AllHandedBack T.Tape U.Tape directory tape other_directory other_tape e) }
{
    let first = match Stage::new(heap, quote, directory, tape, calls) {
        Ok(stage) => stage,
        Err(first) => {
            return Err(NotRerun {
                directory: first.directory,
                tape: first.tape,
                other_directory,
                other_tape,
                why: first.why,
            });
        }
    };
    let second = match Stage::new(heap, quote, other_directory, other_tape, other_calls) {
        Ok(stage) => stage,
        Err(second) => {
            let (directory, tape) = first.book.hand_back();
            return Err(NotRerun {
                directory,
                tape,
                other_directory: second.directory,
                other_tape: second.tape,
                why: second.why,
            });
        }
    };
    Ok((first.play(calls), second.play(other_calls)))
}
