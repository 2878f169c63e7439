//! What a book is opened on.
ghost use Rattle.std.specs.Prelude.{MatchResult, [], ◌≡◌};
ghost use Rattle.book.specs.Opening.{Because};
ghost use Rattle.market.specs.Seen.{quote_of, rows_of, seen};
ghost use Rattle.rules.specs.Runs.{opened};

use crate::book::Book;
use crate::engine::Engine;
use crate::refusal::{NotOpened, OpenRefusal};
use directory::Directory;
use market::{Market, Table};
use std::alloc::Global;
use tape::Tape;
use terms::Quote;

/// A directory and an empty tape, both as they were handed over, and all memory that the book will ever use.
#[derive(Drop)]
pub(crate) struct Prepared<D: Directory, T: Tape> {
    pub(crate) directory: D,
    pub(crate) tape: T,
    pub(crate) table: Table,
    ghost unused: { T.Tape.lines tape ≡ [] },
    ghost no_rows: { rows_of table ≡ [] },
    ghost fresh: { seen table ≡ (opened (quote_of table).bid (quote_of table).offer).market },
}

// The table of a new book, if the tape is empty.
fn table_for<T: Tape>(heap: Global, quote: Quote, tape: &T) -> Result<Table, OpenRefusal>
    ensures { MatchResult result
        (λ table. (T.Tape.lines tape.now ≡ []) × (rows_of table ≡ []) × (quote_of table ≡ quote) × (seen table ≡ (opened quote.bid quote.offer).market))
        (λ why. Because T.Tape tape.now why) }
{
    if tape.len() > 0 {
        return Err(OpenRefusal::TapeUsed);
    }
    Ok(Table::open(heap, quote)?)
}

impl<D: Directory, T: Tape> Prepared<D, T> {
    ghost use Rattle.book.specs.Opening.{HandedBack};
    ghost use Rattle.book.specs.Preparing.{PreparedOn};
    ghost use Rattle.book.specs.Running.{new_on};

    /// All memory is had here. A tape that has lines is refused before memory is asked for.
    pub(crate) fn new(
        heap: Global,
        quote: Quote,
        directory: D,
        tape: T,
    ) -> Result<Prepared<D, T>, NotOpened<D, T>>
        ensures { MatchResult result
            (λ p. PreparedOn quote directory tape p)
            (λ e. HandedBack T.Tape directory tape e) }
    {
        match table_for(heap, quote, &tape) {
            Ok(table) => Ok(Prepared {
                directory,
                tape,
                table,
            }),
            Err(why) => Err(NotOpened {
                directory,
                tape,
                why,
            }),
        }
    }

    /// Directory and tape as they were, where no book is to be opened after all.
    pub(crate) fn hand_back(self) -> (D, T)
        ensures directory { result.0 ≡ self.directory }
        ensures tape { result.1 ≡ self.tape }
    {
        (self.directory, self.tape)
    }

    /// The directory is emptied. Everything is had, so that this cannot fail.
    pub(crate) fn open(self) -> Book<D, T>
        ensures { result ≡ new_on (T.Tape.free self.tape) (quote_of self.table).bid (quote_of self.table).offer }
    {
        let Prepared {
            mut directory,
            tape,
            table,
        } = self;
        directory.clear();
        let engine = Engine {
            directory,
            market: Market { table, tape },
            clock: 0,
            entries: 0,
        };
        Book { engine }
    }
}
