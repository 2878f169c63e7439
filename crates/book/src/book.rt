ghost use Rattle.std.specs.Option.{option_map};
ghost use Rattle.std.specs.Prelude.{IfErr, MatchOption, MatchResult, None, [], length, map, ◌+◌, ◌≡◌};
ghost use Rattle.book.specs.Carried.{cancel_answer, cancel_numbers, entry_numbers, entry_told, plain_numbers, quote_answer, tick_answer};
ghost use Rattle.book.specs.Closing.{DistinctNames, HasPairsOf};
ghost use Rattle.book.specs.Explaining.{Explained};
ghost use Rattle.book.specs.Opening.{HandedBack};
ghost use Rattle.book.specs.Running.{Reached, after, answer_to, new_on, told_of};
ghost use Rattle.market.specs.Meant.{figures_as, standing_as};
ghost use Rattle.market.specs.Rows.{row_order};
ghost use Rattle.roll.specs.Rolls.{at_place};
ghost use Rattle.rules.specs.Calls.{cancel as cancel_of, entry as entry_of, named, quote as quote_of, tick as tick_of};
ghost use Rattle.rules.specs.Growth.{TapeGrows};
ghost use Rattle.rules.specs.WholeDay.{DiscretionExplained, Uncrossed};
ghost use Rattle.rules.specs.Questions.{Answered, closing};
ghost use Rattle.terms.specs.Made.{ticket_terms};

use crate::engine::Engine;
use crate::prepared::Prepared;
use crate::refusal::{NotOpened, Rejected};
use directory::Directory;
use market::{Figures, Market, Row, Standing, Why, ask, explain, figures_of};
use rules::Refusal;
use std::alloc::Global;
use std::marker::Model;
use tape::{Line, Tape};
use terms::{Quote, Ticket};

/// `open` makes it sound, and every call keeps it so.
#[derive(Drop)]
pub struct Book<D: Directory, T: Tape> {
    pub(crate) engine: Engine<D, T>,
}

/// Why an order reaches as far as it does; both prices in half-cents: the one at which the order stands, and the one up to which it
/// trades.
#[derive(Clone, Copy, PartialEq, Eq, Debug, Drop)]
pub struct Explanation {
    pub ranked: u32,
    pub reach: u32,
    pub why: Why,
}

impl<D: Directory, T: Tape> Model for Book<D, T> {
    ghost use Rattle.book.specs.Running.{Running, Sound, running};

    ghost Value = { Running };

    ghost view = { λ b. running T.Tape b.engine };

    ghost invariant = { λ b. Sound D.Directory T.Tape b.engine };
}

impl<D: Directory, T: Tape> Book<D, T> {
    /// A book with nothing in it, on an emptied directory and an empty tape.
    pub fn open(
        heap: Global,
        quote: Quote,
        directory: D,
        tape: T,
    ) -> Result<Book<D, T>, NotOpened<D, T>>
        ensures { MatchResult result
            (λ b. (T.Tape.lines tape ≡ []) × (b ≡ new_on (T.Tape.free tape) quote.bid quote.offer))
            (λ e. HandedBack T.Tape directory tape e) }
    {
        Ok(Prepared::new(heap, quote, directory, tape)?.open())
    }

    /// A ticket is moved in: it is spent, or handed back with the refusal, any but NoSuchOrder. Told are the entry number, how
    /// many shares traded, and how many lapsed.
    pub fn enter(
        &mut self,
        time: u64,
        id: &[u8],
        ticket: Ticket,
    ) -> Result<(u32, u32, u32), Rejected>
        ensures answer { entry_told result ≡ answer_to self.old (entry_of time id.now (ticket_terms ticket)) }
        ensures told { entry_numbers result ≡ told_of self.old (entry_of time id.now (ticket_terms ticket)) }
        ensures book { self.new ≡ after self.old (entry_of time id.now (ticket_terms ticket)) }
        ensures grows { TapeGrows self.old.book self.new.book }
        ensures handed_back { IfErr result (λ e. e.ticket ≡ ticket) }
    {
        let terms = ticket.terms();
        let entered = self.engine.enter_terms(time, id, terms);
        entered.map_err(|why| Rejected { ticket, why })
    }

    /// The shares that were left of the order that the identifier names. Refused as Identifier, Time, TapeShort or NoSuchOrder.
    pub fn cancel(&mut self, time: u64, id: &[u8]) -> Result<u32, Refusal>
        ensures answer { cancel_answer result ≡ answer_to self.old (cancel_of time id.now) }
        ensures told { cancel_numbers result ≡ told_of self.old (cancel_of time id.now) }
        ensures book { self.new ≡ after self.old (cancel_of time id.now) }
        ensures grows { TapeGrows self.old.book self.new.book }
    {
        self.engine.cancel(time, id)
    }

    /// The quote is replaced, and the orders that follow it are swept. Refused as Time or TapeShort.
    pub fn quote(&mut self, time: u64, quote: Quote) -> Result<(), Refusal>
        ensures answer { quote_answer result ≡ answer_to self.old (quote_of time quote.bid quote.offer) }
        ensures told { plain_numbers result ≡ told_of self.old (quote_of time quote.bid quote.offer) }
        ensures book { self.new ≡ after self.old (quote_of time quote.bid quote.offer) }
        ensures grows { TapeGrows self.old.book self.new.book }
    {
        self.engine.quote(time, quote)
    }

    /// Refused as Time or TapeShort.
    pub fn tick(&mut self, time: u64) -> Result<(), Refusal>
        ensures answer { tick_answer result ≡ answer_to self.old (tick_of time) }
        ensures told { plain_numbers result ≡ told_of self.old (tick_of time) }
        ensures book { self.new ≡ after self.old (tick_of time) }
        ensures grows { TapeGrows self.old.book self.new.book }
    {
        self.engine.advance(time)
    }

    /// What stands on a side, told by its code (1 buy, 2 sell), at a place in rank, from 1; None where nothing does.
    pub fn ask(&self, side: u8, place: usize) -> Option<Standing>
        ensures { Answered self.now.book.market side place (option_map standing_as result) }
    {
        ask(&self.engine.market.table, side, place)
    }

    /// Why the resting order that the identifier names reaches as far as it does; None where it names none.
    pub fn why(&self, id: &[u8]) -> Option<Explanation>
        ensures { MatchOption result
            (named id.now self.now.book.market.orders ≡ None)
            (λ e. Explained self.now.book id.now e) }
    {
        let engine = &self.engine;
        let table = &engine.market.table;
        let number = engine.directory.find(id)?;
        let row = table.row(number)?;
        Some(Explanation {
            ranked: table.ranked(&row),
            reach: table.reach(&row),
            why: explain(&engine.market, &row),
        })
    }

    /// The rows of the orders that rest, lowest entry number first. Some run of calls leads to the book; so the tape explains the
    /// discretion of each MDO among them, and no buy reaches a sell.
    pub fn resting_orders(&self) -> &[Row]
        ensures rows { map row_order result.now ≡ self.now.book.market.orders }
        ensures reached { Reached self.now }
        ensures explained { DiscretionExplained self.now.book }
        ensures never_crossed { Uncrossed self.now.book.market }
        ensures distinct { DistinctNames self.now.book.market.orders }
    {
        self.engine.market.table.rows()
    }

    /// How many lines stand on the tape.
    pub fn lines(&self) -> usize
        ensures { result ≡ length self.now.book.market.tape }
    {
        self.engine.market.tape.len()
    }

    /// The line at a place of the tape, the oldest at 1.
    pub fn line(&self, place: usize) -> Option<Line>
        ensures { result ≡ at_place self.now.book.market.tape place }
    {
        self.engine.market.tape.read(place)
    }

    /// The book is no more; its figures are told, and directory and tape handed back.
    pub fn close(self) -> (Figures, D, T)
        ensures figures { figures_as result.0 ≡ closing self.book.market }
        ensures names { HasPairsOf self.book.market.orders (D.Directory.number result.1) (D.Directory.count result.1) }
        ensures lines { T.Tape.lines result.2 ≡ self.book.market.tape }
        ensures room { length (T.Tape.lines result.2) + T.Tape.free result.2 ≡ self.room }
    {
        let Engine {
            directory,
            market,
            ..
        } = self.engine;
        let Market { table, tape } = market;
        (figures_of(&table), directory, tape)
    }
}
