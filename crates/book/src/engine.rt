//! What a book is made of: a directory, the market, the clock and the count of entries.
ghost use Rattle.std.specs.Prelude.{◌≡◌};
ghost use Rattle.book.specs.Running.{BookTied, Sound, book_of};
ghost use Rattle.book.specs.Carried.{Begun, Carried, Tidied, cancel_answer, entry_answer, quote_answer, time_and_tape};
ghost use Rattle.book.specs.Entering.{Entered, HasPlace, Ready, entry_test};
ghost use Rattle.market.specs.Changes.{AllRest};
ghost use Rattle.market.specs.Markets.{CanFollow, market_of};
ghost use Rattle.market.specs.Rows.{row_order};
ghost use Rattle.market.specs.Seen.{rows_of};
ghost use Rattle.rules.specs.Calls.{cancel as cancel_of, entry as entry_of, left_of, no_place, quote as quote_of, rested, swept_in};
ghost use Rattle.rules.specs.Clock.{at_time, settle};
ghost use Rattle.rules.specs.Market.{resting, with_orders, without};
ghost use Rattle.terms.specs.Made.{terms_of};
ghost use Rattle.terms.specs.declared.time_in_force.TimeInForce.TheVariants.{ImmediateOrCancel, Rest};

use directory::Directory;
use market::{Market, Row};
use rules::{LAST_MOMENT, MOST_ENTRIES, MOST_RESTING, Refusal};
use tape::Tape;
use terms::{Identifier, Quote, Terms, TimeInForce};

/// Between calls it is sound, as `Book` says; while a call runs it need not be.
#[derive(Drop)]
pub(crate) struct Engine<D: Directory, T: Tape> {
    pub(crate) directory: D,
    pub(crate) market: Market<T>,
    pub(crate) clock: u64,
    pub(crate) entries: u32,
}

impl<D: Directory, T: Tape> Engine<D, T> {
    /// The time must be of the day and not before the clock, and the tape must have as many free lines as orders rest.
    pub(crate) fn check(&self, time: u64) -> Result<(), Refusal>
        ensures { result ≡ time_and_tape (T.Tape.free self.now.market.tape) time (book_of T.Tape self.now) }
    {
        if time < self.clock || time > LAST_MOMENT {
            return Err(Refusal::Time);
        }
        let free = self.market.tape.free_lines();
        if !self.market.table.rests_at_most(free) {
            return Err(Refusal::TapeShort);
        }
        Ok(())
    }

    /// The start of every call.
    pub(crate) fn advance(&mut self, time: u64) -> Result<(), Refusal>
        requires { Sound D.Directory T.Tape self.old }
        ensures { Begun D.Directory T.Tape self.old self.new time result }
    {
        self.check(time)?;
        self.bring_to(time);
        Ok(())
    }

    /// Every period that is due has ended, at its own end, and what rests no more has left.
    pub(crate) fn bring_to(&mut self, time: u64)
        requires follows { CanFollow T.Tape self.old.market time (settle time) }
        requires rests { AllRest (rows_of self.old.market.table) }
        ensures book { book_of T.Tape self.new ≡ at_time time (book_of T.Tape self.old) }
        ensures tidied { Tidied D.Directory T.Tape self.old self.new }
    {
        self.clock = time;
        // mostly no period is due, and nobody leaves
        if self.market.due(time).is_none() {
            return;
        }
        self.market.settle(time);
        self.tidy();
    }

    /// Every row that is left rests; the directory still has the pairs of the rows, and the market is as it was.
    pub(crate) fn tidy(&mut self)
        ensures tidied { Tidied D.Directory T.Tape self.old self.new }
        ensures market { market_of T.Tape self.new.market ≡ market_of T.Tape self.old.market }
        ensures clock { self.new.clock ≡ self.old.clock }
        ensures entries { self.new.entries ≡ self.old.entries }
    {
        while let Some(identifier) = self.market.table.retire() {
            self.directory.remove(identifier.as_bytes());
        }
    }

    // In a full book only an IOC order may be entered, since it never rests.
    fn has_no_place(&self, terms: Terms) -> bool
        ensures { result ≡ no_place (terms_of terms) (market_of T.Tape self.now.market) }
    {
        terms.time_in_force == TimeInForce::Rest
            && !self.market.table.rests_at_most(MOST_RESTING - 1)
    }

    /// The entry number that the order gets; the refusals are those that come once the clock is at the entry's time.
    pub(crate) fn admit(&self, id: &[u8], terms: Terms) -> Result<u32, Refusal>
        requires tied { BookTied D.Directory self.now }
        requires rests { AllRest (rows_of self.now.market.table) }
        ensures { result ≡ entry_test id.now (terms_of terms) (book_of T.Tape self.now) }
    {
        if self.directory.find(id).is_some() {
            return Err(Refusal::NameTaken);
        }
        if self.has_no_place(terms) {
            return Err(Refusal::BookFull);
        }
        if self.entries >= MOST_ENTRIES {
            return Err(Refusal::EntriesSpent);
        }
        Ok(self.entries + 1)
    }

    /// The new order is swept, and what is left of it rests under its identifier.
    pub(crate) fn sweep_and_rest(&mut self, time: u64, row: Row) -> (u32, u32, u32)
        requires ready { Ready D.Directory T.Tape self.old time row }
        requires place { HasPlace D.Directory self.old row }
        ensures { Entered D.Directory T.Tape self.old self.new (rested Rest time row.number row.left (swept_in time (row_order row) (market_of T.Tape self.old.market))) result }
    {
        self.directory
            .put(row.identifier.as_bytes(), row.number)
            .unwrap();
        self.market.sweep_in(time, row);
        let left = self.shares_left(row.number);
        self.tidy();
        (row.number, row.left.saturating_sub(left), 0)
    }

    /// The new order is swept, and what is left of it lapses.
    pub(crate) fn sweep_and_lapse(&mut self, time: u64, row: Row) -> (u32, u32, u32)
        requires { Ready D.Directory T.Tape self.old time row }
        ensures { Entered D.Directory T.Tape self.old self.new (rested ImmediateOrCancel time row.number row.left (swept_in time (row_order row) (market_of T.Tape self.old.market))) result }
    {
        self.market.sweep_in(time, row);
        let left = self.shares_left(row.number);
        self.market.table.drop_newest();
        self.tidy();
        (row.number, row.left.saturating_sub(left), left)
    }

    /// The number of the order that the terms make, how many of its shares traded, and how many lapsed.
    pub(crate) fn enter_terms(
        &mut self,
        time: u64,
        id: &[u8],
        terms: Terms,
    ) -> Result<(u32, u32, u32), Refusal>
        requires { Sound D.Directory T.Tape self.old }
        ensures { Carried D.Directory T.Tape self.old self.new (entry_of time id.now (terms_of terms)) (entry_answer result) }
    {
        let identifier = Identifier::new(id).ok_or(Refusal::Identifier)?;
        self.advance(time)?;
        let number = self.admit(id, terms)?;
        self.entries = number;
        let row = Row {
            identifier,
            number,
            terms,
            left: terms.shares,
        };
        Ok(match terms.time_in_force {
            TimeInForce::Rest => self.sweep_and_rest(time, row),
            TimeInForce::ImmediateOrCancel => self.sweep_and_lapse(time, row),
        })
    }

    /// The shares left of the order with that entry number; 0 where it does not rest.
    pub(crate) fn shares_left(&self, number: u32) -> u32
        ensures { result ≡ left_of (resting number (market_of T.Tape self.now.market).orders) }
    {
        self.market.table.row(number).map_or(0, |row| row.left)
    }

    // The order with that entry number leaves, and its shares are told; 0 where it does not rest.
    fn take_out(&mut self, number: u32) -> u32
        ensures shares { result ≡ left_of (resting number (market_of T.Tape self.old.market).orders) }
        ensures market { market_of T.Tape self.new.market ≡ with_orders (without number (market_of T.Tape self.old.market).orders) (market_of T.Tape self.old.market) }
        ensures tidied { Tidied D.Directory T.Tape self.old self.new }
        ensures clock { self.new.clock ≡ self.old.clock }
        ensures entries { self.new.entries ≡ self.old.entries }
    {
        let left = self.shares_left(number);
        self.market.table.leave(number);
        self.tidy();
        left
    }

    pub(crate) fn cancel(&mut self, time: u64, id: &[u8]) -> Result<u32, Refusal>
        requires { Sound D.Directory T.Tape self.old }
        ensures { Carried D.Directory T.Tape self.old self.new (cancel_of time id.now) (cancel_answer result) }
    {
        let identifier = Identifier::new(id).ok_or(Refusal::Identifier)?;
        self.advance(time)?;
        // Looked up once the clock is at the cancel's time, since the order may have left by then.
        let Some(number) = self.directory.find(identifier.as_bytes()) else {
            return Err(Refusal::NoSuchOrder);
        };
        Ok(self.take_out(number))
    }

    pub(crate) fn quote(&mut self, time: u64, quote: Quote) -> Result<(), Refusal>
        requires { Sound D.Directory T.Tape self.old }
        ensures { Carried D.Directory T.Tape self.old self.new (quote_of time quote.bid quote.offer) (quote_answer result) }
    {
        self.advance(time)?;
        self.market.requote(time, quote);
        self.tidy();
        Ok(())
    }
}
