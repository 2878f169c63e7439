ghost use Rattle.std.specs.Fmt.{padded};
ghost use Rattle.std.specs.Prelude.{Some, ◌≡◌};
ghost use Rattle.book.specs.Words.{open_refusal_words};
ghost use Rattle.book.specs.declared.refusal.OpenRefusal.TheVariants.{NoMemory};
ghost use Rattle.rules.specs.Words.{refusal_words};

use rules::Refusal;
use std::alloc::AllocError;
use std::error::Error;
use std::fmt;
use terms::Ticket;

/// A refused entry hands its ticket back.
#[derive(Debug, Drop)]
pub struct Rejected {
    pub ticket: Ticket,
    pub why: Refusal,
}

/// Why a book is not opened.
#[derive(Clone, Copy, PartialEq, Eq, Debug, Drop)]
pub enum OpenRefusal {
    /// the tape already has lines
    TapeUsed,
    NoMemory,
}

/// A book that is not opened hands directory and tape back, as they were.
#[derive(Drop)]
#[derive_where(Debug)]
pub struct NotOpened<D, T> {
    #[derive_where(skip)]
    pub directory: D,
    #[derive_where(skip)]
    pub tape: T,
    pub why: OpenRefusal,
}

impl From<Rejected> for Refusal {
    ghost from_gives = { λ r why. why ≡ r.why };

    fn from(rejected: Rejected) -> Refusal {
        rejected.why
    }
}

impl<D: Drop, T: Drop> From<NotOpened<D, T>> for OpenRefusal {
    ghost from_gives = { λ n why. why ≡ n.why };

    fn from(not_opened: NotOpened<D, T>) -> OpenRefusal {
        not_opened.why
    }
}

impl From<AllocError> for OpenRefusal {
    ghost from_gives = { λ _ why. why ≡ NoMemory };

    fn from(_: AllocError) -> OpenRefusal {
        OpenRefusal::NoMemory
    }
}

impl fmt::Display for Rejected {
    ghost output = { λ e. Some (refusal_words e.why) };

    ghost styled_output = { λ e spec. Some (padded spec (refusal_words e.why)) };

    fn fmt<W: fmt::Write>(&self, f: &mut fmt::Formatter<W>) -> fmt::Result {
        fmt::Display::fmt(&self.why, f)
    }
}

impl fmt::Display for OpenRefusal {
    ghost output = { λ why. Some (open_refusal_words why) };

    ghost styled_output = { λ why spec. Some (padded spec (open_refusal_words why)) };

    fn fmt<W: fmt::Write>(&self, f: &mut fmt::Formatter<W>) -> fmt::Result {
        f.pad(match self {
            OpenRefusal::TapeUsed => "tape already has lines",
            OpenRefusal::NoMemory => "no memory",
        })
    }
}

impl<D, T> fmt::Display for NotOpened<D, T> {
    ghost output = { λ e. Some (open_refusal_words e.why) };

    ghost styled_output = { λ e spec. Some (padded spec (open_refusal_words e.why)) };

    fn fmt<W: fmt::Write>(&self, f: &mut fmt::Formatter<W>) -> fmt::Result {
        fmt::Display::fmt(&self.why, f)
    }
}

impl Error for Rejected {}

impl Error for OpenRefusal {}

impl<D: Drop, T: Drop> Error for NotOpened<D, T> {}
