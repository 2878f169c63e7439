//! A call, and what is answered to it.
use rules::Refusal;
use std::alloc::{AllocError, Global};
use terms::{Quote, Ticket};

/// A call with all that it hands over; times are microseconds since midnight.
#[derive(Drop)]
pub enum Call {
    Entry {
        time: u64,
        id: Vec<u8>,
        ticket: Ticket,
    },
    Cancel {
        time: u64,
        id: Vec<u8>,
    },
    Quote {
        time: u64,
        quote: Quote,
    },
    Tick {
        time: u64,
    },
}

impl Call {
    ghost use Rattle.std.specs.Prelude.{IfOk, [], false, true, ◌∷◌, ◌≡◌};
    ghost use Rattle.book.specs.Told.{call_of};
    ghost use Rattle.rules.specs.Calls.{time_of};
    ghost use Rattle.rules.specs.WholeDay.{shared};

    pub fn time(&self) -> u64
        ensures { result ≡ time_of (call_of self.now) }
    {
        match self {
            Call::Entry { time, .. }
            | Call::Cancel { time, .. }
            | Call::Quote { time, .. }
            | Call::Tick { time } => *time,
        }
    }

    /// Of a list of calls, all but the ticks are shared.
    pub fn is_tick(&self) -> bool
        ensures { shared (call_of self.now ∷ []) ≡ elim result [ true ↦ [] | false ↦ call_of self.now ∷ [] ] }
    {
        matches!(self, Call::Tick { .. })
    }

    /// The same call once more. A ticket is never copied, so that a call has no Clone.
    pub fn again(&self, heap: Global) -> Result<Call, AllocError>
        ensures { IfOk result (λ c. call_of c ≡ call_of self.now) }
    {
        Ok(match self {
            Call::Entry { time, id, ticket } => Call::Entry {
                time: *time,
                id: id.as_slice().to_vec(heap)?,
                ticket: ticket.again(),
            },
            Call::Cancel { time, id } => Call::Cancel {
                time: *time,
                id: id.as_slice().to_vec(heap)?,
            },
            Call::Quote { time, quote } => Call::Quote {
                time: *time,
                quote: *quote,
            },
            Call::Tick { time } => Call::Tick { time: *time },
        })
    }
}

/// `number` is the entry number; `traded` and `lapsed` are shares.
#[derive(Clone, Copy, PartialEq, Eq, Debug, Drop)]
pub enum Answer {
    Entered {
        number: u32,
        traded: u32,
        lapsed: u32,
    },
    /// The shares that were left.
    Cancelled(u32),
    Quoted,
    Ticked,
    Refused(Refusal),
}
