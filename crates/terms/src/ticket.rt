//! What an order says: the numbers that are handed over, and the ticket that they make, lawful by its type.
ghost use Rattle.std.specs.Prelude.{ok_or, true, ◌≡◌, ◌≤◌};
ghost use Rattle.terms.specs.Codes.{qdp_from};
ghost use Rattle.terms.specs.Judging.{aggressive, go_together, offset_in_range};
ghost use Rattle.terms.specs.Limits.{most_shares, top_price};

use crate::kind::Kind;
use crate::price::TOP_PRICE;
use crate::refusal::Refusal;
use crate::side::Side;
use crate::time_in_force::TimeInForce;

/// Most shares of an order.
pub const MOST_SHARES: u32 = 1_000_000;

/// In whole cents, up or down.
pub const FARTHEST_OFFSET: i32 = 100;

/// A ticket in numbers, as it comes in and before it is judged: codes, shares, cents.
#[derive(Clone, Copy, PartialEq, Eq, Debug, Drop)]
pub struct Draft {
    pub side: u8,
    pub kind: u8,
    pub time_in_force: u8,
    pub qdp: u8,
    pub shares: u32,
    pub limit: u32,
    pub offset: i32,
}

/// What an order says: 1 to 1,000,000 shares; limit (1 to 2,000,000) and offset (-100 to 100) in whole cents.
#[derive(Clone, Copy, Debug, Drop)]
pub struct Terms {
    pub side: Side,
    pub kind: Kind,
    pub time_in_force: TimeInForce,
    pub qdp: bool,
    pub shares: u32,
    pub limit: u32,
    pub offset: i32,
    ghost shares_lawful: { (1 ≤ shares) × (shares ≤ most_shares) },
    ghost limit_lawful: { (1 ≤ limit) × (limit ≤ top_price) },
    ghost offset_lawful: { offset_in_range offset ≡ true },
    ghost parts_lawful: { go_together side kind time_in_force qdp offset ≡ true },
}

/// One ticket, one entry: a ticket is moved into the book and never copied.
#[derive(Debug, Drop)]
pub struct Ticket {
    pub(crate) terms: Terms,
}

fn qdp_from_code(code: u8) -> Result<bool, Refusal>
    ensures { result ≡ ok_or (qdp_from code) Refusal.UnknownCode }
{
    match code {
        0 => Ok(false),
        1 => Ok(true),
        _ => Err(Refusal::UnknownCode),
    }
}

fn is_aggressive(side: Side, offset: i32) -> bool
    ensures { result ≡ aggressive side offset }
{
    match side {
        Side::Buy => offset > 0,
        Side::Sell => offset < 0,
    }
}

// The parts are those that `go_together` names, in its order.
fn parts_go_together(
    side: Side,
    kind: Kind,
    time_in_force: TimeInForce,
    qdp: bool,
    offset: i32,
) -> bool
    ensures { result ≡ go_together side kind time_in_force qdp offset }
{
    let ioc = time_in_force == TimeInForce::ImmediateOrCancel;
    let hidden_mdo = kind == Kind::HiddenMdo;
    (kind.is_mdo() || (offset == 0 && !qdp))
        && !(kind.is_mdo() && ioc)
        && (!is_aggressive(side, offset) || (hidden_mdo && !qdp))
}

impl Ticket {
    ghost use Rattle.terms.specs.Judging.{judged, ticket_from};
    ghost use Rattle.terms.specs.Made.{as_terms, terms_in};

    /// Codes are judged first, then shares, limit, offset, and whether the parts go together; the first fault is the refusal.
    pub fn new(draft: Draft) -> Result<Ticket, Refusal>
        ensures { as_terms result ≡ ticket_from draft }
    {
        let side = Side::try_from(draft.side)?;
        let kind = Kind::try_from(draft.kind)?;
        let time_in_force = TimeInForce::try_from(draft.time_in_force)?;
        let qdp = qdp_from_code(draft.qdp)?;
        let Draft {
            shares,
            limit,
            offset,
            ..
        } = draft;
        if !(1..=MOST_SHARES).contains(&shares) {
            return Err(Refusal::Shares);
        }
        if !(1..=TOP_PRICE).contains(&limit) {
            return Err(Refusal::Limit);
        }
        if !(-FARTHEST_OFFSET..=FARTHEST_OFFSET).contains(&offset) {
            return Err(Refusal::Offset);
        }
        if !parts_go_together(side, kind, time_in_force, qdp, offset) {
            return Err(Refusal::Combination);
        }
        Ok(Ticket {
            terms: Terms {
                side,
                kind,
                time_in_force,
                qdp,
                shares,
                limit,
                offset,
            },
        })
    }

    pub fn terms(&self) -> Terms
        ensures { result ≡ terms_in self.now }
    {
        self.terms
    }

    /// A second ticket with the same terms, for a second entry.
    pub fn again(&self) -> Ticket
        ensures { result ≡ self.now }
    {
        let Ticket { terms } = self;
        Ticket { terms: *terms }
    }
}
