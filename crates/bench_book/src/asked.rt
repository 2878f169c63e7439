//! A call as it comes in, in numbers.
ghost use Rattle.std.specs.Prelude.{◌≡◌};
ghost use Rattle.bench_book.specs.Numbers.{draft_of, identifier_of};

use terms::Draft;

/// `what` is 1 for an entry, 2 for a cancel, 3 for a quote, 4 for a tick; what a call of its kind does not have counts for nothing.
#[repr(C)]
#[derive(Clone, Copy, Drop)]
pub struct Asked {
    pub time: u64,
    pub bid: u32,
    pub offer: u32,
    pub shares: u32,
    pub limit: u32,
    pub offset: i32,
    pub what: u8,
    pub side: u8,
    pub kind: u8,
    pub time_in_force: u8,
    pub qdp: u8,
    pub id_len: u8,
    pub id: [u8; 20],
}

impl Asked {
    /// What an entry's ticket is made from.
    pub(crate) fn draft(&self) -> Draft
        ensures { result ≡ draft_of self.now }
    {
        Draft {
            side: self.side,
            kind: self.kind,
            time_in_force: self.time_in_force,
            qdp: self.qdp,
            shares: self.shares,
            limit: self.limit,
            offset: self.offset,
        }
    }

    /// The identifier's bytes, at most twenty.
    pub(crate) fn identifier(&self) -> &[u8]
        ensures { result.now ≡ identifier_of self.now }
    {
        let len = usize::from(self.id_len).min(20);
        &self.id[..len]
    }
}
