//! By what a member knows an order, lawful by its type.
ghost use Rattle.std.specs.List.{list_all};
ghost use Rattle.std.specs.Prelude.{take, true, ◌≡◌, ◌≤◌};
ghost use Rattle.terms.specs.Identifiers.{highest, lawful_identifier, longest, lowest};
ghost use Rattle.terms.specs.Terms.{in_range};

/// The most bytes of an identifier.
pub const LONGEST: usize = 20;

/// The lowest byte of an identifier.
pub const LOWEST: u8 = 33;

/// The highest byte of an identifier.
pub const HIGHEST: u8 = 126;

/// The first `len` of the bytes; the rest count for nothing, so two are compared as slices. The room for them is fixed:
/// it is kept by value in memory that a book has from its opening, since no call allocates.
#[derive(Clone, Copy, Drop)]
pub struct Identifier {
    bytes: [u8; LONGEST],
    len: usize,
    ghost short: { len ≤ longest },
    ghost lawful: { lawful_identifier (take len bytes) ≡ true },
}

// Every byte can be printed, and none is a blank.
fn printable(bytes: &[u8]) -> bool
    ensures { result ≡ list_all (λ b. in_range lowest b highest) bytes.now }
{
    bytes.iter().all(|byte| (LOWEST..=HIGHEST).contains(byte))
}

impl Identifier {
    ghost use Rattle.std.specs.Prelude.{MatchOption, false};
    ghost use Rattle.terms.specs.Naming.{identifier_bytes};

    /// A lawful identifier has between one and twenty bytes, all of them printable ASCII without the blank (33 to 126). None
    /// exactly where the bytes are none.
    pub fn new(bytes: &[u8]) -> Option<Identifier>
        ensures { MatchOption result (lawful_identifier bytes.now ≡ false) (λ i. identifier_bytes i ≡ bytes.now) }
    {
        let len = bytes.len();
        if !(1..=LONGEST).contains(&len) || !printable(bytes) {
            return None;
        }
        let mut own = [0u8; LONGEST];
        own[..len].copy_from_slice(bytes);
        Some(Identifier { bytes: own, len })
    }

    pub fn as_bytes(&self) -> &[u8]
        ensures { result.now ≡ identifier_bytes self.now }
    {
        &self.bytes[..self.len]
    }
}
