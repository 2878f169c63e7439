ghost use Rattle.std.specs.Prelude.{◌≡◌};
ghost use Rattle.std.specs.Str.{bytes_eq};
ghost use Rattle.directory.specs.Entries.{entry_id};

use terms::Identifier;

/// A pair as the makes keep it.
#[derive(Clone, Copy)]
pub struct Entry {
    pub(crate) id: Identifier,
    pub(crate) number: u32,
}

/// Whether a pair is the identifier's: all of the bytes decide.
pub(crate) fn is_of(entry: &Entry, id: &[u8]) -> bool
    ensures { result ≡ bytes_eq id.now (entry_id entry.now) }
{
    id == entry.id.as_bytes()
}
