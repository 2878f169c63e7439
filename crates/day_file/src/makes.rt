//! The makes of directory and tape that a book may stand on; the answers are the same on all.
ghost use Rattle.std.specs.Prelude.{IfOk, vec_len, ◌*◌, ◌≡◌};

use crate::desk::Desk;
use directory::{Directory, HashedDirectory, RowDirectory};
use std::alloc::{AllocError, Global};
use std::error::Error;
use std::fmt;
use tape::{ByteTape, LINE_BYTES, Line, RecordTape, Tape};
use terms::Quote;

#[derive(Clone, Copy, PartialEq, Eq, Debug, Default, Drop)]
pub enum DirectoryMake {
    #[default]
    Rows,
    Hashed,
}

#[derive(Clone, Copy, PartialEq, Eq, Debug, Default, Drop)]
pub enum TapeMake {
    #[default]
    Records,
    Bytes,
}

#[derive(Clone, Copy, PartialEq, Eq, Debug, Default, Drop)]
pub struct Makes {
    pub directory: DirectoryMake,
    pub tape: TapeMake,
}

/// Where memory is wanting when a book is opened.
#[derive(Clone, Copy, PartialEq, Eq, Debug, Drop)]
pub enum NoMemory {
    /// an allocation failed
    Failed,
    /// the tape's size is past all memory
    Tape,
    Book,
}

/// What is done with a desk, whatever the makes of its book.
pub trait Serve: Drop {
    type Served;

    fn serve<D: Directory + Drop, T: Tape + Drop>(self, desk: Desk<D, T>) -> Self::Served;
}

impl DirectoryMake {
    pub fn named(word: &str) -> Option<DirectoryMake> {
        match word {
            "rows" => Some(DirectoryMake::Rows),
            "hashed" => Some(DirectoryMake::Hashed),
            _ => None,
        }
    }
}

impl TapeMake {
    pub fn named(word: &str) -> Option<TapeMake> {
        match word {
            "records" => Some(TapeMake::Records),
            "bytes" => Some(TapeMake::Bytes),
            _ => None,
        }
    }

    // A tape borrows its room, so that each make is an arm.
    fn serve<D: Directory + Drop, S: Serve>(
        self,
        heap: Global,
        quote: Quote,
        lines: usize,
        directory: D,
        with: S,
    ) -> Result<S::Served, NoMemory> {
        match self {
            TapeMake::Records => {
                let mut room = record_room(heap, lines)?;
                let tape = RecordTape::new(room.as_mut_slice());
                Ok(with.serve(open(heap, quote, directory, tape)?))
            }
            TapeMake::Bytes => {
                let mut room = byte_room(heap, lines)?;
                let tape = ByteTape::new(room.as_mut_slice());
                Ok(with.serve(open(heap, quote, directory, tape)?))
            }
        }
    }
}

impl Makes {
    pub const ALL: [Makes; 4] = [
        Makes {
            directory: DirectoryMake::Rows,
            tape: TapeMake::Records,
        },
        Makes {
            directory: DirectoryMake::Rows,
            tape: TapeMake::Bytes,
        },
        Makes {
            directory: DirectoryMake::Hashed,
            tape: TapeMake::Records,
        },
        Makes {
            directory: DirectoryMake::Hashed,
            tape: TapeMake::Bytes,
        },
    ];

    /// Opens a book of these makes, whose tape has room for so many lines, and has its desk served.
    pub fn serve<S: Serve>(
        self,
        heap: Global,
        quote: Quote,
        lines: usize,
        with: S,
    ) -> Result<S::Served, NoMemory> {
        let tape = self.tape;
        match self.directory {
            DirectoryMake::Rows => tape.serve(heap, quote, lines, RowDirectory::new(heap)?, with),
            DirectoryMake::Hashed => {
                tape.serve(heap, quote, lines, HashedDirectory::new(heap)?, with)
            }
        }
    }
}

fn open<D: Directory + Drop, T: Tape + Drop>(
    heap: Global,
    quote: Quote,
    directory: D,
    tape: T,
) -> Result<Desk<D, T>, NoMemory> {
    Desk::open(heap, quote, directory, tape).map_err(|_| NoMemory::Book)
}

/// Room for so many lines of a tape of records.
pub fn record_room(heap: Global, lines: usize) -> Result<Vec<Line>, NoMemory>
    ensures { IfOk result (λ room. vec_len room ≡ lines) }
{
    Ok(vec![in heap; Line::default(); lines]?)
}

/// Room for so many lines of a tape of bytes.
pub fn byte_room(heap: Global, lines: usize) -> Result<Vec<u8>, NoMemory>
    ensures { IfOk result (λ room. vec_len room ≡ lines * LINE_BYTES) }
{
    let size = lines.checked_mul(LINE_BYTES).ok_or(NoMemory::Tape)?;
    Ok(vec![in heap; 0u8; size]?)
}

impl fmt::Display for DirectoryMake {
    fn fmt<W: fmt::Write>(&self, f: &mut fmt::Formatter<W>) -> fmt::Result {
        let word = match self {
            DirectoryMake::Rows => "rows",
            DirectoryMake::Hashed => "hashed",
        };
        write!(f, "{word}")
    }
}

impl fmt::Display for TapeMake {
    fn fmt<W: fmt::Write>(&self, f: &mut fmt::Formatter<W>) -> fmt::Result {
        let word = match self {
            TapeMake::Records => "records",
            TapeMake::Bytes => "bytes",
        };
        write!(f, "{word}")
    }
}

impl fmt::Display for Makes {
    fn fmt<W: fmt::Write>(&self, f: &mut fmt::Formatter<W>) -> fmt::Result {
        let Makes { directory, tape } = *self;
        write!(f, "{directory} and {tape}")
    }
}

impl From<AllocError> for NoMemory {
    fn from(_failed: AllocError) -> NoMemory {
        NoMemory::Failed
    }
}

impl fmt::Display for NoMemory {
    fn fmt<W: fmt::Write>(&self, f: &mut fmt::Formatter<W>) -> fmt::Result {
        match self {
            NoMemory::Failed => write!(f, "memory allocation failed"),
            NoMemory::Tape => write!(f, "no memory for the tape"),
            NoMemory::Book => write!(f, "no memory for the book"),
        }
    }
}

impl Error for NoMemory {}
