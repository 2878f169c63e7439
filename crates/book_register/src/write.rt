//! A whole book.
ghost use Rattle.book_register.specs.Written.{Written};
ghost use Rattle.register.specs.RoundTrip.{WritingGivesTheRegisterAgain};

use book::Book;
use directory::Directory;
use register::{NoRoom, Writer};
use tape::Tape;

/// Writes the orders that rest, by ascending entry number and each with its shares left, and tells how many bytes they take;
/// an order that does not fit ends the writing, and those before it stand.
pub fn write_book<D: Directory, T: Tape>(
    book: &Book<D, T>,
    buffer: &mut [u8],
) -> Result<usize, NoRoom>
    ensures written { Written book.now.book buffer.old buffer.new result }
    ensures again { WritingGivesTheRegisterAgain }
{
    let mut writer = Writer::new(buffer);
    for row in book.resting_orders() {
        writer.write_order(row.identifier.as_bytes(), &row.terms, row.left)?;
    }
    Ok(writer.mark())
}
