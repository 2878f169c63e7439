//! A line in bytes: six fields, each a tag, two bytes of length and the value, most significant byte first.
ghost use Rattle.std.proofs.Math.Seq.{paste};
ghost use Rattle.std.specs.List.{AllByRecursion};
ghost use Rattle.std.specs.Prelude.{List, drop, length, take, ◌+◌, ◌<◌, ◌∷◌, ◌≡◌, ◌≤◌};
ghost use Rattle.roll.specs.Rolls.{at_place};
ghost use Rattle.tape.specs.Layout.{InWidth, line_at, line_bytes as line_bytes_of, line_in as line_in_of, line_length, line_read, tape_bytes};
ghost use Rattle.tape.specs.declared.line.Line.{Line as TradeLine};

use crate::line::{Line, Mark};

pub const LINE_BYTES: usize = 43;

// A field: its tag, two bytes of length, and the value.
fn put_field(bytes: &mut [u8], at: usize, tag: u8, value: &[u8])
    requires fits { at + 3 + length value.now ≤ length bytes.old }
    requires short { length value.now < 256 }
    ensures { bytes.new ≡ paste bytes.old at (tag ∷ 0 ∷ length value.now ∷ value.now) (3 + length value.now) }
{
    let size = value.len();
    bytes[at..at + 3].copy_from_slice(&[tag, 0, size as u8]);
    bytes[at + 3..at + 3 + size].copy_from_slice(value);
}

/// Writes a line over the 43 bytes from a place on, and no other byte. The sizes of the fields differ, so each has its own line here.
pub(crate) fn put_line(bytes: &mut [u8], at: usize, line: Line)
    requires { at + line_length ≤ length bytes.old }
    ensures { bytes.new ≡ paste bytes.old at (line_bytes_of line) line_length }
{
    put_field(bytes, at, 1, &line.time.to_be_bytes());
    put_field(bytes, at + 11, 2, &line.partner.to_be_bytes());
    put_field(bytes, at + 18, 3, &line.taker.to_be_bytes());
    put_field(bytes, at + 25, 4, &line.shares.to_be_bytes());
    put_field(bytes, at + 32, 5, &line.price.to_be_bytes());
    put_field(bytes, at + 39, 6, &[u8::from(line.mark)]);
}

/// The line as it stands in bytes.
pub fn line_bytes(line: Line) -> [u8; LINE_BYTES]
    ensures { result ≡ line_bytes_of line }
{
    let mut bytes = [0u8; LINE_BYTES];
    put_line(&mut bytes, 0, line);
    bytes
}

// The bytes from a place on, as many as the number has that is read of them.
fn bytes_at<const N: usize>(bytes: &[u8], at: usize) -> [u8; N]
    requires { at + N ≤ length bytes.now }
    ensures { result ≡ take N (drop at bytes.now) }
{
    *bytes[at..].first_chunk().unwrap()
}

/// What the value bytes of the line that begins at a place say.
pub(crate) fn line_at(bytes: &[u8], at: usize) -> Line
    requires { at + line_length ≤ length bytes.now }
    ensures { result ≡ line_at bytes.now at }
{
    Line {
        time: u64::from_be_bytes(bytes_at(bytes, at + 3)),
        partner: u32::from_be_bytes(bytes_at(bytes, at + 14)),
        taker: u32::from_be_bytes(bytes_at(bytes, at + 21)),
        shares: u32::from_be_bytes(bytes_at(bytes, at + 28)),
        price: u32::from_be_bytes(bytes_at(bytes, at + 35)),
        mark: Mark::from(bytes[at + 42]),
    }
}

/// The line that the bytes spell: none, unless they are exactly one line's bytes.
#[tactic(auto, using(crate::proofs::Spelling::unread))]
pub fn read_line(bytes: &[u8]) -> Option<Line>
    ensures { result ≡ line_read bytes.now }
{
    let whole: &[u8; LINE_BYTES] = bytes.as_array()?;
    let line = line_at(whole, 0);
    (line_bytes(line) == *whole).then_some(line)
}

/// The line at a place in a row of lines, the oldest at 1: none where the bytes there are no line.
pub fn line_in(bytes: &[u8], place: usize) -> Option<Line>
    ensures told { result ≡ line_in_of bytes.now place }
    ensures reads_back_what_was_written { (ls : List TradeLine) → AllByRecursion InWidth ls → bytes.now ≡ tape_bytes ls → result ≡ at_place ls place }
{
    if place == 0 || place > bytes.len() / LINE_BYTES {
        return None;
    }
    let at = (place - 1) * LINE_BYTES;
    read_line(&bytes[at..at + LINE_BYTES])
}
