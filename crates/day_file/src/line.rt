//! The words of a line, and the numbers in them.
ghost use Rattle.std.specs.Prelude.{◌≡◌};
ghost use Rattle.day_file.specs.Numbers.{most, most_of, near, size_from, size_in, whole_in, within};

#[derive(Drop)]
pub(crate) struct Words<'a> {
    rest: &'a [u8],
}

fn is_blank(byte: u8) -> bool {
    matches!(byte, b' ' | b'\t' | b'\r' | b'\n')
}

impl<'a> Words<'a> {
    pub(crate) fn new(line: &'a [u8]) -> Words<'a> {
        Words { rest: line }
    }
}

impl<'a> Iterator for Words<'a> {
    type Item = &'a [u8];

    fn next(&mut self) -> Option<&'a [u8]> {
        let begin = self.rest.iter().position(|byte| !is_blank(*byte))?;
        let text = &self.rest[begin..];
        let end = text
            .iter()
            .position(|byte| is_blank(*byte))
            .unwrap_or(text.len());
        let (word, rest) = text.split_at(end);
        self.rest = rest;
        Some(word)
    }
}

fn with_digit(size: u64, byte: u8) -> Option<u64>
    ensures { result ≡ size_from size byte }
{
    match byte {
        b'0'..=b'9' => Some(
            size.saturating_mul(10)
                .saturating_add(u64::from(byte - b'0')),
        ),
        _ => None,
    }
}

// None where there is no digit, or something else. A size past 64 bits is the largest that they hold.
#[tactic(auto, unfolding(crate::specs::Numbers::size_on))]
fn size_in(digits: &[u8]) -> Option<u64>
    ensures { result ≡ size_in digits.now }
{
    if digits.is_empty() {
        return None;
    }
    let mut size = 0;
    for byte in digits {
        size = with_digit(size, *byte)?;
    }
    Some(size)
}

/// Digits, which a minus may precede.
pub(crate) fn whole(word: &[u8]) -> Option<i128>
    ensures { result ≡ whole_in word.now }
{
    match word {
        [b'-', digits @ ..] => size_in(digits).map(|size| -i128::from(size)),
        digits => size_in(digits).map(|size| i128::from(size)),
    }
}

pub(crate) fn as_u64(number: i128) -> u64
    ensures { result ≡ within most number }
{
    u64::try_from(number).unwrap_or(u64::MAX)
}

pub(crate) fn as_u32(number: i128) -> u32
    ensures { result ≡ within (most_of 32) number }
{
    u32::try_from(number).unwrap_or(u32::MAX)
}

pub(crate) fn as_u8(number: i128) -> u8
    ensures { result ≡ within (most_of 8) number }
{
    u8::try_from(number).unwrap_or(u8::MAX)
}

// An offset of more than 16 bits is out of range as well as one of 1,000.
const FAR_OFFSET: i128 = 1000;

pub(crate) fn as_offset(number: i128) -> i32
    ensures { result ≡ near number }
{
    number.clamp(-FAR_OFFSET, FAR_OFFSET) as i32
}
