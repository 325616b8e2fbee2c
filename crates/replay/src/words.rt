// The words of a line, and what they say.
ghost use Rattle.std.specs.Prelude.{◌≤◌, ◌<◌, length};

use std::array;

// The words of a line, as many as a case has; one that the line lacks is empty.
pub(crate) fn split(line: &[u8]) -> [&[u8]; 6] {
    let mut words = line.split(|b| *b == b' ');
    array::from_fn(|_| words.next().unwrap_or_default())
}

// A hexadecimal digit's number; anything else is 0. By hand: `to_digit` takes small letters too.
fn nibble(digit: u8) -> u8
    ensures { result < 16 }
{
    match digit {
        b'0'..=b'9' => digit - b'0',
        b'A'..=b'F' => digit - b'A' + 10,
        _ => 0,
    }
}

// Puts the bytes that a word says at the front of `out`, as many as it holds, and answers how many.
pub(crate) fn bytes(word: &[u8], out: &mut [u8]) -> usize
    ensures { result ≤ length out.new }
{
    let (pairs, _) = word.as_chunks::<2>();
    for (byte, [high, low]) in out.iter_mut().zip(pairs) {
        *byte = nibble(*high) * 16 + nibble(*low);
    }
    pairs.len().min(out.len())
}

// The number that a word's decimal digits say, below a million.
pub(crate) fn number(word: &[u8]) -> u32
    ensures { result < 1000000 }
{
    word.iter().fold(0, |value, digit| {
        value % 1_000_000 * 10 + u32::from(nibble(*digit))
    }) % 1_000_000
}
