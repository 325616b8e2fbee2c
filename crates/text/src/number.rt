// Decimal numbers: no plus, no leading zero, no -0, at most ten digits. The `parse` of i64 takes each of these, so they are read
// by hand.
ghost use Rattle.std.specs.Prelude.{◌≡◌, ◌+◌, ◌≤◌, length, drop};
ghost use Rattle.std.proofs.lemmas.List.Edits.{sets};
ghost use Rattle.std.specs.Int.Signed.{non_neg};
ghost use Rattle.text.specs.Number.{digits, decimal, begins, run, value, magnitude, plain, negated, read_number};

use crate::{MINUS, ZERO, rest};

// What was read, and how many bytes its text takes.
#[derive(Clone, Copy)]
pub struct Parsed<T> {
    pub value: T,
    pub count: usize,
}

pub type Number = Parsed<i64>;

// The number that some digits say.
type Magnitude = Parsed<u64>;

// Whether the text begins with `byte`.
pub(crate) fn begins(s: &[u8], byte: u8) -> bool
    ensures { result ≡ begins byte s.now }
{
    s.first() == Some(&byte)
}

// How many digits the text begins with.
fn count_digits(s: &[u8]) -> usize
    ensures { result ≡ run s.now }
{
    s.iter().take_while(|b| b.is_ascii_digit()).count()
}

// The number that the digits say.
fn value_of(digits: &[u8]) -> u64
    requires all { run digits.now ≡ length digits.now }
    requires few { length digits.now ≤ 10 }
    ensures { result ≡ value 0 digits.now }
{
    digits
        .iter()
        .fold(0, |v, digit| v * 10 + (*digit - ZERO) as u64)
}

// Reads the digits at the front.
fn read_magnitude(s: &[u8]) -> Option<Magnitude>
    ensures { result ≡ magnitude s.now }
{
    let count = count_digits(s);
    let zero_first = begins(s, ZERO);
    if 0 < count && count <= 10 && (count == 1 || !zero_first) {
        let value = value_of(&s[..count]);
        return Some(Magnitude { value, count });
    }
    None
}

// Reads the number whose minus stands before the text.
fn read_negative(s: &[u8]) -> Option<Number>
    ensures { result ≡ negated (magnitude s.now) }
{
    let m = read_magnitude(s)?;
    if m.value == 0 {
        return None;
    }
    Some(Number {
        value: -(m.value as i64),
        count: m.count + 1,
    })
}

// Reads the number that has no minus.
fn read_plain(s: &[u8]) -> Option<Number>
    ensures { result ≡ plain (magnitude s.now) }
{
    let m = read_magnitude(s)?;
    Some(Number {
        value: m.value as i64,
        count: m.count,
    })
}

// Reads the number at `at`. Read at a place, as callers have it.
pub fn read_number(s: &[u8], at: usize) -> Option<Number>
    ensures { result ≡ read_number (drop at s.now) }
{
    let text = rest(s, at);
    if begins(text, MINUS) {
        return read_negative(rest(text, 1));
    }
    read_plain(text)
}

// Whether `v` is written without a minus.
pub fn is_plain(v: i64) -> bool
    ensures { result ≡ non_neg v }
{
    0 <= v
}

// How many digits `n` has.
fn count_of(n: u64) -> usize
    ensures { result ≡ length (digits n) }
{
    if n < 10 {
        return 1;
    }
    n.ilog10() as usize + 1
}

// Writes the digits of `n` at `at`, and returns the place after them. They are written where they belong, and within the loop over a
// mark's numbers: a buffer of their own, and a copy, were a third of the instructions of a fresh mark.
#[inline(always)]
fn write_digits(out: &mut [u8], at: usize, n: u64) -> usize
    requires { at + length (digits n) ≤ length out.old }
    ensures value { result ≡ at + length (digits n) }
    ensures out_after { out.new ≡ sets out.old at (digits n) }
{
    let end = at + count_of(n);
    itoa::write_digits(n, out, end);
    end
}

// How many bytes the text of `v` takes.
pub fn number_length(v: i64) -> usize
    ensures { result ≡ length (decimal v) }
{
    let count = count_of(v.unsigned_abs());
    if is_plain(v) { count } else { count + 1 }
}

// Writes the text of `v` at `at`, and returns the place after it, which callers go on from.
pub fn write_number(out: &mut [u8], at: usize, v: i64) -> usize
    requires { at + length (decimal v) ≤ length out.old }
    ensures value { result ≡ at + length (decimal v) }
    ensures out_after { out.new ≡ sets out.old at (decimal v) }
{
    let n = v.unsigned_abs();
    if is_plain(v) {
        return write_digits(out, at, n);
    }
    out[at] = MINUS;
    write_digits(out, at + 1, n)
}
