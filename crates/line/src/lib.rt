// The grammar of a mark line: a kind letter, a start letter and numbers, of which rate and position come first.
#![tactic(auto)]

ghost use Rattle.std.specs.Prelude.{◌≡◌, ◌++◌, ℕ, ◌≤◌, ◌^◌, pos, length, drop, get_or};
ghost use Rattle.std.proofs.lemmas.List.Edits.{sets};
ghost use Rattle.std.specs.Int.Signed.{non_neg};
ghost use Rattle.text.specs.Fields.{read_fields};
ghost use Rattle.line.specs.Line.{kind_letter, start_letter, line_text, unsigned, read_line, line_numbers};

use text::fields::{fields_length, read_fields, write_fields};
use text::number::is_plain;
use text::{TAB, rest};

pub const LETTER_E: u8 = b'E';

pub const LETTER_D: u8 = b'D';

pub const LETTER_Z: u8 = b'Z';

pub const LETTER_S: u8 = b'S';

// A line's letters and how many bytes it takes. The letters are bytes, as `write_line` takes them, and as mark compares them.
#[derive(Clone, Copy)]
pub struct Line {
    pub kind: u8,
    pub start: u8,
    pub count: usize,
}

fn is_kind(b: u8) -> bool
    ensures { result ≡ kind_letter b }
{
    matches!(b, LETTER_E | LETTER_D)
}

fn is_start(b: u8) -> bool
    ensures { result ≡ start_letter b }
{
    matches!(b, LETTER_Z | LETTER_S)
}

// Whether the number at `i` carries no minus; a number that is not there carries none.
fn no_minus(vs: &[i64], i: usize) -> bool
    ensures { result ≡ non_neg (get_or vs.now i (pos 0)) }
{
    vs.get(i).is_none_or(|v| is_plain(*v))
}

// Reads the numbers of a line and its newline at the front, the first two without a minus.
fn read_numbers(s: &[u8], out: &mut [i64]) -> Option<usize>
    ensures value { result ≡ unsigned (read_fields (length out.old) s.now) }
    ensures out_after { out.new ≡ sets out.old 0 (read_fields (length out.old) s.now).numbers }
{
    let count = read_fields(s, 0, out)?;
    (no_minus(out, 0) && no_minus(out, 1)).then_some(count)
}

// Reads the line at `at`, with as many numbers as `out` holds. Numbers that were read before a fault are in `out` too. Read at a
// place, as callers have it.
pub fn read_line(s: &[u8], at: usize, out: &mut [i64]) -> Option<Line>
    ensures value { result ≡ read_line (length out.old) (drop at s.now) }
    ensures out_after { out.new ≡ sets out.old 0 (line_numbers (length out.old) (drop at s.now)) }
{
    let text = rest(s, at);
    let [kind, TAB, start, numbers @ ..] = text else {
        return None;
    };
    if !is_kind(*kind) || !is_start(*start) {
        return None;
    }
    let count = read_numbers(numbers, out)?;
    Some(Line {
        kind: *kind,
        start: *start,
        count: count + 3,
    })
}

// How many bytes a line takes, whatever its letters.
pub fn line_length(vs: &[i64]) -> usize
    requires { length vs.now ≤ 2 ^ 32 }
    ensures { (kind start : ℕ) → result ≡ length (line_text kind start vs.now) }
{
    fields_length(vs) + 3
}

// Writes the line at the front of `out`, and returns how many bytes it takes.
pub fn write_line(out: &mut [u8], kind: u8, start: u8, vs: &[i64]) -> usize
    requires { length (line_text kind start vs.now) ≤ length out.old }
    ensures value { result ≡ length (line_text kind start vs.now) }
    ensures out_after { out.new ≡ line_text kind start vs.now ++ drop result out.old }
{
    out[0] = kind;
    out[1] = TAB;
    out[2] = start;
    write_fields(out, 3, vs)
}
