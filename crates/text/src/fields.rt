// The numbers of a line: each after a tab, and a newline at the end.
ghost use Rattle.std.specs.Prelude.{◌≡◌, ◌+◌, ◌*◌, ◌≤◌, ◌^◌, length, drop};
ghost use Rattle.std.proofs.lemmas.List.Edits.{sets};
ghost use Rattle.text.specs.Number.{decimal};
ghost use Rattle.text.specs.Fields.{fields_text, read_field, read_fields};

use crate::number::{Number, begins, number_length, read_number, write_number};
use crate::{NEWLINE, TAB, rest};

// Reads a tab and a number at the front; the count is that of both.
fn read_field(s: &[u8]) -> Option<Number>
    ensures { result ≡ read_field s.now }
{
    if !begins(s, TAB) {
        return None;
    }
    let n = read_number(s, 1)?;
    Some(Number {
        value: n.value,
        count: n.count + 1,
    })
}

// Reads as many fields as `out` holds numbers, and the newline after them: how many bytes they take, or None where something
// else stands there. What was read before a fault is in `out` too. Read at a place, as callers have it.
pub fn read_fields(s: &[u8], at: usize, out: &mut [i64]) -> Option<usize>
    ensures value { result ≡ (read_fields (length out.old) (drop at s.now)).ending }
    ensures out_after { out.new ≡ sets out.old 0 (read_fields (length out.old) (drop at s.now)).numbers }
{
    let text = rest(s, at);
    let mut count = 0;
    for v in out {
        let n = read_field(rest(text, count))?;
        *v = n.value;
        count += n.count;
    }
    begins(rest(text, count), NEWLINE).then_some(count + 1)
}

// How many bytes a tab and the text of `v` take.
fn field_length(v: &i64) -> usize
    ensures value { result ≡ 1 + length (decimal v.now) }
    ensures upper_bound { result ≤ 21 }
{
    1 + number_length(*v)
}

// How many bytes the text of the numbers takes. The bound on their count keeps the sum from wrapping.
pub fn fields_length(vs: &[i64]) -> usize
    requires { length vs.now ≤ 2 ^ 32 }
    ensures value { result ≡ length (fields_text vs.now) }
    ensures upper_bound { result ≤ 21 * length vs.now + 1 }
{
    vs.iter().map(field_length).sum::<usize>() + 1
}

// Writes the text of the numbers at `at`, and returns the place after it.
pub fn write_fields(out: &mut [u8], at: usize, vs: &[i64]) -> usize
    requires { at + length (fields_text vs.now) ≤ length out.old }
    ensures value { result ≡ at + length (fields_text vs.now) }
    ensures out_after { out.new ≡ sets out.old at (fields_text vs.now) }
{
    let mut p = at;
    for v in vs {
        out[p] = TAB;
        p = write_number(out, p + 1, *v);
    }
    out[p] = NEWLINE;
    p + 1
}
