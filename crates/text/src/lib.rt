// Decimal numbers and tab-parted fields, read at a place of a text and written into a lent buffer.
#![tactic(auto)]

ghost use Rattle.std.specs.Prelude.{◌≡◌, drop};

pub mod fields;
pub mod number;

pub const TAB: u8 = b'\t';

pub const NEWLINE: u8 = b'\n';

pub const MINUS: u8 = b'-';

pub const ZERO: u8 = b'0';

pub const NINE: u8 = b'9';

// What stands in `s` from `at` on: nothing, where `at` is beyond the end.
pub fn rest(s: &[u8], at: usize) -> &[u8]
    ensures { result.now ≡ drop at s.now }
{
    &s[at.min(s.len())..]
}
