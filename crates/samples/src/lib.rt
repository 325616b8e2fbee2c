// 16-bit samples as bytes. docs/RULES.md, "Samples as bytes".
#![tactic(auto)]

ghost use Rattle.std.specs.Prelude.{◌≡◌, ◌/◌};
ghost use Rattle.samples.specs.Bytes.{sample_of, bits_of};
ghost use Rattle.answers.specs.Outcomes.{outcome};
ghost use Rattle.samples.specs.Lent.{encoding_number};

use answers::{Outcome, Refusal};

// The sample of a low byte and a high byte.
pub fn sample(lo: u8, hi: u8) -> i16
    ensures { result ≡ sample_of lo hi }
{
    i16::from_le_bytes([lo, hi])
}

// A sample's 16 bits.
pub fn bits(s: i16) -> u16
    ensures { result ≡ bits_of s }
{
    s.cast_unsigned()
}

// What comes of a call that takes `count` bytes of samples and writes a byte for each sample.
pub fn encoding_outcome(count: usize, room: usize) -> Outcome
    ensures { result ≡ outcome (encoding_number count room) (count / 2) }
{
    if count % 2 != 0 {
        return Err(Refusal::OddCount);
    }
    if room < count / 2 {
        return Err(Refusal::NoRoom);
    }
    Ok(count / 2)
}
