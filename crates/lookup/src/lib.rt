// What both laws' calls do: the byte of each sample, and the value of each byte.
#![tactic(auto)]

ghost use Rattle.std.specs.Prelude.{◌≡◌, ℕ, ℤ};
ghost use Rattle.answers.specs.Lent.{map_outcome, map_output};
ghost use Rattle.samples.specs.Lent.{from_bytes_outcome, from_bytes_output, to_bytes_outcome, to_bytes_output};

use answers::{Outcome, Refusal};
use samples::{bits, encoding_outcome, sample};

// A law: the byte of a sample, and the value of a byte.
pub trait Law {
    ghost byte: { ℤ → ℕ };

    ghost value: { ℕ → ℤ };

    fn byte(s: i16) -> u8
        ensures { result ≡ byte s };

    fn value(b: u8) -> i16
        ensures { result ≡ value b };
}

// Each sample's byte. Answers the count or NoRoom. One loop for this and `decode`, lent the function, would be no shorter, and its contract longer.
// All four write by index: of what a `zip` over `iter_mut` writes, a proof knows nothing.
pub fn encode<L: Law>(input: &[i16], out: &mut [u8]) -> Outcome
    ensures value { result ≡ map_outcome input.now out.old }
    ensures out_after { out.new ≡ map_output L.byte input.now out.old }
{
    if out.len() < input.len() {
        return Err(Refusal::NoRoom);
    }
    for (i, s) in input.iter().enumerate() {
        out[i] = L::byte(*s);
    }
    Ok(input.len())
}

// Each byte's value. Answers the count or NoRoom.
pub fn decode<L: Law>(payload: &[u8], out: &mut [i16]) -> Outcome
    ensures value { result ≡ map_outcome payload.now out.old }
    ensures out_after { out.new ≡ map_output L.value payload.now out.old }
{
    if out.len() < payload.len() {
        return Err(Refusal::NoRoom);
    }
    for (i, b) in payload.iter().enumerate() {
        out[i] = L::value(*b);
    }
    Ok(payload.len())
}

// The byte of each sample, where samples come as bytes. Answers the count of bytes written, OddCount or NoRoom.
pub fn encode_from_bytes<L: Law>(input: &[u8], out: &mut [u8]) -> Outcome
    ensures value { result ≡ from_bytes_outcome input.now out.old }
    ensures out_after { out.new ≡ from_bytes_output L.byte input.now out.old }
{
    let count = encoding_outcome(input.len(), out.len())?;
    for (i, pair) in input.chunks_exact(2).enumerate() {
        out[i] = L::byte(sample(pair[0], pair[1]));
    }
    Ok(count)
}

// The value of each byte, where samples leave as bytes. Answers the count of bytes written or NoRoom.
pub fn decode_to_bytes<L: Law>(payload: &[u8], out: &mut [u8]) -> Outcome
    ensures value { result ≡ to_bytes_outcome payload.now out.old }
    ensures out_after { out.new ≡ to_bytes_output L.value payload.now out.old }
{
    if out.len() / 2 < payload.len() {
        return Err(Refusal::NoRoom);
    }
    for (i, b) in payload.iter().enumerate() {
        let [lo, hi] = bits(L::value(*b)).to_le_bytes();
        out[2 * i] = lo;
        out[2 * i + 1] = hi;
    }
    Ok(2 * payload.len())
}
