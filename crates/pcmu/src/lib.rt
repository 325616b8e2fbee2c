// G.711 mu-law: 16-bit samples to bytes and back. docs/RULES.md, "Mu-law".
#![tactic(auto)]

ghost use Rattle.std.specs.Prelude.{◌≡◌};
ghost use Rattle.answers.specs.Lent.{map_outcome, map_output};
ghost use Rattle.samples.specs.Lent.{from_bytes_outcome, from_bytes_output, to_bytes_outcome, to_bytes_output};
ghost use Rattle.pcmu.specs.Mulaw.{biased, mu_byte, mu_value, sign_bit};

use answers::Outcome;
use lookup::Law;

mod tables;

use tables::EXPONENTS;
pub use tables::VALUES;

// For callers: nothing here reads them.
pub const PAYLOAD_TYPE: u8 = 0;

pub const CLOCK_RATE: u32 = 8000;

pub const SAMPLES_PER_FRAME: u32 = 160;

fn sign_bit(s: i16) -> u16
    ensures { result ≡ sign_bit s }
{
    if s < 0 { 0x80 } else { 0 }
}

// The magnitude, cut to 32635, and 132 added.
fn bias(s: i16) -> u16
    ensures { result ≡ biased s }
{
    s.unsigned_abs().min(32635) + 132
}

struct Mulaw;

impl Law for Mulaw {
    ghost byte = { mu_byte };

    ghost value = { mu_value };

    fn byte(s: i16) -> u8 {
        let m = bias(s);
        let e = EXPONENTS[(m / 128) as usize] as u16;
        let mantissa = (m >> (e + 3)) % 16;
        (255 - (sign_bit(s) + 16 * e + mantissa)) as u8
    }

    fn value(b: u8) -> i16 {
        VALUES[b as usize]
    }
}

// The law's calls, by the names that callers have.

// Each sample's byte. Answers the count or NoRoom.
pub fn encode(input: &[i16], out: &mut [u8]) -> Outcome
    ensures value { result ≡ map_outcome input.now out.old }
    ensures out_after { out.new ≡ map_output mu_byte input.now out.old }
{
    lookup::encode::<Mulaw>(input, out)
}

// Each byte's value. Answers the count or NoRoom.
pub fn decode(payload: &[u8], out: &mut [i16]) -> Outcome
    ensures value { result ≡ map_outcome payload.now out.old }
    ensures out_after { out.new ≡ map_output mu_value payload.now out.old }
{
    lookup::decode::<Mulaw>(payload, out)
}

// The byte of each sample, where samples come as bytes. Answers the count of bytes written, OddCount or NoRoom.
pub fn encode_from_bytes(input: &[u8], out: &mut [u8]) -> Outcome
    ensures value { result ≡ from_bytes_outcome input.now out.old }
    ensures out_after { out.new ≡ from_bytes_output mu_byte input.now out.old }
{
    lookup::encode_from_bytes::<Mulaw>(input, out)
}

// The value of each byte, where samples leave as bytes. Answers the count of bytes written or NoRoom.
pub fn decode_to_bytes(payload: &[u8], out: &mut [u8]) -> Outcome
    ensures value { result ≡ to_bytes_outcome payload.now out.old }
    ensures out_after { out.new ≡ to_bytes_output mu_value payload.now out.old }
{
    lookup::decode_to_bytes::<Mulaw>(payload, out)
}
