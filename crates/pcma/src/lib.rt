// G.711 A-law: 16-bit samples to bytes and back. docs/RULES.md, "A-law".
#![tactic(auto)]

ghost use Rattle.std.specs.Prelude.{◌≡◌, cond, ◌<◌, ◌≤◌};
ghost use Rattle.answers.specs.Lent.{map_outcome, map_output};
ghost use Rattle.samples.specs.Lent.{from_bytes_outcome, from_bytes_output, to_bytes_outcome, to_bytes_output};
ghost use Rattle.std.specs.Int.Signed.{mag, shr_z};
ghost use Rattle.pcma.specs.Alaw.{ends, first, low_bits, a_code, a_byte, a_size, a_value};

use answers::Outcome;
use lookup::Law;

mod tables;

pub use tables::VALUES;

// For callers: nothing here reads them.
pub const PAYLOAD_TYPE: u8 = 8;

pub const CLOCK_RATE: u32 = 8000;

pub const SAMPLES_PER_FRAME: u32 = 160;

// floor(s / 8): the shift rounds down.
fn eighth(s: i16) -> i16
    ensures { result ≡ shr_z s 8 }
{
    s >> 3
}

// v, or -v - 1 where v is negative. band has its own: no crate lies below both.
fn fold(v: i16) -> u16
    ensures { result ≡ mag v }
{
    if v < 0 { !v as u16 } else { v as u16 }
}

// The place of the first of 31, 63, .., 4095 that v does not exceed: how many bits v has above its low five.
fn segment(v: u16) -> u16
    requires { v < 4096 }
    ensures value { result ≡ first ends v }
    ensures bound { result ≤ 7 }
{
    11 - (v | 31).leading_zeros() as u16
}

// The four bits from the segment's place on; segment 0 has those of segment 1.
fn low_bits(seg: u16, v: u16) -> u16
    requires { seg < 16 }
    ensures value { result ≡ low_bits seg v }
    ensures bound { result < 16 }
{
    (v >> seg.max(1)) % 16
}

fn mask(negative: bool) -> u8
    ensures { result ≡ cond negative 0x55 0xD5 }
{
    if negative { 0x55 } else { 0xD5 }
}

// The byte of a size, before the mask.
fn code(v: u16) -> u8
    requires { v < 4096 }
    ensures { result ≡ a_code v }
{
    let seg = segment(v);
    (16 * seg + low_bits(seg, v)) as u8
}

// The size of what a byte stands for, once the mask is off: the segment decides the rule.
fn size_of(a: u8) -> u16
    ensures { (result ≡ a_size a) × (result < 32768) }
{
    let low = (a % 16) as u16;
    let seg = a / 16 % 8;
    match seg {
        0 => 16 * low + 8,
        1 => 16 * low + 264,
        2..=7 => (16 * low + 264) << (seg - 1),
        _ => unreachable!(),
    }
}

// The value of a byte, worked out by the rule.
#[tactic(auto, unfolding(crate::specs::Alaw::a_value, crate::specs::Alaw::signed))]
pub fn value(b: u8) -> i16
    ensures { result ≡ a_value b }
{
    let a = b ^ 0x55;
    let t = size_of(a) as i16;
    if a < 128 { -t } else { t }
}

struct Alaw;

impl Law for Alaw {
    ghost byte = { a_byte };

    ghost value = { a_value };

    fn byte(s: i16) -> u8 {
        let v = eighth(s);
        code(fold(v)) ^ mask(v < 0)
    }

    fn value(b: u8) -> i16 {
        VALUES[b as usize]
    }
}

// The law's calls, by the names that callers have.

// Each sample's byte. Answers the count or NoRoom.
pub fn encode(input: &[i16], out: &mut [u8]) -> Outcome
    ensures value { result ≡ map_outcome input.now out.old }
    ensures out_after { out.new ≡ map_output a_byte input.now out.old }
{
    lookup::encode::<Alaw>(input, out)
}

// Each byte's value. Answers the count or NoRoom.
pub fn decode(payload: &[u8], out: &mut [i16]) -> Outcome
    ensures value { result ≡ map_outcome payload.now out.old }
    ensures out_after { out.new ≡ map_output a_value payload.now out.old }
{
    lookup::decode::<Alaw>(payload, out)
}

// The byte of each sample, where samples come as bytes. Answers the count of bytes written, OddCount or NoRoom.
pub fn encode_from_bytes(input: &[u8], out: &mut [u8]) -> Outcome
    ensures value { result ≡ from_bytes_outcome input.now out.old }
    ensures out_after { out.new ≡ from_bytes_output a_byte input.now out.old }
{
    lookup::encode_from_bytes::<Alaw>(input, out)
}

// The value of each byte, where samples leave as bytes. Answers the count of bytes written or NoRoom.
pub fn decode_to_bytes(payload: &[u8], out: &mut [u8]) -> Outcome
    ensures value { result ≡ to_bytes_outcome payload.now out.old }
    ensures out_after { out.new ≡ to_bytes_output a_value payload.now out.old }
{
    lookup::decode_to_bytes::<Alaw>(payload, out)
}
