// The laws and G.722 for C and Rust callers: samples are a low byte, then a high byte. docs/RULES.md, "C calls".
// Each call answers the number alone, and numbers are `u32`, as C has them. The laws' are 0 done, 3 an odd count of sample bytes, 4 too little room.
#![tactic(auto)]

ghost use Rattle.std.specs.Prelude.{◌≡◌};
ghost use Rattle.answers.specs.Outcomes.{number_of};
ghost use Rattle.samples.specs.Lent.{from_bytes_number, from_bytes_output, to_bytes_number, to_bytes_output};
ghost use Rattle.pcmu.specs.Mulaw.{mu_byte, mu_value};
ghost use Rattle.pcma.specs.Alaw.{a_byte, a_value};
ghost use Rattle.calls.specs.G722.{call_number, restored, session_begin_number, session_begin_mark};
ghost use Rattle.calls.specs.G722.{encoder_begin_number, encoder_begin_mark, encode_call_number, encode_call_out, encode_call_mark};
ghost use Rattle.calls.specs.G722.{decoder_begin_number, decoder_begin_mark, decode_call_number, decode_call_out, decode_call_mark};

use answers::{Answer, Outcome, Refusal, number};
use g722::{Decoding, Encoder, Encoding, Session};
use mark::Kind;

// The laws' calls: one function for each exported name.
pub fn rozimaha_pcmu_encode(input: &[u8], out: &mut [u8]) -> u32
    ensures value { result ≡ from_bytes_number input.now out.old }
    ensures out_after { out.new ≡ from_bytes_output mu_byte input.now out.old }
{
    number(pcmu::encode_from_bytes(input, out)) as u32
}

pub fn rozimaha_pcmu_decode(input: &[u8], out: &mut [u8]) -> u32
    ensures value { result ≡ to_bytes_number input.now out.old }
    ensures out_after { out.new ≡ to_bytes_output mu_value input.now out.old }
{
    number(pcmu::decode_to_bytes(input, out)) as u32
}

pub fn rozimaha_pcma_encode(input: &[u8], out: &mut [u8]) -> u32
    ensures value { result ≡ from_bytes_number input.now out.old }
    ensures out_after { out.new ≡ from_bytes_output a_byte input.now out.old }
{
    number(pcma::encode_from_bytes(input, out)) as u32
}

pub fn rozimaha_pcma_decode(input: &[u8], out: &mut [u8]) -> u32
    ensures value { result ≡ to_bytes_number input.now out.old }
    ensures out_after { out.new ≡ to_bytes_output a_value input.now out.old }
{
    number(pcma::decode_to_bytes(input, out)) as u32
}

// The rate of the fresh session that a mark is restored into; the mark's own rate takes its place.
const FRESH_RATE: u32 = 16000;

// The bytes that must be lent for a new mark, however long its line is.
const MARK_ROOM: usize = Encoder::MARK_LENGTH_MOST;

// What comes of a G.722 call, from restore's outcome, from the coder's and from the room for the new mark.
#[tactic(auto, unfolding(crate::specs::G722::call_number))]
fn call_outcome(restored: Outcome, coded: Outcome, room: usize) -> Outcome
    ensures { number_of result ≡ call_number (number_of restored) (number_of coded) room }
{
    restored?;
    if coded == Err(Refusal::OddCount) {
        return coded;
    }
    if room < MARK_ROOM {
        return Err(Refusal::NoRoom);
    }
    coded
}

// The mark, restored into a fresh session of its kind.
fn restore<K: Kind>(mark: &[u8]) -> Answer<Session<K>>
    ensures { result ≡ restored K.letter mark.now }
{
    let fresh = Session::begin(FRESH_RATE, 0).session;
    mark::restore(fresh, mark)
}

// Restores the mark into a fresh encoder, encodes the samples, and writes the new mark.
pub fn rozimaha_g722_encode(mark: &[u8], input: &[u8], out: &mut [u8], next: &mut [u8]) -> u32
    ensures value { result ≡ encode_call_number mark.now input.now out.old next.old }
    ensures out_after { out.new ≡ encode_call_out mark.now input.now out.old next.old }
    ensures next_after { next.new ≡ encode_call_mark mark.now input.now out.old next.old }
{
    let restored = restore::<Encoding>(mark);
    let session = restored.session;
    let encoded = session.encode_from_bytes_outcome(input.len(), out.len());
    let outcome = match call_outcome(restored.outcome, encoded, next.len()) {
        Ok(_) => {
            let encoder = session.encode_from_bytes(input, out).session;
            mark::write(encoder, next).outcome
        }
        refused => refused,
    };
    number(outcome) as u32
}

// Restores the mark into a fresh decoder, decodes the bytes, and writes the new mark.
// Not one function with the encoder's: a trait of what the two coders are called would be longer than both.
pub fn rozimaha_g722_decode(mark: &[u8], input: &[u8], out: &mut [u8], next: &mut [u8]) -> u32
    ensures value { result ≡ decode_call_number mark.now input.now out.old next.old }
    ensures out_after { out.new ≡ decode_call_out mark.now input.now out.old next.old }
    ensures next_after { next.new ≡ decode_call_mark mark.now input.now out.old next.old }
{
    let restored = restore::<Decoding>(mark);
    let session = restored.session;
    let decoded = session.decode_outcome(input.len(), out.len() / 2);
    let outcome = match call_outcome(restored.outcome, decoded, next.len()) {
        Ok(_) => {
            let decoder = session.decode_to_bytes(input, out).session;
            mark::write(decoder, next).outcome
        }
        refused => refused,
    };
    number(outcome) as u32
}

// Writes the mark of a fresh session of a kind.
fn begin<K: Kind>(rate: u32, start: u32, mark: &mut [u8]) -> Outcome
    ensures value { number_of result ≡ session_begin_number K K.letter rate start mark.old }
    ensures mark_after { mark.new ≡ session_begin_mark K K.letter rate start mark.old }
{
    let start = u8::try_from(start).or(Err(Refusal::BadStart))?;
    let begun = Session::<K>::begin(rate, start);
    begun.outcome?;
    mark::write(begun.session, mark).outcome
}

// The two begins: one function for each exported name.
pub fn rozimaha_g722_begin_encoder(rate: u32, start: u32, mark: &mut [u8]) -> u32
    ensures value { result ≡ encoder_begin_number rate start mark.old }
    ensures mark_after { mark.new ≡ encoder_begin_mark rate start mark.old }
{
    number(begin::<Encoding>(rate, start, mark)) as u32
}

pub fn rozimaha_g722_begin_decoder(rate: u32, start: u32, mark: &mut [u8]) -> u32
    ensures value { result ≡ decoder_begin_number rate start mark.old }
    ensures mark_after { mark.new ≡ decoder_begin_mark rate start mark.old }
{
    number(begin::<Decoding>(rate, start, mark)) as u32
}
