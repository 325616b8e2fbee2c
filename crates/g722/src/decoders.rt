// A decoder's calls.
ghost use Rattle.std.specs.Prelude.{◌≡◌, length};
ghost use Rattle.answers.specs.Outcomes.{outcome};
ghost use Rattle.runs.specs.Rates.{decode_room};
ghost use Rattle.g722.specs.Decoding.{decode_number, decode_answer, decode_out};
ghost use Rattle.g722.specs.Decoding.{decode_to_bytes_answer, decode_to_bytes_out};

use crate::{Decoder, MARK_LENGTH_MOST, POSITION_MOST, START_MOST};
use answers::{Answer, Outcome, Refusal};
use runs::rates;

impl Decoder {
    pub const START_MOST: u8 = START_MOST;

    pub const POSITION_MOST: u32 = POSITION_MOST;

    pub const MARK_LENGTH_MOST: usize = MARK_LENGTH_MOST;

    // What n bytes and room for so many samples come to.
    #[tactic(auto, unfolding(crate::specs::Decoding::decode_number, crate::specs::Session::decoder_moves, runs::specs::Rates::decode_room))]
    pub fn decode_outcome(self, n: usize, room: usize) -> Outcome
        ensures { result ≡ outcome (decode_number self n room) (decode_room self.rate n) }
    {
        if !self.in_bounds() {
            return Err(Refusal::OutOfBounds);
        }
        if rates::decode_overfills(self.rate, n, room) {
            return Err(Refusal::NoRoom);
        }
        if rates::decode_overfills(self.rate, n, self.left()) {
            return Err(Refusal::PositionPastEnd);
        }
        Ok(rates::decode_room(self.rate, n))
    }

    #[tactic(auto, using(crate::proofs::Calls::decode_laws), unfolding(crate::specs::Decoding::decode_answer, crate::specs::Decoding::decode_out))]
    pub fn decode(self, input: &[u8], out: &mut [i16]) -> Answer<Decoder>
        ensures answer { result ≡ decode_answer self input.now (length out.old) }
        ensures written { out.new ≡ decode_out self input.now out.old }
    {
        match self.decode_outcome(input.len(), out.len()) {
            Ok(samples) => {
                let decoded = runs::decode_run(self.rate, input, out, self.filters);
                self.moved(samples, decoded).done(samples)
            }
            Err(refusal) => self.refused(refusal),
        }
    }

    // `decode` where the samples leave as bytes: two functions, as the encoder's are. The room and the count are those of bytes.
    // Out of line: written out in a call that restores and writes marks as well, the loop took a fifth longer.
    #[inline(never)]
    #[tactic(auto, using(crate::proofs::Calls::decode_laws), unfolding(crate::specs::Decoding::decode_to_bytes_answer, crate::specs::Decoding::decode_to_bytes_out))]
    pub fn decode_to_bytes(self, input: &[u8], out: &mut [u8]) -> Answer<Decoder>
        ensures answer { result ≡ decode_to_bytes_answer self input.now (length out.old) }
        ensures written { out.new ≡ decode_to_bytes_out self input.now out.old }
    {
        match self.decode_outcome(input.len(), out.len() / 2) {
            Ok(samples) => {
                let decoded = pieces::decode(self.rate, input, out, self.filters);
                self.moved(samples, decoded).done(2 * samples)
            }
            Err(refusal) => self.refused(refusal),
        }
    }
}
