// An encoder's calls.
ghost use Rattle.std.specs.Prelude.{◌≡◌, ◌/◌, length};
ghost use Rattle.answers.specs.Outcomes.{outcome};
ghost use Rattle.runs.specs.Rates.{encode_room};
ghost use Rattle.g722.specs.Encoding.{encode_number, encode_answer, encode_out};
ghost use Rattle.g722.specs.Encoding.{encode_from_bytes_number, encode_from_bytes_answer, encode_from_bytes_out};

use crate::{Encoder, MARK_LENGTH_MOST, POSITION_MOST, START_MOST};
use answers::{Answer, Outcome, Refusal};
use runs::rates;

impl Encoder {
    pub const START_MOST: u8 = START_MOST;

    pub const POSITION_MOST: u32 = POSITION_MOST;

    pub const MARK_LENGTH_MOST: usize = MARK_LENGTH_MOST;

    // What n samples and room for so many bytes come to.
    #[tactic(auto, unfolding(crate::specs::Encoding::encode_number, crate::specs::Session::encoder_moves))]
    pub fn encode_outcome(self, n: usize, room: usize) -> Outcome
        ensures { result ≡ outcome (encode_number self n room) (encode_room self.rate n) }
    {
        if !self.in_bounds() {
            return Err(Refusal::OutOfBounds);
        }
        if rates::odd_at(self.rate, n) {
            return Err(Refusal::OddCount);
        }
        let count = rates::encode_room(self.rate, n);
        if room < count {
            return Err(Refusal::NoRoom);
        }
        if self.left() < n {
            return Err(Refusal::PositionPastEnd);
        }
        Ok(count)
    }

    // The same of n bytes that stand for samples.
    #[tactic(auto, unfolding(crate::specs::Encoding::encode_from_bytes_number))]
    pub fn encode_from_bytes_outcome(self, n: usize, room: usize) -> Outcome
        ensures { result ≡ outcome (encode_from_bytes_number self n room) (encode_room self.rate (n / 2)) }
    {
        if self.in_bounds() && n % 2 != 0 {
            return Err(Refusal::OddCount);
        }
        self.encode_outcome(n / 2, room)
    }

    #[tactic(auto, using(crate::proofs::Calls::encode_laws), unfolding(crate::specs::Encoding::encode_answer, crate::specs::Encoding::encode_out))]
    pub fn encode(self, input: &[i16], out: &mut [u8]) -> Answer<Encoder>
        ensures answer { result ≡ encode_answer self input.now (length out.old) }
        ensures written { out.new ≡ encode_out self input.now out.old }
    {
        match self.encode_outcome(input.len(), out.len()) {
            Ok(bytes) => {
                let coded = runs::encode_run(self.rate, input, out, self.filters);
                self.moved(input.len(), coded).done(bytes)
            }
            Err(refusal) => self.refused(refusal),
        }
    }

    // `encode` where the samples come as bytes: two functions, since one that takes the run would have to state what each run asks and leaves.
    // Out of line, as the decoder's is.
    #[inline(never)]
    #[tactic(auto, using(crate::proofs::Calls::encode_laws), unfolding(crate::specs::Encoding::encode_from_bytes_answer, crate::specs::Encoding::encode_from_bytes_out))]
    pub fn encode_from_bytes(self, input: &[u8], out: &mut [u8]) -> Answer<Encoder>
        ensures answer { result ≡ encode_from_bytes_answer self input.now (length out.old) }
        ensures written { out.new ≡ encode_from_bytes_out self input.now out.old }
    {
        match self.encode_from_bytes_outcome(input.len(), out.len()) {
            Ok(bytes) => {
                let coded = pieces::encode(self.rate, input, out, self.filters);
                self.moved(input.len() / 2, coded).done(bytes)
            }
            Err(refusal) => self.refused(refusal),
        }
    }
}
