// What the rate decides: 8000 resamples, and every other rate means two samples a byte.
ghost use Rattle.std.specs.Prelude.{cond, ◌≡◌, ◌<◌, ◌^◌, ltb};
ghost use Rattle.runs.specs.Rates.{encode_room, decode_room, odd_at, resamples};

// The rate at which one sample goes with a byte.
const RESAMPLED: u32 = 8000;

// How many samples go with a byte.
pub(crate) fn samples_a_byte(rate: u32) -> usize
    ensures { result ≡ cond (resamples rate) 1 2 }
{
    if rate == RESAMPLED { 1 } else { 2 }
}

// How many bytes n samples give.
#[tactic(auto, unfolding(crate::specs::Rates::encode_room))]
pub fn encode_room(rate: u32, n: usize) -> usize
    ensures { result ≡ encode_room rate n }
{
    n / samples_a_byte(rate)
}

// How many samples n bytes give.
#[tactic(auto, unfolding(crate::specs::Rates::decode_room))]
pub fn decode_room(rate: u32, n: usize) -> usize
    requires { n < 2 ^ 63 }
    ensures { result ≡ decode_room rate n }
{
    samples_a_byte(rate) * n
}

// Whether n bytes give more samples than there is room for; also where twice n is no usize.
#[tactic(auto, unfolding(crate::specs::Rates::decode_room))]
pub fn decode_overfills(rate: u32, n: usize, room: usize) -> bool
    ensures { result ≡ ltb room (decode_room rate n) }
{
    room / samples_a_byte(rate) < n
}

// Whether n samples leave one that has no pair.
#[tactic(auto, unfolding(crate::specs::Rates::odd_at))]
pub fn odd_at(rate: u32, n: usize) -> bool
    ensures { result ≡ odd_at rate n }
{
    n % samples_a_byte(rate) != 0
}
