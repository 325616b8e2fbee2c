// Runs of G.722 over samples as bytes. The runs take and give samples, so these go through a local array, a piece at a time.
// Encoding and decoding differ in their order of calls, and in what a turn writes.
#![tactic(auto)]

ghost use Rattle.std.specs.Prelude.{false, ◌≡◌, ◌*◌, ◌/◌, ◌%◌, ◌≤◌, length};
ghost use Rattle.std.proofs.lemmas.List.Edits.{sets};
ghost use Rattle.samples.specs.Bytes.{samples, bytes};
ghost use Rattle.runs.specs.Rates.{encode_room, decode_room, odd_at};
ghost use Rattle.runs.specs.Runs.{pairs_at, kept_at, filters_after_pairs, bytes_of_pairs, filters_after_bytes, pairs_of_bytes};

use band::Filters;
use runs::rates;
use samples::{bits, sample};

// How many samples a piece has: an even number, so that it ends with a pair.
const PIECE: usize = 2048;

// Fills out with the samples of input.
fn unpack(input: &[u8], out: &mut [i16])
    requires { length input.now ≡ 2 * length out.old }
    ensures { out.new ≡ samples input.now }
{
    for (i, pair) in input.chunks_exact(2).enumerate() {
        out[i] = sample(pair[0], pair[1]);
    }
}

// The bytes of input, from out's first place on. As lookup's `decode_to_bytes`, without a law.
fn pack(input: &[i16], out: &mut [u8])
    requires { 2 * length input.now ≤ length out.old }
    ensures { out.new ≡ sets out.old 0 (bytes input.now) }
{
    for (i, s) in input.iter().enumerate() {
        let [lo, hi] = bits(*s).to_le_bytes();
        out[2 * i] = lo;
        out[2 * i + 1] = hi;
    }
}

// Encodes the samples of input, which end with a pair.
pub fn encode(rate: u32, input: &[u8], out: &mut [u8], filters: Filters) -> Filters
    requires input_len { (length input.now % 2 ≡ 0) × (odd_at rate (length input.now / 2) ≡ false) }
    requires input_in_bounds { encode_room rate (length input.now / 2) ≤ length out.old }
    ensures value { result ≡ filters_after_pairs filters (pairs_at rate (samples input.now)) }
    ensures out_after { out.new ≡ sets out.old 0 (bytes_of_pairs filters (pairs_at rate (samples input.now))) }
{
    let mut piece = [0i16; PIECE];
    let mut f = filters;
    // How many bytes are written so far.
    let mut o = 0;
    for part in input.chunks(2 * PIECE) {
        let n = part.len() / 2;
        let unpacked = &mut piece[..n];
        unpack(part, unpacked);
        f = runs::encode_run(rate, unpacked, &mut out[o..], f);
        o += rates::encode_room(rate, n);
    }
    f
}

// Decodes the bytes of input, each of which gives two samples at the most.
pub fn decode(rate: u32, input: &[u8], out: &mut [u8], filters: Filters) -> Filters
    requires { decode_room rate (length input.now) ≤ length out.old / 2 }
    ensures value { result ≡ filters_after_bytes filters input.now }
    ensures out_after { out.new ≡ sets out.old 0 (bytes (kept_at rate (pairs_of_bytes filters input.now))) }
{
    let mut piece = [0i16; PIECE];
    let mut f = filters;
    // How many bytes are written so far.
    let mut o = 0;
    for part in input.chunks(PIECE / 2) {
        let n = rates::decode_room(rate, part.len());
        let decoded = &mut piece[..n];
        f = runs::decode_run(rate, part, decoded, f);
        pack(decoded, &mut out[o..]);
        o += 2 * n;
    }
    f
}
