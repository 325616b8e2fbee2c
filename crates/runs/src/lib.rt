// Runs of G.722 over the filters alone: samples to bytes, and bytes to samples. One loop each for all rates, so that the step of a
// byte is called in one place. They ask for room, and no user calls them: sessions and pieces do. The rate and the filters come apart,
// and not as a struct: the session that keeps both is a crate above, and only the filters change. Encoding and decoding differ in what
// a turn takes and writes.
#![tactic(auto)]

pub mod rates;

ghost use Rattle.std.specs.Prelude.{◌≡◌, ◌≤◌, length};
ghost use Rattle.std.proofs.lemmas.List.Edits.{sets};
ghost use Rattle.runs.specs.Rates.{encode_room, decode_room};
ghost use Rattle.runs.specs.Runs.{pairs_at, kept_at, filters_after_pairs, bytes_of_pairs, filters_after_bytes, pairs_of_bytes};

use band::Filters;

// A byte of each pair of samples, from out's first place on.
pub fn encode_run(rate: u32, input: &[i16], out: &mut [u8], f: Filters) -> Filters
    requires { encode_room rate (length input.now) ≤ length out.old }
    ensures value { result ≡ filters_after_pairs f (pairs_at rate input.now) }
    ensures out_after { out.new ≡ sets out.old 0 (bytes_of_pairs f (pairs_at rate input.now)) }
{
    let n = rates::samples_a_byte(rate);
    let mut g = f;
    for (i, pair) in input.chunks_exact(n).enumerate() {
        // A single sample is both of its pair.
        let coded = step::encode_step(pair[0], pair[n - 1], g);
        g = coded.filters;
        out[i] = coded.byte;
    }
    g
}

// The samples that are kept of each byte, from out's first place on.
pub fn decode_run(rate: u32, input: &[u8], out: &mut [i16], f: Filters) -> Filters
    requires { decode_room rate (length input.now) ≤ length out.old }
    ensures value { result ≡ filters_after_bytes f input.now }
    ensures out_after { out.new ≡ sets out.old 0 (kept_at rate (pairs_of_bytes f input.now)) }
{
    let n = rates::samples_a_byte(rate);
    let mut g = f;
    // Counted: `n * i` was slower.
    let mut o = 0;
    for byte in input {
        let decoded = step::decode_step(*byte, g);
        g = decoded.filters;
        out[o] = decoded.first;
        // Under a test, so that the compiler leaves out the work on a second sample that is not kept.
        if n == 2 {
            out[o + 1] = decoded.second;
        }
        o += n;
    }
    g
}
