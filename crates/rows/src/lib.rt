// The text of a listing: a header, a row with the index and the value of each sample, and the total.
#![tactic(auto)]

ghost use Rattle.std.specs.Prelude.{◌≡◌, ◌+◌, ◌*◌, ◌≤◌, ◌<◌, ◌^◌, length};
ghost use Rattle.std.proofs.lemmas.List.Edits.{sets};
ghost use Rattle.answers.specs.Outcomes.{count_of};
ghost use Rattle.rows.specs.Text.{header_text, row_text, rows_text, end_text, row_most};
ghost use Rattle.rows.specs.Listing.{rows_for, list_answer, list_out, fitting_bytes};

use answers::Answer;
use g722::Decoder;
use text::number::write_number;
use text::{NEWLINE, TAB};

// A row has at most ten digits, a tab, a minus with five digits and a newline.
pub const ROW_MOST: usize = 18;

// The most bytes of the last row.
pub const END_MOST: usize = 15;

// The most samples, and so the most rows, that one call lists.
pub const SAMPLES_MOST: usize = 2048;

pub fn header() -> [u8; 13]
    ensures { result ≡ header_text }
{
    *b"sample\tvalue\n"
}

// Writes the row of a sample at `at`, and answers the place after it.
fn write_row(out: &mut [u8], at: usize, index: u64, value: i16) -> usize
    requires index_bound { index < 10 ^ 10 }
    requires row_most_in_bounds { at + row_most ≤ length out.old }
    ensures value { result ≡ at + length (row_text index value) }
    ensures out_after { out.new ≡ sets out.old at (row_text index value) }
{
    let tab = write_number(out, at, index as i64);
    out[tab] = TAB;
    let newline = write_number(out, tab + 1, value as i64);
    out[newline] = NEWLINE;
    newline + 1
}

// Writes the rows of the samples from out's first place on, and answers how many bytes they take.
fn write_rows(first: u64, samples: &[i16], out: &mut [u8]) -> usize
    requires samples_bound { first + length samples.now ≤ 10 ^ 10 }
    requires samples_in_bounds { row_most * length samples.now ≤ length out.old }
    ensures value { result ≡ length (rows_text first samples.now) }
    ensures out_after { out.new ≡ sets out.old 0 (rows_text first samples.now) }
    ensures upper_bound { result ≤ length out.new }
{
    let mut at = 0;
    for (i, sample) in samples.iter().enumerate() {
        at = write_row(out, at, first + i as u64, *sample);
    }
    at
}

// How many rows one call can write into so many bytes.
fn rows_for(room: usize) -> usize
    ensures { result ≡ rows_for room }
{
    SAMPLES_MOST.min(room / ROW_MOST)
}

// Room for the samples of one call. Its contract gives only the length, which lending it needs.
fn sample_room() -> [i16; SAMPLES_MOST]
    ensures { 2048 ≡ length result }
{
    [0; SAMPLES_MOST]
}

// Decodes the input and writes the rows of its samples, whose indices begin with `first` and have at most ten digits. Refuses as
// `decode` does, where the room is counted in rows. The count is that of the bytes written.
pub fn list(first: u64, input: &[u8], out: &mut [u8], session: Decoder) -> Answer<Decoder>
    requires { first + 2048 ≤ 10 ^ 10 }
    ensures answer { result ≡ list_answer first session input.now (length out.old) }
    ensures written { out.new ≡ list_out first session input.now out.old }
    ensures within { count_of result.outcome ≤ length out.new }
{
    let mut samples = sample_room();
    let room = rows_for(out.len());
    let answer = session.decode(input, &mut samples[..room]);
    match answer.outcome {
        Ok(n) => Answer {
            outcome: Ok(write_rows(first, &samples[..n], out)),
            ..answer
        },
        Err(_) => answer,
    }
}

// How many of `count` bytes a decoder at 16000 can still take: each moves its position by two.
pub fn fitting(position: u32, count: usize) -> usize
    ensures { result ≡ fitting_bytes position count }
{
    count.min(((Decoder::POSITION_MOST - position) / 2) as usize)
}

// Writes the last row, and answers how many bytes it takes.
pub fn write_end(total: u64, out: &mut [u8; END_MOST]) -> usize
    requires { total < 10 ^ 10 }
    ensures answer { result ≡ length (end_text total) }
    ensures written { out.new ≡ sets out.old 0 (end_text total) }
    ensures within { result ≤ length out.new }
{
    out[..4].copy_from_slice(b"end\t");
    let end = write_number(out, 4, total as i64);
    out[end] = NEWLINE;
    end + 1
}
