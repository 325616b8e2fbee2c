// Lists the samples of the G.722 bytes on standard input, decoded from the zero start at 16000: a header, a row with the index and
// the value of each sample, and the total.
#![tactic(auto)]

ghost use Rattle.std.specs.Prelude.{◌≡◌, ◌≤◌, length, IfOk};
ghost use Rattle.g722.specs.Decoding.{decoder_after};
ghost use Rattle.rows.specs.Listing.{Ready};

use g722::Decoder;
use std::io;
use std::io::{Read, Write};

const RATE: u32 = 16000;

const ZERO_START: u8 = 0;

// So many bytes are decoded at a time, and their 2048 rows of at most 18 bytes written at once: 36864 bytes.
const PIECE: usize = 1024;

// Lists the bytes, piece by piece.
fn list_bytes<W: Write>(
    to: &mut W,
    bytes: &[u8],
    text: &mut [u8],
    before: Decoder,
) -> io::Result<Decoder>
    requires ready { Ready before (length bytes.now) }
    requires room { 36864 ≤ length text.old }
    ensures ready { IfOk result (λ session. Ready session 0) }
    ensures all { IfOk result (λ session. session ≡ decoder_after before bytes.now) }
{
    let mut session = before;
    for piece in bytes.chunks(PIECE) {
        let answer = rows::list(session.position as u64, piece, text, session);
        session = answer.session;
        to.write_all(&text[..answers::count(answer.outcome)])?;
    }
    Ok(session)
}

// Lists what comes, up to where the position ends. A proved loop has to end, and nothing says that standard input does: so its turns are
// counted, up to a number that no run uses up.
fn list_all<R: Read, W: Write, E: Write>(
    from: &mut R,
    to: &mut W,
    told: &mut E,
    begun: Decoder,
) -> io::Result<Decoder>
    requires { Ready begun 0 }
{
    // Fixed memory, where a Vec would take the heap.
    let mut input = [0u8; 65536];
    let mut text = [0u8; 65536];
    let mut session = begun;
    for _turn in 0..u64::MAX {
        let n = from.read(&mut input)?;
        let fit = rows::fitting(session.position, n);
        session = list_bytes(to, &input[..fit], &mut text, session)?;
        if fit < n {
            told.write_all(b"stopped after 2147483647 bytes: a position is at most 4294967295\n")?;
        }
        if n == 0 || fit < n {
            break;
        }
    }
    Ok(session)
}

fn main(rt: HostRuntime) -> io::Result<()> {
    let mut to = rt.stdout();
    to.write_all(&rows::header())?;
    let begun = Decoder::begin(RATE, ZERO_START).session;
    let last = list_all(&mut rt.stdin(), &mut to, &mut rt.stderr(), begun)?;
    let mut row = [0u8; rows::END_MOST];
    let n = rows::write_end(last.position as u64, &mut row);
    to.write_all(&row[..n])
}
