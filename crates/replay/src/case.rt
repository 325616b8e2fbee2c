// One case: the call that its line names, run and compared with what the line wants.
ghost use Rattle.std.specs.Prelude.{◌<◌};

use crate::words;

// What stands in a lent buffer before a call, to see what the call leaves alone.
const BEFORE: u8 = 0xA5;

// The most bytes of an input and of an output, which stand in fixed memory: a Vec would take the heap.
const ROOM: usize = 4096;

// The room that `calls` asks for a new mark: its own constant is private.
const MARK_ROOM: usize = 512;

// The number of the call that the name says, or none where it says no call. A struct of what it takes would be made for
// this call alone.
fn call_coder(
    name: &[u8],
    mark: &[u8],
    input: &[u8],
    out: &mut [u8],
    new_mark: &mut [u8],
) -> Option<u32> {
    Some(match name {
        b"ue" => calls::rozimaha_pcmu_encode(input, out),
        b"ud" => calls::rozimaha_pcmu_decode(input, out),
        b"ae" => calls::rozimaha_pcma_encode(input, out),
        b"ad" => calls::rozimaha_pcma_decode(input, out),
        b"ge" => calls::rozimaha_g722_encode(mark, input, out, new_mark),
        b"gd" => calls::rozimaha_g722_decode(mark, input, out, new_mark),
        _ => return None,
    })
}

fn call_begin(name: &[u8], rate: u32, start: u32, mark: &mut [u8]) -> Option<u32> {
    Some(match name {
        b"be" => calls::rozimaha_g722_begin_encoder(rate, start, mark),
        b"bd" => calls::rozimaha_g722_begin_decoder(rate, start, mark),
        _ => return None,
    })
}

// The digest with one number more; each number's place counts. Its arithmetic stays as it is: `replay/stdout` records the digest.
fn taken_in(digest: u64, number: u64) -> u64
    ensures { result < 4294967291 }
{
    (digest % 4294967291 * 65599 + number % 4294967291) % 4294967291
}

fn digest_of(bytes: &[u8], before: u64) -> u64 {
    bytes
        .iter()
        .fold(before, |digest, byte| taken_in(digest, u64::from(*byte)))
}

// Whether the output is the bytes that the word says, and all behind them was left alone.
fn is_output(word: &[u8], out: &[u8; ROOM]) -> bool {
    let mut wanted = [BEFORE; ROOM];
    words::bytes(word, &mut wanted);
    *out == wanted
}

// Whether the mark is the line that the word says; a star, or no word, says nothing of it.
fn is_mark(word: &[u8], mark: &[u8]) -> bool {
    matches!(word, b"" | b"*") || matches!(mark.strip_prefix(word), Some([] | [b'\n', ..]))
}

// What the cases came to so far, and the mark that the last one left.
#[derive(Drop)]
pub(crate) struct Replay {
    pub cases: u64,
    pub wrong: u64,
    pub digest: u64,
    mark: [u8; MARK_ROOM],
}

impl Replay {
    pub(crate) fn new() -> Self {
        Replay {
            cases: 0,
            wrong: 0,
            digest: 0,
            mark: [0; MARK_ROOM],
        }
    }

    // A list does not go on from the mark of the list before.
    pub(crate) fn begin_list(&mut self) {
        self.mark.fill(0);
    }

    // Lines that are empty or begin with # say nothing.
    pub(crate) fn run_line(&mut self, line: &[u8]) {
        match line {
            [] | [b'#', ..] => {}
            [b'b', ..] => self.run_begin(line),
            _ => self.run_code(line),
        }
    }

    // Begins a session over a cleared mark: rate, start and room are told, and what is wanted: the number and the mark.
    fn run_begin(&mut self, line: &[u8]) {
        let [name, rate, start, room, wanted_number, wanted_mark] = words::split(line);
        let mut mark = [BEFORE; MARK_ROOM];
        let room = (words::number(room) as usize).min(mark.len());
        let number = call_begin(
            name,
            words::number(rate),
            words::number(start),
            &mut mark[..room],
        );
        let ok = number == Some(words::number(wanted_number)) && is_mark(wanted_mark, &mark);
        self.take_in(ok, number, &[], mark);
    }

    // Codes an input over a cleared output: the room is told, and what is wanted: the number, the output, and the mark where it is told.
    fn run_code(&mut self, line: &[u8]) {
        let [name, input, room, wanted_number, wanted_out, wanted_mark] = words::split(line);
        let mut bytes = [0; ROOM];
        let mut out = [BEFORE; ROOM];
        let mut mark = [BEFORE; MARK_ROOM];
        let n = words::bytes(input, &mut bytes);
        let room = (words::number(room) as usize).min(out.len());
        let number = call_coder(
            name,
            self.mark_line(),
            &bytes[..n],
            &mut out[..room],
            &mut mark,
        );
        let ok = number == Some(words::number(wanted_number))
            && is_output(wanted_out, &out)
            && is_mark(wanted_mark, &mark);
        self.take_in(ok, number, &out, mark);
    }

    // The line of the mark, with its newline; all of the mark where it has none.
    fn mark_line(&self) -> &[u8] {
        self.mark
            .split_inclusive(|b| *b == b'\n')
            .next()
            .unwrap_or_default()
    }

    // Takes in how a case came out. The counts begin anew past 2^32; where there was no call, the digest takes the greatest number.
    // A struct of the four would be no shorter: each caller would fill it for this call.
    fn take_in(&mut self, ok: bool, number: Option<u32>, out: &[u8], mark: [u8; MARK_ROOM]) {
        self.cases = self.cases % 4294967296 + 1;
        self.wrong = self.wrong % 4294967296 + u64::from(!ok);
        let number = u64::from(number.unwrap_or(u32::MAX));
        self.digest = digest_of(&mark, digest_of(out, taken_in(self.digest, number)));
        self.mark = mark;
    }
}
