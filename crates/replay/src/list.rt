// A list of cases, read piece by piece: the whole lines of a piece are run, and what is left of the last one waits for more.
use crate::case::Replay;
use std::io;
use std::io::Read;

fn run_lines(text: &[u8], replay: &mut Replay) {
    for line in text.split(|b| *b == b'\n') {
        replay.run_line(line);
    }
}

// What waits stands in fixed memory, where a BufReader would take the heap.
// A loop that is proved has to end, so its turns are counted, up to a number that no list uses up.
pub(crate) fn run<R: Read>(file: &mut R, replay: &mut Replay) -> io::Result<()> {
    replay.begin_list();
    let mut text = [0; 65536];
    let mut held = 0;
    for _piece in 0..u64::MAX {
        let n = file.read(&mut text[held..])?;
        if n == 0 {
            // The list's end, or a line that leaves no room: it is the last, and needs no newline.
            replay.run_line(&text[..held]);
            break;
        }
        held += n;
        if let Some(end) = text[..held].iter().rposition(|b| *b == b'\n') {
            run_lines(&text[..end], replay);
            text.copy_within(end + 1..held, 0);
            held -= end + 1;
        }
    }
    Ok(())
}
