// A session's mark: one line of text that says it whole, written into a lent buffer, and restored.
#![tactic(auto)]

mod flat;
mod reading;

ghost use Rattle.std.specs.Prelude.{◌≡◌, ◌≤◌, ◌^◌, ℕ, length, ltb};
ghost use Rattle.answers.specs.Outcomes.{outcome};
ghost use Rattle.line.specs.Letters.{letter_e, letter_d};
ghost use Rattle.line.specs.Line.{line_text};
ghost use Rattle.g722.specs.Session.{in_bounds};
ghost use Rattle.mark.specs.Answer.{letter_of, write_number};
ghost use Rattle.mark.specs.Marks.{session_line, write_answer, write_out, restore_answer};

use answers::{Answer, Outcome, Refusal};
use g722::{Decoding, Encoder, Encoding, Session};

// A kind of session, by the letter that its lines have.
pub trait Kind: Copy {
    ghost letter: { ℕ };

    fn letter() -> u8
        ensures { result ≡ letter };
}

impl Kind for Encoding {
    ghost letter = { letter_e };

    fn letter() -> u8 {
        line::LETTER_E
    }
}

impl Kind for Decoding {
    ghost letter = { letter_d };

    fn letter() -> u8 {
        line::LETTER_D
    }
}

// The letter of a start.
#[tactic(auto, unfolding(crate::specs::Answer::letter_of))]
fn letter_of(start: u8) -> u8
    ensures { result ≡ letter_of start }
{
    if start == 1 {
        line::LETTER_S
    } else {
        line::LETTER_Z
    }
}

// Whether a line of the numbers, whatever its letters, is longer than the room. It is measured only where fewer bytes are lent than hold
// every line: measuring was a third of the instructions of a fresh mark.
fn overfills(numbers: &[i64], room: usize) -> bool
    requires few { length numbers.now ≤ 2 ^ 32 }
    requires short { (kind start : ℕ) → length (line_text kind start numbers.now) ≤ 512 }
    ensures { (kind start : ℕ) → result ≡ ltb room (length (line_text kind start numbers.now)) }
{
    room < Encoder::MARK_LENGTH_MOST && room < line::line_length(numbers)
}

// Writes the session's line at the front of `out`.
#[tactic(auto, unfolding(crate::specs::Answer::write_number, crate::specs::Marks::write_out))]
fn write_line<K: Kind>(session: Session<K>, out: &mut [u8]) -> Outcome
    ensures value { let line = session_line K.letter session in result ≡ outcome (write_number (in_bounds session) line (length out.old)) (length line) }
    ensures written { out.new ≡ write_out K.letter session out.old }
{
    if !session.in_bounds() {
        return Err(Refusal::OutOfBounds);
    }
    let numbers = flat::numbers_of(session.rate, session.position, session.filters);
    if overfills(&numbers, out.len()) {
        return Err(Refusal::NoRoom);
    }
    let count = line::write_line(out, K::letter(), letter_of(session.start), &numbers);
    Ok(count)
}

// Writes the session's mark at the front of `out`. The count is that of the line's bytes.
#[tactic(auto, unfolding(crate::specs::Marks::write_answer))]
pub fn write<K: Kind>(session: Session<K>, out: &mut [u8]) -> Answer<Session<K>>
    ensures answer { result ≡ write_answer K.letter session (length out.old) }
    ensures written { out.new ≡ write_out K.letter session out.old }
{
    Answer {
        outcome: write_line(session, out),
        session,
    }
}

// The session that the line says. Of `session` nothing is kept, unless the call refuses.
#[tactic(auto, unfolding(crate::specs::Answer::restore_number, crate::specs::Marks::restore_answer))]
pub fn restore<K: Kind>(session: Session<K>, line: &[u8]) -> Answer<Session<K>>
    ensures answer { result ≡ restore_answer K.letter session line.now }
{
    let read = if session.in_bounds() {
        reading::read(line)
    } else {
        Err(Refusal::OutOfBounds)
    };
    match read {
        Ok(restored) => Answer {
            outcome: Ok(0),
            session: restored,
        },
        Err(refusal) => Answer {
            outcome: Err(refusal),
            session,
        },
    }
}
