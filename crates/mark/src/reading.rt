// The session that a mark's line says.
ghost use Rattle.std.specs.Prelude.{◌≡◌, true};
ghost use Rattle.line.specs.Line.{plain_two};
ghost use Rattle.mark.specs.Answer.{start_of};
ghost use Rattle.mark.specs.Reading.{said_by, reading};

use crate::flat::NUMBER_COUNT;
use crate::{Kind, flat};
use answers::Refusal;
use g722::Session;
use std::marker::PhantomData;

// The start of a letter.
#[tactic(auto, unfolding(crate::specs::Answer::start_of))]
fn start_of(letter: u8) -> u8
    ensures { result ≡ start_of letter }
{
    if letter == line::LETTER_S { 1 } else { 0 }
}

// The session of a line's start letter and numbers, if these are within its bounds.
fn said_by<K: Kind>(letter: u8, numbers: &[i64; NUMBER_COUNT]) -> Option<Session<K>>
    requires { plain_two numbers.now ≡ true }
    ensures { result ≡ said_by letter numbers.now }
{
    let rate = u32::try_from(numbers[0]).ok()?;
    let position = u32::try_from(numbers[1]).ok()?;
    let filters = flat::filters_of(&numbers[2..])?;
    Some(Session {
        rate,
        start: start_of(letter),
        position,
        filters,
        kind: PhantomData,
    })
}

// Reads a line of the kind.
pub(crate) fn read<K: Kind>(text: &[u8]) -> Result<Session<K>, Refusal>
    ensures { result ≡ reading K.letter text.now }
{
    let mut numbers = [0i64; NUMBER_COUNT];
    let found = line::read_line(text, 0, &mut numbers).ok_or(Refusal::Malformed)?;
    if found.count != text.len() {
        return Err(Refusal::Malformed);
    }
    if found.kind != K::letter() {
        return Err(Refusal::OtherKind);
    }
    said_by(found.start, &numbers).ok_or(Refusal::NumberOutOfBounds)
}
