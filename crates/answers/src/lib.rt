// What a call answers: how many items it wrote, or why it refused, and the session that it hands back. docs/RULES.md, "Answers".
#![tactic(auto)]

ghost use Rattle.std.specs.Prelude.{◌≡◌};
ghost use Rattle.answers.specs.Outcomes.{number_of, count_of};

// Why a call refused. Each has its number in the table of docs/RULES.md.
#[derive(Clone, Copy, Debug, PartialEq, Eq)]
pub enum Refusal {
    // begin: the start is neither 0 nor 1
    BadStart = 1,
    // a session given is outside the bounds
    OutOfBounds = 2,
    // an odd count of samples, or of the bytes that stand for samples
    OddCount = 3,
    // the output has less room than the result needs
    NoRoom = 4,
    // the position would pass 4294967295
    PositionPastEnd = 5,
    // restore: the mark is malformed
    Malformed = 6,
    // restore: a well-formed mark of the other kind
    OtherKind = 7,
    // restore: a number in the mark is outside its bounds
    NumberOutOfBounds = 8,
}

// How many items a call wrote, or why it refused.
pub type Outcome = Result<usize, Refusal>;

// What a call on a session came to, and the session that it hands back.
#[derive(Clone, Copy)]
pub struct Answer<S> {
    pub outcome: Outcome,
    pub session: S,
}

// The number that docs/RULES.md gives an outcome: 0 where the call is done.
pub fn number(outcome: Outcome) -> u8
    ensures { result ≡ number_of outcome }
{
    match outcome {
        Ok(_) => 0,
        Err(refusal) => refusal as u8,
    }
}

// How many items a call wrote: a refusal wrote nothing.
pub fn count(outcome: Outcome) -> usize
    ensures { result ≡ count_of outcome }
{
    outcome.unwrap_or(0)
}
