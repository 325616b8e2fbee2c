// What sessions of both kinds have.
ghost use Rattle.std.specs.Prelude.{◌≡◌, ◌+◌, ◌≤◌, Ok, Err};
ghost use Rattle.g722.specs.Session.{begun, fresh_at, in_bounds, moved, position_most, session_at};

use crate::{POSITION_MOST, START_MOST, Session};
use answers::{Answer, Refusal};
use band::Filters;
use std::marker::PhantomData;

// det of the standard start.
const LOW_DET: i16 = 32;

const HIGH_DET: i16 = 8;

#[tactic(auto, using(std::proofs::lemmas::Bool::ne_eqb), unfolding(crate::specs::Session::fresh_at))]
fn fresh_at(start: u8) -> Filters
    ensures { result ≡ fresh_at start }
{
    if start == 1 {
        return Filters::fresh(LOW_DET, HIGH_DET);
    }
    Filters::fresh(0, 0)
}

impl<K> Session<K> {
    #[tactic(auto, unfolding(crate::specs::Session::begun, crate::specs::Session::begin_number, crate::specs::Session::start_begun))]
    pub fn begin(rate: u32, start: u8) -> Answer<Self>
        ensures { result ≡ begun rate start }
    {
        if START_MOST < start {
            return Self::fresh(rate, 0).refused(Refusal::BadStart);
        }
        Self::fresh(rate, start).done(0)
    }

    fn fresh(rate: u32, start: u8) -> Self
        ensures { result ≡ session_at rate start 0 (fresh_at start) }
    {
        Session {
            rate,
            start,
            position: 0,
            filters: fresh_at(start),
            kind: PhantomData,
        }
    }

    #[tactic(auto, unfolding(crate::specs::Session::session_in_bounds))]
    pub fn in_bounds(self) -> bool
        ensures { result ≡ in_bounds self }
    {
        self.start <= START_MOST && self.filters.in_bounds()
    }

    // How far the position can still move.
    pub(crate) fn left(self) -> usize
        ensures { self.position + result ≡ position_most }
    {
        (POSITION_MOST - self.position) as usize
    }

    // The session so many samples further on, with these filters.
    pub(crate) fn moved(self, samples: usize, filters: Filters) -> Self
        requires { self.position + samples ≤ position_most }
        ensures { result ≡ moved self samples filters }
    {
        Session {
            position: self.position + samples as u32,
            filters,
            ..self
        }
    }

    // A call that has written so many items hands this session back.
    pub(crate) fn done(self, count: usize) -> Answer<Self>
        ensures { result ≡ record { outcome = Ok count; session = self } }
    {
        Answer {
            outcome: Ok(count),
            session: self,
        }
    }

    pub(crate) fn refused(self, refusal: Refusal) -> Answer<Self>
        ensures { result ≡ record { outcome = Err refusal; session = self } }
    {
        Answer {
            outcome: Err(refusal),
            session: self,
        }
    }
}
