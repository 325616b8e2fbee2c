// G.722 sessions. An encoder or a decoder is begun from a rate and a start; each call takes it by value and hands it back.
#![tactic(auto)]

mod decoders;
mod encoders;
mod sessions;

use band::Filters;
use std::marker::PhantomData;

// For callers: nothing here reads them.
pub const PAYLOAD_TYPE: u8 = 9;

pub const CLOCK_RATE: u32 = 8000;

pub const SAMPLES_PER_FRAME: u32 = 160;

// Both kinds have these as constants of their own; what stands in a generic impl has no value that a proof knows.
const START_MOST: u8 = 1;

const POSITION_MOST: u32 = u32::MAX;

const MARK_LENGTH_MOST: usize = 512;

// The two kinds of session, at the level of types.
#[derive(Clone, Copy)]
pub struct Encoding;

#[derive(Clone, Copy)]
pub struct Decoding;

// Position counts samples at the session's rate: those that an encoder has taken, or a decoder has given out.
#[derive(Clone, Copy)]
pub struct Session<K> {
    pub rate: u32,
    // A number and no enum: `begin` refuses all but 0 and 1, and a session that a caller made may hold any.
    pub start: u8,
    pub position: u32,
    pub filters: Filters,
    pub kind: PhantomData<K>,
}

pub type Encoder = Session<Encoding>;

pub type Decoder = Session<Decoding>;
