// A band's record, and what both ends of G.722 do with it: quantisers, scale factors, and the predictor of block 4.
#![tactic(auto)]

pub mod adapt;
mod block4;
pub mod quantise;
pub mod tables;
pub mod update;

ghost use Rattle.std.specs.Prelude.{◌≡◌};
ghost use Rattle.band.specs.Fresh.{fresh_band, fresh_filters};
ghost use Rattle.band.specs.Bounds.{between, band_in_bounds, filters_in_bounds};

// One band's predictor: the numbers of the standard's block 4, and of 3L or 3H. Each is a field: the bounds and a mark line name them one by one.
#[derive(Clone, Copy, Default)]
pub struct Band {
    pub s: i16,
    pub sp: i16,
    pub sz: i16,
    pub r1: i16,
    pub r2: i16,
    pub a1: i16,
    pub a2: i16,
    pub p1: i16,
    pub p2: i16,
    pub d1: i16,
    pub d2: i16,
    pub d3: i16,
    pub d4: i16,
    pub d5: i16,
    pub d6: i16,
    pub b1: i16,
    pub b2: i16,
    pub b3: i16,
    pub b4: i16,
    pub b5: i16,
    pub b6: i16,
    pub nb: i16,
    pub det: i16,
}

// What both ends keep from one byte to the next.
#[derive(Clone, Copy)]
pub struct Filters {
    pub x: [i16; 24],
    pub low: Band,
    pub high: Band,
}

fn within(v: i32, lo: i32, hi: i32) -> bool
    ensures { result ≡ between lo hi v }
{
    (lo..=hi).contains(&v)
}

impl Band {
    pub const LOW_NB_MOST: i32 = 18432;

    pub const HIGH_NB_MOST: i32 = 22528;

    pub const A2_MOST: i32 = 12288;

    pub const A1_AND_A2_MOST: i32 = 15360;

    pub const DET_MOST: i32 = 16384;

    // Everything 0, but det.
    pub fn fresh(det: i16) -> Self
        ensures { result ≡ fresh_band det }
    {
        Self {
            det,
            ..Self::default()
        }
    }

    // Every number is one of 16 bits by its type; `most` is the greatest nb. `&` here and in `Filters`: one case for the proof, where `&&` has several.
    pub fn in_bounds(self, most: i32) -> bool
        ensures { result ≡ band_in_bounds self most }
    {
        let a1 = self.a1 as i32;
        let a2 = self.a2 as i32;
        let nb = self.nb as i32;
        let det = self.det as i32;
        let rest = Band::A1_AND_A2_MOST - a2;
        within(a2, -Band::A2_MOST, Band::A2_MOST)
            & within(a1, -rest, rest)
            & within(nb, 0, most)
            & within(det, 0, Band::DET_MOST)
    }
}

impl Filters {
    pub fn fresh(low_det: i16, high_det: i16) -> Self
        ensures { result ≡ fresh_filters low_det high_det }
    {
        let low = Band::fresh(low_det);
        let high = Band::fresh(high_det);
        Self {
            x: [0; 24],
            low,
            high,
        }
    }

    pub fn in_bounds(self) -> bool
        ensures { result ≡ filters_in_bounds self }
    {
        let low_in = self.low.in_bounds(Band::LOW_NB_MOST);
        let high_in = self.high.in_bounds(Band::HIGH_NB_MOST);
        low_in & high_in
    }
}
