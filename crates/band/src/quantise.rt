// Blocks 1L and 1H: the quantisers. They and what they call are apart for the two bands, as the standard names them: they share no table and no search.
ghost use Rattle.std.specs.Prelude.{◌≡◌, ◌<◌};
ghost use Rattle.band.specs.Quantise.{size, below, place_low, place_high, QUANTL, QUANTH};

use crate::tables;

// -(e + 1) where e is negative. pcma has the same of its own: the crates share nothing below them.
fn size_of(e: i16) -> i16
    ensures { result ≡ size e }
{
    if e < 0 { !e } else { e }
}

// Whether the size w is below the level q at the scale factor det.
fn below(w: i16, q: i16, det: i16) -> bool
    ensures { result ≡ below w det q }
{
    (w as i32) < (fixed::product(q, det) >> 12)
}

fn place_low(w: i16, det: i16) -> usize
    ensures { (result ≡ place_low w det) × (result < 31) }
{
    tables::Q6[1..30]
        .iter()
        .position(|q| below(w, *q, det))
        .map_or(30, |i| i + 1)
}

fn place_high(w: i16, det: i16) -> usize
    ensures { (result ≡ place_high w det) × (result < 3) }
{
    if below(w, 564, det) { 1 } else { 2 }
}

// Block 1L, QUANTL: the low band's six bits.
pub fn quantl(el: i16, det: i16) -> u8
    ensures { result ≡ QUANTL el det }
{
    let i = place_low(size_of(el), det);
    if el < 0 {
        tables::ILN[i]
    } else {
        tables::ILP[i]
    }
}

// Block 1H, QUANTH: the high band's two bits.
pub fn quanth(eh: i16, det: i16) -> u8
    ensures { result ≡ QUANTH eh det }
{
    let i = place_high(size_of(eh), det);
    if eh < 0 {
        tables::IHN[i]
    } else {
        tables::IHP[i]
    }
}
