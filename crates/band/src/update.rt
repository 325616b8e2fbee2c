// Blocks 2 to 4: what a code does to its band, the same at both ends. The bands share `update`; the two functions over it have the standard's names, tables and bases.
ghost use Rattle.std.specs.Prelude.{◌≡◌, ◌<◌, ◌≤◌, ◌*◌, ◌+◌, pos};
ghost use Rattle.fixed.specs.Number.{minus, In, In16, scaled_by};
ghost use Rattle.band.specs.Block4.{BLOCK4};
ghost use Rattle.band.specs.Adapt.{LOGSC, LOGSCL, LOGSCH, SCALE, SCALEL, SCALEH, updated};

use crate::{Band, adapt, block4, tables};

// q and w are the code's entries for the difference and for the scale factor. The old det scales the difference, and 2048 * (base + 1) is the greatest nb.
fn update(base: u32, q: i32, w: i32, band: Band) -> Band
    requires { (base ≤ 10) × (In (minus 32767) (pos 32767) q) × (In16 w) }
    ensures { result ≡ BLOCK4 band (scaled_by band.det q) (LOGSC (pos (2048 * (base + 1))) band.nb w) (SCALE base (LOGSC (pos (2048 * (base + 1))) band.nb w)) }
{
    let nb = adapt::logsc(band.nb, w, 2048 * (base as i32 + 1));
    let det = adapt::scale(base, nb);
    let d = adapt::invq(band.det, q);
    block4::block4(d, nb, det, band)
}

// Block 2L, INVQAL, from the entry q of QM4; block 3L, LOGSCL and SCALEL; block 4L. ril is the upper four of the six bits.
pub fn low_update(ril: usize, q: i32, band: Band) -> Band
    requires { (ril < 16) × (In (minus 32767) (pos 32767) q) }
    ensures { result ≡ updated LOGSCL SCALEL band (scaled_by band.det q) ril }
{
    let w = tables::WL[tables::RL42[ril]];
    update(8, q, w, band)
}

// Block 2H, INVQAH, from the entry q of QM2; block 3H, LOGSCH and SCALEH; block 4H.
pub fn high_update(ihigh: usize, q: i32, band: Band) -> Band
    requires { (ihigh < 4) × (In (minus 32767) (pos 32767) q) }
    ensures { result ≡ updated LOGSCH SCALEH band (scaled_by band.det q) ihigh }
{
    let w = tables::WH[tables::RH2[ihigh]];
    update(10, q, w, band)
}
