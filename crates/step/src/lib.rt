// One step of G.722 at either end: a byte to two samples, and two samples to a byte.
#![tactic(auto)]

mod qmf;

ghost use Rattle.std.specs.Prelude.{◌≡◌, pos, ◌+ℤ◌};
ghost use Rattle.fixed.specs.Number.{minus, Is};
ghost use Rattle.step.specs.Step.{LIMIT, decode_step, encode_step};

use band::{Filters, adapt, quantise, tables, update};

// What one byte gives: the filters after it, and two samples.
#[derive(Clone, Copy)]
pub struct Decoded {
    pub filters: Filters,
    pub first: i16,
    pub second: i16,
}

// What two samples give: the filters after them, and a byte.
#[derive(Clone, Copy)]
pub struct Encoded {
    pub filters: Filters,
    pub byte: u8,
}

// What a band gives out: s and the difference d, within 15 bits.
fn limited(s: i16, d: i16) -> i32
    ensures { Is (minus 16384) (pos 16383) (LIMIT (s +ℤ d)) result }
{
    (s as i32 + d as i32).clamp(-16384, 16383)
}

pub fn decode_step(byte: u8, f: Filters) -> Decoded
    ensures { result ≡ decode_step f byte }
{
    let ilow = (byte % 64) as usize;
    let ihigh = (byte / 64) as usize;
    let ril = ilow / 4;
    let Filters { x, low, high } = f;
    // All six bits for what is given out, the upper four for the predictor.
    let q_of_six = tables::QM6[ilow];
    let q_of_four = tables::QM4[ril];
    // Block 5L, INVQBL and RECONS
    let dlow_of_six = adapt::invq(low.det, q_of_six);
    let rlow = limited(low.s, dlow_of_six);
    // Block 5H, INVQAH and RECONS
    let q_of_high = tables::QM2[ihigh];
    let dhigh = adapt::invq(high.det, q_of_high);
    let rhigh = limited(high.s, dhigh);
    // Blocks 2L, 3L and 4L
    let new_low = update::low_update(ril, q_of_four, low);
    // Blocks 2H, 3H and 4H
    let new_high = update::high_update(ihigh, q_of_high, high);
    // Receive QMF
    let x = qmf::shifted(x, (rlow + rhigh) as i16, (rlow - rhigh) as i16);
    let sums = qmf::sum(x);
    let first = qmf::received(sums.even);
    let second = qmf::received(sums.odd);
    let filters = Filters {
        x,
        low: new_low,
        high: new_high,
    };
    Decoded {
        filters,
        first,
        second,
    }
}

pub fn encode_step(a: i16, b: i16, f: Filters) -> Encoded
    ensures { result ≡ encode_step f a b }
{
    let Filters { x, low, high } = f;
    // Transmit QMF
    let x = qmf::shifted(x, a, b);
    let sums = qmf::sum(x);
    let xlow = qmf::transmitted(sums.even + sums.odd);
    let xhigh = qmf::transmitted(sums.even - sums.odd);
    // Block 1L, SUBTRA and QUANTL
    let el = fixed::saturate(xlow - low.s as i32);
    let ilow = quantise::quantl(el, low.det);
    let ril = (ilow / 4) as usize;
    // Blocks 2L, 3L and 4L
    let new_low = update::low_update(ril, tables::QM4[ril], low);
    // Block 1H, SUBTRA and QUANTH
    let eh = fixed::saturate(xhigh - high.s as i32);
    let ihigh = quantise::quanth(eh, high.det);
    let code = ihigh as usize;
    // Blocks 2H, 3H and 4H
    let new_high = update::high_update(code, tables::QM2[code], high);
    let filters = Filters {
        x,
        low: new_low,
        high: new_high,
    };
    let byte = 64 * ihigh + ilow;
    Encoded { filters, byte }
}
