// Block 4: the predictor.
ghost use Rattle.std.specs.Prelude.{◌≡◌, pos, ◌+ℤ◌};
ghost use Rattle.fixed.specs.Number.{minus, In, Is, sat, signed_by, scaled_by};
ghost use Rattle.band.specs.Bounds.{a2_most};
ghost use Rattle.band.specs.Block4.{UPPOL2, UPPOL1, gain, FILTEP, FILTEZ, BLOCK4};

use crate::Band;

// Here and in uppol1 the parameters are those that the standard's block names, and no band.
fn uppol2(a1: i16, a2: i16, p0: i16, p1: i16, p2: i16) -> i16
    ensures { Is (minus a2_most) (pos a2_most) (UPPOL2 a1 a2 p0 p1 p2) result }
{
    let wd1 = fixed::saturate(a1 as i32 * 4);
    let wd2 = fixed::saturate(-fixed::by_signs(p0, p1, wd1 as i32));
    let wd3 = fixed::by_signs(p0, p2, 128);
    let leak = fixed::scaled(a2, 32512);
    ((wd2 as i32 >> 7) + wd3 + leak).clamp(-Band::A2_MOST, Band::A2_MOST) as i16
}

fn uppol1(a1: i16, ap2: i16, p0: i16, p1: i16) -> i16
    requires { In (minus a2_most) (pos a2_most) ap2 }
    ensures { result ≡ UPPOL1 a1 ap2 p0 p1 }
{
    let wd1 = fixed::by_signs(p0, p1, 192);
    let wd2 = fixed::scaled(a1, 32640);
    let wd3 = fixed::saturate(wd1 + wd2) as i32;
    let most = fixed::saturate(Band::A1_AND_A2_MOST - ap2 as i32) as i32;
    wd3.clamp(-most, most) as i16
}

// UPZERO's gain under the sign of d: taken once, for all six zeros.
fn signed_gain(d: i16) -> i32
    ensures { Is (minus 128) (pos 128) (signed_by d (gain d)) result }
{
    128 * d.signum() as i32
}

// UPZERO, for one of the six zeros: the gain under the sign of its own difference too.
fn upzero(gain: i32, di: i16, bi: i16) -> i16
    requires { In (minus 128) (pos 128) gain }
    ensures { result ≡ sat (signed_by di gain +ℤ scaled_by bi (pos 32640)) }
{
    fixed::saturate(fixed::signed_by(di, gain) + fixed::scaled(bi, 32640))
}

fn filtep(a1: i16, a2: i16, r1: i16, r2: i16) -> i16
    ensures { result ≡ FILTEP a1 a2 r1 r2 }
{
    fixed::saturate(fixed::tap(a1, r1) + fixed::tap(a2, r2))
}

fn filtez(b: [i16; 6], d: [i16; 6]) -> i16
    ensures { result ≡ FILTEZ b d }
{
    let mut sum = 0;
    for (bi, di) in b.iter().zip(&d) {
        sum += fixed::tap(*bi, *di);
    }
    fixed::saturate(sum)
}

// The band after the difference d, with the scale factor of block 3. Longer than other functions: each of a band's numbers has a line.
pub(crate) fn block4(d: i16, nb: i16, det: i16, band: Band) -> Band
    ensures { result ≡ BLOCK4 band d nb det }
{
    // RECONS
    let r0 = fixed::plus(band.s, d);
    // PARREC
    let p0 = fixed::plus(band.sz, d);
    // UPPOL2
    let a2 = uppol2(band.a1, band.a2, p0, band.p1, band.p2);
    // UPPOL1
    let a1 = uppol1(band.a1, a2, p0, band.p1);
    // UPZERO
    let gain = signed_gain(d);
    let b1 = upzero(gain, band.d1, band.b1);
    let b2 = upzero(gain, band.d2, band.b2);
    let b3 = upzero(gain, band.d3, band.b3);
    let b4 = upzero(gain, band.d4, band.b4);
    let b5 = upzero(gain, band.d5, band.b5);
    let b6 = upzero(gain, band.d6, band.b6);
    // FILTEP
    let sp = filtep(a1, a2, r0, band.r1);
    // FILTEZ
    let sz = filtez(
        [b1, b2, b3, b4, b5, b6],
        [d, band.d1, band.d2, band.d3, band.d4, band.d5],
    );
    // PREDIC
    let s = fixed::plus(sp, sz);
    // DELAYA
    Band {
        s,
        sp,
        sz,
        r1: r0,
        r2: band.r1,
        a1,
        a2,
        p1: p0,
        p2: band.p1,
        d1: d,
        d2: band.d1,
        d3: band.d2,
        d4: band.d3,
        d5: band.d4,
        d6: band.d5,
        b1,
        b2,
        b3,
        b4,
        b5,
        b6,
        nb,
        det,
    }
}
