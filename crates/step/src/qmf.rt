// The QMF filters.
ghost use Rattle.std.specs.Prelude.{◌≡◌};
ghost use Rattle.step.specs.Qmf.{taking, even_sum, odd_sum, IsSum, transmitted, received};

use band::tables;

#[derive(Clone, Copy)]
pub(crate) struct Sums {
    pub even: i32,
    pub odd: i32,
}

// x moves down two places and takes a and b. Into a copy: `copy_within` goes through memory and is slower.
pub(crate) fn shifted(x: [i16; 24], a: i16, b: i16) -> [i16; 24]
    ensures { result ≡ taking x a b }
{
    let mut y = x;
    y[..22].copy_from_slice(&x[2..]);
    y[22] = a;
    y[23] = b;
    y
}

// By index: the even sum takes the coefficients from their end.
pub(crate) fn sum(x: [i16; 24]) -> Sums
    ensures { (IsSum (even_sum x) result.even) × (IsSum (odd_sum x) result.odd) }
{
    let mut even = 0;
    let mut odd = 0;
    for i in 0..12 {
        odd += fixed::product(x[2 * i], tables::QMF_COEFFS[i]);
        even += fixed::product(x[2 * i + 1], tables::QMF_COEFFS[11 - i]);
    }
    Sums { even, odd }
}

// A band's sample of a sum: the shift rounds down.
pub(crate) fn transmitted(sum: i32) -> i32
    ensures { result ≡ transmitted sum }
{
    sum >> 14
}

// A decoder's sample of a sum.
pub(crate) fn received(sum: i32) -> i16
    ensures { result ≡ received sum }
{
    fixed::saturate(sum >> 11)
}
