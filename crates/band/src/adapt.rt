// Blocks 2, 3 and 5: the inverse quantisers and the scale factors.
ghost use Rattle.std.specs.Prelude.{◌≡◌, ◌≤◌, ◌*◌, ◌+◌, pos};
ghost use Rattle.fixed.specs.Number.{minus, In, In16, Is, scaled_by};
ghost use Rattle.band.specs.Adapt.{LOGSC, SCALE};

use crate::tables;

// INVQAL, INVQBL and INVQAH: the difference that a code's entry q stands for. q's bound is a clause and no type: the entries of a table are plain numbers.
pub fn invq(det: i16, q: i32) -> i16
    requires { In (minus 32767) (pos 32767) q }
    ensures { result ≡ scaled_by det q }
{
    fixed::scaled(det, q) as i16
}

// LOGSCL and LOGSCH: w is the code's step, most the greatest nb.
pub(crate) fn logsc(nb: i16, w: i32, most: i32) -> i16
    requires { (In16 w) × (In (pos 0) (pos 32767) most) }
    ensures { Is (pos 0) most (LOGSC most nb w) result }
{
    (((nb as i32 * 127) >> 7) + w).clamp(0, most) as i16
}

// SCALEL with base 8, SCALEH with base 10. Shifting up first keeps both directions in one expression.
pub(crate) fn scale(base: u32, nb: i16) -> i16
    requires { (base ≤ 10) × (In (pos 0) (pos (2048 * (base + 1))) nb) }
    ensures { result ≡ SCALE base nb }
{
    let n = nb as u32;
    let at = ((n >> 6) % 32) as usize;
    (4 * ((tables::ILB[at] << (n >> 11)) >> base)) as i16
}
