// Signed fixed-point numbers: what the blocks of G.722 do with samples and coefficients of 16 bits, each operation once.
#![tactic(auto)]

ghost use Rattle.std.specs.Prelude.{◌≡◌, cond, pos, neg_ℤ, ◌+ℤ◌, ◌*ℤ◌};
ghost use Rattle.std.specs.Int.Signed.{shr_z};
ghost use Rattle.fixed.specs.Number.{minus, In, In16, Is, sat, same_sign, signed_by, scaled_by, tapped};

pub fn saturate(v: i32) -> i16
    ensures { result ≡ sat v }
{
    v.clamp(-32768, 32767) as i16
}

// In 32 bits: with `saturating_add` the compiler no longer writes a band's update out where it is used, and a step takes half as long again or more.
pub fn plus(a: i16, b: i16) -> i16
    ensures { result ≡ sat (a +ℤ b) }
{
    saturate(a as i32 + b as i32)
}

// -w where x is negative, else w: `signum` has a sign of its own for 0.
pub fn signed_by(x: i16, w: i32) -> i32
    requires { In (minus 32768) (pos 32768) w }
    ensures { Is (minus 32768) (pos 32768) (signed_by x w) result }
{
    if x < 0 { -w } else { w }
}

// w where x and y have the same sign, -w where not: turned twice it is w again.
pub fn by_signs(x: i16, y: i16, w: i32) -> i32
    requires { In (minus 32768) (pos 32768) w }
    ensures { Is (minus 32768) (pos 32768) (cond (same_sign x y) w (neg_ℤ w)) result }
{
    signed_by(x, signed_by(y, w))
}

pub fn product(a: i16, b: i16) -> i32
    ensures { Is (minus 1073741824) (pos 1073741824) (a *ℤ b) result }
{
    a as i32 * b as i32
}

// v / 2^15: the shift rounds down.
fn scaled_down(v: i32) -> i32
    ensures { result ≡ shr_z v 32768 }
{
    v >> 15
}

// q is in 32 bits, as the entries of the tables are: its bound of 16 bits is a clause, here and in band.
pub fn scaled(a: i16, q: i32) -> i32
    requires { In16 q }
    ensures { Is (minus 32768) (pos 32768) (scaled_by a q) result }
{
    scaled_down(a as i32 * q)
}

// One product of a filter.
pub fn tap(c: i16, x: i16) -> i32
    ensures { Is (minus 32768) (pos 32768) (tapped c x) result }
{
    scaled(c, plus(x, x) as i32)
}
