// The numbers of a session in the order of its mark line, and the filters that such numbers say.
ghost use Rattle.std.specs.Prelude.{◌≡◌, ◌≤◌, ◌∷◌, pos, length};
ghost use Rattle.std.specs.Bool.{then_some};
ghost use Rattle.band.specs.Bounds.{all_words, filters_in_bounds};
ghost use Rattle.mark.specs.Numbers.{band_numbers, band_of, filters_numbers, filters_of};

use band::{Band, Filters};

// How many numbers the filters have, and a line: rate, position and the filters'.
const FILTERS_COUNT: usize = 70;

pub(crate) const NUMBER_COUNT: usize = 72;

// A band's numbers by name, in the order of docs/RULES.md.
fn band_numbers(b: Band) -> [i16; 23]
    ensures { result ≡ band_numbers b }
{
    [
        b.s, b.sp, b.sz, b.r1, b.r2, b.a1, b.a2, b.p1, b.p2, b.d1, b.d2, b.d3, b.d4, b.d5, b.d6,
        b.b1, b.b2, b.b3, b.b4, b.b5, b.b6, b.nb, b.det,
    ]
}

// The band of such numbers.
fn band_of(n: &[i16]) -> Band
    requires { 23 ≤ length n.now }
    ensures { result ≡ band_of n.now }
{
    Band {
        s: n[0],
        sp: n[1],
        sz: n[2],
        r1: n[3],
        r2: n[4],
        a1: n[5],
        a2: n[6],
        p1: n[7],
        p2: n[8],
        d1: n[9],
        d2: n[10],
        d3: n[11],
        d4: n[12],
        d5: n[13],
        d6: n[14],
        b1: n[15],
        b2: n[16],
        b3: n[17],
        b4: n[18],
        b5: n[19],
        b6: n[20],
        nb: n[21],
        det: n[22],
    }
}

// x, the low band, the high band.
fn filters_numbers(f: Filters) -> [i16; FILTERS_COUNT]
    ensures { result ≡ filters_numbers f }
{
    let mut words = [0i16; FILTERS_COUNT];
    words[..24].copy_from_slice(&f.x);
    words[24..47].copy_from_slice(&band_numbers(f.low));
    words[47..].copy_from_slice(&band_numbers(f.high));
    words
}

// Rate, position and the filters' numbers: of a session these three alone, since its kind and its start are letters of the line.
pub(crate) fn numbers_of(rate: u32, position: u32, f: Filters) -> [i64; NUMBER_COUNT]
    ensures { result ≡ pos rate ∷ pos position ∷ filters_numbers f }
{
    let mut numbers = [0i64; NUMBER_COUNT];
    numbers[0] = i64::from(rate);
    numbers[1] = i64::from(position);
    let words = filters_numbers(f);
    // By a loop: an array's `map` keeps an Option for each number on the way, and copies the array four times.
    for (i, word) in words.iter().enumerate() {
        numbers[2 + i] = i64::from(*word);
    }
    numbers
}

// The numbers, if each has at most 16 bits.
fn words_of(numbers: &[i64]) -> Option<[i16; FILTERS_COUNT]>
    requires { length numbers.now ≡ 70 }
    ensures { result ≡ then_some (all_words numbers.now) numbers.now }
{
    let mut words = [0i16; FILTERS_COUNT];
    for (i, number) in numbers.iter().enumerate() {
        words[i] = i16::try_from(*number).ok()?;
    }
    Some(words)
}

// The filters that the numbers say, each of 16 bits.
#[tactic(auto, unfolding(crate::specs::Numbers::filters_of))]
fn filters_from(words: &[i16; FILTERS_COUNT]) -> Filters
    ensures { result ≡ filters_of words.now }
{
    let mut x = [0i16; 24];
    x.copy_from_slice(&words[..24]);
    Filters {
        x,
        low: band_of(&words[24..]),
        high: band_of(&words[47..]),
    }
}

// The filters that the numbers say, if they are within their bounds.
pub(crate) fn filters_of(numbers: &[i64]) -> Option<Filters>
    requires { length numbers.now ≡ 70 }
    ensures { let f = filters_of numbers.now in result ≡ then_some (filters_in_bounds f) f }
{
    let filters = filters_from(&words_of(numbers)?);
    filters.in_bounds().then_some(filters)
}
