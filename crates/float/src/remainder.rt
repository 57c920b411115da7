// The remainder of two floats, exact, over their bit patterns. (`%` calls C's `fmod`, and a program that does starts only beside a
// C library as new as the toolchain's.)
ghost use Rattle.std.specs.Prelude.{◌≡◌, ◌*◌, ◌%◌, ◌^◌, ◌<◌, ◌≤◌};
ghost use Rattle.std.specs.Float.{binary64};
ghost use Rattle.std.specs.Float.Ieee.{rem};
ghost use Rattle.float.specs.Patterns.{exponent_in, significand_in, count_in};

// The weight of a pattern's sign, and of its exponent's field.
const SIGN: u64 = 0x8000_0000_0000_0000;

const FIELD: u64 = 0x10_0000_0000_0000;

fn exponent(pattern: u64) -> u64
    ensures { result ≡ exponent_in pattern }
{
    (pattern / FIELD).saturating_sub(1)
}

fn significand(pattern: u64) -> u64
    ensures { result ≡ significand_in pattern }
{
    pattern - exponent(pattern) * FIELD
}

// m * 2 ^ shift, modulo n: ten places at a time, and then one.
fn reduce(m: u64, n: u64, shift: u64) -> u64
    requires positive { 0 < n }
    requires short { n < 2 ^ 53 }
    ensures { result ≡ m * 2 ^ shift % n }
{
    let mut rest = m % n;
    for _ in 0..shift / 10 {
        rest = rest * 1024 % n;
    }
    for _ in 0..shift % 10 {
        rest = rest * 2 % n;
    }
    rest
}

// The pattern of m * 2 ^ k.
fn pattern_of(m: u64, k: u64) -> u64
    requires short { m < 2 ^ 53 }
    requires low { k ≤ 2045 }
    ensures count { count_in result ≡ m * 2 ^ k }
    ensures finite { result < 2047 * 2 ^ 52 }
{
    if m == 0 {
        return 0;
    }
    let up = k.min(u64::from(m.leading_zeros() - 11));
    (k - up) * FIELD + (m << up)
}

// The pattern of what is left of one finite magnitude once as many of another as fit are taken away.
fn rest(a: u64, b: u64) -> u64
    requires first { a < 2047 * 2 ^ 52 }
    requires second { b < 2047 * 2 ^ 52 }
    requires positive { 0 < b }
    ensures count { count_in result ≡ count_in a % count_in b }
    ensures finite { result < 2047 * 2 ^ 52 }
{
    let j = exponent(a);
    let k = exponent(b);
    if j < k {
        return a;
    }
    pattern_of(reduce(significand(a), significand(b), j - k), k)
}

pub(crate) fn remainder(x: f64, y: f64) -> f64
    ensures { result ≡ rem binary64 x y }
{
    if x.is_nan() || y.is_nan() || x.is_infinite() || y == 0.0 {
        return f64::NAN;
    }
    if y.is_infinite() {
        return x;
    }
    let bits = x.to_bits();
    let magnitude = bits % SIGN;
    f64::from_bits(bits - magnitude + rest(magnitude, y.to_bits() % SIGN))
}
