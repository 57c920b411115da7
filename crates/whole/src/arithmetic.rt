// Sums, products, quotients, powers and bits: exact, or refused. Each is a function of rhai's and keeps its name, alike as some
// are.
ghost use Rattle.std.specs.Prelude.{◌≡◌, bit_and, bit_or, bit_xor};
ghost use Rattle.whole.specs.Whole.{sum_of, difference_of, product_of, quotient_of, remainder_of, power_of, bits_by};

use fault::Fault;

pub fn add(x: i64, y: i64) -> Result<i64, Fault>
    ensures { result ≡ sum_of x y }
{
    x.checked_add(y).ok_or(Fault::Overflow)
}

pub fn subtract(x: i64, y: i64) -> Result<i64, Fault>
    ensures { result ≡ difference_of x y }
{
    x.checked_sub(y).ok_or(Fault::Overflow)
}

pub fn multiply(x: i64, y: i64) -> Result<i64, Fault>
    ensures { result ≡ product_of x y }
{
    x.checked_mul(y).ok_or(Fault::Overflow)
}

pub fn divide(x: i64, y: i64) -> Result<i64, Fault>
    ensures { result ≡ quotient_of x y }
{
    if y == 0 {
        Err(Fault::ZeroDivisor)
    } else {
        x.checked_div(y).ok_or(Fault::Overflow)
    }
}

pub fn modulo(x: i64, y: i64) -> Result<i64, Fault>
    ensures { result ≡ remainder_of x y }
{
    x.checked_rem(y).ok_or(Fault::Remainder)
}

pub fn power(x: i64, y: i64) -> Result<i64, Fault>
    ensures { result ≡ power_of x y }
{
    if y > u32::MAX as i64 {
        Err(Fault::Overflow)
    } else if y < 0 {
        Err(Fault::NegativeExponent)
    } else {
        x.checked_pow(y as u32).ok_or(Fault::Overflow)
    }
}

pub fn binary_and(x: i64, y: i64) -> i64
    ensures { result ≡ bits_by bit_and x y }
{
    x & y
}

pub fn binary_or(x: i64, y: i64) -> i64
    ensures { result ≡ bits_by bit_or x y }
{
    x | y
}

pub fn binary_xor(x: i64, y: i64) -> i64
    ensures { result ≡ bits_by bit_xor x y }
{
    x ^ y
}
