// The five operations on floats, as one choice, and the float of an int.
ghost use Rattle.std.specs.Prelude.{◌≡◌};
ghost use Rattle.std.specs.Float.{binary64};
ghost use Rattle.std.specs.Float.Ieee.{of_int};
ghost use Rattle.float.specs.Operations.{computed_float};

use crate::remainder::remainder;
use std::num::nearest_i64_to_f64;

// An enum in the place of function pointers, which no function may hand out.
#[derive(Clone, Copy, PartialEq, Eq, Debug)]
pub enum FloatArithmetic {
    Add,
    Subtract,
    Multiply,
    Divide,
    Modulo,
}

pub fn compute_float(operation: FloatArithmetic, x: f64, y: f64) -> f64
    ensures { result ≡ computed_float operation x y }
{
    match operation {
        FloatArithmetic::Add => x + y,
        FloatArithmetic::Subtract => x - y,
        FloatArithmetic::Multiply => x * y,
        FloatArithmetic::Divide => x / y,
        FloatArithmetic::Modulo => remainder(x, y),
    }
}

// The nearest float, ties to even.
pub fn nearest_float(n: i64) -> f64
    ensures { result ≡ of_int binary64 n }
{
    nearest_i64_to_f64(n)
}
