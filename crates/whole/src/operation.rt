// The eleven operations that take two whole numbers to one, as one choice.
ghost use Rattle.std.specs.Prelude.{◌≡◌};
ghost use Rattle.whole.specs.Whole.{computed};

use crate::arithmetic::*;
use crate::shifts::*;
use fault::Fault;

// An enum in the place of function pointers, which no function may hand out.
#[derive(Clone, Copy, PartialEq, Eq, Debug)]
pub enum Arithmetic {
    Add,
    Subtract,
    Multiply,
    Divide,
    Modulo,
    Power,
    ShiftLeft,
    ShiftRight,
    And,
    Or,
    Xor,
}

#[inline(always)]
pub fn compute(operation: Arithmetic, x: i64, y: i64) -> Result<i64, Fault>
    ensures { result ≡ computed operation x y }
{
    match operation {
        Arithmetic::Add => add(x, y),
        Arithmetic::Subtract => subtract(x, y),
        Arithmetic::Multiply => multiply(x, y),
        Arithmetic::Divide => divide(x, y),
        Arithmetic::Modulo => modulo(x, y),
        Arithmetic::Power => power(x, y),
        Arithmetic::ShiftLeft => Ok(shift_left(x, y)),
        Arithmetic::ShiftRight => Ok(shift_right(x, y)),
        Arithmetic::And => Ok(binary_and(x, y)),
        Arithmetic::Or => Ok(binary_or(x, y)),
        Arithmetic::Xor => Ok(binary_xor(x, y)),
    }
}
