// Which operation an operator stands for, of each sort. (Functions and no `TryFrom`, which would be no plainer: that an operator is of
// another sort is no error, and each use would drop one)
ghost use Rattle.std.specs.Prelude.{◌≡◌};
ghost use Rattle.rows.specs.Rows.{arithmetic_of, float_of, logic_of, comparison_of, equality_of, range_of};

use crate::routine::{Logic, RangeKind};
use float::FloatArithmetic;
use order::Comparison;
use value::Op;
use whole::Arithmetic;

#[inline(always)]
pub(crate) fn arithmetic(op: Op) -> Option<Arithmetic>
    ensures { result ≡ arithmetic_of op }
{
    match op {
        Op::Plus => Some(Arithmetic::Add),
        Op::Minus => Some(Arithmetic::Subtract),
        Op::Multiply => Some(Arithmetic::Multiply),
        Op::Divide => Some(Arithmetic::Divide),
        Op::Modulo => Some(Arithmetic::Modulo),
        Op::PowerOf => Some(Arithmetic::Power),
        Op::LeftShift => Some(Arithmetic::ShiftLeft),
        Op::RightShift => Some(Arithmetic::ShiftRight),
        Op::Ampersand => Some(Arithmetic::And),
        Op::Pipe => Some(Arithmetic::Or),
        Op::XOr => Some(Arithmetic::Xor),
        _ => None,
    }
}

pub(crate) fn float(op: Op) -> Option<FloatArithmetic>
    ensures { result ≡ float_of op }
{
    match op {
        Op::Plus => Some(FloatArithmetic::Add),
        Op::Minus => Some(FloatArithmetic::Subtract),
        Op::Multiply => Some(FloatArithmetic::Multiply),
        Op::Divide => Some(FloatArithmetic::Divide),
        Op::Modulo => Some(FloatArithmetic::Modulo),
        _ => None,
    }
}

pub(crate) fn logic(op: Op) -> Option<Logic>
    ensures { result ≡ logic_of op }
{
    match op {
        Op::Ampersand => Some(Logic::And),
        Op::Pipe => Some(Logic::Or),
        Op::XOr => Some(Logic::Xor),
        _ => None,
    }
}

#[inline(always)]
pub(crate) fn comparison(op: Op) -> Option<Comparison>
    ensures { result ≡ comparison_of op }
{
    match op {
        Op::EqualsTo => Some(Comparison::Equals),
        Op::NotEqualsTo => Some(Comparison::Differs),
        Op::LessThan => Some(Comparison::Less),
        Op::LessThanEqualsTo => Some(Comparison::LessOrEqual),
        Op::GreaterThan => Some(Comparison::Greater),
        Op::GreaterThanEqualsTo => Some(Comparison::GreaterOrEqual),
        _ => None,
    }
}

// Whether == (true) or != (false) is asked.
pub(crate) fn equality(op: Op) -> Option<bool>
    ensures { result ≡ equality_of op }
{
    match op {
        Op::EqualsTo => Some(true),
        Op::NotEqualsTo => Some(false),
        _ => None,
    }
}

pub(crate) fn range(op: Op) -> Option<RangeKind>
    ensures { result ≡ range_of op }
{
    match op {
        Op::ExclusiveRange => Some(RangeKind::Exclusive),
        Op::InclusiveRange => Some(RangeKind::Inclusive),
        _ => None,
    }
}
