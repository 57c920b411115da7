// The routines on numbers, truth values and ranges. They read no text and write none.
ghost use Rattle.std.specs.Prelude.{◌≡◌};
ghost use Rattle.rows.specs.declared.routine.FnBuiltin.TheVariants as builtin;
ghost use Rattle.value.specs.Values.{held_at};
ghost use Rattle.routines.specs.Calls.{logical, ranged};
ghost use Rattle.routines.specs.Outcomes.{Plainly, compared};

use crate::made::{Made, Operand};
use crate::operand::*;
use fault::Fault;
use float::{FloatArithmetic, compute_float};
use order::{Comparing, Comparison, holds};
use rows::{Logic, RangeKind};
use text::Span;
use value::{Range, Value};
use whole::{Arithmetic, compute};

// The calls on ints, floats and truth values stay three: each has its own operation, and one of them can fail; one function over
// these would take both operands and the operation, and be no plainer.
#[inline(always)]
pub(crate) fn call_ints(f: Arithmetic, a: Operand, b: Operand) -> Result<Made, Fault>
    ensures { Plainly (builtin.Int f) a.entry b.entry result }
{
    Ok(Made::New(Value::Int(compute(f, as_int(a)?, as_int(b)?)?)))
}

#[inline(always)]
pub(crate) fn call_floats(f: FloatArithmetic, a: Operand, b: Operand) -> Result<Made, Fault>
    ensures { Plainly (builtin.Float f) a.entry b.entry result }
{
    Ok(Made::New(Value::Float(compute_float(f, as_float(a)?, as_float(b)?))))
}

fn decide(f: Logic, x: bool, y: bool) -> bool
    ensures { result ≡ logical f x y }
{
    match f {
        Logic::And => x && y,
        Logic::Or => x || y,
        Logic::Xor => x != y,
    }
}

pub(crate) fn call_bools(f: Logic, a: Operand, b: Operand) -> Result<Made, Fault>
    ensures { Plainly (builtin.Bool f) a.entry b.entry result }
{
    Ok(Made::New(Value::Bool(decide(f, as_bool(a)?, as_bool(b)?))))
}

// Two readings, compared where both are there.
pub(crate) fn compare<T: Comparing + Drop>(
    c: Comparison,
    x: Result<T, Fault>,
    y: Result<T, Fault>,
) -> Result<Made, Fault>
    ensures { result ≡ compared T.order c x y }
{
    Ok(Made::New(Value::Bool(holds(c, &x?, &y?))))
}

pub(crate) fn equal_ranges(asked: bool, a: Operand, b: Operand) -> Result<Made, Fault>
    ensures { Plainly (builtin.EqualRanges asked) a.entry b.entry result }
{
    Ok(Made::New(Value::Bool((as_range(a)? == as_range(b)?) == asked)))
}

fn range_value(kind: RangeKind, from: i64, to: i64) -> Value<Span>
    ensures { result ≡ held_at 0 (ranged kind from to) }
{
    match kind {
        RangeKind::Exclusive => Value::Excl(Range { from, to }),
        RangeKind::Inclusive => Value::Incl(Range { from, to }),
    }
}

// Unit stands for the end that goes without saying: 0 before, the greatest int behind.
pub(crate) fn make_range(kind: RangeKind, a: Operand, b: Operand) -> Result<Made, Fault>
    ensures { Plainly (builtin.Range kind) a.entry b.entry result }
{
    Ok(Made::New(range_value(kind, as_end(a, 0)?, as_end(b, i64::MAX)?)))
}
