// Operators in a run, on values whose texts are in the work buffer. That the buffer is no longer than a text may be is asked here,
// and is no invariant of it, since the routines take one of any length.
ghost use Rattle.std.specs.Prelude.{◌≡◌, ℕ, ◌≤◌, List, length, Ok, OnErr};
ghost use Rattle.fault.specs.Refusals.{bind};
ghost use Rattle.value.specs.Values.{meant};
ghost use Rattle.routines.specs.Outcomes.{operand, Ready};
ghost use Rattle.routines.specs.Works.{Kept};
ghost use Rattle.operators.specs.Applied.{Held, picked};
ghost use Rattle.operators.specs.Rooms.{room, in_room, assigned_in, Gives};

use crate::operate::operate;
use crate::selectable::Selectable;
use fault::Fault;
use routines::{Made, Operand, Work};
use rows::FnAssign;
use text::{Span, Text};
use value::{Op, Value};

// A value of the run as an operand.
fn as_operand<'a>(value: Value<Span>) -> Operand<'a>
    ensures same { (work : List ℕ) → operand work result ≡ meant work value }
    ensures ready { (work : List ℕ) (fill : ℕ) → Held work fill value → Ready work fill result }
{
    // no `map`: a call of it gets no proof where the function that is passed names a lifetime that its arguments do not
    match value {
        Value::Unit => Value::Unit,
        Value::Bool(b) => Value::Bool(b),
        Value::Int(n) => Value::Int(n),
        Value::Float(x) => Value::Float(x),
        Value::Char(c) => Value::Char(c),
        Value::Str(span) => Value::Str(Text::Part(span)),
        Value::Blob(span) => Value::Blob(Text::Part(span)),
        Value::Excl(r) => Value::Excl(r),
        Value::Incl(r) => Value::Incl(r),
    }
}

// Which value an operator gave.
fn pick(made: Made, a: Value<Span>, b: Value<Span>) -> Value<Span>
    ensures { result ≡ picked a b made }
{
    match made {
        Made::Left => a,
        Made::Right => b,
        Made::New(v) => v,
    }
}

// The operator on two values of the run. (Inlined, as `operate` is: a program with two makes of shelf has two walks that call it.)
#[inline(always)]
pub fn apply_held<R: Selectable>(
    op: Op,
    a: Value<Span>,
    b: Value<Span>,
    work: &mut Work,
) -> Result<Value<Span>, Fault>
    requires left { Held work.old.bytes.now work.old.fill a }
    requires right { Held work.old.bytes.now work.old.fill b }
    requires short { length work.old.bytes.now ≤ 65536 }
    ensures gives { Gives work.old.bytes.now work.old.fill (in_room R.finds R.does work.old.limits op (room work.old.fill work.old.bytes.now) (meant work.old.bytes.now a) (meant work.old.bytes.now b)) result work.new.bytes.now work.new.fill }
    ensures kept { Kept work.old work.new }
{
    let made = operate::<R>(op, as_operand(a), as_operand(b), work)?;
    Ok(pick(made, a, b))
}

// The assigning operator on a value of the run, in place; a refusal leaves it.
pub fn assign_held(
    op: Op,
    left: &mut Value<Span>,
    right: Value<Span>,
    work: &mut Work,
) -> Result<(), Fault>
    requires left { Held work.old.bytes.now work.old.fill left.old }
    requires right { Held work.old.bytes.now work.old.fill right }
    requires short { length work.old.bytes.now ≤ 65536 }
    ensures gives { Gives work.old.bytes.now work.old.fill (assigned_in work.old.limits op (room work.old.fill work.old.bytes.now) (meant work.old.bytes.now left.old) (meant work.old.bytes.now right)) (bind result (λ _. Ok left.new)) work.new.bytes.now work.new.fill }
    ensures kept { Kept work.old work.new }
    ensures left { OnErr result (left.new ≡ left.old) }
{
    *left = apply_held::<FnAssign>(op, *left, right, work)?;
    Ok(())
}
