// APPLY: one operator on any two values, with a buffer for a new text.
ghost use Rattle.std.specs.Prelude.{◌≡◌, ◌≤◌, ℕ, true, ◌&&◌, List, length};
ghost use Rattle.value.specs.Values.{meaning, well_formed};
ghost use Rattle.routines.specs.Outcomes.{operand, Ready, Settles, filled};
ghost use Rattle.operators.specs.Applied.{applied_by, tried, Alone, NewWithin, NewFormed};
ghost use Rattle.operators.specs.Listed.{ApplyAsSelected, AnswersAsListed};
ghost use Rattle.operators.specs.Numbers.{NumbersAgree};

use crate::operate::operate;
use crate::selectable::Selectable;
use fault::Fault;
use routines::{Call, Limits, Made, Operand, Work};
use text::Text;
use value::{MOST_BYTES, Op, Value, is_well_formed};

// A value as an operand.
fn as_operand<'a>(value: Value<&'a [u8]>) -> Operand<'a>
    ensures same { (work : List ℕ) → operand work result ≡ meaning (λ x. x.now) value.entry }
    ensures ready { well_formed (meaning (λ x. x.now) value.entry) ≡ true → (work : List ℕ) (fill : ℕ) → Ready work fill result }
{
    value.map(Text::Lent)
}

fn are_well_formed(left: Value<&[u8]>, right: Value<&[u8]>) -> bool
    ensures { result ≡ (well_formed (meaning (λ x. x.now) left.entry) && well_formed (meaning (λ x. x.now) right.entry)) }
{
    is_well_formed(left) && is_well_formed(right)
}

// The operator in a work buffer that is empty.
fn operate_in<R: Call>(
    op: Op,
    a: Operand,
    b: Operand,
    limits: Limits,
    bytes: &mut [u8],
) -> Result<Made, Fault>
    requires left { Ready bytes.old 0 a }
    requires right { Ready bytes.old 0 b }
    ensures { Settles bytes.old 0 (applied_by R.finds R.does limits op (operand bytes.old a.entry) (operand bytes.old b.entry)) result bytes.new (filled 0 result) }
{
    let mut work = Work {
        limits,
        bytes,
        fill: 0,
    };
    operate::<R>(op, a, b, &mut work)
}

// APPLY where R is `FnBuiltin`. Where it is `FnAssign`, its assigning form: the left operand after the assignment, which is given
// back where nothing was added to it.
pub fn apply<R: Selectable>(
    op: Op,
    left: Value<&[u8]>,
    right: Value<&[u8]>,
    limits: Limits,
    buffer: &mut [u8],
) -> Result<Made, Fault>
    ensures alone { Alone buffer.old (tried (meaning (λ x. x.now) left.entry) (meaning (λ x. x.now) right.entry) (applied_by R.finds R.does limits op (meaning (λ x. x.now) left.entry) (meaning (λ x. x.now) right.entry))) result buffer.new }
    ensures within { NewWithin result buffer.new }
    ensures formed { NewFormed result buffer.new }
    ensures listed { ApplyAsSelected }
    ensures answers { AnswersAsListed }
    ensures numbers { NumbersAgree }
{
    if !are_well_formed(left, right) {
        return Err(Fault::Malformed);
    }
    // as much of the buffer is used as one text may have
    let room = buffer.len().min(MOST_BYTES);
    operate_in::<R>(
        op,
        as_operand(left),
        as_operand(right),
        limits,
        &mut buffer[..room],
    )
}
