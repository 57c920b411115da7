// An operator on two operands: the routine of its row, or a refusal where it has none. It is inlined with what it calls, down to the
// sums of numbers: an answer of several words is copied by each call that hands it on, which took half of an operator's time.
ghost use Rattle.routines.specs.Outcomes.{operand, Ready, Settles};
ghost use Rattle.routines.specs.Works.{Kept};
ghost use Rattle.operators.specs.Applied.{applied_by};

use fault::Fault;
use routines::{Call, Made, Operand, Work};
use value::Op;

#[inline(always)]
pub(crate) fn operate<R: Call>(
    op: Op,
    a: Operand,
    b: Operand,
    work: &mut Work,
) -> Result<Made, Fault>
    requires left { Ready work.old.bytes.now work.old.fill a }
    requires right { Ready work.old.bytes.now work.old.fill b }
    ensures settles { Settles work.old.bytes.now work.old.fill (applied_by R.finds R.does work.old.limits op (operand work.old.bytes.now a.entry) (operand work.old.bytes.now b.entry)) result work.new.bytes.now work.new.fill }
    ensures kept { Kept work.old work.new }
{
    R::find(op, a.kind(), b.kind())
        .ok_or(Fault::NoRow)?
        .call(a, b, work)
}
