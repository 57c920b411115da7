// The routines that rows name, in the order of rhai's `get_builtin_binary_op_fn`.
ghost use Rattle.std.specs.Prelude.{◌≡◌, ◌≤◌, length, Result};
ghost use Rattle.fault.specs.declared.Fault.{Fault};
ghost use Rattle.value.specs.Values.{Meaning};
ghost use Rattle.rows.specs.declared.routine.FnBuiltin.TheVariants as builtin;
ghost use Rattle.routines.specs.declared.made.Limits.{Limits};
ghost use Rattle.routines.specs.Calls.{Given, called, assigned};
ghost use Rattle.routines.specs.Outcomes.{operand, Ready, Settles, Reads};
ghost use Rattle.routines.specs.Works.{Kept};

use crate::concat::concat;
use crate::made::{Made, Operand, TextKind, TextRule};
use crate::operand::{as_bool, as_float, as_int};
use crate::plain::*;
use crate::texts::*;
use crate::work::Work;
use fault::Fault;
use float::Float;
use order::{Comparison, satisfied};
use rows::{FnAssign, FnBuiltin, Routine};
use value::Value;

// What a routine does.
pub trait Call: Routine {
    // what a routine comes to on two values, under the limits
    ghost does: { Limits → Self → Meaning → Meaning → Result Given Fault };

    // Calls the routine. A new text goes behind the others in the work buffer.
    fn call(self, a: Operand, b: Operand, work: &mut Work) -> Result<Made, Fault>
        requires left { Ready work.old.bytes.now work.old.fill a }
        requires right { Ready work.old.bytes.now work.old.fill b }
        ensures settles { Settles work.old.bytes.now work.old.fill (does work.old.limits self (operand work.old.bytes.now a.entry) (operand work.old.bytes.now b.entry)) result work.new.bytes.now work.new.fill }
        ensures kept { Kept work.old work.new };
}

fn compare_letters(c: Comparison, work: &Work, a: Operand, b: Operand) -> Result<Made, Fault>
    requires left { Ready work.now.bytes.now work.now.fill a }
    requires right { Ready work.now.bytes.now work.now.fill b }
    ensures { Reads work.now.bytes.now (builtin.CompareTexts c) a.entry b.entry result }
{
    Ok(Made::New(Value::Bool(satisfied(c, order_letters(work.bytes, a, b)?))))
}

fn compare_blobs(asked: bool, work: &Work, a: Operand, b: Operand) -> Result<Made, Fault>
    requires left { Ready work.now.bytes.now work.now.fill a }
    requires right { Ready work.now.bytes.now work.now.fill b }
    ensures { Reads work.now.bytes.now (builtin.EqualBlobs asked) a.entry b.entry result }
{
    Ok(Made::New(Value::Bool(equal_blobs(work.bytes, a, b)? == asked)))
}

impl Call for FnBuiltin {
    ghost does = { called };

    #[inline(always)]
    fn call(self, a: Operand, b: Operand, work: &mut Work) -> Result<Made, Fault> {
        match self {
            FnBuiltin::Int(f) => call_ints(f, a, b),
            FnBuiltin::Float(f) => call_floats(f, a, b),
            FnBuiltin::Bool(f) => call_bools(f, a, b),
            FnBuiltin::CompareInts(c) => compare(c, as_int(a), as_int(b)),
            FnBuiltin::CompareFloats(c) => compare(
                c,
                as_float(a).map(Float),
                as_float(b).map(Float),
            ),
            FnBuiltin::CompareBools(c) => compare(c, as_bool(a), as_bool(b)),
            FnBuiltin::CompareTexts(c) => compare_letters(c, work, a, b),
            FnBuiltin::EqualBlobs(asked) => compare_blobs(asked, work, a, b),
            FnBuiltin::EqualRanges(asked) => equal_ranges(asked, a, b),
            FnBuiltin::Constant(t) => Ok(Made::New(Value::Bool(t))),
            FnBuiltin::Range(kind) => make_range(kind, a, b),
            FnBuiltin::Concat => concat(TextRule::Both(TextKind::Str), a, b, work),
            FnBuiltin::ConcatBlobs => concat(TextRule::JoinBlobs, a, b, work),
            FnBuiltin::AppendChar => concat(TextRule::Both(TextKind::Blob), a, b, work),
            FnBuiltin::First => Ok(Made::Left),
            FnBuiltin::Second => Ok(Made::Right),
        }
    }
}

// Gives the left operand afterwards.
impl Call for FnAssign {
    ghost does = { assigned };

    #[inline(always)]
    fn call(self, a: Operand, b: Operand, work: &mut Work) -> Result<Made, Fault> {
        match self {
            FnAssign::Int(f) => call_ints(f, a, b),
            FnAssign::Float(f) => call_floats(f, a, b),
            FnAssign::Bool(f) => call_bools(f, a, b),
            FnAssign::StrByStr => concat(TextRule::ExtendStr, a, b, work),
            FnAssign::StrByChar | FnAssign::CharByChar => concat(
                TextRule::Both(TextKind::Str),
                a,
                b,
                work,
            ),
            FnAssign::CharByStr => concat(TextRule::Append(TextKind::Str), a, b, work),
            FnAssign::BlobByBlob => concat(TextRule::ExtendBlob, a, b, work),
            FnAssign::BlobByOther => concat(TextRule::Append(TextKind::Blob), a, b, work),
        }
    }
}
