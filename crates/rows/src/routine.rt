// The routines that rows name: enums in the place of rhai's function pointers, which no function may hand out.
ghost use Rattle.std.specs.Prelude.{◌≡◌, Option};
ghost use Rattle.value.specs.declared.kind.Kind.{Kind};
ghost use Rattle.value.specs.declared.op.Op.{Op};
ghost use Rattle.value.specs.declared.set.KindSet.{KindSet};

use float::FloatArithmetic;
use order::Comparison;
use value::{Kind, KindSet, Op};
use whole::Arithmetic;

#[derive(Clone, Copy)]
pub enum Logic {
    And,
    Or,
    Xor,
}

#[derive(Clone, Copy)]
pub enum RangeKind {
    Exclusive,
    Inclusive,
}

// What a binary operator does. A flag says whether == (true) or != (false) was asked.
#[derive(Clone, Copy)]
pub enum FnBuiltin {
    Int(Arithmetic),
    Float(FloatArithmetic),
    Bool(Logic),
    CompareInts(Comparison),
    CompareFloats(Comparison),
    CompareBools(Comparison),
    CompareTexts(Comparison),
    EqualBlobs(bool),
    EqualRanges(bool),
    Constant(bool),
    Range(RangeKind),
    Concat,
    ConcatBlobs,
    AppendChar,
    First,
    Second,
}

// What an assigning operator does to its left operand.
#[derive(Clone, Copy)]
pub enum FnAssign {
    Int(Arithmetic),
    Float(FloatArithmetic),
    Bool(Logic),
    StrByStr,
    StrByChar,
    CharByChar,
    CharByStr,
    BlobByBlob,
    BlobByOther,
}

// The routines of one form, the binary or the assigning one.
pub trait Routine: Copy {
    // the routine that an operator has for two kinds
    ghost finds: { Op → Kind → Kind → Option Self };

    // the kinds that a routine can give: to a binary operator's value, or to the left operand afterwards
    ghost gives: { Self → KindSet };

    fn find(op: Op, x: Kind, y: Kind) -> Option<Self>
        ensures { result ≡ finds op x y };

    fn results(self) -> KindSet
        ensures { result ≡ gives self };
}
