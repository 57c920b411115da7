// The routine of a binary operator for two kinds, in the order of rhai's `get_builtin_binary_op_fn`. What LLVM would leave a call is
// marked to be inlined: the row that a call writes byte by byte is read at once as a whole, which waits for the writes (a tenth of an
// operator's time).
ghost use Rattle.std.specs.Prelude.{◌≡◌};
ghost use Rattle.order.specs.declared.comparison.Comparison.TheVariants.{Equals, Differs};
ghost use Rattle.rows.specs.Rows.{row_of, int_row, float_row, bool_row, text_row, blob_row, unit_row, range_row, unlike_row, differing_row};
ghost use Rattle.rows.specs.Routines.{results};

use crate::choice;
use crate::routine::{FnBuiltin, RangeKind, Routine};
use order::Comparison;
use value::{Kind, KindSet, Op};

#[inline(always)]
fn int_row(op: Op) -> Option<FnBuiltin>
    ensures { result ≡ int_row op }
{
    choice::arithmetic(op)
        .map(FnBuiltin::Int)
        .or_else(|| choice::comparison(op).map(FnBuiltin::CompareInts))
        .or_else(|| choice::range(op).map(FnBuiltin::Range))
}

// The rows of two kinds each name their own routines; one function for two of them would take these as arguments, and be no
// plainer.
fn float_row(op: Op) -> Option<FnBuiltin>
    ensures { result ≡ float_row op }
{
    choice::float(op)
        .map(FnBuiltin::Float)
        .or_else(|| choice::comparison(op).map(FnBuiltin::CompareFloats))
}

fn bool_row(op: Op) -> Option<FnBuiltin>
    ensures { result ≡ bool_row op }
{
    choice::logic(op)
        .map(FnBuiltin::Bool)
        .or_else(|| choice::comparison(op).map(FnBuiltin::CompareBools))
}

fn text_row(op: Op) -> Option<FnBuiltin>
    ensures { result ≡ text_row op }
{
    match op {
        Op::Plus => Some(FnBuiltin::Concat),
        _ => choice::comparison(op).map(FnBuiltin::CompareTexts),
    }
}

#[inline(always)]
fn blob_row(op: Op) -> Option<FnBuiltin>
    ensures { result ≡ blob_row op }
{
    match op {
        Op::Plus => Some(FnBuiltin::ConcatBlobs),
        _ => choice::equality(op).map(FnBuiltin::EqualBlobs),
    }
}

// Values that the kinds alone tell apart: one comparison always holds of them, and no other. Two units are equal, and values of
// unequal kinds differ.
#[inline(always)]
fn constant_row(op: Op, always: Comparison) -> Option<FnBuiltin>
    ensures equal { always ≡ Equals → result ≡ unit_row op }
    ensures differing { always ≡ Differs → result ≡ differing_row op }
{
    choice::comparison(op).map(|c| FnBuiltin::Constant(c == always))
}

fn range_row(op: Op) -> Option<FnBuiltin>
    ensures { result ≡ range_row op }
{
    choice::equality(op).map(FnBuiltin::EqualRanges)
}

// Ranges of unequal kinds are not equal.
fn unlike_row(op: Op) -> Option<FnBuiltin>
    ensures { result ≡ unlike_row op }
{
    choice::equality(op).map(|asked| FnBuiltin::Constant(!asked))
}

fn differing_row(op: Op) -> Option<FnBuiltin>
    ensures { result ≡ differing_row op }
{
    constant_row(op, Comparison::Differs)
}

pub fn get_builtin_binary_op_fn(op: Op, x: Kind, y: Kind) -> Option<FnBuiltin>
    ensures { result ≡ row_of op x y }
{
    match (x, y) {
        (Kind::Int, Kind::Int) => int_row(op),
        (Kind::Bool, Kind::Bool) => bool_row(op),
        (Kind::Str, Kind::Str) | (Kind::Char, Kind::Char) => text_row(op),
        (Kind::Blob, Kind::Blob) => blob_row(op),
        (Kind::Unit, Kind::Unit) => constant_row(op, Comparison::Equals),
        (Kind::Float, Kind::Float) | (Kind::Float, Kind::Int) | (Kind::Int, Kind::Float) =>
            float_row(op),
        (Kind::Int, Kind::Unit) | (Kind::Unit, Kind::Int) => choice::range(op)
            .map(FnBuiltin::Range)
            .or_else(|| differing_row(op)),
        (Kind::Char, Kind::Str) | (Kind::Str, Kind::Char) => text_row(op),
        (Kind::Unit, Kind::Str) => match op {
            Op::Plus => Some(FnBuiltin::Second),
            _ => differing_row(op),
        },
        (Kind::Str, Kind::Unit) => match op {
            Op::Plus => Some(FnBuiltin::First),
            _ => differing_row(op),
        },
        (Kind::Blob, Kind::Char) => match op {
            Op::Plus => Some(FnBuiltin::AppendChar),
            _ => None,
        },
        (Kind::Excl, Kind::Excl) | (Kind::Incl, Kind::Incl) => range_row(op),
        (Kind::Excl, Kind::Incl) | (Kind::Incl, Kind::Excl) => unlike_row(op),
        _ => differing_row(op),
    }
}

impl Routine for FnBuiltin {
    ghost finds = { row_of };

    ghost gives = { results };

    fn find(op: Op, x: Kind, y: Kind) -> Option<FnBuiltin> {
        get_builtin_binary_op_fn(op, x, y)
    }

    fn results(self) -> KindSet {
        KindSet::single(match self {
            FnBuiltin::Int(_) => Kind::Int,
            FnBuiltin::Float(_) => Kind::Float,
            FnBuiltin::Range(RangeKind::Exclusive) => Kind::Excl,
            FnBuiltin::Range(RangeKind::Inclusive) => Kind::Incl,
            FnBuiltin::Concat | FnBuiltin::First | FnBuiltin::Second => Kind::Str,
            FnBuiltin::ConcatBlobs | FnBuiltin::AppendChar => Kind::Blob,
            _ => Kind::Bool,
        })
    }
}
