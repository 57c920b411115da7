// The routine of an assigning operator for two kinds, as rhai's `get_builtin_op_assignment_fn` has them.
ghost use Rattle.std.specs.Prelude.{◌≡◌};
ghost use Rattle.rows.specs.Rows.{assign_row_of};
ghost use Rattle.rows.specs.Routines.{assign_results};

use crate::choice;
use crate::routine::{FnAssign, Routine};
use value::{Kind, KindSet, Op};

pub fn get_builtin_op_assignment_fn(op: Op, x: Kind, y: Kind) -> Option<FnAssign>
    ensures { result ≡ assign_row_of op x y }
{
    match (x, y, op) {
        (Kind::Int, Kind::Int, _) => choice::arithmetic(op).map(FnAssign::Int),
        (Kind::Bool, Kind::Bool, _) => choice::logic(op).map(FnAssign::Bool),
        (Kind::Float, Kind::Float | Kind::Int, _) => choice::float(op).map(FnAssign::Float),
        (Kind::Char, Kind::Char, Op::Plus) => Some(FnAssign::CharByChar),
        (Kind::Str, Kind::Str, Op::Plus) => Some(FnAssign::StrByStr),
        (Kind::Blob, Kind::Blob, Op::Plus) => Some(FnAssign::BlobByBlob),
        (Kind::Str, Kind::Char, Op::Plus) => Some(FnAssign::StrByChar),
        (Kind::Char, Kind::Str, Op::Plus) => Some(FnAssign::CharByStr),
        (Kind::Blob, Kind::Int | Kind::Char | Kind::Str, Op::Plus) => Some(FnAssign::BlobByOther),
        _ => None,
    }
}

impl Routine for FnAssign {
    ghost finds = { assign_row_of };

    ghost gives = { assign_results };

    fn find(op: Op, x: Kind, y: Kind) -> Option<FnAssign> {
        get_builtin_op_assignment_fn(op, x, y)
    }

    fn results(self) -> KindSet {
        match self {
            FnAssign::Int(_) => KindSet::single(Kind::Int),
            FnAssign::Float(_) => KindSet::single(Kind::Float),
            FnAssign::Bool(_) => KindSet::single(Kind::Bool),
            FnAssign::StrByStr | FnAssign::StrByChar | FnAssign::CharByChar => KindSet::single(
                Kind::Str,
            ),
            FnAssign::CharByStr => KindSet::single(Kind::Char).union(KindSet::single(Kind::Str)),
            FnAssign::BlobByBlob | FnAssign::BlobByOther => KindSet::single(Kind::Blob),
        }
    }
}
