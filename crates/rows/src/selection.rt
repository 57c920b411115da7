// SELECT: which kinds an operator can give for two kinds.
ghost use Rattle.std.specs.Prelude.{◌≡◌};
ghost use Rattle.rows.specs.Rows.{selected_by};
ghost use Rattle.rows.specs.Table.{RowsAsListed};

use crate::routine::Routine;
use fault::Fault;
use value::{Kind, KindSet, Op};

// For the binary form of an operator where R is `FnBuiltin`, and for the assigning form where it is `FnAssign`.
pub fn select<R: Routine>(op: Op, left: Kind, right: Kind) -> Result<KindSet, Fault>
    ensures { result ≡ selected_by R.finds R.gives op left right }
{
    R::find(op, left, right)
        .map(|f| f.results())
        .ok_or(Fault::NoRow)
}

// The rows are those of the printed table, with what they answer where the kinds alone settle that.
pub fn rows_stand() -> u8
    ensures { RowsAsListed }
{
    0
}
