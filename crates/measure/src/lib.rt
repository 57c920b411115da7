// The functions that a measuring program in C calls: SELECT and COMPARE, on numbers and floats.
#![tactic(auto)]

ghost use Rattle.std.specs.Prelude.{◌≡◌, pos};
ghost use Rattle.order.specs.Orders.{order_number};
ghost use Rattle.float.specs.Tolerance.{by_float};
ghost use Rattle.rows.specs.Rows as rows;
ghost use Rattle.rows.specs.Rows.{selected, assign_selected};
ghost use Rattle.measure.specs.Numbers.{numbered, selected_by};

use fault::Fault;
use float::compare_floats;
use rows::{FnAssign, FnBuiltin, Routine, select};
use value::KindSet;

// The bits of a set of kinds, or the negative number of a refusal. (By hand: an i32 is what C takes.)
fn as_number(answer: Result<KindSet, Fault>) -> i32
    ensures { result ≡ numbered answer }
{
    match answer {
        Ok(kinds) => i32::from(kinds.bits),
        Err(fault) => -i32::from(u8::from(fault)),
    }
}

// SELECT on numbers, of which each is tested.
fn try_select<R: Routine>(op: u8, left: u8, right: u8) -> Result<KindSet, Fault>
    ensures { result ≡ selected_by (rows.selected_by R.finds R.gives) op left right }
{
    select::<R>(op.try_into()?, left.try_into()?, right.try_into()?)
}

// The kinds that an operator can give for two kinds, bit k standing for the kind with number k; or -1 for an unknown number, -5
// where there is no row.
#[unsafe(no_mangle)]
pub extern "C" fn margins_select(op: u8, left: u8, right: u8) -> i32
    ensures { result ≡ numbered (selected_by selected op left right) }
{
    as_number(try_select::<FnBuiltin>(op, left, right))
}

// The same for the assigning form: the kinds that the left operand can have afterwards. (C calls each by its name.)
#[unsafe(no_mangle)]
pub extern "C" fn margins_select_assign(op: u8, left: u8, right: u8) -> i32
    ensures { result ≡ numbered (selected_by assign_selected op left right) }
{
    as_number(try_select::<FnAssign>(op, left, right))
}

// The order of two floats: 0 less, 1 equal, 2 greater, 3 unordered.
#[unsafe(no_mangle)]
pub extern "C" fn margins_compare(x: f64, y: f64) -> i32
    ensures { result ≡ pos (order_number (by_float x y)) }
{
    i32::from(u8::from(compare_floats(x, y)))
}
