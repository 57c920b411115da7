// What a routine reads of an operand, each reading under rhai's own name, alike as some are. A kind that it is not for is refused
// as one without a row is.
ghost use Rattle.std.specs.Prelude.{◌≡◌, ℕ, List, pos, Ok};
ghost use Rattle.fault.specs.Refusals.{bind};
ghost use Rattle.text.specs.declared.piece.Text.{Text};
ghost use Rattle.value.specs.Values.{meaning};
ghost use Rattle.routines.specs.Calls.{as_int, as_float, as_bool, as_range, as_end};

use crate::made::Operand;
use fault::Fault;
use float::nearest_float;
use value::{Range, Value};

pub(crate) fn as_int(v: Operand) -> Result<i64, Fault>
    ensures { (bytes : Text → List ℕ) → result ≡ as_int (meaning bytes v.entry) }
{
    match v {
        Value::Int(n) => Ok(n),
        _ => Err(Fault::NoRow),
    }
}

// An int beside a float is the nearest float.
pub(crate) fn as_float(v: Operand) -> Result<f64, Fault>
    ensures { (bytes : Text → List ℕ) → result ≡ as_float (meaning bytes v.entry) }
{
    match v {
        Value::Float(x) => Ok(x),
        Value::Int(n) => Ok(nearest_float(n)),
        _ => Err(Fault::NoRow),
    }
}

pub(crate) fn as_bool(v: Operand) -> Result<bool, Fault>
    ensures { (bytes : Text → List ℕ) → result ≡ as_bool (meaning bytes v.entry) }
{
    match v {
        Value::Bool(b) => Ok(b),
        _ => Err(Fault::NoRow),
    }
}

pub(crate) fn as_range(v: Operand) -> Result<Range, Fault>
    ensures { (bytes : Text → List ℕ) → bind result (λ e. Ok (e.from, e.to)) ≡ as_range (meaning bytes v.entry) }
{
    match v {
        Value::Excl(r) | Value::Incl(r) => Ok(r),
        _ => Err(Fault::NoRow),
    }
}

// An end of a new range, `implied` where the operand is unit.
pub(crate) fn as_end(v: Operand, implied: i64) -> Result<i64, Fault>
    ensures { (bytes : Text → List ℕ) → result ≡ as_end implied (meaning bytes v.entry) }
{
    match v {
        Value::Int(n) => Ok(n),
        Value::Unit => Ok(implied),
        _ => Err(Fault::NoRow),
    }
}
