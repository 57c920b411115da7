// The two forms of operators, the binary and the assigning one.
ghost use Rattle.operators.specs.Listed.{SpeaksFor};
ghost use Rattle.operators.specs.Selecting.{apply_as_selected};

use routines::Call;
use rows::{FnAssign, FnBuiltin};

// A form of operators for which SELECT speaks.
pub trait Selectable: Call {
    ghost speaks: { SpeaksFor Self.finds Self.gives Self.does };
}

impl Selectable for FnBuiltin {
    ghost speaks = { λ l op a b. (apply_as_selected l op a b).0 };
}

impl Selectable for FnAssign {
    ghost speaks = { λ l op a b. (apply_as_selected l op a b).1 };
}
