// The rows: which routine an operator has for two kinds, and which kinds it can give. This is rhai's `builtin.rs` without the
// routines themselves, which are in the crate `routines`.
#![tactic(auto)]

pub mod assign;
pub mod binary;
pub mod choice;
pub mod routine;
pub mod selection;

pub use assign::get_builtin_op_assignment_fn;
pub use binary::get_builtin_binary_op_fn;
pub use routine::{FnAssign, FnBuiltin, Logic, RangeKind, Routine};
pub use selection::{rows_stand, select};
