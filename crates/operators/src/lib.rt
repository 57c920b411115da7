// The operators: APPLY on any values, and operators in a run. Each is of the binary or the assigning form.
#![tactic(auto)]

pub mod alone;
pub mod held;
pub mod operate;
pub mod selectable;

pub use alone::apply;
pub use held::{apply_held, assign_held};
pub use routines::{Call, Work};
pub use rows::{FnAssign, FnBuiltin, Routine};
pub use selectable::Selectable;
