// Floats: the five operations of IEEE 754, an int beside a float, and comparing with a tolerance.
#![tactic(auto)]

pub mod arithmetic;
pub mod compare;
pub mod laws;
mod remainder;

pub use arithmetic::{FloatArithmetic, compute_float, nearest_float};
pub use compare::{Float, compare_floats};
pub use laws::worked_floats;
