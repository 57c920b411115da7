// Whole numbers of 64 bits with sign: rhai's integer functions, under its names.
#![tactic(auto)]

pub mod arithmetic;
pub mod operation;
pub mod shifts;
pub mod worked;

pub use arithmetic::{
    add, binary_and, binary_or, binary_xor, divide, modulo, multiply, power, subtract,
};
pub use operation::{Arithmetic, compute};
pub use shifts::{shift_left, shift_right};
pub use worked::worked_pairs;
