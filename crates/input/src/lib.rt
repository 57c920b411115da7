// Lines of any bytes, each handed on as soon as its end has come, in constant memory.
#![tactic(auto)]

pub mod begun;
pub mod reading;

pub use begun::Line;
pub use reading::{Answerer, serve};
