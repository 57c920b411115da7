// The lines shelf: its slots are the lines of lent bytes, all sealed; a value is read on its line each time that it is told.
#![tactic(auto)]

pub mod calls;
pub mod cutting;
pub mod line;
pub mod lines;
pub mod make;
#[cfg(test)]
mod tests;

pub use lines::Lines;
pub use make::{new_lines, test_lines};
