// The format of values: how they are written, and reading them back.
#![tactic(auto)]

pub mod cuts;
pub mod hexadecimal;
pub mod names;
pub mod numbers;
pub mod values;
