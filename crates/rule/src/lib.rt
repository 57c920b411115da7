// Rules: steps that are checked once and run often.
#![tactic(auto)]

pub mod calls;
pub mod checking;
pub mod rule;
pub mod running;
pub mod sets;

pub use rule::{Rule, State};
