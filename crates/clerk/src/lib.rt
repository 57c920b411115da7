// A desk that answers lines.
#![tactic(auto)]

pub mod clerk;
