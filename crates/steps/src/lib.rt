// The steps of a rule, the frame that a walk over them works in, and the walk.
#![tactic(auto)]

pub mod frame;
pub mod frames;
pub mod machine;
pub mod step;
pub mod taken;
pub mod walking;

pub use frame::Frame;
pub use machine::Machine;
pub use step::Step;
pub use taken::Taken;
pub use walking::walk;
