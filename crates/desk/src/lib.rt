// A desk: one shelf and one rule behind one call, and the main theorem about every list of such calls.
#![tactic(auto)]

pub mod call;
pub mod desk;
pub mod life;
pub mod serve;

pub use call::{Call, Reply};
pub use desk::Desk;
pub use life::session;
