// Shelves made of other shelves: one with every slot sealed, and two joined end to end.
#![tactic(auto)]

pub mod joined;
pub mod sealed;

pub use joined::Joined;
pub use sealed::Sealed;
