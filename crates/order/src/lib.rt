// Orders of values: what comparing answers, total orders over it, the six comparisons, and the order of sequences.
#![tactic(auto)]

pub mod basic;
pub mod comparison;
pub mod optional;
pub mod sequence;
pub mod traits;

pub use basic::Ranked;
pub use comparison::{Comparison, holds, satisfied};
pub use sequence::compare_sequences;
pub use traits::{Comparing, Order, TotalOrder};
