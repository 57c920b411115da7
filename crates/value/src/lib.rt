// Kinds, sets of kinds, operators, and values with their texts.
#![tactic(auto)]

pub mod kind;
pub mod op;
pub mod set;
pub mod texts;
pub mod value;

pub use kind::Kind;
pub use op::Op;
pub use set::KindSet;
pub use texts::{MOST_BYTES, is_well_formed, lend, store};
pub use value::{Range, Value};
