// The routines that rows name: what rhai's operators do, on operands whose texts are lent or in a work buffer.
#![tactic(auto)]

pub mod calls;
pub mod concat;
pub mod made;
pub mod operand;
pub mod plain;
pub mod texts;
pub mod work;

pub use calls::Call;
pub use made::{Limits, Made, Operand};
pub use work::Work;
