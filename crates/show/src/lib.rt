// Values and answers, as they are printed.
#![tactic(auto)]

pub mod answer;
pub mod digits;
pub mod values;

pub use answer::Answer;
pub use values::Shown;
