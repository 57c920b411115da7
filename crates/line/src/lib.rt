// The program's lines: one call each, or a refusal.
#![tactic(auto)]

pub mod answers;
pub mod command;
pub mod commands;
pub mod form;
pub mod forms;
pub mod serve;

pub use answers::answer_of;
pub use command::Command;
pub use commands::Scratch;
pub use form::Form;
pub use serve::serve_line;
