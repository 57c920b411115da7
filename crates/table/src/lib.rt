// The table shelf: its slots are records that the caller lends, all open, with one capacity.
#![tactic(auto)]

pub mod calls;
pub mod make;
pub mod record;
pub mod table;

pub use make::{new_table, test_table};
pub use record::Record;
pub use table::Table;
