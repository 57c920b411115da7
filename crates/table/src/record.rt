// One slot of a table: its value, with the length of its text.
use value::Value;

#[derive(Clone, Copy)]
pub struct Record {
    pub value: Value<usize>,
}
