// What can be asked of a desk, and what it replies.
use routines::Limits;
use shelf::Mark;
use steps::Step;
use text::Span;
use value::{Kind, KindSet, Value};

#[derive(Clone, Copy)]
pub enum Call<'a> {
    // replaces the value of a slot
    Post { slot: u32, value: Value<&'a [u8]> },
    // copies the text of a slot into the work buffer at the place
    Tell { slot: u32, place: usize },
    // how many slots there are
    Count,
    // of which kind the value of a slot is
    Kind(u32),
    // how many bytes a text in a slot can have
    Capacity(u32),
    // whether a slot is open or sealed
    Mark(u32),
    // makes the rule open and empty
    Clear,
    // adds a step to the rule
    Add(Step),
    // passes the rule
    Check,
    // runs the rule
    Run(Limits),
}

#[derive(Clone, Copy)]
pub enum Reply {
    Done,
    // with its text, if it has one, in the work buffer; that it lies there stays a clause, since a reply does not hold the buffer
    Value(Value<Span>),
    Number(usize),
    Kind(Kind),
    Mark(Mark),
    // the kinds that the answer of a passed rule can have
    Kinds(KindSet),
}
