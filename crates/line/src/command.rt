// What a line asks for.
use steps::Step;
use text::Span;
use value::Value;

#[derive(Clone, Copy)]
pub enum Command {
    // with its text, if it has one, in the buffer that the line was read with; that it lies there stays a clause, since a command
    // does not hold the buffer
    Post { slot: u32, value: Value<Span> },
    Clear,
    Add(Step),
    Check,
    Run,
}
