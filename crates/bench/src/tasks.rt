// One operator, again and again. (An enum of tasks, and a loop of its own beside that of rules, where a closure for a turn would serve
// both: its call would be measured too. It was tried, and a turn took a third more.)
use operators::{FnBuiltin, apply};
use routines::{Limits, Made};
use value::{Op, Value};

#[derive(Clone, Copy)]
pub enum Task {
    AddInts,
    PowerInts,
    EqualFloats,
    AddStrs,
}

pub const NONE: Limits = Limits { string: 0, blob: 0 };

pub(crate) fn name(task: Task) -> &'static str {
    match task {
        Task::AddInts => "int + int",
        Task::PowerInts => "int ** int",
        Task::EqualFloats => "float == float",
        Task::AddStrs => "str + str",
    }
}

fn operator(task: Task) -> Op {
    match task {
        Task::AddInts | Task::AddStrs => Op::Plus,
        Task::PowerInts => Op::PowerOf,
        Task::EqualFloats => Op::EqualsTo,
    }
}

// The operands of the i-th turn.
fn left<'a>(task: Task, i: u32, text: &'a [u8]) -> Value<&'a [u8]> {
    match task {
        Task::AddInts => Value::Int(i64::from(i)),
        Task::PowerInts => Value::Int(i64::from(i % 7)),
        Task::EqualFloats => Value::Float(f64::from(i)),
        Task::AddStrs => Value::Str(text),
    }
}

fn right<'a>(task: Task, i: u32, text: &'a [u8]) -> Value<&'a [u8]> {
    match task {
        Task::AddInts => Value::Int(7),
        Task::PowerInts => Value::Int(i64::from(i % 23)),
        Task::EqualFloats => Value::Float(25.4),
        Task::AddStrs => Value::Str(text),
    }
}

// Something of the answer, so that it has to be computed.
fn weight(made: Made) -> u64 {
    match made {
        Made::New(Value::Int(n)) => n.unsigned_abs(),
        Made::New(Value::Bool(b)) => u64::from(b),
        Made::New(Value::Str(span)) => span.len as u64,
        _ => 1,
    }
}

fn once(task: Task, i: u32, text: &[u8], buffer: &mut [u8]) -> u64 {
    apply::<FnBuiltin>(
        operator(task),
        left(task, i, text),
        right(task, i, text),
        NONE,
        buffer,
    )
    .map_or(0, weight)
}

pub(crate) fn repeat(task: Task, count: u32, buffer: &mut [u8]) -> u64 {
    let mut sum = 0u64;
    for i in 0..count {
        sum = sum.wrapping_add(once(task, i, b"Fig. 12", buffer));
    }
    sum
}
