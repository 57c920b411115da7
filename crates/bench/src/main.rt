// Measures the operators and the walk of a rule. Given a count, it does each so often and prints nanoseconds for one; without, it
// does nothing.
#![tactic(auto)]

mod rules;
mod tasks;

use std::time::Instant;
use std::{env, io};
use tasks::Task;

// Times so many turns, which give a sum of what they came to.
fn measure<F: FnOnce(u32) -> u64>(
    rt: &HostRuntime,
    name: &str,
    count: u32,
    turns: F,
) -> io::Result<()>
    requires { F.pre turns count }
{
    let start = Instant::now(rt)?;
    let sum = turns(count);
    let nanos = start.elapsed(rt)?.as_nanos();
    println!(rt; "{name}\t{nanos}\t{count}\t{sum}")
}

fn main(rt: HostRuntime) -> io::Result<()> {
    let Some(word) = env::args(&rt)?.nth(1) else {
        return Ok(());
    };
    let Ok(count) = word.as_str().parse::<u32>() else {
        return Ok(());
    };
    for task in [
        Task::AddInts,
        Task::PowerInts,
        Task::EqualFloats,
        Task::AddStrs,
    ] {
        measure(
            &rt,
            tasks::name(task),
            count,
            |n| tasks::repeat(task, n, &mut [0u8; 64]),
        )?;
    }
    measure(
        &rt,
        "run of 21 steps",
        count,
        |n| rules::repeat(n, &mut [0u8; 64]),
    )
}
