// Runs each session of data/ from the beginning, twice: whole, and in parts of three bytes, which cut lines at every place. One of
// them has a file of limits behind the table.
#![tactic(auto)]

use clerk::clerk::Clerk;
use input::serve;
use layers::Joined;
use lines::new_lines;
use shelf::Shelf;
use std::io::BufWriter;
use std::{fs, io};
use table::{Record, new_table};
use value::Value;

fn answer<S: Shelf + Drop>(
    rt: &HostRuntime,
    shelf: S,
    session: &[u8],
    chunk: &mut [u8],
) -> io::Result<()> {
    let mut clerk = Clerk::new(shelf);
    let mut out = BufWriter::new(rt.alloc(), rt.stdout())?;
    let mut rest = session;
    serve(&mut rest, chunk, &mut [0u8; 4096], &mut clerk, &mut out)
}

fn run(
    rt: &HostRuntime,
    session: &[u8],
    limits: Option<&[u8]>,
    chunk: &mut [u8],
) -> io::Result<()> {
    let mut records = [Record { value: Value::Unit }; 8];
    let mut texts = [0u8; 512];
    let table = new_table(&mut records, &mut texts, 64);
    match limits {
        Some(lines) => answer(rt, Joined::new(table, new_lines(lines)), session, chunk),
        None => answer(rt, table, session, chunk),
    }
}

fn run_twice(rt: &HostRuntime, name: &str, limits: Option<&[u8]>) -> io::Result<()> {
    let session = fs::read(rt, name)?;
    run(rt, session.as_slice(), limits, &mut [0u8; 65536])?;
    run(rt, session.as_slice(), limits, &mut [0u8; 3])
}

fn main(rt: HostRuntime) -> io::Result<()> {
    for name in [
        "first.txt",
        "labels.txt",
        "locals.txt",
        "floats.txt",
        "refusals.txt",
        "full.txt",
        "lines.txt",
    ] {
        run_twice(&rt, name, None)?;
    }
    let limits = fs::read(&rt, "board.limits")?;
    run_twice(&rt, "board.txt", Some(limits.as_slice()))
}
