// Reads lines, each a call on a shelf and a rule, and answers each with a line. The shelf is a table, and behind it, where a file is
// named, that file's lines, sealed.
#![tactic(auto)]

mod help;

use clerk::clerk::Clerk;
use help::HELP;
use input::serve;
use layers::Joined;
use lines::{new_lines, test_lines};
use shelf::Shelf;
use show::Answer;
use std::env::{Args, Env, FillError};
use std::io::BufWriter;
use std::process::ExitCode;
use std::{env, fs, io};
use table::{Record, new_table};
use value::Value;

// A table of 8 slots of 64 bytes.
const SLOTS: usize = 8;

const CAPACITY: usize = 64;

const TEXTS: usize = 512;

// Answers the lines of the standard input over the shelf.
fn answer_lines<S: Shelf + Drop>(rt: &HostRuntime, shelf: S) -> io::Result<ExitCode> {
    let mut clerk = Clerk::new(shelf);
    let mut out = BufWriter::new(rt.alloc(), rt.stdout())?;
    serve(
        &mut rt.stdin(),
        &mut [0u8; 65536],
        &mut [0u8; 4096],
        &mut clerk,
        &mut out,
    )?;
    Ok(ExitCode::SUCCESS)
}

// The same over the shelf with the lines of a file behind it.
fn answer_behind<S: Shelf + Drop>(rt: &HostRuntime, shelf: S, path: &str) -> io::Result<ExitCode> {
    let limits = match fs::read(rt, path) {
        Ok(limits) => limits,
        Err(error) => {
            eprintln!(rt; "margins: {path}: {error}")?;
            return Ok(ExitCode::FAILURE);
        }
    };
    if let Err(refusal) = test_lines(&limits) {
        eprintln!(rt; "{}", Answer(Err(refusal)))?;
        return Ok(ExitCode::FAILURE);
    }
    answer_lines(rt, Joined::new(shelf, new_lines(&limits)))
}

// The program's name and the words behind it. The name, which may be any bytes, is read only where there is a word.
fn read_words(rt: &HostRuntime) -> io::Result<Args> {
    if matches!(rt.arg(1, &mut []), Err(FillError::NotPresent)) {
        return Ok(Vec::new(rt.alloc()).into_iter());
    }
    env::args(rt)
}

fn main(rt: HostRuntime) -> io::Result<ExitCode> {
    let mut records = [Record { value: Value::Unit }; SLOTS];
    let mut texts = [0u8; TEXTS];
    let table = new_table(&mut records, &mut texts, CAPACITY);
    let mut words = read_words(&rt)?;
    let Some(word) = words.nth(1) else {
        return answer_lines(&rt, table);
    };
    if words.next().is_some() {
        eprint!(rt; "{HELP}")?;
        return Ok(ExitCode::from(2));
    }
    match word.as_str() {
        "--help" => {
            print!(rt; "{HELP}")?;
            Ok(ExitCode::SUCCESS)
        }
        path => answer_behind(&rt, table, path),
    }
}
