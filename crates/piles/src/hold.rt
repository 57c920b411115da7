// Serving a list of calls over a pile, with a line of text for each answer.
ghost use Rattle.std.specs.Prelude.{length};
ghost use Rattle.value.specs.Values.{text_in, Inside};
ghost use Rattle.desk.specs.Desks.{WithinWork};

use desk::{Call, Desk, Reply};
use fault::Refusal;
use shelf::Shelf;
use std::io;
use text::Span;
use value::{Value, lend};

// An int as its number, a str as its text, and any other value as its kind. (No `Display`: it would need a type of its own for
// the value with its text, and is printed here only.)
fn show_value(rt: &HostRuntime, value: Value<Span>, work: &[u8]) -> io::Result<()>
    requires { Inside (length work.now) (text_in value) }
{
    match lend(value, work) {
        Value::Int(n) => println!(rt; "int {n}"),
        Value::Str(bytes) => match std::str::from_utf8(bytes) {
            Ok(text) => println!(rt; "str \"{text}\""),
            Err(_) => println!(rt; "no str"),
        },
        _ => println!(rt; "{:?}", value.kind()),
    }
}

fn show(rt: &HostRuntime, answer: Result<Reply, Refusal>, work: &[u8]) -> io::Result<()>
    requires { WithinWork work.now answer }
{
    match answer {
        Ok(Reply::Done) => println!(rt; "done"),
        Ok(Reply::Value(value)) => show_value(rt, value, work),
        Ok(Reply::Number(n)) => println!(rt; "{n}"),
        Ok(Reply::Kind(kind)) => println!(rt; "{kind:?}"),
        Ok(Reply::Mark(mark)) => println!(rt; "{mark:?}"),
        Ok(Reply::Kinds(kinds)) => println!(rt; "kinds {}", kinds.bits),
        Err(refusal) => println!(rt; "refused {} at {}", u8::from(refusal.fault), refusal.place),
    }
}

pub(crate) fn hold<S: Shelf + Drop>(rt: &HostRuntime, pile: S, calls: &[Call]) -> io::Result<()> {
    let mut work = [0u8; 64];
    let mut desk = Desk::new(pile);
    for call in calls {
        let answer = desk.serve(*call, &mut work);
        show(rt, answer, &work)?;
    }
    Ok(())
}
