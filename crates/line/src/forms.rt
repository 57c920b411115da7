// Finding the form of a line.
ghost use Rattle.std.specs.Prelude.{◌≡◌};
ghost use Rattle.line.specs.Forms.{spelled_by, alone, add_one, add_two, with_three, line_form};

use crate::form::{Field, Form};
use format::cuts::cut_at;

const MOST: usize = 4096;

const TAB: u8 = b'\t';

fn alone<'a>(verb: &[u8]) -> Option<Form<'a>>
    ensures { spelled_by result ≡ alone verb.now }
{
    match verb {
        b"clear" => Some(Form::Clear),
        b"check" => Some(Form::Check),
        b"run" => Some(Form::Run),
        _ => None,
    }
}

fn add_one<'a>(step: &[u8], field: &'a [u8]) -> Option<Form<'a>>
    ensures { spelled_by result ≡ add_one step.now field.now }
{
    match step {
        b"slot" => Some(Form::Slot(field)),
        b"local" => Some(Form::Local(field)),
        b"keep" => Some(Form::Keep(field)),
        b"op" => Some(Form::Op(field)),
        _ => None,
    }
}

fn add_two<'a>(step: &[u8], first: &'a [u8], second: Field<'a>) -> Option<Form<'a>>
    ensures { spelled_by result ≡ add_two step.now first.now second.entry.bytes.now }
{
    match step {
        b"put" => Some(Form::Put {
            kind: first,
            value: second,
        }),
        b"set" => Some(Form::Set {
            op: first,
            local: second.bytes,
        }),
        _ => None,
    }
}

fn with_three<'a>(
    verb: &[u8],
    first: &'a [u8],
    second: &'a [u8],
    third: Field<'a>,
) -> Option<Form<'a>>
    ensures { spelled_by result ≡ with_three verb.now first.now second.now third.entry.bytes.now }
{
    match verb {
        b"post" => Some(Form::Post {
            slot: first,
            kind: second,
            value: third,
        }),
        b"add" => add_two(first, second, third),
        _ => None,
    }
}

// The form of a line of at most 4,096 bytes, if it has one.
pub fn read_form<'a>(line: &'a [u8]) -> Option<Form<'a>>
    ensures { spelled_by result ≡ line_form line.now }
{
    if line.len() > MOST {
        return None;
    }
    let verb = cut_at(line, TAB);
    let Some(rest) = verb.rest else {
        return alone(verb.first);
    };
    let first = cut_at(rest, TAB);
    let second = cut_at(first.rest?, TAB);
    let Some(rest) = second.rest else {
        return match verb.first {
            b"add" => add_one(first.first, second.first),
            _ => None,
        };
    };
    let third = cut_at(rest, TAB);
    if third.rest.is_some() {
        return None;
    }
    let third = Field { bytes: third.first };
    with_three(verb.first, first.first, second.first, third)
}
