// A line by its eight fields.
ghost use Rattle.std.specs.Prelude.{◌≡◌, option_map};
ghost use Rattle.format.specs.Fields.{fields};
ghost use Rattle.cases.specs.Cases.{spelled, form_named, case_of};

use format::cuts::cut_at;

// Whether an operator gives a value or assigns to its left operand. (A line says which, so that a type parameter in its place would
// need the same match where the line is read.)
#[derive(Clone, Copy)]
pub enum Form {
    Apply,
    Assign,
}

#[derive(Clone, Copy)]
pub struct Operand<'a> {
    pub kind: &'a [u8],
    pub value: &'a [u8],
}

#[derive(Clone, Copy)]
pub struct Case<'a> {
    pub form: Form,
    pub op: &'a [u8],
    pub left: Operand<'a>,
    pub right: Operand<'a>,
    pub string: &'a [u8],
    pub blob: &'a [u8],
}

const TAB: u8 = b'\t';

fn form_named(name: &[u8]) -> Option<Form>
    ensures { result ≡ form_named name.now }
{
    match name {
        b"apply" => Some(Form::Apply),
        b"assign" => Some(Form::Assign),
        _ => None,
    }
}

pub fn read_case<'a>(line: &'a [u8]) -> Option<Case<'a>>
    ensures { option_map spelled result ≡ case_of (fields 9 line.now) }
{
    let name = cut_at(line, TAB);
    let op = cut_at(name.rest?, TAB);
    let left_kind = cut_at(op.rest?, TAB);
    let left_value = cut_at(left_kind.rest?, TAB);
    let right_kind = cut_at(left_value.rest?, TAB);
    let right_value = cut_at(right_kind.rest?, TAB);
    let string = cut_at(right_value.rest?, TAB);
    let blob = cut_at(string.rest?, TAB);
    if blob.rest.is_some() {
        return None;
    }
    let form = form_named(name.first)?;
    Some(Case {
        form,
        op: op.first,
        left: Operand {
            kind: left_kind.first,
            value: left_value.first,
        },
        right: Operand {
            kind: right_kind.first,
            value: right_value.first,
        },
        string: string.first,
        blob: blob.first,
    })
}
