// The names of kinds and operators.
ghost use Rattle.std.specs.Prelude.{◌≡◌, ℕ, List};
ghost use Rattle.format.specs.Names.{kind_name, op_name, named, kind_named, op_named, assign_named};

use value::kind::KINDS;
use value::op::OPS;
use value::{Kind, Op};

// What has a name.
pub trait Named: Copy {
    ghost name: { Self → List ℕ };

    fn name(self) -> &'static str
        ensures { result.now ≡ name self };
}

impl Named for Kind {
    ghost name = { kind_name };

    fn name(self) -> &'static str {
        match self {
            Kind::Unit => "unit",
            Kind::Bool => "bool",
            Kind::Int => "int",
            Kind::Float => "float",
            Kind::Char => "char",
            Kind::Str => "str",
            Kind::Blob => "blob",
            Kind::Excl => "excl",
            Kind::Incl => "incl",
        }
    }
}

impl Named for Op {
    ghost name = { op_name };

    fn name(self) -> &'static str {
        match self {
            Op::Plus => "+",
            Op::Minus => "-",
            Op::Multiply => "*",
            Op::Divide => "/",
            Op::Modulo => "%",
            Op::PowerOf => "**",
            Op::LeftShift => "<<",
            Op::RightShift => ">>",
            Op::Ampersand => "&",
            Op::Pipe => "|",
            Op::XOr => "^",
            Op::EqualsTo => "==",
            Op::NotEqualsTo => "!=",
            Op::LessThan => "<",
            Op::LessThanEqualsTo => "<=",
            Op::GreaterThan => ">",
            Op::GreaterThanEqualsTo => ">=",
            Op::ExclusiveRange => "..",
            Op::InclusiveRange => "..=",
        }
    }
}

// The first of these that the bytes name.
fn first_named<T: Named>(bytes: &[u8], all: &[T]) -> Option<T>
    ensures { result ≡ named T.name all.now bytes.now }
{
    all.iter().find(|x| bytes == x.name().as_bytes()).copied()
}

pub fn kind_named(bytes: &[u8]) -> Option<Kind>
    ensures { result ≡ kind_named bytes.now }
{
    first_named(bytes, &KINDS)
}

pub fn op_named(bytes: &[u8]) -> Option<Op>
    ensures { result ≡ op_named bytes.now }
{
    first_named(bytes, &OPS)
}

// An operator that assigns, one of the first eleven, by its name with = behind.
pub fn assign_named(bytes: &[u8]) -> Option<Op>
    ensures { result ≡ assign_named bytes.now }
{
    first_named(bytes.strip_suffix(b"=")?, &OPS[..11])
}
